// The ticks of a cell on a board.
#![tactic(auto)]

ghost use Rattle.std.specs.Prelude.{length};
ghost use Rattle.board_ticks.specs.Runs.{OnBoard};

// One cell's ticks, read with a margin: all of them up to the horizon are on the board.
#[derive(Clone, Copy)]
pub struct CellTicks<'a> {
    pub board: &'a [u8],
    pub horizon: usize,
    pub margin: usize,
    pub cell: usize,
    pub ghost on_board: { OnBoard (length board.now) horizon cell },
}
