// The ticks of a cell of the hall: with the horizon and the margin of its site file, on its board.
#![tactic(auto)]

ghost use Rattle.std.specs.Prelude.{◌≡◌, ◌<◌};
ghost use Rattle.meaning.specs.Board.{closable};
ghost use Rattle.site.specs.Halls.{site_in, free_in};
ghost use Rattle.board_ticks.specs.Ticks.{frees, closes};

use board_ticks::CellTicks;
use site::Hall;

// The ticks of a cell of the hall.
pub fn ticks_of<'a>(hall: &Hall<'a>, cell: usize) -> CellTicks<'a>
    requires { cell < (site_in hall.now).cells }
    ensures horizon { result.horizon ≡ (site_in hall.now).horizon }
    ensures frees { frees result ≡ free_in hall.now cell }
    ensures closes { closes result ≡ closable (site_in hall.now) hall.now.board.now cell }
{
    CellTicks {
        board: hall.board,
        horizon: hall.sizes.horizon,
        margin: hall.sizes.margin,
        cell,
    }
}
