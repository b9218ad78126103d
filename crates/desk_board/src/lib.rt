// The public calls of the board as a whole and of a cell. Each makes the checks 1 to 7, then its own, which only look, and then its work.
#![tactic(auto)]

ghost use Rattle.std.specs.Prelude.{◌≡◌, []};
ghost use Rattle.meaning.specs.Calls.{opening, interval, meant, lends, on_board};
ghost use Rattle.answers.specs.Answers.{number_of, counted_values};

use answers::Refusal;

// Sets every byte of the board to 0.
pub fn open(file: &[u8], board: &mut [u8]) -> Result<(), Refusal>
    ensures number { number_of result ≡ (meant file.now (on_board board.old) opening).number }
    ensures board_after { board.new ≡ (meant file.now (on_board board.old) opening).lent.board }
    ensures file_unchanged { file.exit.now ≡ file.entry.now }
{
    checks::check_board(file, board)?;
    board::set_free(board);
    Ok(())
}

// Writes the first and last tick of each safe interval of the cell, in rising order.
pub fn interval(file: &[u8], board: &[u8], cell: u16, out: &mut [u16]) -> Result<u16, Refusal>
    ensures number { number_of result ≡ (meant file.now (lends board.now out.old []) (interval cell)).number }
    ensures values { counted_values result ≡ (meant file.now (lends board.now out.old []) (interval cell)).values }
    ensures out_after { out.new ≡ (meant file.now (lends board.now out.old []) (interval cell)).lent.out }
    ensures file_unchanged { file.exit.now ≡ file.entry.now }
    ensures board_unchanged { board.exit.now ≡ board.entry.now }
{
    let hall = checks::check_board(file, board)?;
    checks_board::check_interval(hall.sizes, cell, out.len())?;
    let ticks = plan_ticks::ticks_of(&hall, cell as usize);
    let count = board_intervals::write_intervals(&ticks, out);
    Ok(count as u16)
}
