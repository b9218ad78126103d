// The public calls that change a holder's bytes. Each makes the checks 1 to 7, then its own, which only look, and then its work.
#![tactic(auto)]

ghost use Rattle.std.specs.Prelude.{◌≡◌};
ghost use Rattle.meaning.specs.Calls.{listed, close, withdraw, meant, on_board};
ghost use Rattle.answers.specs.Answers.{number_of};

use answers::Refusal;

// Closes the cell from the tick first to the tick last, both included.
pub fn close(
    file: &[u8],
    board: &mut [u8],
    holder: u8,
    cell: u16,
    first: u16,
    last: u16,
) -> Result<(), Refusal>
    ensures number { number_of result ≡ (meant file.now (on_board board.old) (listed (close holder cell first last))).number }
    ensures board_after { board.new ≡ (meant file.now (on_board board.old) (listed (close holder cell first last))).lent.board }
    ensures file_unchanged { file.exit.now ≡ file.entry.now }
{
    let hall = checks::check_board(file, board)?;
    checks_board::check_close(&hall, holder, cell, first, last)?;
    let horizon = hall.sizes.horizon;
    checks_board::close_work(board, horizon, holder, cell, first, last);
    Ok(())
}

// Clears every byte of one holder.
pub fn withdraw(file: &[u8], board: &mut [u8], holder: u8) -> Result<(), Refusal>
    ensures number { number_of result ≡ (meant file.now (on_board board.old) (listed (withdraw holder))).number }
    ensures board_after { board.new ≡ (meant file.now (on_board board.old) (listed (withdraw holder))).lent.board }
    ensures file_unchanged { file.exit.now ≡ file.entry.now }
{
    checks::check_board(file, board)?;
    checks_board::check_withdraw(board, holder)?;
    checks_board::withdraw_work(board, holder);
    Ok(())
}
