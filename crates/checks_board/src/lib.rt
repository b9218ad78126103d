// The later checks and the work of the calls of the board alone: interval, close and withdraw.
#![tactic(auto)]

ghost use Rattle.std.specs.Prelude.{◌≡◌, ◌≤◌, ◌<◌, length};
ghost use Rattle.meaning.specs.Limits.{horizon_limit, last_edition, header};
ghost use Rattle.meaning.specs.Answers.{lowest};
ghost use Rattle.meaning.specs.Site.{Site};
ghost use Rattle.meaning.specs.Board.{edition};
ghost use Rattle.meaning.specs.Calls.{close, withdraw, changed, run_named, bytes_view, close_refusals, withdraw_refusals, interval_refusals, Room};
ghost use Rattle.answers.specs.Answers.{number_of};
ghost use Rattle.site.specs.Check.{sizes_of};
ghost use Rattle.site.specs.Halls.{site_in};
ghost use Rattle.board_ticks.specs.Runs.{OnBoard};

use answers::Refusal;
use site::{Hall, Sizes};

// ---- interval

// The checks of interval from 10 on; the output area has room for so many numbers.
#[tactic(auto, unfolding(meaning::specs::Calls::interval_refusals, meaning::specs::Answers::lowest))]
pub fn check_interval(sizes: Sizes, cell: u16, room: usize) -> Result<(), Refusal>
    requires { sizes.horizon ≤ horizon_limit }
    ensures { (site : Site) (areas : Room) → sizes ≡ sizes_of site → areas.out ≡ room → number_of result ≡ lowest (interval_refusals site areas cell) }
{
    if sizes.cells <= cell as usize {
        return Err(Refusal::OutOfRange);
    }
    if room < sizes.horizon + 2 {
        return Err(Refusal::AreaShort);
    }
    Ok(())
}

// ---- close

// Are the cell and the ticks first to last of the site?
#[tactic(auto, unfolding(meaning::specs::Calls::run_named, meaning::specs::Basics::every))]
fn run_named(hall: &Hall<'_>, cell: u16, first: u16, last: u16) -> bool
    ensures { result ≡ run_named (site_in hall.now) cell first last }
{
    (cell as usize) < hall.sizes.cells
        && first as usize <= hall.sizes.horizon
        && last as usize <= hall.sizes.horizon
        && first <= last
}

// The checks of close from 9 on.
#[tactic(auto, using(crate::proofs::Laws::named_cell, crate::proofs::Laws::named_last, crate::proofs::Laws::run_closes), unfolding(meaning::specs::Calls::close_refusals, meaning::specs::Calls::bytes_view, meaning::specs::Answers::lowest))]
pub fn check_close(
    hall: &Hall<'_>,
    holder: u8,
    cell: u16,
    first: u16,
    last: u16,
) -> Result<(), Refusal>
    ensures { number_of result ≡ lowest (close_refusals (site_in hall.now) (bytes_view (site_in hall.now) hall.now.board.now) holder cell first last) }
{
    if !board_sorts::is_closure(holder) {
        return Err(Refusal::HolderRange);
    }
    if !run_named(hall, cell, first, last) {
        return Err(Refusal::OutOfRange);
    }
    if board::holder_stands(hall.board, holder) {
        return Err(Refusal::HolderStands);
    }
    if checks::at_last_edition(hall.board) {
        return Err(Refusal::LastEdition);
    }
    let ticks = plan_ticks::ticks_of(hall, cell as usize);
    if !ticks.run_closable(first as usize, last as usize) {
        return Err(Refusal::Conflict);
    }
    Ok(())
}

// Writes the closure over the cell's ticks first to last, and adds 1 to the edition.
#[tactic(auto, using(crate::proofs::Laws::close_changes))]
pub fn close_work(board: &mut [u8], horizon: usize, holder: u8, cell: u16, first: u16, last: u16)
    requires { OnBoard (length board.old) horizon cell × (last ≤ horizon) × (edition board.old < last_edition) }
    ensures { (site : Site) → site.horizon ≡ horizon → board.new ≡ changed site board.old (close holder cell first last) }
{
    board_ticks::mark_run(
        board,
        horizon,
        cell as usize,
        first as usize,
        last as usize,
        holder,
    );
    board::next_edition(board);
}

// ---- withdraw

// The checks of withdraw from 9 on.
#[tactic(auto, unfolding(meaning::specs::Calls::withdraw_refusals, meaning::specs::Calls::bytes_view, meaning::specs::Answers::lowest))]
pub fn check_withdraw(board: &[u8], holder: u8) -> Result<(), Refusal>
    requires { header ≤ length board.now }
    ensures { (site : Site) → number_of result ≡ lowest (withdraw_refusals (bytes_view site board.now) holder) }
{
    if !board_sorts::is_holder(holder) {
        return Err(Refusal::HolderRange);
    }
    if !board::holder_stands(board, holder) {
        return Err(Refusal::HolderAbsent);
    }
    if checks::at_last_edition(board) {
        return Err(Refusal::LastEdition);
    }
    Ok(())
}

// Clears the holder's bytes, and adds 1 to the edition.
#[tactic(auto, using(crate::proofs::Laws::clear_editable, crate::proofs::Laws::withdraw_changes))]
pub fn withdraw_work(board: &mut [u8], holder: u8)
    requires { (header ≤ length board.old) × (edition board.old < last_edition) }
    ensures { (site : Site) → board.new ≡ changed site board.old (withdraw holder) }
{
    board::clear_holder(board, holder);
    board::next_edition(board);
}
