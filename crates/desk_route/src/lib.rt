// The public call that grants a light. It makes the checks 1 to 7, then its own up to 14, which only look, and then searches.
#![tactic(auto)]

ghost use Rattle.std.specs.Prelude.{◌≡◌, ◌≤◌, length, replicate};
ghost use Rattle.meaning.specs.Calls.{listed, route, meant, lends, over};
ghost use Rattle.meaning.specs.Plan.{node};
ghost use Rattle.answers.specs.Answers.{number_of, granted_values};

use answers::{Granted, Refusal};
use site::Trip;

// Sets the first `needed` words to 0.
fn zero_words(work: &mut [u32], needed: usize)
    requires { needed ≤ length work.old }
    ensures { work.new ≡ over (replicate needed 0) work.old }
{
    work[..needed].fill(0);
}

// Writes the light of the traced plan with the least arrival from which the tug can unload, and leaves the working words that a
// search needs zero.
#[tactic(auto, using(checks_route::proofs::Laws::ready_small))]
pub fn route(
    file: &[u8],
    board: &[u8],
    tug: u8,
    start: u16,
    tick: u16,
    goal: u16,
    dwell: u16,
    out: &mut [u8],
    work: &mut [u32],
) -> Result<Granted, Refusal>
    ensures number { number_of result ≡ (meant file.now (lends board.now out.old work.old) (listed (route tug (node start tick) goal dwell))).number }
    ensures values { granted_values result ≡ (meant file.now (lends board.now out.old work.old) (listed (route tug (node start tick) goal dwell))).values }
    ensures out_after { out.new ≡ (meant file.now (lends board.now out.old work.old) (listed (route tug (node start tick) goal dwell))).lent.out }
    ensures work_after { work.new ≡ (meant file.now (lends board.now out.old work.old) (listed (route tug (node start tick) goal dwell))).lent.words }
    ensures file_unchanged { file.exit.now ≡ file.entry.now }
    ensures board_unchanged { board.exit.now ≡ board.entry.now }
{
    let hall = checks::check_board(file, board)?;
    let trip = Trip {
        start,
        tick,
        goal,
        dwell,
    };
    checks_route::check_route(&hall, tug, trip, out.len(), work.len())?;
    let words = checks_route::words_needed(hall.sizes);
    zero_words(work, words);
    search::find(&hall, tug, trip, out).ok_or(Refusal::NoPlan)
}
