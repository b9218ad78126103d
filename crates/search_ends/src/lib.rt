// The ticks at which a tug can unload at its goal, and the first of them at which the goal is reached.
#![tactic(auto)]

ghost use Rattle.std.specs.Prelude.{◌≡◌, cond, false, ℕ, ◌+◌, ◌*◌, ◌≤◌, ◌<◌, length, get_or};
ghost use Rattle.meaning.specs.Site.{Site, cell_of};
ghost use Rattle.meaning.specs.Board.{Free};
ghost use Rattle.search_sizes.specs.Sizes.{row_words, ticks};
ghost use Rattle.board_ticks.specs.Ticks.{frees};
ghost use Rattle.search_ends.specs.Ends.{ends_in, First, EndsRight};

use board_ticks::CellTicks;
use search_sizes::TICKS;

// How many ticks from t on the cell is free without a gap, where `later` is that number from the next tick on.
fn free_run(cell: &CellTicks<'_>, t: usize, later: usize) -> usize
    requires { (t ≤ cell.now.horizon) × (later ≤ ticks) }
    ensures counted { result ≡ cond (frees cell.now t) (later + 1) 0 }
    ensures upper_bound { result ≤ later + 1 }
{
    if cell.is_free(t) { later + 1 } else { 0 }
}

// At each tick from `tick` on whether the cell is free for the dwell, which ends by the horizon, as at any goal with these free ticks. They
// are looked at from the last to the first, so that one look at each tells how long the cell stays free.
pub fn fill_ends(cell: &CellTicks<'_>, tick: usize, dwell: usize, ends: &mut [bool; TICKS])
    requires { tick ≤ cell.now.horizon }
    ensures { (site : Site) (f : Free) (goal : ℕ) → cell.now.horizon ≡ site.horizon → frees cell.now ≡ f (cell_of site goal) → EndsRight site f goal dwell tick ends.new }
{
    let mut run = 0;
    for t in (tick..cell.horizon + 1).rev() {
        run = free_run(cell, t, run);
        ends[t] = dwell < run;
    }
}

// The same, handed back. A returned array is copied, so the search fills its own.
pub fn ends_of(cell: &CellTicks<'_>, tick: usize, dwell: usize) -> [bool; TICKS]
    requires { tick ≤ cell.now.horizon }
    ensures { (site : Site) (f : Free) (goal : ℕ) → cell.now.horizon ≡ site.horizon → frees cell.now ≡ f (cell_of site goal) → EndsRight site f goal dwell tick result }
{
    let mut ends = [false; TICKS];
    fill_ends(cell, tick, dwell, &mut ends);
    ends
}

// Whether the tug can unload at some tick from `tick` to the horizon.
pub fn some_end(ends: &[bool; TICKS], tick: usize, horizon: usize) -> bool
    requires { horizon < ticks }
    ensures { result ≡ false → ((t : ℕ) → tick ≤ t → t ≤ horizon → get_or ends.now t false ≡ false) }
{
    (tick..horizon + 1).any(|t| ends[t])
}

// Whether the goal is reached at t and the tug can unload then.
fn ends_at(reached: &[u64], ends: &[bool; TICKS], goal: usize, t: usize) -> bool
    requires { (goal * row_words + row_words ≤ length reached.now) × (t < ticks) }
    ensures { result ≡ ends_in reached.now ends.now goal t }
{
    ends[t] && search_ticks::is_set(reached, goal, t)
}

// The first tick from `low` on and below `high` at which the goal is reached and the tug can unload, or `high`.
pub fn first_end(
    reached: &[u64],
    ends: &[bool; TICKS],
    goal: usize,
    low: usize,
    high: usize,
) -> usize
    requires { (goal * row_words + row_words ≤ length reached.now) × ((low ≤ high) × (high ≤ ticks)) }
    ensures { First (ends_in reached.now ends.now goal) low high result }
{
    (low..high)
        .find(|t| ends_at(reached, ends, goal, *t))
        .unwrap_or(high)
}
