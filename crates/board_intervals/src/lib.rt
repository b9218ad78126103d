// The safe intervals of a cell: runs of free ticks that can't be lengthened on either side.
#![tactic(auto)]

ghost use Rattle.std.specs.Prelude.{◌≡◌, ◌+◌, ◌*◌, ◌-◌, ◌<◌, ◌≤◌, length, set};
ghost use Rattle.meaning.specs.Limits.{horizon_limit};
ghost use Rattle.meaning.specs.Site.{Site};
ghost use Rattle.meaning.specs.Board.{free};
ghost use Rattle.meaning.specs.Intervals.{run_end, intervals, numbers_of};
ghost use Rattle.meaning.specs.Calls.{over};
ghost use Rattle.board_ticks.specs.Ticks.{frees};

use board_ticks::CellTicks;

// The last tick of the run of free ticks from the tick first on.
fn run_end(ticks: &CellTicks<'_>, first: usize) -> usize
    requires { first ≤ ticks.now.horizon }
    ensures upper_bound { result ≤ ticks.now.horizon }
    ensures value { result ≡ run_end (frees ticks.now) first (ticks.now.horizon - first) }
    ensures every_site { (site : Site) → site.horizon ≡ ticks.now.horizon → site.margin ≡ ticks.now.margin → ticks.now.cell < site.cells → result ≡ run_end (free site ticks.now.board.now ticks.now.cell) first (ticks.now.horizon - first) }
{
    let mut last = first;
    for t in first + 1..ticks.horizon + 1 {
        if !ticks.is_free(t) {
            return last;
        }
        last = t;
    }
    last
}

// Writes the first and last tick of interval k.
fn put_interval(out: &mut [u16], k: usize, first: usize, last: usize)
    requires k_in_bounds { 2 * k + 1 < length out.old }
    requires first_le_horizon_limit { (first ≤ horizon_limit) × (last ≤ horizon_limit) }
    ensures { out.new ≡ set (set out.old (2 * k) first) (2 * k + 1) last }
{
    let at = 2 * k;
    out[at] = first as u16;
    out[at + 1] = last as u16;
}

// Writes the first and last tick of each interval of the cell, in rising order, and returns how many there are.
pub fn write_intervals(ticks: &CellTicks<'_>, out: &mut [u16]) -> usize
    requires { ticks.now.horizon + 2 ≤ length out.old }
    ensures value { result ≡ length (intervals (frees ticks.now) ticks.now.horizon) }
    ensures out_after { out.new ≡ over (numbers_of (intervals (frees ticks.now) ticks.now.horizon)) out.old }
    ensures every_site { (site : Site) → site.horizon ≡ ticks.now.horizon → site.margin ≡ ticks.now.margin → ticks.now.cell < site.cells → result ≡ length (intervals (free site ticks.now.board.now ticks.now.cell) ticks.now.horizon) }
    ensures out_every_site { (site : Site) → site.horizon ≡ ticks.now.horizon → site.margin ≡ ticks.now.margin → ticks.now.cell < site.cells → out.new ≡ over (numbers_of (intervals (free site ticks.now.board.now ticks.now.cell) ticks.now.horizon)) out.old }
{
    let mut k = 0;
    // The first tick that no run has told of: a run tells of its own ticks and of the one that ends it. So each tick is looked at once.
    let mut next = 0;
    for t in 0..ticks.horizon + 1 {
        if next <= t && ticks.is_free(t) {
            let last = run_end(ticks, t);
            put_interval(out, k, t, last);
            k += 1;
            next = last + 2;
        }
    }
    k
}
