// The ticks of a block at which a motion may end: each of its sweeps narrows them down.
#![tactic(auto)]

ghost use Rattle.std.specs.Prelude.{◌≡◌, Bool, ℕ, suc, ◌+◌, ◌-◌, ◌*◌, ◌≤◌, ◌<◌, length};
ghost use Rattle.meaning.specs.Limits.{cell_limit};
ghost use Rattle.search_sizes.specs.Sizes.{block_words, block_ticks, window_words, window_ticks, block_start, span_limit};
ghost use Rattle.search_ticks.specs.Rows.{at, Put};
ghost use Rattle.search_runs.specs.Runs.{ended, table_of, Tables};
ghost use Rattle.site_sweeps.specs.Places.{sweeps_at};
ghost use Rattle.search_site.specs.Decoded.{SweepsIn};
ghost use Rattle.search_arrivals.specs.Arrivals.{Narrowed, arrives};

use search_sizes::{BLOCK_TICKS, BLOCK_WORDS, WINDOW_WORDS};
use site_sweeps::Sweep;

// Keeps of x the ticks at which row r of the tables has the tick that is `back` earlier.
fn narrow(x: &mut [u64; BLOCK_WORDS], tab: &[u64], r: usize, back: usize)
    requires { (r * window_words + window_words < length tab.now) × (back ≤ span_limit) }
    ensures { Narrowed x.old x.new (λ i. at tab.now (r * window_ticks + (block_ticks - back) + i)) }
{
    let b = r * WINDOW_WORDS + (BLOCK_TICKS - back) / 64;
    let e = ((BLOCK_TICKS - back) % 64) as u64;
    for i in 0..BLOCK_WORDS {
        x[i] &= search_ticks::window(tab[b + i], tab[b + i + 1], e);
    }
}

// A sweep of more than four ticks: two runs, one up to its end and one from its beginning on.
fn narrow_long(x: &mut [u64; BLOCK_WORDS], tab: &[u64], cells: usize, w: Sweep, span: usize)
    requires first_le_last { (w.first ≤ w.last) × ((w.last ≤ span) × (span ≤ span_limit)) }
    requires cell_lt_cells { (w.cell < cells) × ((cells ≤ cell_limit) × ((table_of (suc w.last - w.first) * cells + cells) * window_words < length tab.now)) }
    requires long { 4 ≤ w.last - w.first }
    ensures { (g : ℕ → ℕ → Bool) (tables b : ℕ) → table_of (suc w.last - w.first) < tables → Tables g cells tables b tab.now
        → Narrowed x.old x.new (λ i. ended (g w.cell) (suc w.last - w.first) (block_start b + i - (span - w.last))) }
{
    let first = usize::from(w.first);
    let last = usize::from(w.last);
    let t = search_runs::table_of(last + 1 - first);
    let row = t * cells + w.cell;
    narrow(x, tab, row, span - last);
    narrow(x, tab, row, span + 1 - first - search_runs::length_of(t));
}

// Keeps of x the ticks at which a motion may end whose sweep is w.
fn narrow_sweep(x: &mut [u64; BLOCK_WORDS], tab: &[u64], cells: usize, w: Sweep, span: usize)
    requires first_le_last { (w.first ≤ w.last) × ((w.last ≤ span) × (span ≤ span_limit)) }
    requires cell_lt_cells { (w.cell < cells) × ((cells ≤ cell_limit) × ((table_of (suc w.last - w.first) * cells + cells) * window_words < length tab.now)) }
    ensures { (g : ℕ → ℕ → Bool) (tables b : ℕ) → table_of (suc w.last - w.first) < tables → Tables g cells tables b tab.now
        → Narrowed x.old x.new (λ i. ended (g w.cell) (suc w.last - w.first) (block_start b + i - (span - w.last))) }
{
    let size = usize::from(w.last - w.first);
    if size < 4 {
        narrow(x, tab, size * cells + w.cell, span - usize::from(w.last));
    } else {
        narrow_long(x, tab, cells, w, span);
    }
}

// Row m becomes x.
fn store(al: &mut [u64], m: usize, x: &[u64; BLOCK_WORDS])
    requires { m * block_words + block_words ≤ length al.old }
    ensures { Put al.old al.new (m * block_ticks) (at x.now) }
{
    let start = m * BLOCK_WORDS;
    al[start..start + BLOCK_WORDS].copy_from_slice(x);
}

// Row m: the ticks of the block at which a motion of that span may end whose `count` sweeps stand from `place` on.
pub fn arrivals_of(
    al: &mut [u64],
    tab: &[u64],
    sweeps: &[u8],
    cells: usize,
    m: usize,
    place: usize,
    count: usize,
    span: usize,
)
    requires block_words_in_bounds { (m * block_words + block_words ≤ length al.old) × (SweepsIn cells span sweeps.now place count × (span ≤ span_limit)) }
    requires cells_le_cell_limit { (cells ≤ cell_limit) × ((table_of (suc span) * cells + cells) * window_words < length tab.now) }
    ensures al_len_unchanged { length al.new ≡ length al.old }
    ensures by_index { (x i : ℕ) → (x ≡ m → ⊥) → i < block_ticks → at al.new (x * block_ticks + i) ≡ at al.old (x * block_ticks + i) }
    ensures by_index_2 { (g : ℕ → ℕ → Bool) (tables b : ℕ) → table_of (suc span) < tables → Tables g cells tables b tab.now
        → (i : ℕ) → i < block_ticks → at al.new (m * block_ticks + i) ≡ arrives g (sweeps_at sweeps.now place count) span (block_start b + i) }
{
    let mut x = [u64::MAX; BLOCK_WORDS];
    for i in 0..count {
        let sweep = site_sweeps::read_sweep(sweeps, place, i);
        narrow_sweep(&mut x, tab, cells, sweep, span);
    }
    store(al, m, &x);
}
