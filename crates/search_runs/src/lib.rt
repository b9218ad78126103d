// The runs of free ticks: which ticks of a block end as many free ticks of a cell as the runs of a table have.
#![tactic(auto)]

ghost use Rattle.std.specs.Prelude.{◌≡◌, Bool, ℕ, ◌+◌, ◌*◌, ◌≤◌, ◌<◌, length};
ghost use Rattle.search_sizes.specs.Sizes.{block_ticks, window_words, window_ticks, table_limit};
ghost use Rattle.search_ticks.specs.Rows.{at, Put};
ghost use Rattle.search_runs.specs.Runs.{run_tables, run_length, table_of, Shifted, longer, Halves, FirstTable, Tables};

use search_sizes::{BLOCK_TICKS, BLOCK_WORDS, WINDOW_WORDS};

// ---- the tables: rows of a block and the one before it, one a cell, table after table

// How many ticks a run of table t has: 1 to 4, and then 8, 16, 32, 64 and 128.
pub fn length_of(t: usize) -> usize
    requires { t < run_tables }
    ensures { (result ≡ run_length t) × ((1 ≤ result) × (result ≤ 128)) }
{
    if t < 4 { t + 1 } else { 1 << (t - 1) }
}

// The table with the longest runs of at most n ticks.
#[tactic(auto, using(std::proofs::lemmas::Bool::Decides::nat_tests), unfolding(crate::specs::Runs::table_of))]
pub fn table_of(n: usize) -> usize
    requires { 1 ≤ n }
    ensures { (result ≡ table_of n) × (result < run_tables) }
{
    match n {
        ..5 => n - 1,
        5..8 => 3,
        8..16 => 4,
        16..32 => 5,
        32..64 => 6,
        64..128 => 7,
        _ => 8,
    }
}

// ---- the next block

// The block of row r becomes the one before. `copy_within` would call memmove, which the archive is to do without.
fn shift_row(tab: &mut [u64], r: usize)
    requires { r * window_words + window_words ≤ length tab.old }
    ensures { Put tab.old tab.new (r * window_ticks) (λ i. at tab.old (r * window_ticks + block_ticks + i)) }
{
    let a = r * WINDOW_WORDS;
    for i in 0..BLOCK_WORDS {
        tab[a + i] = tab[a + BLOCK_WORDS + i];
    }
}

// The block of each row becomes the one before.
pub fn shift_rows(tab: &mut [u64], rows: usize)
    requires { rows * window_words ≤ length tab.old }
    ensures { Shifted tab.old tab.new rows }
{
    for r in 0..rows {
        shift_row(tab, r);
    }
}

// The second half of row q: the ticks of row r at which row r has the tick that is `back` earlier too.
fn longer_row(tab: &mut [u64], r: usize, q: usize, back: usize)
    requires { (r < q) × ((q * window_words + window_words ≤ length tab.old) × ((1 ≤ back) × (back ≤ 64))) }
    ensures { Put tab.old tab.new (q * window_ticks + block_ticks) (longer tab.old r back) }
{
    let a = r * WINDOW_WORDS + BLOCK_WORDS;
    let b = r * WINDOW_WORDS + (BLOCK_TICKS - back) / 64;
    let d = q * WINDOW_WORDS + BLOCK_WORDS;
    let e = ((BLOCK_TICKS - back) % 64) as u64;
    for i in 0..BLOCK_WORDS {
        tab[d + i] = tab[a + i] & search_ticks::window(tab[b + i], tab[b + i + 1], e);
    }
}

// Table t from the one before it, for every cell.
fn longer_runs(tab: &mut [u64], cells: usize, t: usize)
    requires le_t { (1 ≤ t) × ((t < run_tables) × ((t + 1) * cells * window_words ≤ length tab.old)) }
    requires tab_len_bound { length tab.old < table_limit }
    ensures tab_len_unchanged { length tab.new ≡ length tab.old }
    ensures by_index { (g : ℕ → ℕ → Bool) (tables b : ℕ) → t < tables → Halves g cells tables b tab.old → Tables g cells t b tab.old
        → Halves g cells tables b tab.new × Tables g cells (t + 1) b tab.new }
{
    let back = length_of(t) - length_of(t - 1);
    for c in 0..cells {
        longer_row(tab, (t - 1) * cells + c, t * cells + c, back);
    }
}

// The tables of a block, from the first one and what is kept of the block before.
pub fn fill_runs(tab: &mut [u64], cells: usize, tables: usize)
    requires le_tables { (1 ≤ tables) × ((tables ≤ run_tables) × (tables * cells * window_words ≤ length tab.old)) }
    requires tab_len_bound { length tab.old < table_limit }
    ensures tab_len_unchanged { length tab.new ≡ length tab.old }
    ensures by_index { (g : ℕ → ℕ → Bool) (b : ℕ) → Halves g cells tables b tab.old → FirstTable g cells b tab.old
        → Tables g cells tables b tab.new }
{
    for t in 1..tables {
        longer_runs(tab, cells, t);
    }
}
