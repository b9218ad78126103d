// The free ticks of each cell in a block as rows of bits, from the board's bytes.
#![tactic(auto)]

ghost use Rattle.std.specs.Prelude.{◌≡◌, ℕ, ◌+◌, ◌*◌, ◌≤◌, ◌<◌, ltb, length};
ghost use Rattle.meaning.specs.Limits.{horizon_limit, cell_limit, margin_limit, header};
ghost use Rattle.search_sizes.specs.Sizes.{block_ticks, blocks, window_words, window_ticks, ticks};
ghost use Rattle.search_ticks.specs.Bits.{bit};
ghost use Rattle.search_ticks.specs.Rows.{Put};
ghost use Rattle.search_free.specs.Frees.{free_to, held_to, held_before, spaced_to, FreeBlock};

use search_sizes::{BLOCK_TICKS, BLOCK_WORDS, WINDOW_WORDS};

// ---- the ticks of a cell, whose bytes are `row`

// The bits of the 64 ticks from `tick` on that are among the first `width`.
fn present(width: usize, tick: usize) -> u64
    ensures { (i : ℕ) → i < 64 → bit result i ≡ ltb (tick + i) width }
{
    let left = width.saturating_sub(tick);
    if left < 64 { (1 << left) - 1 } else { u64::MAX }
}

// Those of the row whose byte is 0. Inlined, so that a loop over cells computes the ends of its words once.
#[inline(always)]
fn free_word(row: &[u8], tick: usize) -> u64
    requires { tick ≤ ticks }
    ensures { (i : ℕ) → i < 64 → bit result i ≡ free_to row.now (tick + i) }
{
    let low = row.len().min(tick);
    let high = row.len().min(tick + 64);
    search_bytes::free_word(&row[low..high])
}

// Those of the row whose byte is not 0.
fn held_word(row: &[u8], tick: usize) -> u64
    requires { tick ≤ ticks }
    ensures { (i : ℕ) → i < 64 → bit result i ≡ held_to row.now (tick + i) }
{
    free_word(row, tick) ^ present(row.len(), tick)
}

// The same of the 64 ticks before the block: nothing is held before tick 0.
fn held_before(row: &[u8], block: usize) -> u64
    requires { block < blocks }
    ensures { (i : ℕ) → i < 64 → bit result i ≡ held_before row.now (block_ticks * block + i) }
{
    if block == 0 {
        return 0;
    }
    held_word(row, block * BLOCK_TICKS - 64)
}

// ---- rows

// The second half of row c: the free ticks in the block of the cell whose bytes are `row`.
fn free_row(tab: &mut [u64], row: &[u8], c: usize, block: usize)
    requires { (c * window_words + window_words ≤ length tab.old) × (block < blocks) }
    ensures { Put tab.old tab.new (c * window_ticks + block_ticks) (λ i. free_to row.now (block_ticks * block + i)) }
{
    let a = c * WINDOW_WORDS + BLOCK_WORDS;
    for i in 0..BLOCK_WORDS {
        tab[a + i] = free_word(row, block * BLOCK_TICKS + i * 64);
    }
}

// As `free_row`, with a margin m: a tick is free if no tick of the cell is held from m before it to m after it.
fn spaced_row(tab: &mut [u64], row: &[u8], c: usize, m: u64, block: usize)
    requires window_words_in_bounds { (c * window_words + window_words ≤ length tab.old) × (block < blocks) }
    requires le_m { (1 ≤ m) × (m < 32) }
    ensures { Put tab.old tab.new (c * window_ticks + block_ticks) (λ i. spaced_to row.now m (block_ticks * block + i)) }
{
    let a = c * WINDOW_WORDS + BLOCK_WORDS;
    let start = block * BLOCK_TICKS;
    let mut before = held_before(row, block);
    let mut here = held_word(row, start);
    for i in 0..BLOCK_WORDS {
        let tick = start + i * 64;
        let after = held_word(row, tick + 64);
        let near = search_margin::widened(before, here, after, m);
        tab[a + i] = present(row.len(), tick) & !near;
        before = here;
        here = after;
    }
}

// The second half of row c at any margin: without one, a word depends on its own ticks alone.
fn margin_row(tab: &mut [u64], row: &[u8], c: usize, margin: usize, block: usize)
    requires window_words_in_bounds { (c * window_words + window_words ≤ length tab.old) × (block < blocks) }
    requires margin_bound { margin < 32 }
    ensures { Put tab.old tab.new (c * window_ticks + block_ticks) (λ i. spaced_to row.now margin (block_ticks * block + i)) }
{
    if margin == 0 {
        free_row(tab, row, c, block);
        return;
    }
    spaced_row(tab, row, c, margin as u64, block);
}

// ---- all cells

// The free ticks of every cell in the block, as the second halves of the first rows; the cells' bytes stand behind the board's header.
pub fn free_block(
    tab: &mut [u64],
    board: &[u8],
    cells: usize,
    horizon: usize,
    margin: usize,
    block: usize,
)
    requires cells_le_cell_limit { (cells ≤ cell_limit) × ((horizon ≤ horizon_limit) × (header + cells * (horizon + 1) ≤ length board.now)) }
    requires window_words_in_bounds { (cells * window_words ≤ length tab.old) × ((block < blocks) × (margin ≤ margin_limit)) }
    ensures { FreeBlock board.now cells horizon margin block tab.old tab.new }
{
    let width = horizon + 1;
    for c in 0..cells {
        let start = board::HEADER + c * width;
        margin_row(tab, &board[start..start + width], c, margin, block);
    }
}
