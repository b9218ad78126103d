// Sets of ticks as rows of words of 64 bits, of which a search changes one block of 256 ticks at a time.
#![tactic(auto)]

ghost use Rattle.std.specs.Prelude.{◌≡◌, ℕ, ◌+◌, ◌-◌, ◌*◌, ◌<◌, ◌≤◌, true, false, length};
ghost use Rattle.search_sizes.specs.Sizes.{block_words, block_ticks, blocks, window_words, window_ticks, row_words, ticks, block_start, span_limit};
ghost use Rattle.search_ticks.specs.Bits.{window_of, fill_of};
ghost use Rattle.search_ticks.specs.Rows.{at, has, Grown, Changed, pushed, filled, Seeded};

use search_sizes::{BLOCK_TICKS, BLOCK_WORDS, ROW_WORDS, WINDOW_WORDS};

// ---- single words

// The 64 bits from bit r of the word lo, followed by the word hi.
pub fn window(lo: u64, hi: u64, r: u64) -> u64
    requires { r < 64 }
    ensures { result ≡ window_of lo hi r }
{
    (lo >> r) | ((hi << 1) << (63 - r))
}

// The bits of f that are in x, or 1 above c, or above one of them in its run.
fn fill_word(f: u64, x: u64, c: u64) -> u64
    ensures { result ≡ fill_of f x c }
{
    let y = (x | c) & f;
    ((f.wrapping_add(y) ^ f) | y) & f
}

// ---- rows

// Whether tick t is in row s.
pub fn is_set(l: &[u64], s: usize, t: usize) -> bool
    requires { (s * row_words + row_words ≤ length l.now) × (t < ticks) }
    ensures { result ≡ has l.now s (block_ticks + t) }
{
    let word = l[s * ROW_WORDS + BLOCK_WORDS + t / 64];
    (word >> (t % 64)) % 2 == 1
}

// Puts tick t into row s.
pub fn seed(l: &mut [u64], s: usize, t: usize)
    requires { (s * row_words + row_words ≤ length l.old) × (t < ticks) }
    ensures { Seeded l.old l.new s t }
{
    let place = s * ROW_WORDS + BLOCK_WORDS + t / 64;
    l[place] |= 1 << (t % 64);
}

// ---- a block of a row, and the one before it

// The union of the words of row s in the block and the one before it: 0 only if both are empty. A word and no bool, as `news` too: still to
// do, together with their callers.
pub fn window_union(l: &[u64], s: usize, block: usize) -> u64
    requires { (s * row_words + row_words ≤ length l.now) × (block < blocks) }
    ensures { result ≡ 0 → ((i : ℕ) → i < window_ticks → has l.now s (block_ticks * block + i) ≡ false) }
{
    let a = s * ROW_WORDS + block * BLOCK_WORDS;
    let mut all: u64 = 0;
    for i in 0..WINDOW_WORDS {
        all |= l[a + i];
    }
    all
}

// Sets in the block of row s what waits reach, where row c of f has the free ticks of the block and the one before it.
// Answers the bits that were new, of all words together, as `push` does. A word and no bool: still to do,
// together with their callers.
pub fn fill(l: &mut [u64], f: &[u64], s: usize, c: usize, block: usize) -> u64
    requires row_words_in_bounds { (s * row_words + row_words ≤ length l.old) × (block < blocks) }
    requires window_words_in_bounds { c * window_words + window_words ≤ length f.now }
    ensures changed { Changed l.old l.new s block (filled l.old f.now s c block) }
    ensures grown { Grown l.old l.new result }
{
    let a = s * ROW_WORDS + block * BLOCK_WORDS + BLOCK_WORDS;
    let b = c * WINDOW_WORDS + BLOCK_WORDS;
    let mut carry = (l[a - 1] & f[b - 1]) >> 63;
    let mut diff: u64 = 0;
    for i in 0..BLOCK_WORDS {
        let old = l[a + i];
        let run = fill_word(f[b + i], old, carry);
        let new = old | run;
        diff |= new ^ old;
        l[a + i] = new;
        carry = run >> 63;
    }
    diff
}

// Sets in the block of row `to` the ticks of row `from`, `span` later, that row m of k has in the block. Answers the bits that were new.
pub fn push(
    l: &mut [u64],
    k: &[u64],
    from: usize,
    to: usize,
    m: usize,
    span: usize,
    block: usize,
) -> u64
    requires row_words_in_bounds { (from * row_words + row_words ≤ length l.old) × (to * row_words + row_words ≤ length l.old) }
    requires block_lt_blocks { (block < blocks) × ((1 ≤ span) × (span ≤ span_limit)) }
    requires block_words_in_bounds { m * block_words + block_words ≤ length k.now }
    ensures changed { Changed l.old l.new to block (pushed l.old k.now from to m span block) }
    ensures grown { Grown l.old l.new result }
{
    let a = from * ROW_WORDS + block * BLOCK_WORDS + (BLOCK_TICKS - span) / 64;
    let b = to * ROW_WORDS + block * BLOCK_WORDS + BLOCK_WORDS;
    let c = m * BLOCK_WORDS;
    let r = ((BLOCK_TICKS - span) % 64) as u64;
    // All windows are read before the first store: the rows may be one.
    let mut come = [0; BLOCK_WORDS];
    for i in 0..BLOCK_WORDS {
        come[i] = window(l[a + i], l[a + i + 1], r) & k[c + i];
    }
    let mut diff: u64 = 0;
    for i in 0..BLOCK_WORDS {
        let old = l[b + i];
        let new = old | come[i];
        diff |= new ^ old;
        l[b + i] = new;
    }
    diff
}

// What a push could set: 0 only if row `to` has in the block every tick of row `from`, `span` later, at which row c of f is free.
pub fn news(
    l: &[u64],
    f: &[u64],
    from: usize,
    to: usize,
    c: usize,
    span: usize,
    block: usize,
) -> u64
    requires row_words_in_bounds { (from * row_words + row_words ≤ length l.now) × (to * row_words + row_words ≤ length l.now) }
    requires block_lt_blocks { (block < blocks) × ((1 ≤ span) × (span ≤ span_limit)) }
    requires window_words_in_bounds { c * window_words + window_words ≤ length f.now }
    ensures { result ≡ 0 → ((i : ℕ) → i < block_ticks → has l.now from (block_start block + i - span) ≡ true
        → at f.now (c * window_ticks + block_ticks + i) ≡ true → has l.now to (block_start block + i) ≡ true) }
{
    let a = from * ROW_WORDS + block * BLOCK_WORDS + (BLOCK_TICKS - span) / 64;
    let b = to * ROW_WORDS + block * BLOCK_WORDS + BLOCK_WORDS;
    let d = c * WINDOW_WORDS + BLOCK_WORDS;
    let r = ((BLOCK_TICKS - span) % 64) as u64;
    let mut all: u64 = 0;
    for i in 0..BLOCK_WORDS {
        all |= (window(l[a + i], l[a + i + 1], r) & f[d + i]) & !l[b + i];
    }
    all
}
