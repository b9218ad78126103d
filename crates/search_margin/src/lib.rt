// Sets of ticks widened by a margin, as words of bits.
#![tactic(auto)]

ghost use Rattle.std.specs.Prelude.{◌≡◌, ℕ, ◌+◌, ◌-◌, ◌*◌, ◌≤◌, ◌<◌};
ghost use Rattle.search_ticks.specs.Bits.{bit};
ghost use Rattle.search_margin.specs.Widening.{any_from, bit_of_two, bit_of_three};

// The bits i of the word lo for which one of the n bits from bit i on is set, where the word hi follows lo.
// Each turn doubles the k bits that are looked at, so no range gives them.
fn spread(lo: u64, hi: u64, n: u64) -> u64
    requires { (1 ≤ n) × (n ≤ 64) }
    ensures { (i : ℕ) → i < 64 → bit result i ≡ any_from (bit_of_two lo hi) i n }
{
    let mut a = lo;
    let mut b = hi;
    let mut k: u64 = 1;
    while k <= n - k {
        a |= search_ticks::window(a, b, k);
        b |= b >> k;
        k += k;
    }
    a | search_ticks::window(a, b, n - k)
}

// The bits i of the word `here` for which a bit is set from m before bit i to m after it, where `here` stands between two other words.
// Most words have nothing to widen.
pub fn widened(before: u64, here: u64, after: u64, m: u64) -> u64
    requires { (1 ≤ m) × (m < 32) }
    ensures { (i : ℕ) → i < 64 → bit result i ≡ any_from (bit_of_three before here after) (64 + i - m) (2 * m + 1) }
{
    let r = 64 - m;
    let lo = search_ticks::window(before, here, r);
    let hi = search_ticks::window(here, after, r);
    if (lo | hi) == 0 {
        return 0;
    }
    spread(lo, hi, 2 * m + 1)
}
