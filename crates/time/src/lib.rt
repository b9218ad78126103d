// Moments and spans. A moment plus a span is a moment; nothing adds two moments.
#![tactic(auto)]

ghost use Rattle.std.specs.Prelude.{◌≡◌, ◌+◌, ◌<◌, leb};

use std::ops::Add;

// A moment, and a number of ticks.
#[derive(Clone, Copy, PartialEq, Eq, PartialOrd, Ord)]
pub struct Tick(pub u32);

#[derive(Clone, Copy, PartialEq, Eq, PartialOrd, Ord)]
pub struct Span(pub u32);

impl Add<Span> for Tick {
    type Output = Tick;

    ghost can_add = { λ t d. t.0 + d.0 < 4294967296 };

    ghost add_gives = { λ t d r. r.0 ≡ t.0 + d.0 };

    fn add(self, d: Span) -> Tick {
        Tick(self.0 + d.0)
    }
}

// The moment a span later.
pub fn after(t: Tick, d: Span) -> Tick
    requires { t.0 + d.0 < 4294967296 }
    ensures { result.0 ≡ t.0 + d.0 }
{
    t + d
}

// A moment as the number that names a byte of the board.
pub fn number(t: Tick) -> usize
    ensures { result ≡ t.0 }
{
    t.0 as usize
}

// The moment is not past the horizon.
pub fn in_time(t: Tick, horizon: usize) -> bool
    ensures { result ≡ leb t.0 horizon }
{
    (t.0 as usize) <= horizon
}
