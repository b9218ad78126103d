// Steps of a plan: is a wait, a motion or the unloading allowed on the board, and where does a step lead.
#![tactic(auto)]

ghost use Rattle.std.specs.Prelude.{◌≡◌, ℕ, ◌+◌, ◌<◌, ◌≤◌, length};
ghost use Rattle.meaning.specs.Site.{motion_at};
ghost use Rattle.meaning.specs.Plan.{free_from_to, sweeps_free, wait, move, allowed, can_unload};
ghost use Rattle.site_sweeps.specs.Places.{sweeps_at};
ghost use Rattle.site_read.specs.Motions.{MotionIs};
ghost use Rattle.site.specs.Halls.{site_in, free_in};
ghost use Rattle.plan_steps.specs.Sweeps.{Sweeps, Swept};
ghost use Rattle.plan_steps.specs.Nodes.{node_of, Here};

use site::Hall;
use site_read::Motion;
use site_sweeps::Sweep;
use time::{Span, Tick};

// A state and a tick.
#[derive(Clone, Copy, PartialEq, Eq)]
pub struct Node {
    pub state: usize,
    pub tick: Tick,
}

// Ticks of a cell, from the first to the last, both included.
#[derive(Clone, Copy)]
pub struct Ticks {
    pub first: usize,
    pub last: usize,
}

// The ticks at which a motion that starts at `t` uses the sweep's cell.
pub fn swept_ticks(w: Sweep, t: Tick) -> Ticks
    requires { (t.0 + w.first < 4294967296) × (t.0 + w.last < 4294967296) }
    ensures { (result.first ≡ t.0 + w.first) × (result.last ≡ t.0 + w.last) }
{
    Ticks {
        first: time::number(time::after(t, Span(w.first as u32))),
        last: time::number(time::after(t, Span(w.last as u32))),
    }
}

// The sweep's cell is free while a motion that starts at `t` uses it.
fn sweep_free(hall: &Hall<'_>, w: Sweep, t: Tick) -> bool
    requires { Swept hall.now.file.bytes.now w t.0 }
    ensures { result ≡ free_from_to (free_in hall.now) w.cell (t.0 + w.first) (t.0 + w.last) }
{
    let ticks = swept_ticks(w, t);
    plan_ticks::ticks_of(hall, w.cell).run_free(ticks.first, ticks.last)
}

// Each swept cell of the motion is free while the motion uses it, where it starts at `t`.
fn sweeps_free(hall: &Hall<'_>, m: Motion, t: Tick) -> bool
    requires sweeps { Sweeps hall.now.file.bytes.now m.first m.count m.span }
    requires span_bound { t.0 + m.span ≤ (site_in hall.now).horizon }
    ensures { result ≡ sweeps_free (free_in hall.now) (sweeps_at hall.now.file.bytes.now m.first m.count) t.0 }
{
    for i in 0..m.count {
        let w = site_sweeps::read_sweep(hall.file.bytes, m.first, i);
        if !sweep_free(hall, w, t) {
            return false;
        }
    }
    true
}

// The cell of `a` is free from its tick on, for `n` ticks and the one at which they end, which is not past the horizon.
pub fn can_stay(hall: &Hall<'_>, a: Node, n: Span) -> bool
    requires { Here hall.now.file.bytes.now a × (n.0 < 65536) }
    ensures { result ≡ can_unload (site_in hall.now) (free_in hall.now) (node_of a) n.0 }
{
    let last = time::after(a.tick, n);
    if !time::in_time(last, hall.sizes.horizon) {
        return false;
    }
    let cell = site_read::state_cell(&hall.file, a.state);
    plan_ticks::ticks_of(hall, cell).run_free(time::number(a.tick), time::number(last))
}

// A wait of `n` ticks at `a` is allowed.
pub fn wait_allowed(hall: &Hall<'_>, a: Node, n: Span) -> bool
    requires { Here hall.now.file.bytes.now a × (n.0 < 65536) }
    ensures { result ≡ allowed (site_in hall.now) (free_in hall.now) (wait n.0) (node_of a) }
{
    n.0 != 0 && site_read::state_speed(&hall.file, a.state) == 0 && can_stay(hall, a, n)
}

// The motion `m`, whatever its number, is allowed at `a`.
pub fn move_allowed(hall: &Hall<'_>, m: Motion, a: Node) -> bool
    requires { Here hall.now.file.bytes.now a × Sweeps hall.now.file.bytes.now m.first m.count m.span }
    ensures { (k : ℕ) → k < length (site_in hall.now).motions → MotionIs hall.now.file.bytes.now (motion_at (site_in hall.now) k) m → result ≡ allowed (site_in hall.now) (free_in hall.now) (move k) (node_of a) }
{
    let end = time::after(a.tick, Span(m.span as u32));
    m.from == a.state && time::in_time(end, hall.sizes.horizon) && sweeps_free(hall, m, a.tick)
}

// The node after a wait of `n` ticks at `a`.
pub fn after_wait(a: Node, n: Span) -> Node
    requires { a.tick.0 + n.0 < 4294967296 }
    ensures { (result.state ≡ a.state) × (result.tick.0 ≡ a.tick.0 + n.0) }
{
    Node {
        state: a.state,
        tick: time::after(a.tick, n),
    }
}

// The node after the motion `m`, which starts at `t`.
pub fn after_move(m: Motion, t: Tick) -> Node
    requires { t.0 + m.span < 4294967296 }
    ensures { (result.state ≡ m.to) × (result.tick.0 ≡ t.0 + m.span) }
{
    Node {
        state: m.to,
        tick: time::after(t, Span(m.span as u32)),
    }
}
