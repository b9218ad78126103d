// Marking: writes a tug's number over the pairs that a light's plan holds.
#![tactic(auto)]

ghost use Rattle.std.specs.Prelude.{◌≡◌, true, ◌+◌, ◌≤◌, length};
ghost use Rattle.meaning.specs.Site.{site_of};
ghost use Rattle.meaning.specs.Board.{free, mark, run_to};
ghost use Rattle.meaning.specs.Plan.{wait, swept_pairs, step_pairs, walk_pairs};
ghost use Rattle.meaning.specs.Light.{is_light, light_of};
ghost use Rattle.meaning.specs.Calls.{light_valid, light_pairs};
ghost use Rattle.site_sweeps.specs.Places.{sweeps_at};
ghost use Rattle.light_steps.specs.Steps.{laid_from, steps_from};
ghost use Rattle.site.specs.Ready.{Ready};
ghost use Rattle.plan_steps.specs.Sweeps.{Sweeps, Swept};
ghost use Rattle.plan_steps.specs.Nodes.{node_of, Here};
ghost use Rattle.plan_mark.specs.InTime.{InTime};

use light_steps::Step;
use plan_steps::Node;
use site::Sizes;
use site_layout::SiteFile;
use site_read::{Motion, Motions};
use site_sweeps::Sweep;
use time::{Span, Tick};

// Marks the sweep's cell while a motion that starts at `t` uses it.
fn mark_sweep(file: &SiteFile<'_>, board: &mut [u8], sizes: Sizes, w: Sweep, t: Tick, tug: u8)
    requires { Ready file.now.bytes.now (length board.old) sizes × Swept file.now.bytes.now w t.0 }
    ensures { board.new ≡ mark (site_of file.now.bytes.now) tug (run_to w.cell (t.0 + w.first) (t.0 + w.last)) board.old }
{
    let ticks = plan_steps::swept_ticks(w, t);
    board_ticks::mark_run(board, sizes.horizon, w.cell, ticks.first, ticks.last, tug);
}

// Marks each swept cell of the motion while the motion uses it, where it starts at `t`.
fn mark_sweeps(file: &SiteFile<'_>, board: &mut [u8], sizes: Sizes, m: Motion, t: Tick, tug: u8)
    requires ready { Ready file.now.bytes.now (length board.old) sizes × Sweeps file.now.bytes.now m.first m.count m.span }
    requires span_bound { t.0 + m.span ≤ (site_of file.now.bytes.now).horizon }
    ensures { board.new ≡ mark (site_of file.now.bytes.now) tug (swept_pairs (sweeps_at file.now.bytes.now m.first m.count) t.0) board.old }
{
    for i in 0..m.count {
        let w = site_sweeps::read_sweep(file.bytes, m.first, i);
        mark_sweep(file, board, sizes, w, t, tug);
    }
}

// Marks the cell of `a` from its tick on, for `n` ticks and the one at which they end.
fn mark_wait(file: &SiteFile<'_>, board: &mut [u8], sizes: Sizes, a: Node, n: Span, tug: u8)
    requires { Ready file.now.bytes.now (length board.old) sizes × Here file.now.bytes.now a × (a.tick.0 + n.0 ≤ (site_of file.now.bytes.now).horizon) }
    ensures { board.new ≡ mark (site_of file.now.bytes.now) tug (step_pairs (site_of file.now.bytes.now) (wait n.0) (node_of a)) board.old }
{
    let cell = site_read::state_cell(file, a.state);
    let last = time::after(a.tick, n);
    board_ticks::mark_run(
        board,
        sizes.horizon,
        cell,
        time::number(a.tick),
        time::number(last),
        tug,
    );
}

// Marks what the steps of the light from `first` on hold, which start at `start` and end by the horizon.
fn mark_steps(
    motions: &Motions<'_>,
    board: &mut [u8],
    sizes: Sizes,
    light: &[u8],
    first: usize,
    start: Node,
    tug: u8,
)
    requires ready { Ready motions.now.file.bytes.now (length board.old) sizes × Here motions.now.file.bytes.now start }
    requires laid_in_time { (laid_from true light.now first ≡ true) × InTime (site_of motions.now.file.bytes.now) (steps_from light.now first) (node_of start) }
    ensures { board.new ≡ mark (site_of motions.now.file.bytes.now) tug (walk_pairs (site_of motions.now.file.bytes.now) (steps_from light.now first) (node_of start)) board.old }
{
    let mut at = first;
    let mut here = start;
    // A walk: where the next step stands comes from the one before it.
    loop {
        match light_steps::step_at(light, at) {
            Step::Wait(n, next) => {
                let span = Span(n as u32);
                mark_wait(&motions.file, board, sizes, here, span, tug);
                here = plan_steps::after_wait(here, span);
                at = next;
            }
            Step::Move(k, next) => {
                let m = site_read::motion_at(motions, k as usize);
                mark_sweeps(&motions.file, board, sizes, m, here.tick, tug);
                here = plan_steps::after_move(m, here.tick);
                at = next;
            }
            Step::End => return,
            Step::Wrong => return,
        }
    }
}

// Marks what a valid light holds: its start, which is a wait of no ticks, its steps, and its unloading, which holds what a wait does.
pub fn mark_light(motions: &Motions<'_>, board: &mut [u8], sizes: Sizes, light: &[u8])
    requires ready { Ready motions.now.file.bytes.now (length board.old) sizes × (is_light light.now ≡ true) }
    requires light_value { light_valid (site_of motions.now.file.bytes.now) (free (site_of motions.now.file.bytes.now) board.old) (light_of light.now) ≡ true }
    ensures { board.new ≡ mark (site_of motions.now.file.bytes.now) (light_of light.now).tug (light_pairs (site_of motions.now.file.bytes.now) (light_of light.now)) board.old }
{
    let head = light_read::read_head(light);
    let start = plan_check::start_of(head);
    mark_wait(&motions.file, board, sizes, start, Span(0), head.tug);
    mark_steps(
        motions,
        board,
        sizes,
        light,
        light::FIRST_STEP,
        start,
        head.tug,
    );
    let goal = plan_check::goal_of(head);
    mark_wait(
        &motions.file,
        board,
        sizes,
        goal,
        Span(head.dwell as u32),
        head.tug,
    );
}
