// A light's plan: does the walk of its steps hold on the board, can the tug unload where it ends, and may the numbers be named.
#![tactic(auto)]

ghost use Rattle.std.specs.Prelude.{◌≡◌, true, [], ◌∷◌, leb, length};
ghost use Rattle.std.proofs.Math.Option.{some};
ghost use Rattle.meaning.specs.Basics.{every, all};
ghost use Rattle.meaning.specs.Site.{Site, cell_of};
ghost use Rattle.meaning.specs.Plan.{walk, start_free, can_unload};
ghost use Rattle.meaning.specs.Light.{is_light, light_of};
ghost use Rattle.meaning.specs.Calls.{is_at, light_valid, trip_named, step_named, light_named};
ghost use Rattle.light_steps.specs.Steps.{laid_from, steps_from};
ghost use Rattle.site.specs.Check.{sizes_of};
ghost use Rattle.site.specs.Halls.{site_in, free_in};
ghost use Rattle.plan_steps.specs.Nodes.{node_of, Here};
ghost use Rattle.plan_check.specs.Walks.{walk_end_case, start_in, goal_in};

use light::Head;
use light_steps::Step;
use plan_steps::Node;
use site::{Hall, Sizes, Trip};
use site_read::Motions;
use time::{Span, Tick};

// The cell of `a` is free at its tick.
fn free_at(hall: &Hall<'_>, a: Node) -> bool
    requires { Here hall.now.file.bytes.now a }
    ensures { result ≡ free_in hall.now (cell_of (site_in hall.now) a.state) a.tick.0 }
{
    let cell = site_read::state_cell(&hall.file, a.state);
    plan_ticks::ticks_of(hall, cell).is_free(time::number(a.tick))
}

// A plan may start at `a`: its state and its tick are the site's, and its cell is free then.
fn start_free(hall: &Hall<'_>, a: Node) -> bool
    ensures { result ≡ start_free (site_in hall.now) (free_in hall.now) (node_of a) }
{
    a.state < hall.sizes.states && time::in_time(a.tick, hall.sizes.horizon) && free_at(hall, a)
}

// Where a light's plan starts.
pub fn start_of(head: Head) -> Node
    ensures { node_of result ≡ start_in head }
{
    Node {
        state: head.start as usize,
        tick: Tick(head.tick as u32),
    }
}

// Where a light says that its plan ends.
pub fn goal_of(head: Head) -> Node
    ensures { node_of result ≡ goal_in head }
{
    Node {
        state: head.goal as usize,
        tick: Tick(head.arrival as u32),
    }
}

// `b` is where a light says that its plan ends: its goal and its arrival.
fn at_goal(b: Node, head: Head) -> bool
    ensures { result ≡ is_at head.goal head.arrival (some (node_of b)) }
{
    b == goal_of(head)
}

// `b` is where a light says that its plan ends, and the tug can unload there.
fn unloads_at(hall: &Hall<'_>, b: Node, head: Head) -> bool
    requires { Here hall.now.file.bytes.now b }
    ensures { result ≡ every (
        is_at head.goal head.arrival (some (node_of b))
        ∷ can_unload (site_in hall.now) (free_in hall.now) (goal_in head) head.dwell
        ∷ []) }
{
    at_goal(b, head) && plan_steps::can_stay(hall, b, Span(head.dwell as u32))
}

// Where the steps of the light from `first` on lead from `start`, or none where one of them is not allowed.
fn walk_steps(
    hall: &Hall<'_>,
    motions: &Motions<'_>,
    light: &[u8],
    first: usize,
    start: Node,
) -> Option<Node>
    requires same_file { motions.now.file.bytes.now ≡ hall.now.file.bytes.now }
    requires here { Here hall.now.file.bytes.now start }
    requires laid { laid_from true light.now first ≡ true }
    ensures { walk_end_case result ≡ walk (site_in hall.now) (free_in hall.now) (steps_from light.now first) (node_of start) }
{
    let mut at = first;
    let mut here = start;
    // A walk: where the next step stands comes from the one before it.
    loop {
        match light_steps::step_at(light, at) {
            Step::Wait(n, next) => {
                let span = Span(n as u32);
                if !plan_steps::wait_allowed(hall, here, span) {
                    return None;
                }
                here = plan_steps::after_wait(here, span);
                at = next;
            }
            Step::Move(k, next) => {
                if hall.sizes.motions <= k as usize {
                    return None;
                }
                let m = site_read::motion_at(motions, k as usize);
                if !plan_steps::move_allowed(hall, m, here) {
                    return None;
                }
                here = plan_steps::after_move(m, here.tick);
                at = next;
            }
            Step::End => return Some(here),
            Step::Wrong => return None,
        }
    }
}

// The light's steps are a valid plan on the board that ends at the light's goal and arrival and unloads there.
pub fn light_valid(hall: &Hall<'_>, motions: &Motions<'_>, light: &[u8]) -> bool
    requires same_file { motions.now.file.bytes.now ≡ hall.now.file.bytes.now }
    requires light_value { is_light light.now ≡ true }
    ensures { result ≡ light_valid (site_in hall.now) (free_in hall.now) (light_of light.now) }
{
    let head = light_read::read_head(light);
    let start = start_of(head);
    if !start_free(hall, start) {
        return false;
    }
    match walk_steps(hall, motions, light, light::FIRST_STEP, start) {
        Some(b) => unloads_at(hall, b, head),
        None => false,
    }
}

// Each motion that the light's steps from `first` on name is one of the site's, of which there are `motions`.
fn motions_named(light: &[u8], first: usize, motions: usize) -> bool
    requires { laid_from true light.now first ≡ true }
    ensures { (s : Site) → length s.motions ≡ motions → result ≡ all (step_named s) (steps_from light.now first) }
{
    let mut at = first;
    // A walk: where the next step stands comes from the one before it.
    loop {
        match light_steps::step_at(light, at) {
            Step::Wait(_, next) => at = next,
            Step::Move(k, next) => {
                if motions <= k as usize {
                    return false;
                }
                at = next;
            }
            Step::End => return true,
            Step::Wrong => return false,
        }
    }
}

// The states and the ticks that a light's head names are the site's, and its dwell is within its limit.
fn head_named(sizes: Sizes, head: Head) -> bool
    ensures { (s : Site) → sizes ≡ sizes_of s → result ≡ every (trip_named s (start_in head) head.goal head.dwell ∷ leb head.arrival s.horizon ∷ []) }
{
    let trip = Trip {
        start: head.start,
        tick: head.tick,
        goal: head.goal,
        dwell: head.dwell,
    };
    site::trip_named(sizes, trip) && time::in_time(Tick(head.arrival as u32), sizes.horizon)
}

// Every state, tick and motion that the light names is the site's, and its dwell is within its limit.
pub fn light_named(sizes: Sizes, light: &[u8]) -> bool
    requires { is_light light.now ≡ true }
    ensures { (s : Site) → sizes ≡ sizes_of s → result ≡ light_named s (light_of light.now) }
{
    let head = light_read::read_head(light);
    head_named(sizes, head) && motions_named(light, light::FIRST_STEP, sizes.motions)
}
