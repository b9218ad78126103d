// The back pointer of a pair of state and tick, from the reached pairs and the board.
#![tactic(auto)]

ghost use Rattle.std.specs.Prelude.{◌≡◌, false, ℕ, ◌+◌, ◌*◌, ◌-◌, ◌≤◌, ◌<◌, length};
ghost use Rattle.meaning.specs.Reach.{word_by, reach_word};
ghost use Rattle.meaning.specs.Plan.{node};
ghost use Rattle.site.specs.Halls.{site_in, free_in};
ghost use Rattle.search_sizes.specs.Sizes.{row_words};
ghost use Rattle.search_lists.specs.Lists.{Listed};
ghost use Rattle.search_back.specs.Words.{word_of, wait_hit, move_hit, first_move, ReachedTo};

use plan_steps::Node;
use search_scene::Scene;
use site_read::Motion;
use time::Tick;

// How a pair is reached.
#[derive(Clone, Copy)]
pub enum Back {
    NotReached,
    // it is the start
    Start,
    // by a wait of one tick
    Wait,
    // by this motion
    Move(usize),
}

// Whether a one-tick wait from a reached pair ends in (s, t).
fn wait_hit(scene: &Scene<'_>, reached: &[u64], s: usize, t: usize) -> bool
    requires { (s < scene.now.hall.sizes.states) × ((1 ≤ t) × ((t ≤ scene.now.hall.sizes.horizon) × (scene.now.hall.sizes.states * row_words ≤ length reached.now))) }
    ensures { result ≡ wait_hit (site_in scene.now.hall) (free_in scene.now.hall) reached.now s t }
{
    let n = scene.hall.sizes.states;
    if search_site::speed_of(scene.states, n, s) != 0 {
        return false;
    }
    if search_ticks::is_set(reached, s, t - 1) {
        let cell = search_site::cell_of(scene.states, n, s);
        return plan_ticks::ticks_of(&scene.hall, cell).run_free(t - 1, t);
    }
    false
}

// Whether motion m from a reached pair ends in (s, t).
fn move_hit(scene: &Scene<'_>, reached: &[u64], s: usize, t: usize, m: usize) -> bool
    requires { (m < scene.now.hall.sizes.motions) × ((t ≤ scene.now.hall.sizes.horizon) × (scene.now.hall.sizes.states * row_words ≤ length reached.now)) }
    ensures { result ≡ move_hit (site_in scene.now.hall) (free_in scene.now.hall) reached.now s t m }
{
    let k = scene.hall.sizes.motions;
    let to = search_site::to_of(scene.motions, k, m);
    if to != s {
        return false;
    }
    let span = search_site::span_of(scene.motions, k, m);
    if t < span {
        return false;
    }
    let from = search_site::from_of(scene.motions, k, m);
    if search_ticks::is_set(reached, from, t - span) {
        let first = search_site::place_of(scene.motions, k, m);
        let count = search_site::count_of(scene.motions, k, m);
        let motion = Motion {
            from,
            to,
            span: span as u8,
            first,
            count,
        };
        let a = Node {
            state: from,
            tick: Tick((t - span) as u32),
        };
        return plan_steps::move_allowed(&scene.hall, motion, a);
    }
    false
}

// The lowest motion that ends in (s, t): one of the list of s.
fn first_move(scene: &Scene<'_>, lists: &[u16], reached: &[u64], s: usize, t: usize) -> Back
    requires s_lt_states { (s < scene.now.hall.sizes.states) × ((t ≤ scene.now.hall.sizes.horizon) × (scene.now.hall.sizes.states * row_words ≤ length reached.now)) }
    requires listed { Listed 1 scene.now.hall.sizes.motions scene.now.motions.now lists.now × (scene.now.hall.sizes.motions + scene.now.hall.sizes.states ≤ length lists.now) }
    ensures { word_of result ≡ word_by false (first_move (site_in scene.now.hall) (free_in scene.now.hall) reached.now s t) }
{
    let k = scene.hall.sizes.motions;
    let mut m = search_lists::listed_at(lists, k + s);
    // A walk along a list: the next motion is read from it.
    while m < k {
        if move_hit(scene, reached, s, t, m) {
            return Back::Move(m);
        }
        let after = search_lists::listed_at(lists, m);
        if after <= m {
            return Back::NotReached;
        }
        m = after;
    }
    Back::NotReached
}

// How (s, t) is reached from the start at `tick`.
pub fn back_at(
    scene: &Scene<'_>,
    lists: &[u16],
    reached: &[u64],
    tick: usize,
    s: usize,
    t: usize,
) -> Back
    requires listed { Listed 1 scene.now.hall.sizes.motions scene.now.motions.now lists.now × (scene.now.hall.sizes.motions + scene.now.hall.sizes.states ≤ length lists.now) }
    requires s_lt_states { (s < scene.now.hall.sizes.states) × ((tick ≤ t) × ((t ≤ scene.now.hall.sizes.horizon) × (scene.now.hall.sizes.states * row_words ≤ length reached.now))) }
    ensures { (start : ℕ) → ReachedTo (site_in scene.now.hall) (free_in scene.now.hall) (node start tick) t reached.now
        → word_of result ≡ reach_word (site_in scene.now.hall) (free_in scene.now.hall) (node start tick) (t - tick) s }
{
    if tick < t {
        if wait_hit(scene, reached, s, t) {
            return Back::Wait;
        }
        return first_move(scene, lists, reached, s, t);
    }
    if search_ticks::is_set(reached, s, t) {
        return Back::Start;
    }
    Back::NotReached
}
