// The walk back from the goal: the steps of the route, as a stack of codes.
#![tactic(auto)]

ghost use Rattle.std.specs.Prelude.{◌≡◌, ◌∷◌, ◌+◌, ◌*◌, ◌≤◌, ◌<◌, length};
ghost use Rattle.meaning.specs.Limits.{horizon_limit};
ghost use Rattle.meaning.specs.Plan.{move};
ghost use Rattle.meaning.specs.Reach.{wait_one};
ghost use Rattle.search_sizes.specs.Sizes.{row_words, motion_rows};
ghost use Rattle.light_write.specs.Codes.{code_limit, step_of_code, steps_in};
ghost use Rattle.search_trace.specs.Turns.{wait_in_front, Search, Found};

use light_write::CODE_LIMIT;
use search_back::Back;
use search_lists::End;
use search_scene::Scene;

// The steps of a plan as a stack of codes: the first step is on top.
#[derive(Drop)]
pub struct Path {
    pub codes: [u16; CODE_LIMIT],
    pub count: usize,
}

impl Path {
    // Puts a code on top.
    fn push(&mut self, code: u16)
        requires { self.old.count < code_limit }
        ensures { steps_in self.new.codes self.new.count ≡ step_of_code code ∷ steps_in self.old.codes self.old.count }
    {
        self.codes[self.count] = code;
        self.count += 1;
    }

    // One more tick of waiting in front of the steps: a wait on top grows by it.
    fn push_wait(&mut self)
        requires { (self.old.count < code_limit) × (wait_in_front (steps_in self.old.codes self.old.count) < horizon_limit) }
        ensures { steps_in self.new.codes self.new.count ≡ wait_one (steps_in self.old.codes self.old.count) }
    {
        if self.count == 0 {
            return self.push(1);
        }
        let top = self.codes[self.count - 1];
        if top < light_write::FIRST_MOVE {
            self.count -= 1;
            return self.push(top + 1);
        }
        self.push(1);
    }

    // The motion m in front of the steps.
    fn push_move(&mut self, m: usize)
        requires { (self.old.count < code_limit) × (m < motion_rows) }
        ensures { steps_in self.new.codes self.new.count ≡ move m ∷ steps_in self.old.codes self.old.count }
    {
        self.push((m as u16) + light_write::FIRST_MOVE);
    }
}

// Walks back from the goal at the arrival, and leaves the route's steps in `path`.
pub fn trace_back(
    scene: &Scene<'_>,
    lists: &mut [u16],
    reached: &[u64],
    tick: usize,
    goal: usize,
    arrival: usize,
    path: &mut Path,
)
    requires goal_lt_states { (goal < scene.now.hall.sizes.states) × ((scene.now.hall.sizes.states * row_words ≤ length reached.now) × (scene.now.hall.sizes.motions + scene.now.hall.sizes.states ≤ length lists.old)) }
    requires found { (x : Search) × Found x scene.now.hall reached.now tick goal arrival }
    ensures { (x : Search) → Found x scene.now.hall reached.now tick goal arrival
        → steps_in path.new.codes path.new.count ≡ x.route.steps }
{
    let sizes = scene.hall.sizes;
    search_lists::fill_lists(scene.motions, sizes.motions, sizes.states, End::To, lists);
    let mut s = goal;
    let mut t = arrival;
    path.count = 0;
    // A walk: the pair before comes from the back pointer.
    while tick < t {
        match search_back::back_at(scene, lists, reached, tick, s, t) {
            Back::Wait => {
                path.push_wait();
                t -= 1;
            }
            Back::Move(m) => {
                path.push_move(m);
                s = search_site::from_of(scene.motions, sizes.motions, m);
                let span = search_site::span_of(scene.motions, sizes.motions, m);
                t -= span;
            }
            Back::Start | Back::NotReached => unreachable!(),
        }
    }
}
