// A light's steps: the step at a place, and their layout. The fields are read through the crate `fields`.
#![tactic(auto)]

ghost use Rattle.std.specs.Prelude.{◌≡◌, true, false, ◌+◌, ◌≤◌, length};
ghost use Rattle.meaning.specs.Basics.{u16_at};
ghost use Rattle.light_steps.specs.Steps.{laid_from, step_in, step_at};

use fields::{Header, Item};

// What stands at a place: a wait's span or a motion's number, each with where the next step starts; the end; or no step.
#[derive(Clone, Copy)]
pub enum Step {
    Wait(u16, usize),
    Move(u16, usize),
    End,
    Wrong,
}

// The step whose field has this header.
#[tactic(auto, using(crate::proofs::StepLaws::in_field))]
fn step_in(s: &[u8], h: Header) -> Step
    requires { h.start + h.len ≤ length s.now }
    ensures { result ≡ step_in h.tag h.len (u16_at s.now h.start) h.next }
{
    if h.len != light::STEP_SIZE {
        return Step::Wrong;
    }
    let n = fields::u16_at(s, h.start);
    if h.tag == light::MOVE_TAG {
        return Step::Move(n, h.next);
    }
    if h.tag != light::WAIT_TAG {
        return Step::Wrong;
    }
    if n == 0 {
        return Step::Wrong;
    }
    Step::Wait(n, h.next)
}

// The step at `at`.
pub fn step_at(s: &[u8], at: usize) -> Step
    ensures { result ≡ step_at s.now at }
{
    match fields::read_item(s, at) {
        Item::Field(h) => step_in(s, h),
        Item::Cut => Step::Wrong,
        Item::End => Step::End,
    }
}

// The reader after a wait: a motion or the end comes next.
#[cycle(after_motion_after_wait)]
fn after_wait(s: &[u8], at: usize) -> bool
    ensures { result ≡ laid_from false s.now at }
{
    match step_at(s, at) {
        Step::Move(_, next) => after_motion(s, next),
        Step::Wait(_, _) => false,
        Step::End => true,
        Step::Wrong => false,
    }
}

// The reader after a motion, and at the first step: either or the end comes next.
#[cycle(after_motion_after_wait)]
pub fn after_motion(s: &[u8], at: usize) -> bool
    ensures { result ≡ laid_from true s.now at }
{
    match step_at(s, at) {
        Step::Move(_, next) => after_motion(s, next),
        Step::Wait(_, next) => after_wait(s, next),
        Step::End => true,
        Step::Wrong => false,
    }
}
