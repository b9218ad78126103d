// What a call and a turn of the day come to. Nothing here calls the desk, so that this is proved without it.
#![tactic(auto)]

ghost use Rattle.std.specs.Prelude.{◌≡◌, ◌≤◌};
ghost use Rattle.meaning.specs.Limits.{day_area};
ghost use Rattle.day_results.specs.Results.{changed_result, routed_result, last_turn};

use answers::{Granted, Refusal};
use std::ops::ControlFlow;

// A call's number, the arrival of a granted route, and the length of the last granted light. All three are printed or kept whatever the answer was,
// so this is no Result.
#[derive(Clone, Copy)]
pub struct CallResult {
    pub number: u8,
    pub arrival: u16,
    pub light: usize,
}

// A call that grants no light leaves the last one.
pub fn changed(a: Result<(), Refusal>, light: usize) -> CallResult
    ensures { result ≡ changed_result a light }
{
    let number = match a {
        Ok(()) => 0,
        Err(r) => u8::from(r),
    };
    CallResult {
        number,
        arrival: 0,
        light,
    }
}

// A granted route has a new light, and a refused one leaves the last.
pub fn routed(g: Result<Granted, Refusal>, last: usize) -> CallResult
    requires { last ≤ day_area }
    ensures { (result ≡ routed_result g last) × (result.light ≤ day_area) }
{
    match g {
        Ok(granted) => CallResult {
            number: 0,
            arrival: granted.arrival,
            light: usize::from(granted.len),
        },
        Err(r) => CallResult {
            number: u8::from(r),
            arrival: 0,
            light: last,
        },
    }
}

// What a turn came to: the length of its text, and whether the program goes on or ends, with the length of the last granted light in both cases.
#[derive(Clone, Copy)]
pub struct Outcome {
    pub text: usize,
    pub next: ControlFlow<usize, usize>,
}

// The program ends after this text.
pub fn ended(light: usize, text: usize) -> Outcome
    ensures { result ≡ last_turn light text }
{
    Outcome {
        text,
        next: ControlFlow::Break(light),
    }
}
