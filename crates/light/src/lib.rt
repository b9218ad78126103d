// The light's format, for reading and for writing: its tags, its sizes in bytes, and the numbers of its head.
#![tactic(auto)]

ghost use Rattle.std.specs.Prelude.{◌≡◌, ◌<◌};
ghost use Rattle.light.specs.Sizes.{light_length};

use fields::FIELD_HEADER;

pub const LIGHT_TAG: u8 = 16;

pub const WAIT_TAG: u8 = 17;

pub const MOVE_TAG: u8 = 18;

// The value of the head's field, and of a step's.
pub const HEAD_SIZE: usize = 15;

pub const STEP_SIZE: usize = 2;

// Where the first step's field starts, and its bytes.
pub const FIRST_STEP: usize = FIELD_HEADER + HEAD_SIZE;

pub const STEP_FIELD: usize = FIELD_HEADER + STEP_SIZE;

// The bytes that a light has at most.
pub const LIGHT_LIMIT: usize = 5018;

// The numbers of a light's head.
#[derive(Clone, Copy)]
pub struct Head {
    pub edition: u32,
    pub tug: u8,
    pub start: u16,
    pub tick: u16,
    pub goal: u16,
    pub arrival: u16,
    pub dwell: u16,
}

// The bytes of a light with so many steps, and so the place behind them.
pub fn length_of(steps: usize) -> usize
    requires { light_length steps < 65536 }
    ensures { result ≡ light_length steps }
{
    FIRST_STEP + STEP_FIELD * steps
}
