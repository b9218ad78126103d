// The fields of a light, written into an area: its head, and a step's.
#![tactic(auto)]

ghost use Rattle.std.specs.Prelude.{◌≡◌, [], ◌+◌, ◌≤◌, length};
ghost use Rattle.meaning.specs.Basics.{put16};
ghost use Rattle.meaning.specs.Fields.{field_bytes};
ghost use Rattle.meaning.specs.Light.{light_head};
ghost use Rattle.meaning.specs.Calls.{over};
ghost use Rattle.light.specs.Heads.{light_with};
ghost use Rattle.light.specs.Sizes.{first_step, step_length};
ghost use Rattle.light_fields.specs.Areas.{tagged, placed};

use light::Head;

// The sizes as a field's length has them, in its low byte.
const HEAD_SIZE: u8 = light::HEAD_SIZE as u8;

const STEP_SIZE: u8 = light::STEP_SIZE as u8;

// Writes a light's head at the front of `out`.
pub fn write_head(out: &mut [u8], head: Head)
    requires { first_step ≤ length out.old }
    ensures { out.new ≡ over (field_bytes (light_head (light_with head []))) out.old }
{
    let edition = head.edition.to_be_bytes();
    let start = head.start.to_be_bytes();
    let tick = head.tick.to_be_bytes();
    let goal = head.goal.to_be_bytes();
    let arrival = head.arrival.to_be_bytes();
    let dwell = head.dwell.to_be_bytes();
    let field = [
        light::LIGHT_TAG,
        0,
        HEAD_SIZE,
        edition[0],
        edition[1],
        edition[2],
        edition[3],
        head.tug,
        start[0],
        start[1],
        tick[0],
        tick[1],
        goal[0],
        goal[1],
        arrival[0],
        arrival[1],
        dwell[0],
        dwell[1],
    ];
    out[..light::FIRST_STEP].copy_from_slice(&field);
}

// Writes a step's field at `at`.
pub fn write_step(out: &mut [u8], at: usize, tag: u8, n: u16)
    requires { at + step_length ≤ length out.old }
    ensures { out.new ≡ placed at (field_bytes (tagged tag (put16 n))) out.old }
{
    let [first, last] = n.to_be_bytes();
    let field = [tag, 0, STEP_SIZE, first, last];
    out[at..at + light::STEP_FIELD].copy_from_slice(&field);
}
