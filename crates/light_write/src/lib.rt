// Writing a light: the steps of a plan that is a stack of codes, behind its head.
#![tactic(auto)]

ghost use Rattle.std.specs.Prelude.{◌≡◌, ◌+◌, ◌≤◌, length};
ghost use Rattle.meaning.specs.Fields.{field_bytes};
ghost use Rattle.meaning.specs.Light.{step_field, encode};
ghost use Rattle.meaning.specs.Calls.{over};
ghost use Rattle.light.specs.Heads.{light_with};
ghost use Rattle.light.specs.Sizes.{first_step, step_length, light_length};
ghost use Rattle.light_fields.specs.Areas.{placed};
ghost use Rattle.light_write.specs.Codes.{code_limit, step_of_code, steps_in, step_bytes};

use light::Head;

// The code of motion 0: lower codes are waits. A code is a number and no enum, so that a step of the search's fixed stack is two bytes.
pub const FIRST_MOVE: u16 = 1001;

// How many codes a stack holds.
pub const CODE_LIMIT: usize = 1024;

// Writes the step of a code at `at`.
fn write_code(out: &mut [u8], at: usize, code: u16)
    requires { at + step_length ≤ length out.old }
    ensures { out.new ≡ placed at (field_bytes (step_field (step_of_code code))) out.old }
{
    if code < FIRST_MOVE {
        light_fields::write_step(out, at, light::WAIT_TAG, code);
        return;
    }
    light_fields::write_step(out, at, light::MOVE_TAG, code - FIRST_MOVE);
}

// Writes the steps of a stack of codes behind the head, the last code's first.
fn write_steps(out: &mut [u8], path: &[u16])
    requires { (length path.now ≤ code_limit) × (light_length (length path.now) ≤ length out.old) }
    ensures { out.new ≡ placed first_step (step_bytes (steps_in path.now (length path.now))) out.old }
{
    let mut at = light::length_of(path.len());
    for code in path {
        at -= light::STEP_FIELD;
        write_code(out, at, *code);
    }
}

// Writes the light with these numbers and the steps of `count` codes.
pub fn write_light(out: &mut [u8], path: &[u16; CODE_LIMIT], count: usize, head: Head)
    requires { (count ≤ code_limit) × (light_length count ≤ length out.old) }
    ensures { out.new ≡ over (encode (light_with head (steps_in path.now count))) out.old }
{
    write_steps(out, &path[..count]);
    light_fields::write_head(out, head);
}
