// Reading a light: whether bytes are one, and its head.
#![tactic(auto)]

ghost use Rattle.std.specs.Prelude.{◌≡◌, true, ◌&&◌, ◌+◌, ◌≤◌, eqb, length};
ghost use Rattle.meaning.specs.Limits.{field_header, light_tag, light_head_size};
ghost use Rattle.meaning.specs.Light.{is_light, light_of};
ghost use Rattle.light.specs.Heads.{head_of};
ghost use Rattle.light_steps.specs.Steps.{laid_from};

use fields::{Header, Item};
use light::Head;

// The field with this header is a light's head, and steps in their layout follow it.
fn head_then_steps(s: &[u8], h: Header) -> bool
    ensures { result ≡ (eqb h.tag light_tag && eqb h.len light_head_size && laid_from true s.now h.next) }
{
    h.tag == light::LIGHT_TAG && h.len == light::HEAD_SIZE && light_steps::after_motion(s, h.next)
}

// The bytes are a light.
#[tactic(auto, using(crate::proofs::HeadLaws::light_long))]
pub fn is_light(s: &[u8]) -> bool
    ensures { result ≡ is_light s.now }
{
    if s.len() > light::LIGHT_LIMIT {
        return false;
    }
    match fields::read_item(s, 0) {
        Item::Field(h) => head_then_steps(s, h),
        _ => false,
    }
}

// Where the value of an accepted light's head starts.
fn head_value(s: &[u8]) -> usize
    requires { is_light s.now ≡ true }
    ensures { (result ≡ field_header) × (field_header + light_head_size ≤ length s.now) }
{
    let h = fields::header_at(s, 0);
    h.start
}

// The numbers of an accepted light's head.
pub fn read_head(s: &[u8]) -> Head
    requires { is_light s.now ≡ true }
    ensures { result ≡ head_of (light_of s.now) }
{
    let at = head_value(s);
    Head {
        edition: u32::from_be_bytes([s[at], s[at + 1], s[at + 2], s[at + 3]]),
        tug: s[at + 4],
        start: fields::u16_at(s, at + 5),
        tick: fields::u16_at(s, at + 7),
        goal: fields::u16_at(s, at + 9),
        arrival: fields::u16_at(s, at + 11),
        dwell: fields::u16_at(s, at + 13),
    }
}
