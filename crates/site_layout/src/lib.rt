// The layout of a site file: refusals 3 and 4, and the values of its head.
#![tactic(auto)]

mod file;

ghost use Rattle.std.specs.Prelude.{◌≡◌, true, ◌+◌, ◌≤◌, length};
ghost use Rattle.meaning.specs.Limits.{head_size};
ghost use Rattle.meaning.specs.Basics.{within};
ghost use Rattle.meaning.specs.Fields.{fields, complete, listed};
ghost use Rattle.meaning.specs.Site.{head_of, head_good, is_state, is_motion, is_centre, sweep_count, centres_laid, layout_good};
ghost use Rattle.fields.specs.Places.{fields_at};
ghost use Rattle.site_layout.specs.Laid.{first_is, tagged, head_values, motion_length, LeadingIs, HeadIs};

use fields::{FIELD_HEADER, Item};
pub use file::SiteFile;

// The most that H, C, S and the margin may be, and the most motions and sweeps of a motion.
const HORIZON_LIMIT: usize = 1000;

pub const CELL_LIMIT: usize = 1000;

pub const STATE_LIMIT: usize = 1280;

const MARGIN_LIMIT: usize = 20;

pub const MOTION_LIMIT: usize = 4000;

const SWEEP_LIMIT: usize = 16;

// The tags of the fields.
const HEAD_TAG: u8 = 1;

const STATE_TAG: u8 = 2;

const MOTION_TAG: u8 = 3;

const CENTRE_TAG: u8 = 4;

// Bytes of the values; of a motion's, those before its sweeps.
pub const HEAD_SIZE: usize = 7;

pub const STATE_SIZE: usize = 3;

pub const MOTION_SIZE: usize = 5;

pub const CENTRE_SIZE: usize = 4;

// Kept for its clause: `contains` written at each use proves too, but each use then has to turn std's words into `within` for itself.
#[tactic(auto, unfolding(meaning::specs::Basics::within))]
fn in_range(n: usize, lo: usize, hi: usize) -> bool
    ensures { result ≡ within lo hi n }
{
    (lo..=hi).contains(&n)
}

// How many bytes the value of the field at `at` has, if a field with the tag stands there.
fn tagged(file: &[u8], at: usize, tag: u8) -> Option<usize>
    ensures { result ≡ tagged tag (listed (fields_at file.now at)) }
{
    let Item::Field(h) = fields::read_item(file, at) else {
        return None;
    };
    (h.tag == tag).then_some(h.len)
}

// The head's values, which start at `at`.
#[tactic(auto, unfolding(crate::specs::Laid::head_values))]
fn head_values(file: &[u8], at: usize) -> bool
    requires { at + head_size ≤ length file.now }
    ensures { result ≡ head_values file.now at }
{
    in_range(fields::number_at(file, at), 1, HORIZON_LIMIT)
        && in_range(fields::number_at(file, at + 2), 1, CELL_LIMIT)
        && in_range(fields::number_at(file, at + 4), 1, STATE_LIMIT)
        && fields::byte_at(file, at + 6) <= MARGIN_LIMIT
}

// The first field is a head with values in range.
pub fn head_good(file: &[u8]) -> bool
    ensures { result ≡ head_good (head_of file.now) }
{
    tagged(file, 0, HEAD_TAG) == Some(HEAD_SIZE) && head_values(file, FIELD_HEADER)
}

// A state starts at `at`.
fn is_state(file: &[u8], at: usize) -> bool
    ensures { result ≡ first_is is_state (listed (fields_at file.now at)) }
{
    tagged(file, at, STATE_TAG) == Some(STATE_SIZE)
}

// How many sweeps a motion's value of `len` bytes has.
#[tactic(auto, unfolding(meaning::specs::Site::sweep_count))]
pub fn sweep_count(len: usize) -> usize
    ensures { result ≡ sweep_count len }
{
    len.saturating_sub(MOTION_SIZE) / site_sweeps::SWEEP_SIZE
}

// A value of `len` bytes has 1 to 16 sweeps, and nothing beside them.
#[tactic(auto, using(meaning::proofs::BasicsLaws::within_range), unfolding(crate::specs::Laid::motion_length))]
fn motion_length(len: usize) -> bool
    ensures { result ≡ motion_length len }
{
    let count = sweep_count(len);
    in_range(count, 1, SWEEP_LIMIT) && len == MOTION_SIZE + site_sweeps::SWEEP_SIZE * count
}

// A field that is laid out as a motion starts at `at`.
fn is_motion(file: &[u8], at: usize) -> bool
    ensures { result ≡ first_is is_motion (listed (fields_at file.now at)) }
{
    tagged(file, at, MOTION_TAG).is_some_and(motion_length)
}

// A centre starts at `at`.
fn is_centre(file: &[u8], at: usize) -> bool
    ensures { result ≡ first_is is_centre (listed (fields_at file.now at)) }
{
    tagged(file, at, CENTRE_TAG) == Some(CENTRE_SIZE)
}

// How many motions come first, and where the field behind them starts.
#[derive(Clone, Copy)]
pub struct Leading {
    pub count: usize,
    pub next: usize,
}

// The motions from `start` on, up to the first field that is not laid out as one. A walk, counted by hand: where the next field starts
// comes from the data.
pub fn leading_motions(file: &[u8], start: usize) -> Leading
    requires { (complete (fields_at file.now start) ≡ true) × (start ≤ length file.now) }
    ensures { LeadingIs file.now start result }
{
    let mut at = start;
    let mut n = 0;
    while is_motion(file, at) {
        at = fields::next_field(file, at);
        n += 1;
    }
    Leading { count: n, next: at }
}

// The fields from `start` on are centres: one for each cell, or none. A walk as in `leading_motions`.
fn centres_laid(file: &[u8], start: usize, cells: usize) -> bool
    requires { (complete (fields_at file.now start) ≡ true) × (start ≤ length file.now) }
    ensures { result ≡ centres_laid cells (listed (fields_at file.now start)) }
{
    let mut at = start;
    let mut n = 0;
    while at < file.len() {
        if !is_centre(file, at) {
            return false;
        }
        at = fields::next_field(file, at);
        n += 1;
    }
    n == cells || n == 0
}

// From `start` on come at most 4,000 motions and then the centres.
fn rest_laid(file: &[u8], start: usize, cells: usize) -> bool
    requires { (complete (fields_at file.now start) ≡ true) × (start ≤ length file.now) }
    ensures { result ≡ layout_good cells 0 (listed (fields_at file.now start)) }
{
    let motions = leading_motions(file, start);
    motions.count <= MOTION_LIMIT && centres_laid(file, motions.next, cells)
}

// From `start` on come `count` states, then the motions, and then the centres of `cells` cells.
pub fn layout_good(file: &[u8], start: usize, count: usize, cells: usize) -> bool
    requires { (complete (fields_at file.now start) ≡ true) × (start ≤ length file.now) }
    ensures { result ≡ layout_good cells count (listed (fields_at file.now start)) }
{
    let mut at = start;
    for _ in 0..count {
        if !is_state(file, at) {
            return false;
        }
        at = fields::next_field(file, at);
    }
    rest_laid(file, at, cells)
}

// What a good head says: H, C, S, the margin, and where the states start.
#[derive(Clone, Copy)]
pub struct Head {
    pub horizon: usize,
    pub cells: usize,
    pub states: usize,
    pub margin: usize,
    pub start: usize,
}

pub fn read_head(file: &[u8]) -> Head
    requires { (complete (fields file.now) ≡ true) × (head_good (head_of file.now) ≡ true) }
    ensures { HeadIs file.now result }
{
    let h = fields::header_at(file, 0);
    let at = h.start;
    Head {
        horizon: fields::number_at(file, at),
        cells: fields::number_at(file, at + 2),
        states: fields::number_at(file, at + 4),
        margin: fields::byte_at(file, at + 6),
        start: h.next,
    }
}
