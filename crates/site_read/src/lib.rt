// The states, the motions and the centres of a site file that is laid out well, read by place and by number.
#![tactic(auto)]

mod motions;

ghost use Rattle.std.specs.Prelude.{◌≡◌, true, ◌<◌, ◌≤◌, length};
ghost use Rattle.meaning.specs.Fields.{complete};
ghost use Rattle.meaning.specs.Site.{site_of, state_at, motion_at, centre_at, motion_of, is_motion};
ghost use Rattle.fields.specs.Places.{fields_at, field_at};
ghost use Rattle.site_layout.specs.Laid.{state_place, StateValue};
ghost use Rattle.site_read.specs.Motions.{MotionIs, Index};
ghost use Rattle.site_read.specs.Centres.{centre_read};

use fields::FIELD_HEADER;
pub use motions::Motions;
use site_layout::SiteFile;

// The bytes of the field of the head, of a state and of a centre.
const HEAD_FIELD: usize = FIELD_HEADER + site_layout::HEAD_SIZE;

const STATE_FIELD: usize = FIELD_HEADER + site_layout::STATE_SIZE;

const CENTRE_FIELD: usize = FIELD_HEADER + site_layout::CENTRE_SIZE;

// Where the state `i` starts: after the head and the states before it.
pub fn state_place(i: usize) -> usize
    requires { i < 65536 }
    ensures { result ≡ state_place i }
{
    HEAD_FIELD + STATE_FIELD * i
}

// Where the value of the state `i` starts.
fn state_value(file: &SiteFile<'_>, i: usize) -> usize
    requires { i < length (site_of file.now.bytes.now).states }
    ensures { StateValue file.now.bytes.now i result }
{
    state_place(i) + FIELD_HEADER
}

// The cell and the speed of the state `i`.
pub fn state_cell(file: &SiteFile<'_>, i: usize) -> usize
    requires { i < length (site_of file.now.bytes.now).states }
    ensures { (result ≡ (state_at (site_of file.now.bytes.now) i).cell) × (result < 65536) }
{
    fields::number_at(file.bytes, state_value(file, i))
}

pub fn state_speed(file: &SiteFile<'_>, i: usize) -> u8
    requires { i < length (site_of file.now.bytes.now).states }
    ensures { result ≡ (state_at (site_of file.now.bytes.now) i).speed }
{
    file.bytes[state_value(file, i) + 2]
}

// A motion: its numbers, and the place and the count of its sweeps.
#[derive(Clone, Copy)]
pub struct Motion {
    pub from: usize,
    pub to: usize,
    pub span: u8,
    pub first: usize,
    pub count: usize,
}

// The motion whose field starts at `at`.
pub fn read_motion(file: &[u8], at: usize) -> Motion
    requires { (complete (fields_at file.now at) ≡ true) × (at < length file.now) × (is_motion (field_at file.now at) ≡ true) }
    ensures { MotionIs file.now (motion_of (field_at file.now at)) result }
{
    let h = fields::header_at(file, at);
    Motion {
        from: fields::number_at(file, h.start),
        to: fields::number_at(file, h.start + 2),
        span: file[h.start + 4],
        first: h.start + site_layout::MOTION_SIZE,
        count: site_layout::sweep_count(h.len),
    }
}

// The index: where the field of each of the `motions` motions starts, found in one walk from `start`, where they start.
pub fn fill_index(file: &SiteFile<'_>, start: usize, motions: usize, index: &mut [u16])
    requires file_len_bound { (length file.now.bytes.now ≤ 65536) × (start ≡ state_place (length (site_of file.now.bytes.now).states)) × (motions ≡ length (site_of file.now.bytes.now).motions) }
    requires motions_in_bounds { motions ≤ length index.old }
    ensures index { Index file.now.bytes.now index.new }
    ensures index_len_unchanged { length index.new ≡ length index.old }
{
    let mut at = start;
    for entry in index[..motions].iter_mut() {
        *entry = at as u16;
        at = fields::next_field(file.bytes, at);
    }
}

// The motion of the number `k`.
pub fn motion_at(motions: &Motions<'_>, k: usize) -> Motion
    requires { k < length (site_of motions.now.file.bytes.now).motions }
    ensures { MotionIs motions.now.file.bytes.now (motion_at (site_of motions.now.file.bytes.now) k) result }
{
    read_motion(motions.file.bytes, motions.starts[k] as usize)
}

// The motion of the number `k` without an index: found by a walk from `start`, where the motions start.
pub fn find_motion(file: &SiteFile<'_>, start: usize, k: usize) -> Motion
    requires { (start ≡ state_place (length (site_of file.now.bytes.now).states)) × (k < length (site_of file.now.bytes.now).motions) }
    ensures { MotionIs file.now.bytes.now (motion_at (site_of file.now.bytes.now) k) result }
{
    let mut at = start;
    for _ in 0..k {
        at = fields::next_field(file.bytes, at);
    }
    read_motion(file.bytes, at)
}

// A cell's centre, in millimetres.
#[derive(Clone, Copy)]
pub struct Centre {
    pub x: u16,
    pub y: u16,
}

// The centre of the cell, in a file with `centres` of them: they end the file, each in as many bytes.
pub fn read_centre(file: &SiteFile<'_>, centres: usize, cell: usize) -> Centre
    requires { (centres ≡ length (site_of file.now.bytes.now).centres) × (cell < centres) }
    ensures { result ≡ centre_read (centre_at (site_of file.now.bytes.now) cell) }
{
    let at = file.bytes.len() - CENTRE_FIELD * (centres - cell);
    Centre {
        x: fields::u16_at(file.bytes, at + FIELD_HEADER),
        y: fields::u16_at(file.bytes, at + FIELD_HEADER + 2),
    }
}
