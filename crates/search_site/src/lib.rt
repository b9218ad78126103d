// The site file in arrays of numbers, as the search takes it: two numbers a state, five a motion. The sweeps stay in the file.
#![tactic(auto)]

ghost use Rattle.std.specs.Prelude.{◌≡◌, ℕ, ◌+◌, ◌*◌, ◌≤◌, ◌<◌, length};
ghost use Rattle.meaning.specs.Answers.{accepted};
ghost use Rattle.meaning.specs.Site.{site_of, read_site};
ghost use Rattle.site_layout.specs.Laid.{state_place};
ghost use Rattle.search_site.specs.Arrays.{States, Motions, cell_at, speed_at, from_at, to_at, span_at, place_at, count_at};
ghost use Rattle.search_site.specs.Decoded.{StatesDecoded, set_two, FitsU16, set_motion, MotionsDecoded, LongestTo};

use search_sizes::{MOTION_SIZE, STATE_SIZE};
use site_layout::SiteFile;
use site_read::Motion;

// ---- the numbers of state s: its cell and its speed. These two and the five of a motion differ in a place alone, but a function that they
// share would take the same words: a line that calls it is no shorter.

pub fn cell_of(states: &[u16], n: usize, s: usize) -> usize
    requires states { States n states.now }
    requires s_lt_n { s < n }
    ensures { result ≡ cell_at states.now s }
{
    usize::from(states[s * STATE_SIZE])
}

pub fn speed_of(states: &[u16], n: usize, s: usize) -> usize
    requires states { States n states.now }
    requires s_lt_n { s < n }
    ensures { result ≡ speed_at states.now s }
{
    usize::from(states[s * STATE_SIZE + 1])
}

// ---- the numbers of motion m: the states from which and to which it leads, its span, and the place and number of its sweeps

pub fn from_of(motions: &[u16], k: usize, m: usize) -> usize
    requires motions { Motions k motions.now }
    requires m_lt_k { m < k }
    ensures { result ≡ from_at motions.now m }
{
    usize::from(motions[m * MOTION_SIZE])
}

pub fn to_of(motions: &[u16], k: usize, m: usize) -> usize
    requires motions { Motions k motions.now }
    requires m_lt_k { m < k }
    ensures { result ≡ to_at motions.now m }
{
    usize::from(motions[m * MOTION_SIZE + 1])
}

pub fn span_of(motions: &[u16], k: usize, m: usize) -> usize
    requires motions { Motions k motions.now }
    requires m_lt_k { m < k }
    ensures { result ≡ span_at motions.now m }
{
    usize::from(motions[m * MOTION_SIZE + 2])
}

pub fn place_of(motions: &[u16], k: usize, m: usize) -> usize
    requires motions { Motions k motions.now }
    requires m_lt_k { m < k }
    ensures { result ≡ place_at motions.now m }
{
    usize::from(motions[m * MOTION_SIZE + 3])
}

pub fn count_of(motions: &[u16], k: usize, m: usize) -> usize
    requires motions { Motions k motions.now }
    requires m_lt_k { m < k }
    ensures { result ≡ count_at motions.now m }
{
    usize::from(motions[m * MOTION_SIZE + 4])
}

// ---- the arrays, from the file

// Writes the two numbers of the state s.
fn put_state(states: &mut [u16], s: usize, cell: usize, speed: u8)
    requires { (s * 2 + 1 < length states.old) × (cell < 65536) }
    ensures { states.new ≡ set_two states.old (s * 2) cell speed }
{
    states[s * STATE_SIZE] = cell as u16;
    states[s * STATE_SIZE + 1] = u16::from(speed);
}

// The cell and the speed of each of the `count` states.
pub fn decode_states(file: &SiteFile<'_>, count: usize, states: &mut [u16])
    requires file_value { (read_site file.now.bytes.now ≡ accepted (site_of file.now.bytes.now)) × (count ≡ length (site_of file.now.bytes.now).states) }
    requires count_in_bounds { count * 2 ≤ length states.old }
    ensures states_decoded { StatesDecoded file.now.bytes.now states.new }
    ensures states_len_unchanged { length states.new ≡ length states.old }
{
    for s in 0..count {
        let cell = site_read::state_cell(file, s);
        let speed = site_read::state_speed(file, s);
        put_state(states, s, cell, speed);
    }
}

// Writes the five numbers of the motion m.
fn put_motion(motions: &mut [u16], m: usize, r: Motion)
    requires { (m * 5 + 4 < length motions.old) × FitsU16 r }
    ensures { motions.new ≡ set_motion motions.old (m * 5) r }
{
    motions[m * MOTION_SIZE] = r.from as u16;
    motions[m * MOTION_SIZE + 1] = r.to as u16;
    motions[m * MOTION_SIZE + 2] = u16::from(r.span);
    motions[m * MOTION_SIZE + 3] = r.first as u16;
    motions[m * MOTION_SIZE + 4] = r.count as u16;
}

// From, to, span, place and number of sweeps of each of the `count` motions, which start at `start`.
pub fn decode_motions(file: &SiteFile<'_>, start: usize, count: usize, motions: &mut [u16])
    requires file_value { (read_site file.now.bytes.now ≡ accepted (site_of file.now.bytes.now)) × (start ≡ state_place (length (site_of file.now.bytes.now).states)) }
    requires count_value { (count ≡ length (site_of file.now.bytes.now).motions) × (count * 5 ≤ length motions.old) }
    ensures motions_decoded { MotionsDecoded file.now.bytes.now motions.new }
    ensures motions_len_unchanged { length motions.new ≡ length motions.old }
{
    let mut at = start;
    for m in 0..count {
        put_motion(motions, m, site_read::read_motion(file.bytes, at));
        at = fields::next_field(file.bytes, at);
    }
}

// A span that is no shorter than that of each of the `count` motions, which start at `start`.
pub fn longest_span(file: &SiteFile<'_>, start: usize, count: usize) -> usize
    requires file_value { (read_site file.now.bytes.now ≡ accepted (site_of file.now.bytes.now)) × (start ≡ state_place (length (site_of file.now.bytes.now).states)) }
    requires count_value { count ≡ length (site_of file.now.bytes.now).motions }
    ensures { LongestTo file.now.bytes.now count result }
{
    let mut most = 1usize;
    let mut at = start;
    for _m in 0..count {
        let motion = site_read::read_motion(file.bytes, at);
        most = most.max(usize::from(motion.span));
        at = fields::next_field(file.bytes, at);
    }
    most
}
