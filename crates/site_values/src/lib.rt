// The rules on the values of states and motions: the checks 5 and 6.
#![tactic(auto)]

ghost use Rattle.std.specs.Prelude.{◌≡◌, true, ◌<◌, length};
ghost use Rattle.meaning.specs.Basics.{all};
ghost use Rattle.meaning.specs.Fields.{complete};
ghost use Rattle.meaning.specs.Site.{site_of, motion_of, is_motion, cell_good, ends_good, motion_good};
ghost use Rattle.fields.specs.Places.{fields_at, field_at};
ghost use Rattle.site_layout.specs.Laid.{state_place};

use site_layout::SiteFile;

// Each of the `count` states names a cell below `cells`.
pub fn states_good(file: &SiteFile<'_>, count: usize, cells: usize) -> bool
    requires { count ≡ length (site_of file.now.bytes.now).states }
    ensures { result ≡ all (cell_good cells) (site_of file.now.bytes.now).states }
{
    (0..count).all(|i| site_read::state_cell(file, i) < cells)
}

// The states are two of `count` and differ, and the span is not 0.
#[tactic(auto, unfolding(meaning::specs::Site::ends_good))]
fn ends_good(from: usize, to: usize, span: u8, count: usize) -> bool
    ensures { result ≡ ends_good count from to span }
{
    from < count && to < count && from != to && 0 < span
}

// The motion whose field starts at `at` meets the rules on its values and sweeps.
fn motion_good(file: &SiteFile<'_>, at: usize, count: usize, cells: usize) -> bool
    requires at_motion { (complete (fields_at file.now.bytes.now at) ≡ true) × (at < length file.now.bytes.now) × (is_motion (field_at file.now.bytes.now at) ≡ true) }
    requires cells_value { (cells ≡ (site_of file.now.bytes.now).cells) × (count ≡ length (site_of file.now.bytes.now).states) }
    ensures { result ≡ motion_good (site_of file.now.bytes.now) (motion_of (field_at file.now.bytes.now at)) }
{
    let m = site_read::read_motion(file.bytes, at);
    if !ends_good(m.from, m.to, m.span, count) {
        return false;
    }
    let x = site_read::state_cell(file, m.from);
    let y = site_read::state_cell(file, m.to);
    let sweeps = site_sweeps::sweeps_at(file.bytes, m.first, m.count);
    site_handover::sweeps_pass(sweeps, m.span, cells, x, y)
}

// Each of the `motions` motions does, which start at `start`.
pub fn motions_good(
    file: &SiteFile<'_>,
    start: usize,
    motions: usize,
    count: usize,
    cells: usize,
) -> bool
    requires all_motions { (start ≡ state_place (length (site_of file.now.bytes.now).states)) × (motions ≡ length (site_of file.now.bytes.now).motions) }
    requires cells_value { (cells ≡ (site_of file.now.bytes.now).cells) × (count ≡ length (site_of file.now.bytes.now).states) }
    ensures { result ≡ all (motion_good (site_of file.now.bytes.now)) (site_of file.now.bytes.now).motions }
{
    let mut at = start;
    for _ in 0..motions {
        if !motion_good(file, at, count, cells) {
            return false;
        }
        at = fields::next_field(file.bytes, at);
    }
    true
}
