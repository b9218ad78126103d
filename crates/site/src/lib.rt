// The site file: the check of any file, and what an accepted one says of its sizes.
#![tactic(auto)]

mod hall;

ghost use Rattle.std.specs.Prelude.{◌≡◌, ◌≤◌, length, IfOk};
ghost use Rattle.meaning.specs.Answers.{lowest};
ghost use Rattle.meaning.specs.Plan.{node};
ghost use Rattle.meaning.specs.Calls.{trip_named};
ghost use Rattle.meaning.specs.Site.{Site, site_of, site_refusals};
ghost use Rattle.answers.specs.Answers.{number_of};
ghost use Rattle.site_layout.specs.Laid.{HeadIs};
ghost use Rattle.site.specs.Check.{sizes_of};

use answers::Refusal;
pub use hall::Hall;
use site_layout::{Head, SiteFile};

// The most bytes of a site file.
pub const FILE_LIMIT: usize = 65536;

// What an accepted file says of its site: H, C, the margin, the counts, and where the motions start.
#[derive(Clone, Copy)]
pub struct Sizes {
    pub horizon: usize,
    pub cells: usize,
    pub margin: usize,
    pub states: usize,
    pub motions: usize,
    pub start: usize,
    pub centres: usize,
}

// The most ticks that a tug may unload at its goal.
const DWELL_LIMIT: u16 = 1000;

// What a route is asked for: from a state at a tick to a goal state, and how long the tug unloads there.
#[derive(Clone, Copy)]
pub struct Trip {
    pub start: u16,
    pub tick: u16,
    pub goal: u16,
    pub dwell: u16,
}

// The start state, the start tick and the goal state are the site's, and the dwell is within its limit.
#[tactic(auto, unfolding(meaning::specs::Calls::trip_named, meaning::specs::Basics::every))]
pub fn trip_named(sizes: Sizes, trip: Trip) -> bool
    ensures { (site : Site) → sizes ≡ sizes_of site → result ≡ trip_named site (node trip.start trip.tick) trip.goal trip.dwell }
{
    (trip.start as usize) < sizes.states
        && trip.tick as usize <= sizes.horizon
        && (trip.goal as usize) < sizes.states
        && trip.dwell <= DWELL_LIMIT
}

// The checks 5 and 6, in a file that passed those before.
#[tactic(auto, using(site_layout::proofs::Laws::states_few), unfolding(meaning::specs::Site::site_refusals, meaning::specs::Answers::lowest))]
fn check_values(file: &SiteFile<'_>, head: Head) -> Result<Sizes, Refusal>
    requires { (length file.now.bytes.now ≤ 65536) × HeadIs file.now.bytes.now head }
    ensures number { number_of result ≡ lowest (site_refusals file.now.bytes.now) }
    ensures sizes { IfOk result (λ l. l ≡ sizes_of (site_of file.now.bytes.now)) }
{
    let cells = head.cells;
    let count = head.states;
    let start = site_read::state_place(count);
    let states_pass = site_values::states_good(file, count, cells);
    let leading = site_layout::leading_motions(file.bytes, start);
    let motions = leading.count;
    let behind = leading.next;
    let centres = fields::count_fields(file.bytes, behind);
    let motions_pass = site_values::motions_good(file, start, motions, count, cells);
    if !states_pass {
        return Err(Refusal::StateCell);
    }
    if !motions_pass {
        return Err(Refusal::Motion);
    }
    Ok(Sizes {
        horizon: head.horizon,
        cells,
        margin: head.margin,
        states: count,
        motions,
        start,
        centres,
    })
}

// The check of any file: the sizes of an accepted one, or the refusal with the lowest number that applies.
#[tactic(auto, using(crate::proofs::PlaceLaws::layout_same, site_layout::proofs::Laws::head_here), unfolding(meaning::specs::Site::site_refusals, meaning::specs::Answers::lowest))]
pub fn check_site(file: &[u8]) -> Result<Sizes, Refusal>
    ensures number { number_of result ≡ lowest (site_refusals file.now) }
    ensures sizes { IfOk result (λ l. l ≡ sizes_of (site_of file.now)) }
{
    if FILE_LIMIT < file.len() {
        return Err(Refusal::SiteTooLong);
    }
    if !fields::fields_complete(file) {
        return Err(Refusal::SiteCut);
    }
    if !site_layout::head_good(file) {
        return Err(Refusal::SiteHead);
    }
    let head = site_layout::read_head(file);
    if !site_layout::layout_good(file, head.start, head.states, head.cells) {
        return Err(Refusal::SiteLayout);
    }
    check_values(&SiteFile { bytes: file }, head)
}
