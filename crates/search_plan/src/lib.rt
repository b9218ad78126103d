// The plan with the least arrival from which the tug can unload, on an accepted site, from all parts of the search.
#![tactic(auto)]

mod lengths;

ghost use Rattle.std.specs.Prelude.{◌≡◌, false, ℕ, ◌*◌, ◌≤◌, ◌<◌, length};
ghost use Rattle.search_sizes.specs.Sizes.{table_limit};
ghost use Rattle.search_ticks.specs.Rows.{at};
ghost use Rattle.search_reach.specs.Explored.{Scratch};
ghost use Rattle.search_plan.specs.Planned.{Asked, route_on, Planned, Possible, Needed, TabRoom};

use lengths::{
    MIDDLE_ALLOWED_WORDS, MIDDLE_LINKS, MIDDLE_MOTION_NUMBERS, MIDDLE_REACHED_WORDS,
    MIDDLE_STATE_NUMBERS, MIDDLE_TABLE_WORDS, MOST_ALLOWED_WORDS, MOST_LINKS, MOST_MOTION_NUMBERS,
    MOST_REACHED_WORDS, MOST_STATE_NUMBERS, MOST_TABLE_WORDS, SMALL_ALLOWED_WORDS, SMALL_LINKS,
    SMALL_MOTION_NUMBERS, SMALL_REACHED_WORDS, SMALL_STATE_NUMBERS, SMALL_TABLE_WORDS,
    WIDE_ALLOWED_WORDS, WIDE_LINKS, WIDE_MOTION_NUMBERS, WIDE_REACHED_WORDS, WIDE_STATE_NUMBERS,
    WIDE_TABLE_WORDS,
};
use search_scene::Scene;
use search_sizes::{
    MIDDLE_MOTIONS, MIDDLE_ROWS, MIDDLE_STATES, MOTIONS, SMALL_MOTIONS, SMALL_ROWS, SMALL_STATES,
    STATES, TICKS, WIDE_MOTIONS, WIDE_ROWS, WIDE_STATES,
};
use search_trace::Path;
use site::{Hall, Trip};

// A trip to be planned in a hall, and what is worked out before the search: at which ticks the tug can unload, and how many tables of runs
// the motions need.
#[derive(Clone, Copy)]
struct Query<'a> {
    hall: Hall<'a>,
    trip: Trip,
    ends: &'a [bool; TICKS],
    tables: usize,
    ghost possible: { Possible hall trip ends.now },
    ghost needed: { Needed hall tables },
}

// The plan's arrival, its steps in `path`, by a search in empty tables with room for it.
fn search_in(
    query: &Query<'_>,
    states: &mut [u16],
    motions: &mut [u16],
    lists: &mut [u16],
    known: &mut [bool],
    grown: &mut [bool],
    allowed: &mut [u64],
    reached: &mut [u64],
    tab: &mut [u64],
    path: &mut Path,
) -> Option<usize>
    requires states_in_bounds { (query.now.hall.sizes.states * 2 ≤ length states.old) × (query.now.hall.sizes.motions * 5 ≤ length motions.old) }
    requires scratch { Scratch query.now.hall.sizes (length lists.old) (length known.old) (length grown.old) (length allowed.old) (length reached.old) }
    requires tab_room { TabRoom query.now.hall.sizes query.now.tables (length tab.old) × ((j : ℕ) → at tab.old j ≡ false) }
    requires none_reached { (j : ℕ) → at reached.old j ≡ false }
    ensures { Planned (route_on query.now.hall query.now.trip) path.new result }
{
    let sizes = query.hall.sizes;
    let trip = query.trip;
    search_site::decode_states(&query.hall.file, sizes.states, states);
    search_site::decode_motions(&query.hall.file, sizes.start, sizes.motions, motions);
    let scene = Scene {
        hall: query.hall,
        states,
        motions,
    };
    let arrival = search_reach::explore(
        &scene,
        query.tables,
        query.ends,
        trip,
        lists,
        known,
        grown,
        allowed,
        reached,
        tab,
    );
    if sizes.horizon < arrival {
        return None;
    }
    search_trace::trace_back(
        &scene,
        lists,
        reached,
        trip.tick as usize,
        trip.goal as usize,
        arrival,
        path,
    );
    Some(arrival)
}

// The search in new tables of so many states and motions.
fn search_new<
    const STATE_COUNT: usize,
    const MOTION_COUNT: usize,
    const STATE_NUMBERS: usize,
    const MOTION_NUMBERS: usize,
    const LINKS: usize,
    const ALLOWED_WORDS: usize,
    const REACHED_WORDS: usize,
>(query: &Query<'_>, tab: &mut [u64], path: &mut Path) -> Option<usize>
    requires states_in_bounds { (query.now.hall.sizes.states * 2 ≤ STATE_NUMBERS) × (query.now.hall.sizes.motions * 5 ≤ MOTION_NUMBERS) }
    requires scratch { Scratch query.now.hall.sizes LINKS MOTION_COUNT STATE_COUNT ALLOWED_WORDS REACHED_WORDS }
    requires few { (STATE_COUNT < table_limit) × ((MOTION_COUNT < table_limit) × ((STATE_NUMBERS < table_limit) × (MOTION_NUMBERS < table_limit))) }
    requires few_words { (LINKS < table_limit) × ((ALLOWED_WORDS < table_limit) × (REACHED_WORDS < table_limit)) }
    requires tab_room { TabRoom query.now.hall.sizes query.now.tables (length tab.old) × ((j : ℕ) → at tab.old j ≡ false) }
    ensures { Planned (route_on query.now.hall query.now.trip) path.new result }
{
    let mut states = [0u16; STATE_NUMBERS];
    let mut motions = [0u16; MOTION_NUMBERS];
    let mut lists = [0u16; LINKS];
    let mut known = [false; MOTION_COUNT];
    let mut grown = [false; STATE_COUNT];
    let mut allowed = [0u64; ALLOWED_WORDS];
    let mut reached = [0u64; REACHED_WORDS];
    search_in(
        query,
        &mut states,
        &mut motions,
        &mut lists,
        &mut known,
        &mut grown,
        &mut allowed,
        &mut reached,
        tab,
        path,
    )
}

// In the smallest of four sizes with room for the site.
fn search_sized(query: &Query<'_>, tab: &mut [u64], path: &mut Path) -> Option<usize>
    requires { TabRoom query.now.hall.sizes query.now.tables (length tab.old) × ((j : ℕ) → at tab.old j ≡ false) }
    ensures { Planned (route_on query.now.hall query.now.trip) path.new result }
{
    let sizes = query.hall.sizes;
    if sizes.states <= SMALL_STATES && sizes.motions <= SMALL_MOTIONS {
        return search_new::<
            SMALL_STATES,
            SMALL_MOTIONS,
            SMALL_STATE_NUMBERS,
            SMALL_MOTION_NUMBERS,
            SMALL_LINKS,
            SMALL_ALLOWED_WORDS,
            SMALL_REACHED_WORDS,
        >(query, tab, path);
    }
    if sizes.states <= MIDDLE_STATES && sizes.motions <= MIDDLE_MOTIONS {
        return search_new::<
            MIDDLE_STATES,
            MIDDLE_MOTIONS,
            MIDDLE_STATE_NUMBERS,
            MIDDLE_MOTION_NUMBERS,
            MIDDLE_LINKS,
            MIDDLE_ALLOWED_WORDS,
            MIDDLE_REACHED_WORDS,
        >(query, tab, path);
    }
    if sizes.states <= WIDE_STATES && sizes.motions <= WIDE_MOTIONS {
        return search_new::<
            WIDE_STATES,
            WIDE_MOTIONS,
            WIDE_STATE_NUMBERS,
            WIDE_MOTION_NUMBERS,
            WIDE_LINKS,
            WIDE_ALLOWED_WORDS,
            WIDE_REACHED_WORDS,
        >(query, tab, path);
    }
    search_new::<
        STATES,
        MOTIONS,
        MOST_STATE_NUMBERS,
        MOST_MOTION_NUMBERS,
        MOST_LINKS,
        MOST_ALLOWED_WORDS,
        MOST_REACHED_WORDS,
    >(query, tab, path)
}

// The search in new tables of runs of so many words.
fn search_tables<const TABLE_WORDS: usize>(query: &Query<'_>, path: &mut Path) -> Option<usize>
    requires { TabRoom query.now.hall.sizes query.now.tables TABLE_WORDS }
    ensures { Planned (route_on query.now.hall query.now.trip) path.new result }
{
    let mut tab = [0u64; TABLE_WORDS];
    search_sized(query, &mut tab, path)
}

// In the smallest of four sizes with room for the rows of the tables.
fn search_rows(query: &Query<'_>, path: &mut Path) -> Option<usize>
    ensures { Planned (route_on query.now.hall query.now.trip) path.new result }
{
    let rows = query.tables * query.hall.sizes.cells;
    if rows <= SMALL_ROWS {
        return search_tables::<SMALL_TABLE_WORDS>(query, path);
    }
    if rows <= MIDDLE_ROWS {
        return search_tables::<MIDDLE_TABLE_WORDS>(query, path);
    }
    if rows <= WIDE_ROWS {
        return search_tables::<WIDE_TABLE_WORDS>(query, path);
    }
    search_tables::<MOST_TABLE_WORDS>(query, path)
}

// The arrival of the plan with the least one from which the tug can unload, its steps in `path`. Where the start is held, or the tug can
// nowhere unload in time, there is none at once.
pub fn search(hall: &Hall<'_>, trip: Trip, path: &mut Path) -> Option<usize>
    requires { Asked hall.now trip }
    ensures { Planned (route_on hall.now trip) path.new result }
{
    let sizes = hall.sizes;
    let tick = trip.tick as usize;
    let cell = site_read::state_cell(&hall.file, trip.start as usize);
    if !plan_ticks::ticks_of(hall, cell).is_free(tick) {
        return None;
    }
    let dock = site_read::state_cell(&hall.file, trip.goal as usize);
    let mut ends = [false; TICKS];
    let at_dock = plan_ticks::ticks_of(hall, dock);
    search_ends::fill_ends(&at_dock, tick, trip.dwell as usize, &mut ends);
    if !search_ends::some_end(&ends, tick, sizes.horizon) {
        return None;
    }
    let longest = search_site::longest_span(&hall.file, sizes.start, sizes.motions);
    let query = Query {
        hall: *hall,
        trip,
        ends: &ends,
        tables: search_runs::table_of(longest + 1) + 1,
    };
    search_rows(&query, path)
}
