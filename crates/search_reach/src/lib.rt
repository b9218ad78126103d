// The search over a site in arrays, block by block up to the one in which the tug arrives.
#![tactic(auto)]

ghost use Rattle.std.specs.Prelude.{◌≡◌, true, false, ℕ, ◌+◌, ◌*◌, ◌≤◌, ◌<◌, length};
ghost use Rattle.meaning.specs.Site.{cell_of};
ghost use Rattle.meaning.specs.Plan.{node};
ghost use Rattle.site.specs.Halls.{site_in, free_in};
ghost use Rattle.search_sizes.specs.Sizes.{block_ticks, blocks};
ghost use Rattle.search_ticks.specs.Rows.{at, has};
ghost use Rattle.search_runs.specs.Runs.{Tables, Ahead};
ghost use Rattle.search_step.specs.Sets.{Closed, Within, Kept};
ghost use Rattle.search_lists.specs.Lists.{Listed};
ghost use Rattle.search_ends.specs.Ends.{reached_at, ends_on, First, EndsRight};
ghost use Rattle.search_reach.specs.Explored.{free_from, Space, Scratch};

use search_lists::End;
use search_scene::Scene;
use search_sizes::{BLOCK_TICKS, TICKS};
use search_step::Network;
use site::Trip;

// The areas of a search stand beside one another as parameters: a struct that held each as a `&mut` would owe a clause for every one of
// them, that it is still the same borrow.

// One block: its free ticks and runs, and then all waits and motions that end in it.
fn explore_block(
    scene: &Scene<'_>,
    lists: &[u16],
    tables: usize,
    block: usize,
    tab: &mut [u64],
    known: &mut [bool],
    grown: &mut [bool],
    allowed: &mut [u64],
    reached: &mut [u64],
)
    requires block_lt_blocks { block < blocks }
    requires space { Space scene.now.hall.sizes scene.now.motions.now tables (length tab.old) }
    requires scratch { Scratch scene.now.hall.sizes (length lists.now) (length known.old) (length grown.old) (length allowed.old) (length reached.old) }
    ensures tab_len_unchanged { (length tab.new ≡ length tab.old) × (length allowed.new ≡ length allowed.old) }
    ensures known_len_unchanged { (length known.new ≡ length known.old) × (length grown.new ≡ length grown.old) }
    ensures kept { Kept block reached.old reached.new }
    ensures by_first { (first : ℕ) → first ≤ block → Listed 0 scene.now.hall.sizes.motions scene.now.motions.now lists.now
        → Ahead (free_from (free_in scene.now.hall) first) scene.now.hall.sizes.cells tables block tab.old
        → Tables (free_from (free_in scene.now.hall) first) scene.now.hall.sizes.cells tables block tab.new
        × (Within (Closed scene.now.hall.sizes.states scene.now.hall.sizes.motions scene.now.states.now scene.now.motions.now scene.now.hall.file.bytes.now (free_from (free_in scene.now.hall) first) block) reached.old reached.new
        × Closed scene.now.hall.sizes.states scene.now.hall.sizes.motions scene.now.states.now scene.now.motions.now scene.now.hall.file.bytes.now (free_from (free_in scene.now.hall) first) block (has reached.new)) }
{
    let sizes = scene.hall.sizes;
    search_runs::shift_rows(tab, tables * sizes.cells);
    search_free::free_block(
        tab,
        scene.hall.board,
        sizes.cells,
        sizes.horizon,
        sizes.margin,
        block,
    );
    search_runs::fill_runs(tab, sizes.cells, tables);
    let network = Network {
        states: scene.states,
        motions: scene.motions,
        sweeps: scene.hall.file.bytes,
        cell_count: sizes.cells,
        state_count: sizes.states,
        motion_count: sizes.motions,
    };
    search_fixpoint::settle(&network, tab, lists, block, allowed, known, reached, grown);
}

// The first tick from the trip's on at which its goal is reached and the tug can unload, or the tick after the horizon. The reached pairs
// up to that tick stand in `reached`. The start's cell is free; `tab` and `reached` are empty at first, what the other areas hold does not
// matter.
pub fn explore(
    scene: &Scene<'_>,
    tables: usize,
    ends: &[bool; TICKS],
    trip: Trip,
    lists: &mut [u16],
    known: &mut [bool],
    grown: &mut [bool],
    allowed: &mut [u64],
    reached: &mut [u64],
    tab: &mut [u64],
) -> usize
    requires space { Space scene.now.hall.sizes scene.now.motions.now tables (length tab.old) }
    requires scratch { Scratch scene.now.hall.sizes (length lists.old) (length known.old) (length grown.old) (length allowed.old) (length reached.old) }
    requires empty { ((j : ℕ) → at tab.old j ≡ false) × ((j : ℕ) → at reached.old j ≡ false) }
    requires start_lt_states { (trip.start < scene.now.hall.sizes.states) × ((trip.goal < scene.now.hall.sizes.states) × (trip.tick ≤ scene.now.hall.sizes.horizon)) }
    requires start_free { free_in scene.now.hall (cell_of (site_in scene.now.hall) trip.start) trip.tick ≡ true }
    ensures reached_len_unchanged { (length reached.new ≡ length reached.old) × (trip.tick ≤ result) }
    ensures lists_len_unchanged { length lists.new ≡ length lists.old }
    ensures first_end { (dwell : ℕ) → EndsRight (site_in scene.now.hall) (free_in scene.now.hall) trip.goal dwell trip.tick ends.now
        → First (ends_on (site_in scene.now.hall) (free_in scene.now.hall) (node trip.start trip.tick) trip.goal dwell) trip.tick (scene.now.hall.sizes.horizon + 1) result }
    ensures reached_pairs { result ≤ scene.now.hall.sizes.horizon → (s t : ℕ) → t ≤ result
        → has reached.new s (block_ticks + t) ≡ reached_at (site_in scene.now.hall) (free_in scene.now.hall) (node trip.start trip.tick) s t }
{
    let sizes = scene.hall.sizes;
    let tick = trip.tick as usize;
    search_lists::fill_lists(scene.motions, sizes.motions, sizes.states, End::From, lists);
    search_ticks::seed(reached, trip.start as usize, tick);
    for block in tick / BLOCK_TICKS..sizes.horizon / BLOCK_TICKS + 1 {
        explore_block(
            scene, lists, tables, block, tab, known, grown, allowed, reached,
        );
        let low = (block * BLOCK_TICKS).max(tick);
        let high = (block * BLOCK_TICKS + BLOCK_TICKS).min(sizes.horizon + 1);
        let arrival = search_ends::first_end(reached, ends, trip.goal as usize, low, high);
        if arrival < high {
            return arrival;
        }
    }
    sizes.horizon + 1
}
