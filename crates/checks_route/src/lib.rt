// The later checks of a route call up to 14. What is behind them is the search.
#![tactic(auto)]

ghost use Rattle.std.specs.Prelude.{◌≡◌, ◌≤◌};
ghost use Rattle.meaning.specs.Limits.{horizon_limit, state_limit};
ghost use Rattle.meaning.specs.Answers.{lowest};
ghost use Rattle.meaning.specs.Site.{Site};
ghost use Rattle.meaning.specs.Calls.{words_needed, bytes_view, Room};
ghost use Rattle.meaning.specs.Plan.{node};
ghost use Rattle.answers.specs.Answers.{number_of};
ghost use Rattle.site.specs.Check.{sizes_of};
ghost use Rattle.site.specs.Halls.{site_in};
ghost use Rattle.checks_route.specs.Checks.{room_enough, route_checks};

use answers::Refusal;
use site::{Hall, Sizes, Trip};

// The words that a search needs, one for each state and tick.
pub fn words_needed(sizes: Sizes) -> usize
    requires { (sizes.states ≤ state_limit) × (sizes.horizon ≤ horizon_limit) }
    ensures { (site : Site) → sizes ≡ sizes_of site → result ≡ words_needed site }
{
    sizes.states * (sizes.horizon + 1)
}

// Is there room for a light with a step at each tick, and for the words of the search?
#[tactic(auto, using(crate::proofs::Laws::ready_small), unfolding(crate::specs::Checks::room_enough, meaning::specs::Basics::every))]
fn room_enough(hall: &Hall<'_>, out_len: usize, work_len: usize) -> bool
    ensures { (areas : Room) → areas.out ≡ out_len → areas.words ≡ work_len → result ≡ room_enough (site_in hall.now) areas }
{
    light::length_of(hall.sizes.horizon) <= out_len && words_needed(hall.sizes) <= work_len
}

// The checks of route from 9 to 14.
#[tactic(auto, using(meaning::proofs::CallLaws::named_goal), unfolding(crate::specs::Checks::room_enough, meaning::specs::Calls::route_refusals, meaning::specs::Calls::bytes_view, meaning::specs::Answers::lowest))]
pub fn check_route(
    hall: &Hall<'_>,
    tug: u8,
    trip: Trip,
    out_len: usize,
    work_len: usize,
) -> Result<(), Refusal>
    ensures { (areas : Room) → areas.out ≡ out_len → areas.words ≡ work_len → number_of result ≡ lowest (route_checks (site_in hall.now) (bytes_view (site_in hall.now) hall.now.board.now) areas tug (node trip.start trip.tick) trip.goal trip.dwell) }
{
    if !board_sorts::is_tug(tug) {
        return Err(Refusal::HolderRange);
    }
    if !site::trip_named(hall.sizes, trip) {
        return Err(Refusal::OutOfRange);
    }
    if site_read::state_speed(&hall.file, trip.goal as usize) != 0 {
        return Err(Refusal::GoalRolling);
    }
    if board::holder_stands(hall.board, tug) {
        return Err(Refusal::HolderStands);
    }
    if !room_enough(hall, out_len, work_len) {
        return Err(Refusal::AreaShort);
    }
    Ok(())
}
