// Computes the table of travel times and prints it: 512 lines, a number each, entry 0 first. `travel` carries these numbers.
#![tactic(auto)]

ghost use Rattle.std.specs.Prelude.{◌≡◌, ◌+◌, ◌≤◌, min};
ghost use Rattle.meaning.specs.Limits.{last_distance};
ghost use Rattle.travel_runs.specs.Entries.{top_speed, farthest, fewest};

use travel_runs::{LAST_DISTANCE, SPEED_LIMIT};

// The highest speed at the tick `t` of a run of `n` ticks.
fn top_speed(n: u32, t: u32) -> u32
    requires { t ≤ n }
    ensures { result ≡ top_speed n t }
{
    SPEED_LIMIT.min(t.min(n - t))
}

// How far a run of `n` ticks gets at most.
#[tactic(auto, unfolding(travel_runs::specs::Entries::farthest))]
fn farthest(n: u32) -> u32
    requires { n ≤ last_distance + 1 }
    ensures { result ≡ farthest n }
{
    let mut sum = top_speed(n, 0);
    for t in 0..n {
        sum += top_speed(n, t + 1);
    }
    sum
}

// Entry `d`: the first number of ticks whose run gets that far. How many are to be tried is not known before, so it is a `while`.
#[tactic(auto, using(travel_runs::proofs::EntryLaws::at_most, travel_runs::proofs::EntryLaws::not_yet, travel_runs::proofs::EntryLaws::bounded))]
fn fewest(d: u32) -> u32
    requires { d ≤ last_distance }
    ensures { result ≡ fewest d }
{
    let mut n = 0;
    while farthest(n) < d {
        n += 1;
    }
    n
}

fn main(rt: HostRuntime) {
    for d in 0..=LAST_DISTANCE {
        let ticks = fewest(d);
        if println!(rt; "{ticks}").is_err() {
            return;
        }
    }
}
