// The search of a route call: the light of the plan with the least arrival from which the tug can unload.
#![tactic(auto)]

ghost use Rattle.std.specs.Prelude.{◌≡◌, ◌≤◌, length};
ghost use Rattle.meaning.specs.Calls.{light_room};
ghost use Rattle.site.specs.Halls.{site_in};
ghost use Rattle.search_plan.specs.Planned.{Asked, route_on};
ghost use Rattle.search.specs.Finds.{light_on, found_of, out_of};

use answers::Granted;
use light::Head;
use light_write::CODE_LIMIT;
use search_trace::Path;
use site::{Hall, Trip};

// Writes the light of the plan with the least arrival from which the tug can unload. Says how many bytes it has and the arrival, or that no
// plan exists.
pub fn find(hall: &Hall<'_>, tug: u8, trip: Trip, out: &mut [u8]) -> Option<Granted>
    requires asked { Asked hall.now trip }
    requires room { light_room (site_in hall.now) ≤ length out.old }
    ensures value { result ≡ found_of (route_on hall.now trip) (light_on hall.now tug trip) }
    ensures out_after { out.new ≡ out_of (route_on hall.now trip) (light_on hall.now tug trip) out.old }
{
    let mut path = Path {
        codes: [0; CODE_LIMIT],
        count: 0,
    };
    let arrival = search_plan::search(hall, trip, &mut path)? as u16;
    let edition = board::read_edition(hall.board);
    let head = Head {
        edition,
        tug,
        start: trip.start,
        tick: trip.tick,
        goal: trip.goal,
        arrival,
        dwell: trip.dwell,
    };
    light_write::write_light(out, &path.codes, path.count, head);
    Some(Granted {
        len: light::length_of(path.count) as u16,
        arrival,
    })
}
