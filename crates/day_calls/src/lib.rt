// A call of the script performed on the day's board.
#![tactic(auto)]

ghost use Rattle.std.specs.Prelude.{◌≤◌, length, take};
ghost use Rattle.meaning.specs.Limits.{day_area};
ghost use Rattle.day_orders.specs.Orders.{call_by};
ghost use Rattle.day_calls.specs.Performed.{Areas, day_at, Performed};

use day_orders::Order;
use day_results::CallResult;

// Performs a call. The last granted light is the front of the output area: a refused route leaves it there.
// The areas stay parameters here and above: in a struct of `&mut` fields each function would have to say that it leaves the same ones in it.
pub fn perform(
    file: &[u8],
    board: &mut [u8],
    out: &mut [u8],
    words: &mut [u32],
    light: usize,
    o: Order,
) -> CallResult
    requires { Areas (length out.old) (length words.old) light }
    ensures performed { Performed file.now (day_at board.old out.old light) (call_by (take light out.old) o) result (day_at board.new out.new result.light) }
    ensures light_le_day_area { result.light ≤ day_area }
{
    match o {
        Order::Close(holder, cell, first, last) => {
            day_results::changed(
                dispatch::close(file, board, holder, cell, first, last),
                light,
            )
        }
        Order::Withdraw(holder) => day_results::changed(
            dispatch::withdraw(file, board, holder),
            light,
        ),
        Order::Route(tug, start, tick, goal, dwell) => {
            let g = dispatch::route(file, board, tug, start, tick, goal, dwell, out, words);
            day_results::routed(g, light)
        }
        Order::Post => day_results::changed(dispatch::post(file, board, &out[..light]), light),
    }
}
