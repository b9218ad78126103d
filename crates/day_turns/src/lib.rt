// The day program's turns: the first field of the script performed, and its line.
#![tactic(auto)]

ghost use Rattle.std.specs.Prelude.{◌≤◌, length, take};
ghost use Rattle.meaning.specs.Limits.{header};
ghost use Rattle.meaning.specs.Fields.{fields};
ghost use Rattle.day_orders.specs.Orders.{call_by};
ghost use Rattle.day_calls.specs.Performed.{Areas, day_at};
ghost use Rattle.day_turns.specs.Turns.{day_if, LineWritten, Turned};

use day_lines::LINE;
use day_orders::{Entry, Order};
use day_results::Outcome;
use std::ops::ControlFlow;

// Performs a call and writes its line, with the edition that the board has after it.
fn perform_line(
    file: &[u8],
    board: &mut [u8],
    out: &mut [u8],
    words: &mut [u32],
    light: usize,
    o: Order,
    line: &mut [u8; LINE],
) -> Outcome
    requires areas { Areas (length out.old) (length words.old) light }
    requires header_in_bounds { header ≤ length board.old }
    ensures { LineWritten file.now (day_at board.old out.old light) (call_by (take light out.old) o) result line.new (day_if board.new out.new result.next) }
{
    let done = day_calls::perform(file, board, out, words, light, o);
    let edition = board::read_edition(board);
    let text = day_lines::write_line(
        line,
        u64::from(done.number),
        u64::from(edition),
        u64::from(done.arrival),
    );
    Outcome {
        text,
        next: ControlFlow::Continue(done.light),
    }
}

// Performs the first field of the bytes. The last granted light is the front of the output area. No bytes are the script's end, and an
// empty script if this is the first turn.
pub fn turn(
    file: &[u8],
    board: &mut [u8],
    out: &mut [u8],
    words: &mut [u32],
    light: usize,
    first: bool,
    bytes: &[u8],
    line: &mut [u8; LINE],
) -> Outcome
    requires areas { Areas (length out.old) (length words.old) light }
    requires header_in_bounds { header ≤ length board.old }
    ensures { Turned file.now first (fields bytes.now) (day_at board.old out.old light) result line.new (day_if board.new out.new result.next) }
{
    match day_orders::read_entry(bytes) {
        Entry::Call(o) => perform_line(file, board, out, words, light, o, line),
        Entry::Bad => day_results::ended(light, day_lines::write_line(line, 99, 0, 0)),
        Entry::End => day_results::ended(light, day_lines::write_end(line, first)),
    }
}
