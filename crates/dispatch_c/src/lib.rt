// The public calls for C: each answers one word, from which a caller reads the number and the values back. Draw answers its picture's
// floats beside the word.
#![tactic(auto)]

ghost use Rattle.std.specs.Prelude.{◌≡◌, []};
ghost use Rattle.meaning.specs.Calls.{opening, interval, listed, route, audit, post, close, withdraw, meant, lends, on_board};
ghost use Rattle.meaning.specs.Plan.{node};
ghost use Rattle.meaning.specs.Pictures.{draw_meant};
ghost use Rattle.travel_runs.specs.Travel.{travel_meant};
ghost use Rattle.travel.specs.Timed.{timed_of};
ghost use Rattle.answers.specs.Answers.{counted_of, granted_of};
ghost use Rattle.answers_c.specs.Words.{counted_word, granted_word};
ghost use Rattle.draw.specs.Drawn.{drawn_of};
ghost use Rattle.draw_c.specs.Words.{drawn_word};

use answers_c::numbered;
use draw_c::DrawnWord;

#[unsafe(no_mangle)]
pub extern "C" fn dispatch_open(file: &[u8], board: &mut [u8]) -> u64
    ensures value { result ≡ (meant file.now (on_board board.old) opening).number }
    ensures board_after { board.new ≡ (meant file.now (on_board board.old) opening).lent.board }
    ensures file_unchanged { file.exit.now ≡ file.entry.now }
{
    answers_c::answer_word(numbered(dispatch::open(file, board)))
}

#[unsafe(no_mangle)]
pub extern "C" fn dispatch_interval(file: &[u8], board: &[u8], cell: u16, out: &mut [u16]) -> u64
    ensures value { result ≡ counted_word (counted_of (meant file.now (lends board.now out.old []) (interval cell))) }
    ensures out_after { out.new ≡ (meant file.now (lends board.now out.old []) (interval cell)).lent.out }
    ensures file_unchanged { file.exit.now ≡ file.entry.now }
    ensures board_unchanged { board.exit.now ≡ board.entry.now }
{
    answers_c::counted_word(numbered(dispatch::interval(file, board, cell, out)))
}

#[unsafe(no_mangle)]
pub extern "C" fn dispatch_route(
    file: &[u8],
    board: &[u8],
    tug: u8,
    start: u16,
    tick: u16,
    goal: u16,
    dwell: u16,
    out: &mut [u8],
    work: &mut [u32],
) -> u64
    ensures value { result ≡ granted_word (granted_of (meant file.now (lends board.now out.old work.old) (listed (route tug (node start tick) goal dwell)))) }
    ensures out_after { out.new ≡ (meant file.now (lends board.now out.old work.old) (listed (route tug (node start tick) goal dwell))).lent.out }
    ensures work_after { work.new ≡ (meant file.now (lends board.now out.old work.old) (listed (route tug (node start tick) goal dwell))).lent.words }
    ensures file_unchanged { file.exit.now ≡ file.entry.now }
    ensures board_unchanged { board.exit.now ≡ board.entry.now }
{
    answers_c::granted_word(numbered(dispatch::route(
        file, board, tug, start, tick, goal, dwell, out, work,
    )))
}

#[unsafe(no_mangle)]
pub extern "C" fn dispatch_audit(file: &[u8], board: &[u8], light: &[u8]) -> u64
    ensures value { result ≡ (meant file.now (on_board board.now) (listed (audit light.now))).number }
    ensures file_unchanged { file.exit.now ≡ file.entry.now }
    ensures board_unchanged { board.exit.now ≡ board.entry.now }
    ensures light_unchanged { light.exit.now ≡ light.entry.now }
{
    answers_c::answer_word(numbered(dispatch::audit(file, board, light)))
}

#[unsafe(no_mangle)]
pub extern "C" fn dispatch_post(file: &[u8], board: &mut [u8], light: &[u8]) -> u64
    ensures value { result ≡ (meant file.now (on_board board.old) (listed (post light.now))).number }
    ensures board_after { board.new ≡ (meant file.now (on_board board.old) (listed (post light.now))).lent.board }
    ensures file_unchanged { file.exit.now ≡ file.entry.now }
    ensures light_unchanged { light.exit.now ≡ light.entry.now }
{
    answers_c::answer_word(numbered(dispatch::post(file, board, light)))
}

#[unsafe(no_mangle)]
pub extern "C" fn dispatch_close(
    file: &[u8],
    board: &mut [u8],
    holder: u8,
    cell: u16,
    first: u16,
    last: u16,
) -> u64
    ensures value { result ≡ (meant file.now (on_board board.old) (listed (close holder cell first last))).number }
    ensures board_after { board.new ≡ (meant file.now (on_board board.old) (listed (close holder cell first last))).lent.board }
    ensures file_unchanged { file.exit.now ≡ file.entry.now }
{
    answers_c::answer_word(numbered(dispatch::close(file, board, holder, cell, first, last)))
}

#[unsafe(no_mangle)]
pub extern "C" fn dispatch_withdraw(file: &[u8], board: &mut [u8], holder: u8) -> u64
    ensures value { result ≡ (meant file.now (on_board board.old) (listed (withdraw holder))).number }
    ensures board_after { board.new ≡ (meant file.now (on_board board.old) (listed (withdraw holder))).lent.board }
    ensures file_unchanged { file.exit.now ≡ file.entry.now }
{
    answers_c::answer_word(numbered(dispatch::withdraw(file, board, holder)))
}

#[unsafe(no_mangle)]
pub extern "C" fn dispatch_travel(distance: u32) -> u64
    ensures { result ≡ counted_word (timed_of (travel_meant distance)) }
{
    answers_c::counted_word(numbered(dispatch::travel(distance)))
}

#[unsafe(no_mangle)]
pub extern "C" fn dispatch_draw(file: &[u8], light: &[u8], step: u16, frame: u8) -> DrawnWord
    ensures value { result ≡ drawn_word (drawn_of (draw_meant file.now light.now step frame)) }
    ensures file_unchanged { file.exit.now ≡ file.entry.now }
    ensures light_unchanged { light.exit.now ≡ light.entry.now }
{
    draw_c::drawn_word(numbered(draw::draw(file, light, step, frame)))
}
