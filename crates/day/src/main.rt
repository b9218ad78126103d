// The day program: the site from site.bin, an opened board, and a script from standard input, one line for each of its fields, or one for
// an empty script. What opening and a turn come to is proved in `day_opening` and `day_turns`; here what was read is handed to them, and what
// they wrote is printed.
#![tactic(auto)]

ghost use Rattle.std.specs.Prelude.{◌≤◌, ◌≡◌, length};
ghost use Rattle.meaning.specs.Limits.{header, day_area};
ghost use Rattle.day_calls.specs.Performed.{Areas};
ghost use Rattle.day_results.specs.Results.{kept_light};

use day_lines::LINE;
use day_orders::PIECE;
use std::io::Read;
use std::ops::ControlFlow;
use std::rt::Files;

// One byte more than a site file may have, so that a longer one is seen.
const FILE: usize = site::FILE_LIMIT + 1;

// The bytes of an area, and how many 32-bit words one holds.
const AREA: usize = 65536;

const WORDS: usize = AREA / 4;

// Reads what is next of the script, takes its turn and prints the line that it has. Answers whether the program goes on or ends, with the
// last granted light's length in both cases.
fn run_turn<R: Read>(
    rt: &impl Print,
    script: &mut R,
    file: &[u8],
    board: &mut [u8],
    out: &mut [u8],
    words: &mut [u32],
    light: usize,
    first: bool,
) -> ControlFlow<usize, usize>
    requires areas { Areas (length out.old) (length words.old) light }
    requires header_in_bounds { header ≤ length board.old }
    ensures { kept_light result ≤ day_area }
{
    let mut piece = [0u8; PIECE];
    let n = day_input::read_piece(script, &mut piece);
    let mut line = [0u8; LINE];
    let done = day_turns::turn(
        file,
        board,
        out,
        words,
        light,
        first,
        &piece[..n],
        &mut line,
    );
    // A line that cannot be written changes nothing that follows.
    let _ = rt.write_all(&line[..done.text]);
    done.next
}

// Nothing says that the input ends, so the loop counts its turns, up to a number that no run uses up.
fn run_turns<R: Read>(
    rt: &impl Print,
    script: &mut R,
    file: &[u8],
    board: &mut [u8],
    out: &mut [u8],
    words: &mut [u32],
)
    requires areas { Areas (length out.old) (length words.old) 0 }
    requires header_in_bounds { header ≤ length board.old }
{
    let mut light = 0;
    for turn in 0..u64::MAX {
        match run_turn(rt, script, file, board, out, words, light, turn == 0) {
            ControlFlow::Continue(next) => light = next,
            ControlFlow::Break(_) => return,
        }
    }
}

// The program, over areas that are lent to it.
fn run_day<R: Read>(
    rt: &(impl Files + Print),
    script: &mut R,
    file: &mut [u8],
    area: &mut [u8],
    out: &mut [u8],
    words: &mut [u32],
)
    requires area_len { length area.old ≡ day_area }
    requires areas { Areas (length out.old) (length words.old) 0 }
{
    let n = day_input::load(rt, file);
    let mut line = [0u8; LINE];
    match day_opening::start(&file[..n], area, &mut line) {
        Ok(size) => {
            run_turns(rt, script, &file[..n], &mut area[..size], out, words);
        }
        Err(text) => {
            let _ = rt.write_all(&line[..text]);
        }
    }
}

fn main(rt: HostRuntime) {
    let mut script = rt.stdin();
    let mut file = [0u8; FILE];
    let mut area = [0u8; AREA];
    let mut out = [0u8; AREA];
    let mut words = [0u32; WORDS];
    run_day(&rt, &mut script, &mut file, &mut area, &mut out, &mut words);
}
