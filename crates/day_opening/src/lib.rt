// The opening of the day's board, in the part of its area that the site needs, or the line of its refusal.
#![tactic(auto)]

ghost use Rattle.std.specs.Prelude.{◌≡◌, ◌≤◌, min, length, IfOk, IfErr};
ghost use Rattle.meaning.specs.Limits.{day_area};
ghost use Rattle.meaning.specs.Answers.{lowest};
ghost use Rattle.meaning.specs.Site.{site_of, site_refusals};
ghost use Rattle.meaning.specs.Board.{board_length};
ghost use Rattle.day_opening.specs.Opens.{Opens, Refuses};

use day_lines::LINE;

// How much of an area the site's board takes; nothing for a file that is refused.
#[tactic(auto, using(site::proofs::SizeLaws::sizes_small))]
fn board_need(file: &[u8], room: usize) -> usize
    ensures upper_bound { result ≤ room }
    ensures value { lowest (site_refusals file.now) ≡ 0 → result ≡ min (board_length (site_of file.now)) room }
{
    match site::check_site(file) {
        Ok(l) => board::length_of(l.cells, l.horizon).min(room),
        Err(_) => 0,
    }
}

// Opens the part of the area that the site's board takes, and tells the board's length. A refusal's line is written at the front of `line`, and its
// length told.
pub fn start(file: &[u8], area: &mut [u8], line: &mut [u8; LINE]) -> Result<usize, usize>
    requires { length area.old ≡ day_area }
    ensures opens { IfOk result (λ n. Opens file.now n area.new) }
    ensures refuses { IfErr result (λ n. Refuses file.now n line.new) }
{
    let need = board_need(file, area.len());
    match dispatch::open(file, &mut area[..need]) {
        Ok(()) => Ok(need),
        Err(refusal) => {
            let number = u64::from(u8::from(refusal));
            Err(day_lines::write_line(line, number, 0, 0))
        }
    }
}
