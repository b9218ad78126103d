// The checks that calls share: 1 to 7, which every call makes first, and 15. Checks look only; the work of a call comes after all of them.
#![tactic(auto)]

ghost use Rattle.std.specs.Prelude.{◌≡◌, ◌≤◌, eqb, length, IfOk};
ghost use Rattle.meaning.specs.Limits.{header, last_edition};
ghost use Rattle.meaning.specs.Answers.{lowest};
ghost use Rattle.meaning.specs.Board.{edition};
ghost use Rattle.meaning.specs.Calls.{opening, refusals, on_board};
ghost use Rattle.answers.specs.Answers.{number_of};

use answers::Refusal;
use site::Hall;
use site_layout::SiteFile;

// All the checks of open.
#[tactic(auto, using(site::proofs::SizeLaws::sizes_small, crate::proofs::Laws::passed_on, crate::proofs::Laws::site_stops, crate::proofs::Laws::size_stops, crate::proofs::Laws::size_passes, crate::proofs::Laws::site_ready))]
pub fn check_board<'a>(file: &'a [u8], board: &'a [u8]) -> Result<Hall<'a>, Refusal>
    ensures number { number_of result ≡ lowest (refusals file.now (on_board board.now) opening) }
    ensures hall { IfOk result (λ h. (h.file.bytes.now ≡ file.now) × (h.board.now ≡ board.now)) }
{
    let sizes = site::check_site(file)?;
    if board.len() != board::length_of(sizes.cells, sizes.horizon) {
        return Err(Refusal::BoardLength);
    }
    Ok(Hall {
        file: SiteFile { bytes: file },
        board,
        sizes,
    })
}

// Is the board's edition the last, after which no call changes it? Number 15 of every call that does.
pub fn at_last_edition(board: &[u8]) -> bool
    requires { header ≤ length board.now }
    ensures { result ≡ eqb (edition board.now) last_edition }
{
    board::read_edition(board) == board::LAST_EDITION
}
