// The public calls that take a light. Both make the checks 1 to 7, then those of a light, which only look; a post then does its work.
#![tactic(auto)]

ghost use Rattle.std.specs.Prelude.{◌≡◌};
ghost use Rattle.meaning.specs.Calls.{listed, audit, post, meant, on_board};
ghost use Rattle.answers.specs.Answers.{number_of};

use answers::Refusal;
use site_layout::SiteFile;

// Answers as post would, and writes nothing.
pub fn audit(file: &[u8], board: &[u8], light: &[u8]) -> Result<(), Refusal>
    ensures number { number_of result ≡ (meant file.now (on_board board.now) (listed (audit light.now))).number }
    ensures file_unchanged { file.exit.now ≡ file.entry.now }
    ensures board_unchanged { board.exit.now ≡ board.entry.now }
    ensures light_unchanged { light.exit.now ≡ light.entry.now }
{
    let hall = checks::check_board(file, board)?;
    checks_light::check_light(&hall, light)
}

// Writes the light's tug over the pairs that its plan holds.
pub fn post(file: &[u8], board: &mut [u8], light: &[u8]) -> Result<(), Refusal>
    ensures number { number_of result ≡ (meant file.now (on_board board.old) (listed (post light.now))).number }
    ensures board_after { board.new ≡ (meant file.now (on_board board.old) (listed (post light.now))).lent.board }
    ensures file_unchanged { file.exit.now ≡ file.entry.now }
    ensures light_unchanged { light.exit.now ≡ light.entry.now }
{
    let hall = checks::check_board(file, board)?;
    checks_light::check_light(&hall, light)?;
    let sizes = hall.sizes;
    // The hall's own file is lent with its board, which is written.
    let site = SiteFile { bytes: file };
    checks_light::post_work(&site, board, sizes, light);
    Ok(())
}
