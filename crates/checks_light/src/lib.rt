// The later checks of post and audit, and the work of a post that passed them all.
#![tactic(auto)]

ghost use Rattle.std.specs.Prelude.{◌≡◌, true, ◌≤◌, length};
ghost use Rattle.meaning.specs.Limits.{motion_limit};
ghost use Rattle.meaning.specs.Answers.{lowest};
ghost use Rattle.meaning.specs.Site.{site_of};
ghost use Rattle.meaning.specs.Board.{free, mark};
ghost use Rattle.meaning.specs.Light.{is_light, light_of};
ghost use Rattle.meaning.specs.Calls.{post, changed, bytes_view, light_valid, light_pairs, light_refusals};
ghost use Rattle.answers.specs.Answers.{number_of};
ghost use Rattle.site.specs.Halls.{site_in, free_in};
ghost use Rattle.site.specs.Ready.{Ready};
ghost use Rattle.checks.specs.Checks.{from_number};
ghost use Rattle.checks_light.specs.Work.{Postable};

use answers::Refusal;
use site::{Hall, Sizes};
use site_layout::{MOTION_LIMIT, SiteFile};
use site_read::Motions;

// Motions that the index of a small site has room for. An index is cleared before it is filled, and a small site is not to pay for one with room
// for the motions of every site.
const FEW_MOTIONS: usize = 64;

// ---- the checks

// What is known of the light stands in each function's clauses: a struct of hall and light would only be made and taken apart at each call.

// The light is valid on the board, by an index with room for so many motions.
#[tactic(auto, using(crate::proofs::Laws::ready_index))]
fn valid_in<const MOTIONS: usize>(hall: &Hall<'_>, light: &[u8]) -> bool
    requires lit { is_light light.now ≡ true }
    requires room { (hall.now.sizes.motions ≤ MOTIONS) × (MOTIONS ≤ motion_limit) }
    ensures { result ≡ light_valid (site_in hall.now) (free_in hall.now) (light_of light.now) }
{
    let mut index = [0u16; MOTIONS];
    site_read::fill_index(&hall.file, hall.sizes.start, hall.sizes.motions, &mut index);
    let motions = Motions {
        file: hall.file,
        starts: &index,
    };
    plan_check::light_valid(hall, &motions, light)
}

// The same by the smaller index with room for the site's motions.
#[tactic(auto, using(crate::proofs::Laws::ready_few))]
fn valid_sized(hall: &Hall<'_>, light: &[u8]) -> bool
    requires { is_light light.now ≡ true }
    ensures { result ≡ light_valid (site_in hall.now) (free_in hall.now) (light_of light.now) }
{
    if hall.sizes.motions <= FEW_MOTIONS {
        return valid_in::<FEW_MOTIONS>(hall, light);
    }
    valid_in::<MOTION_LIMIT>(hall, light)
}

// The checks from 15 on, where `wanted` is the light's edition.
#[tactic(auto, unfolding(meaning::specs::Calls::light_refusals, meaning::specs::Calls::bytes_view, meaning::specs::Answers::lowest))]
fn check_edition(hall: &Hall<'_>, light: &[u8], wanted: u32) -> Result<(), Refusal>
    requires { (is_light light.now ≡ true) × (wanted ≡ (light_of light.now).edition) }
    ensures { number_of result ≡ lowest (from_number 15 (light_refusals (site_in hall.now) (bytes_view (site_in hall.now) hall.now.board.now) light.now)) }
{
    if checks::at_last_edition(hall.board) {
        return Err(Refusal::LastEdition);
    }
    if wanted != board::read_edition(hall.board) {
        return Err(Refusal::StaleLight);
    }
    if !valid_sized(hall, light) {
        return Err(Refusal::Conflict);
    }
    Ok(())
}

// The checks of post, which are those of audit, from 8 on.
#[tactic(auto, using(crate::proofs::Laws::goal_below), unfolding(meaning::specs::Calls::light_refusals, meaning::specs::Calls::bytes_view, meaning::specs::Answers::lowest))]
pub fn check_light(hall: &Hall<'_>, light: &[u8]) -> Result<(), Refusal>
    ensures { number_of result ≡ lowest (light_refusals (site_in hall.now) (bytes_view (site_in hall.now) hall.now.board.now) light.now) }
{
    if !light_read::is_light(light) {
        return Err(Refusal::LightLayout);
    }
    let head = light_read::read_head(light);
    if !board_sorts::is_tug(head.tug) {
        return Err(Refusal::HolderRange);
    }
    if !plan_check::light_named(hall.sizes, light) {
        return Err(Refusal::OutOfRange);
    }
    if site_read::state_speed(&hall.file, head.goal as usize) != 0 {
        return Err(Refusal::GoalRolling);
    }
    if board::holder_stands(hall.board, head.tug) {
        return Err(Refusal::HolderStands);
    }
    check_edition(hall, light, head.edition)
}

// ---- the work

// Writes a valid light's tug over the pairs that its plan holds, by an index with room for so many motions.
#[tactic(auto, using(crate::proofs::Laws::ready_index))]
fn mark_in<const MOTIONS: usize>(file: &SiteFile<'_>, board: &mut [u8], sizes: Sizes, light: &[u8])
    requires ready { Ready file.now.bytes.now (length board.old) sizes × (is_light light.now ≡ true) }
    requires valid { light_valid (site_of file.now.bytes.now) (free (site_of file.now.bytes.now) board.old) (light_of light.now) ≡ true }
    requires room { (sizes.motions ≤ MOTIONS) × (MOTIONS ≤ motion_limit) }
    ensures { board.new ≡ mark (site_of file.now.bytes.now) (light_of light.now).tug (light_pairs (site_of file.now.bytes.now) (light_of light.now)) board.old }
{
    let mut index = [0u16; MOTIONS];
    site_read::fill_index(file, sizes.start, sizes.motions, &mut index);
    let motions = Motions {
        file: *file,
        starts: &index,
    };
    plan_mark::mark_light(&motions, board, sizes, light);
}

// The same by the smaller index with room for the site's motions.
#[tactic(auto, using(crate::proofs::Laws::ready_few))]
fn mark_sized(file: &SiteFile<'_>, board: &mut [u8], sizes: Sizes, light: &[u8])
    requires ready { Ready file.now.bytes.now (length board.old) sizes × (is_light light.now ≡ true) }
    requires valid { light_valid (site_of file.now.bytes.now) (free (site_of file.now.bytes.now) board.old) (light_of light.now) ≡ true }
    ensures { board.new ≡ mark (site_of file.now.bytes.now) (light_of light.now).tug (light_pairs (site_of file.now.bytes.now) (light_of light.now)) board.old }
{
    if sizes.motions <= FEW_MOTIONS {
        mark_in::<FEW_MOTIONS>(file, board, sizes, light);
    } else {
        mark_in::<MOTION_LIMIT>(file, board, sizes, light);
    }
}

// Writes the light's tug over the pairs that its plan holds, and adds 1 to the edition.
#[tactic(auto, using(crate::proofs::Laws::post_changes, checks::proofs::Laws::mark_editable))]
pub fn post_work(file: &SiteFile<'_>, board: &mut [u8], sizes: Sizes, light: &[u8])
    requires { Postable file.now.bytes.now board.old sizes light.now }
    ensures { board.new ≡ changed (site_of file.now.bytes.now) board.old (post light.now) }
{
    mark_sized(file, board, sizes, light);
    board::next_edition(board);
}
