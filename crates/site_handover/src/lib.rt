// The handovers of one motion: at each offset below its span some cell is used there and at the next one; and all rules on its sweeps.
#![tactic(auto)]

ghost use Rattle.std.specs.Prelude.{◌≡◌, false, ◌<◌, ◌≤◌};
ghost use Rattle.meaning.specs.Basics.{all_below};
ghost use Rattle.meaning.specs.Site.{handover, sweeps_good};
ghost use Rattle.site_sweeps.specs.Places.{sweeps_in, sweep_of};
ghost use Rattle.site_handover.specs.Links.{hands_over, last_from, Linked};

use site_sweeps::{SWEEP_SIZE, Sweep};

// The sweep uses the offset `j`, and its cell is used at `j` + 1.
fn hands_over(sweeps: &[[u8; SWEEP_SIZE]], w: Sweep, j: u8) -> bool
    requires { j < 255 }
    ensures { result ≡ hands_over (sweeps_in sweeps.now) j (sweep_of w) }
{
    site_sweeps::meets(w.first, w.last, j, j) && site_sweeps::used(sweeps, w.cell, j + 1)
}

// Some one cell is used at both `j` and `j` + 1.
fn handed_over(sweeps: &[[u8; SWEEP_SIZE]], j: u8) -> bool
    requires { j < 255 }
    ensures { result ≡ handover (sweeps_in sweeps.now) j }
{
    sweeps.iter().any(|s| hands_over(sweeps, Sweep::from(s), j))
}

// The last offset of the sweep, if the sweep uses the offset `j`; else `j`. It is `j` either way where the sweep does not end later, so of
// such a sweep nothing more is asked.
fn last_from(w: Sweep, j: u8) -> u8
    ensures { result ≡ last_from (sweep_of w) j }
{
    // Two tests, each of which gives a number: compiled without a branch. One test by && branches, and the check of a site with many sweeps
    // takes a third longer.
    if w.last <= j {
        return j;
    }
    if site_sweeps::meets(w.first, w.last, j, j) {
        return w.last;
    }
    j
}

// An offset up to which single sweeps, one after the other, hand over from `j` on.
fn linked_to(sweeps: &[[u8; SWEEP_SIZE]], j: u8) -> u8
    ensures { Linked (sweeps_in sweeps.now) j result }
{
    let mut end = j;
    for s in sweeps {
        end = last_from(Sweep::from(s), end);
    }
    end
}

// An offset up to which there are handovers from `j` on: `j` only where there is none at `j`.
fn handed_to(sweeps: &[[u8; SWEEP_SIZE]], j: u8) -> u8
    requires { j < 255 }
    ensures { Linked (sweeps_in sweeps.now) j result × (result ≤ j → handover (sweeps_in sweeps.now) j ≡ false) }
{
    let end = linked_to(sweeps, j);
    if j < end {
        return end;
    }
    if handed_over(sweeps, j) { j + 1 } else { j }
}

// There is a handover at each offset below `span`. No loop over an index: the next offset comes from the sweeps.
fn all_handed_over(sweeps: &[[u8; SWEEP_SIZE]], span: u8) -> bool
    ensures { result ≡ all_below (handover (sweeps_in sweeps.now)) span }
{
    let mut j: u8 = 0;
    while j < span {
        let next = handed_to(sweeps, j);
        if next <= j {
            return false;
        }
        j = next;
    }
    true
}

// The sweeps keep to the cells and the span, start at the cell `x`, end at the cell `y`, and hand over.
#[tactic(auto, unfolding(meaning::specs::Site::sweeps_good))]
pub fn sweeps_pass(sweeps: &[[u8; SWEEP_SIZE]], span: u8, cells: usize, x: usize, y: usize) -> bool
    ensures { result ≡ sweeps_good cells x y span (sweeps_in sweeps.now) }
{
    site_sweeps::sweeps_good(sweeps, cells, span)
        && site_sweeps::used(sweeps, x, 0)
        && site_sweeps::used(sweeps, y, span)
        && all_handed_over(sweeps, span)
}
