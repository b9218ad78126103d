// The closure of the reached pairs under the waits and motions that end in a block of ticks, state by state until none is new: only states
// whose sets have grown, and only their own motions.
#![tactic(auto)]

ghost use Rattle.std.specs.Prelude.{◌≡◌, Bool, true, false, ℕ, ◌+◌, ◌*◌, ◌≤◌, ◌<◌, length};
ghost use Rattle.search_sizes.specs.Sizes.{block_words, blocks, row_words};
ghost use Rattle.search_ticks.specs.Rows.{has};
ghost use Rattle.search_step.specs.Sets.{Closed, Within, Kept, Room, TablesRight};
ghost use Rattle.search_lists.specs.Lists.{Listed};
ghost use Rattle.search_step.specs.Blocks.{BlockRight, BlockClosed};
ghost use Rattle.search_spread.specs.Notes.{Fit, Same, Steps, AllStillTried};
ghost use Rattle.search_spread.specs.Spread.{Progress};
ghost use Rattle.search_fixpoint.specs.Turns.{NoneGrown, FlagsAre, in_turn};

use search_spread::Notes;
use search_step::{Block, Network};

// State s of n, counted from the other end on the way down.
fn in_turn(s: usize, down: bool, n: usize) -> usize
    requires { s < n }
    ensures { (result ≡ in_turn n s down) × (result < n) }
{
    if down { n - 1 - s } else { s }
}

// Tries every state, up or down.
fn spread_all(
    block: &Block<'_>,
    lists: &[u16],
    down: bool,
    reached: &mut [u64],
    notes: &mut Notes<'_>,
)
    requires lists_fit { block.now.network.motion_count + block.now.network.state_count ≤ length lists.now }
    requires fit { (block.now.network.state_count * row_words ≤ length reached.old) × Fit block.now.network.motion_count block.now.network.state_count notes.old }
    ensures same { Same notes.old notes.new }
    ensures steps { Steps block.now notes.old reached.old notes.new reached.new (BlockClosed block.now) (AllStillTried block.now lists.now notes.old reached.old notes.new reached.new) }
    ensures grown_len_unchanged { length notes.new.grown.now ≡ length notes.old.grown.now }
    ensures progress { Progress reached.old reached.new (NoneGrown block.now.network.state_count notes.new.grown.now) }
{
    let n = block.network.state_count;
    for s in 0..n {
        search_spread::spread_one(block, lists, in_turn(s, down, n), reached, notes);
    }
}

// No set of the n states has grown.
fn none_grown(notes: &Notes<'_>, n: usize) -> bool
    requires { n ≤ length notes.now.grown.now }
    ensures none_grown { result ≡ true → NoneGrown n notes.now.grown.now }
    ensures some_grown { result ≡ false → NoneGrown n notes.now.grown.now → ⊥ }
{
    notes.grown[..n].iter().all(|grew| !grew)
}

// Sets the first n flags to `value`.
fn set_first(flags: &mut [bool], n: usize, value: bool)
    requires { n ≤ length flags.old }
    ensures flags_are { FlagsAre n value flags.new }
    ensures flags_len_unchanged { length flags.new ≡ length flags.old }
{
    flags[..n].fill(value);
}

// All waits and all motions that end in the block until nothing new is set: the states whose sets have grown, up and down in turn.
// Which motions were known before and which states had grown does not matter.
fn settle_block(block: &Block<'_>, lists: &[u16], reached: &mut [u64], notes: &mut Notes<'_>)
    requires lists_fit { block.now.network.motion_count + block.now.network.state_count ≤ length lists.now }
    requires fit { (block.now.network.state_count * row_words ≤ length reached.old) × Fit block.now.network.motion_count block.now.network.state_count notes.old }
    ensures same { Same notes.old notes.new }
    ensures allowed_len_unchanged { (length notes.new.allowed.now ≡ length notes.old.allowed.now) × (length notes.new.known.now ≡ length notes.old.known.now) }
    ensures grown_len_unchanged { length notes.new.grown.now ≡ length notes.old.grown.now }
    ensures kept { Kept block.now.number reached.old reached.new }
    ensures closed { (g : ℕ → ℕ → Bool) → BlockRight g block.now → Listed 0 block.now.network.motion_count block.now.network.motions.now lists.now
        → Within (BlockClosed block.now g) reached.old reached.new × BlockClosed block.now g (has reached.new) }
{
    let n = block.network.state_count;
    set_first(notes.known, block.network.motion_count, false);
    set_first(notes.grown, n, true);
    let mut down = false;
    while !none_grown(notes, n) {
        spread_all(block, lists, down, reached, notes);
        down = !down;
    }
}

// The same, from the parts of a block and of its notes, as the search over blocks has them.
pub fn settle(
    network: &Network<'_>,
    tab: &[u64],
    lists: &[u16],
    block: usize,
    allowed: &mut [u64],
    known: &mut [bool],
    reached: &mut [u64],
    grown: &mut [bool],
)
    requires room { Room network.now.cell_count network.now.motion_count network.now.motions.now tab.now × (block < blocks) }
    requires block_words_in_bounds { (network.now.motion_count * block_words ≤ length allowed.old) × ((network.now.motion_count ≤ length known.old) × (network.now.state_count * row_words ≤ length reached.old)) }
    requires n_in_bounds { (network.now.motion_count + network.now.state_count ≤ length lists.now) × (network.now.state_count ≤ length grown.old) }
    ensures kept { Kept block reached.old reached.new }
    ensures allowed_len_unchanged { (length allowed.new ≡ length allowed.old) × (length known.new ≡ length known.old) }
    ensures grown_len_unchanged { length grown.new ≡ length grown.old }
    ensures by_index { (g : ℕ → ℕ → Bool) → TablesRight g network.now.cell_count network.now.state_count network.now.motion_count block network.now.states.now network.now.motions.now network.now.sweeps.now tab.now
        → Listed 0 network.now.motion_count network.now.motions.now lists.now
        → Within (Closed network.now.state_count network.now.motion_count network.now.states.now network.now.motions.now network.now.sweeps.now g block) reached.old reached.new
        × Closed network.now.state_count network.now.motion_count network.now.states.now network.now.motions.now network.now.sweeps.now g block (has reached.new) }
{
    let block = Block {
        network: *network,
        tab,
        number: block,
    };
    let mut notes = Notes {
        allowed,
        known,
        grown,
    };
    settle_block(&block, lists, reached, &mut notes);
}
