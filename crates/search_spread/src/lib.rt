// The waits and the motions of one state in a block of ticks: what they set, and which states' sets grow.
#![tactic(auto)]

mod notes;

ghost use Rattle.std.specs.Prelude.{◌≡◌, ◌+◌, ◌*◌, ◌≤◌, ◌<◌, length};
ghost use Rattle.search_sizes.specs.Sizes.{row_words};
ghost use Rattle.search_step.specs.Blocks.{MotionsClosed, BlockClosed};
ghost use Rattle.search_spread.specs.Notes.{Fit, Same, Steps, FromTried, AllStillTried};
ghost use Rattle.search_spread.specs.Spread.{Noted, Progress, Unnoted, UnnotedBut};

pub use notes::Notes;
use search_step::Block;

// Tries the motions of the list of state s, and notes the states whose sets grow.
fn move_from(block: &Block<'_>, lists: &[u16], s: usize, reached: &mut [u64], notes: &mut Notes<'_>)
    requires s_in_bounds { (s < block.now.network.state_count) × (block.now.network.motion_count + block.now.network.state_count ≤ length lists.now) }
    requires fit { (block.now.network.state_count * row_words ≤ length reached.old) × Fit block.now.network.motion_count block.now.network.state_count notes.old }
    ensures same { Same notes.old notes.new }
    ensures steps { Steps block.now notes.old reached.old notes.new reached.new (MotionsClosed block.now) (FromTried block.now lists.now s notes.new reached.new) }
    ensures grown_len_unchanged { (length notes.new.grown.now ≡ length notes.old.grown.now) × Noted reached.old notes.old.grown.now reached.new notes.new.grown.now }
    ensures progress { Progress reached.old reached.new (Unnoted notes.old.grown.now notes.new.grown.now) }
{
    let network = &block.network;
    let mut m = search_lists::listed_at(lists, network.motion_count + s);
    // A walk along a list: the next motion is read from it.
    while m < network.motion_count {
        let new = search_step::move_one(block, m, notes.allowed, notes.known, reached);
        let to = search_site::to_of(network.motions, network.motion_count, m);
        notes.grown[to] |= new;
        let after = search_lists::listed_at(lists, m);
        if after <= m {
            return;
        }
        m = after;
    }
}

// Tries the waits and the motions of state s, if its set has grown since the last time.
pub fn spread_one(
    block: &Block<'_>,
    lists: &[u16],
    s: usize,
    reached: &mut [u64],
    notes: &mut Notes<'_>,
)
    requires s_in_bounds { (s < block.now.network.state_count) × (block.now.network.motion_count + block.now.network.state_count ≤ length lists.now) }
    requires fit { (block.now.network.state_count * row_words ≤ length reached.old) × Fit block.now.network.motion_count block.now.network.state_count notes.old }
    ensures same { Same notes.old notes.new }
    ensures steps { Steps block.now notes.old reached.old notes.new reached.new (BlockClosed block.now) (AllStillTried block.now lists.now notes.old reached.old notes.new reached.new) }
    ensures grown_len_unchanged { length notes.new.grown.now ≡ length notes.old.grown.now }
    ensures progress { Progress reached.old reached.new (UnnotedBut notes.old.grown.now notes.new.grown.now s) }
{
    if !notes.grown[s] {
        return;
    }
    notes.grown[s] = false;
    if search_ticks::window_union(reached, s, block.number) == 0 {
        return;
    }
    let network = &block.network;
    search_step::wait_one(
        network.states,
        block.tab,
        reached,
        network.cell_count,
        network.state_count,
        s,
        block.number,
    );
    move_from(block, lists, s, reached, notes);
}
