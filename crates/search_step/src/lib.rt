// What one wait and one motion set of the pairs of state and tick, in a block of ticks.
#![tactic(auto)]

mod block;
mod network;

ghost use Rattle.std.specs.Prelude.{◌≡◌, Bool, ℕ, ◌*◌, ◌≤◌, ◌<◌, List, length};
ghost use Rattle.search_ticks.specs.Rows.{has};
ghost use Rattle.search_sizes.specs.Sizes.{block_words, blocks, row_words, window_words};
ghost use Rattle.search_site.specs.Arrays.{to_at, States, CellsBelow};
ghost use Rattle.search_step.specs.Sets.{WaitClosed, Within, RowSet, TablesRight};
ghost use Rattle.search_step.specs.Blocks.{BlockRight, EndsReady, KnownReady, MotionClosed};

pub use block::Block;
pub use network::Network;

// Sets what waits in state s reach. Says whether anything was new.
// It takes the states alone, since a network would ask its caller for motions too, of which a wait needs none.
pub fn wait_one(
    states: &[u16],
    tab: &[u64],
    reached: &mut [u64],
    cells: usize,
    n: usize,
    s: usize,
    block: usize,
) -> bool
    requires states { States n states.now × (CellsBelow cells n states.now × (s < n)) }
    requires window_words_in_bounds { (cells * window_words ≤ length tab.now) × ((n * row_words ≤ length reached.old) × (block < blocks)) }
    ensures row_set { RowSet block s reached.old reached.new result }
    ensures closed { (g : ℕ → ℕ → Bool) (k : ℕ) (mv sw : List ℕ) → TablesRight g cells n k block states.now mv sw tab.now
        → Within (WaitClosed states.now g block s) reached.old reached.new
        × WaitClosed states.now g block s (has reached.new) }
{
    if search_site::speed_of(states, n, s) != 0 {
        return false;
    }
    let cell = search_site::cell_of(states, n, s);
    search_ticks::fill(reached, tab, s, cell, block) != 0
}

// Works out at which ticks of the block motion m may end.
fn prepare(block: &Block<'_>, m: usize, allowed: &mut [u64], known: &mut [bool])
    requires m_in_bounds { m < block.now.network.motion_count }
    requires block_words_in_bounds { (block.now.network.motion_count * block_words ≤ length allowed.old) × (block.now.network.motion_count ≤ length known.old) }
    ensures allowed_len_unchanged { (length allowed.new ≡ length allowed.old) × (length known.new ≡ length known.old) }
    ensures ready { (g : ℕ → ℕ → Bool) → BlockRight g block.now → KnownReady g block.now known.old allowed.old
        → KnownReady g block.now known.new allowed.new × EndsReady g block.now allowed.new m }
{
    let network = &block.network;
    let place = search_site::place_of(network.motions, network.motion_count, m);
    let count = search_site::count_of(network.motions, network.motion_count, m);
    let span = search_site::span_of(network.motions, network.motion_count, m);
    search_arrivals::arrivals_of(
        allowed,
        block.tab,
        network.sweeps,
        network.cell_count,
        m,
        place,
        count,
        span,
    );
    known[m] = true;
}

// Sets what motion m reaches. Says whether anything was new. Where it may end is worked out when that is first needed.
pub fn move_one(
    block: &Block<'_>,
    m: usize,
    allowed: &mut [u64],
    known: &mut [bool],
    reached: &mut [u64],
) -> bool
    requires m_in_bounds { m < block.now.network.motion_count }
    requires block_words_in_bounds { (block.now.network.motion_count * block_words ≤ length allowed.old) × ((block.now.network.motion_count ≤ length known.old) × (block.now.network.state_count * row_words ≤ length reached.old)) }
    ensures row_set { RowSet block.now.number (to_at block.now.network.motions.now m) reached.old reached.new result }
    ensures allowed_len_unchanged { (length allowed.new ≡ length allowed.old) × (length known.new ≡ length known.old) }
    ensures closed { (g : ℕ → ℕ → Bool) → BlockRight g block.now → KnownReady g block.now known.old allowed.old
        → KnownReady g block.now known.new allowed.new
        × (Within (MotionClosed block.now m g) reached.old reached.new × MotionClosed block.now m g (has reached.new)) }
{
    let network = &block.network;
    let from = search_site::from_of(network.motions, network.motion_count, m);
    let to = search_site::to_of(network.motions, network.motion_count, m);
    let span = search_site::span_of(network.motions, network.motion_count, m);
    if !known[m] {
        let cell = search_site::cell_of(network.states, network.state_count, to);
        if search_ticks::news(reached, block.tab, from, to, cell, span, block.number) == 0 {
            return false;
        }
        prepare(block, m, allowed, known);
    }
    search_ticks::push(reached, allowed, from, to, m, span, block.number) != 0
}
