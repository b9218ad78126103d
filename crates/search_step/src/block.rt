// A block of ticks, as every step of the search in it reads it.
#![tactic(auto)]

ghost use Rattle.std.specs.Prelude.{◌<◌};
ghost use Rattle.search_sizes.specs.Sizes.{blocks};
ghost use Rattle.search_step.specs.Sets.{Room};

use crate::network::Network;

// The network, the block's tables of free ticks and of runs, and the block's number.
#[derive(Clone, Copy)]
pub struct Block<'a> {
    pub network: Network<'a>,
    pub tab: &'a [u64],
    pub number: usize,
    pub ghost room: { Room network.cell_count network.motion_count network.motions.now tab.now },
    pub ghost in_range: { number < blocks },
}
