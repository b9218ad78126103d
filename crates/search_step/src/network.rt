// The site in arrays, as every step of the search reads it.
#![tactic(auto)]

ghost use Rattle.search_site.specs.Arrays.{States, Motions, CellsBelow, Leads};
ghost use Rattle.search_site.specs.Decoded.{Sweeps};

// States and motions as `search_site` decodes them, the site file's bytes, in which the sweeps stand, and how many there are of each. Each
// number that the search reads here is in range.
#[derive(Clone, Copy)]
pub struct Network<'a> {
    pub states: &'a [u16],
    pub motions: &'a [u16],
    pub sweeps: &'a [u8],
    pub cell_count: usize,
    pub state_count: usize,
    pub motion_count: usize,
    pub ghost states_read: { States state_count states.now },
    pub ghost cells_known: { CellsBelow cell_count state_count states.now },
    pub ghost motions_read: { Motions motion_count motions.now },
    pub ghost motions_lead: { Leads state_count motion_count motions.now },
    pub ghost sweeps_read: { Sweeps cell_count motion_count motions.now sweeps.now },
}
