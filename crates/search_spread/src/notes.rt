// What the steps in a block note for later steps.
#![tactic(auto)]

// Where motions may end in the block, the motions of which that is worked out, and the states whose sets have grown.
// The reached pairs stay beside it: that the turns end rests on words of 64 bits, and a proof is not told so of a slice behind a struct's `&mut`.
#[derive(Drop)]
pub struct Notes<'a> {
    pub allowed: &'a mut [u64],
    pub known: &'a mut [bool],
    pub grown: &'a mut [bool],
}
