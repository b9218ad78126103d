// The numbers of travel times. This crate has no function: specs/ says what a run and a travel time are, proofs/ has the theorems about them.
#![tactic(auto)]

// No speed is above this, in decimetres a tick.
pub const SPEED_LIMIT: u32 = 15;

// The last distance of the table, in decimetres.
pub const LAST_DISTANCE: u32 = 511;
