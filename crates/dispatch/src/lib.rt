// The public calls under one name. proofs/Demands.antt has the demands of them.
#![tactic(auto)]

pub use answers::{Granted, Refusal};
pub use desk_board::{interval, open};
pub use desk_holder::{close, withdraw};
pub use desk_light::{audit, post};
pub use desk_route::route;
pub use travel::travel;
