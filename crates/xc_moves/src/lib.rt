//! What guards and actions say of states: where a guard holds, and where an action goes.
#![tactic(auto)]

mod action_test;
mod guard_test;
mod places;

pub use action_test::{moves, moves_in};
pub use guard_test::{holds, holds_in};
pub use places::places_of;
