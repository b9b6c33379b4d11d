//! The laws that make a lattice with an involution, and the first of them that some elements break.
#![tactic(auto)]

mod bounded;
mod breaks;
mod law;
mod tuple;

pub use breaks::{Break, find_break, lawful_is_without_break};
pub use law::Law;
