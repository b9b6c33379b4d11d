//! How viewpoints merge to one machine: what its frame is, and why there may be none.
#![tactic(auto)]

mod fault;
mod feeding;
mod find;
mod lines;
mod words;

pub use fault::MergeFault;
pub use feeding::{carried_word, line_for, line_of};
pub use find::find_fault;
