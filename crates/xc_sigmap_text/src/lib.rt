//! The canonical texts of maps, and that they are read again as the map that was printed.
#![tactic(auto)]

mod canonical;
mod lines;

pub use canonical::print;
