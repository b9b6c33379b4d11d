//! The modes that evaluate formulas over a merged machine: `check`, and `gen`, which checks files that it generates.
#![tactic(auto)]

mod checking;
mod generating;
mod report;

pub use checking::check;
pub use generating::generate;
