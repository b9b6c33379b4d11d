//! Case files: how the cases of a file are read.
#![tactic(auto)]

mod keys;
mod making;
mod parts;
mod written;

pub use parts::{Part, parts_of};
