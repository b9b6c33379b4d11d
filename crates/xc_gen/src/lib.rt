//! The files that are generated for a number and a size: a counter of as many bits, seen from two viewpoints.
#![tactic(auto)]

mod fault;
mod laws;
mod making;
mod maps;
mod pieces;
mod side;
mod views;

pub use fault::GenFault;
pub use laws::{generated_files_are_named, generated_files_name_each_other};
pub use making::make;
pub use side::Side;
