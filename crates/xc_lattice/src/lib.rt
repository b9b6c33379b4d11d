//! Lattice files, and the laws that make a lattice of them.
#![tactic(auto)]

mod admit;
mod copies;
mod decide;
mod fault;
mod gather;
mod judge;
mod lattice;
mod printing;
mod reader;
mod rows;
mod statement;
mod tabulate;
mod verdict;

pub use fault::LatFault;
pub use lattice::Lattice;
pub use reader::read;
pub use statement::Statement;
pub use verdict::{LatticeFiles, files_have_one_verdict};
