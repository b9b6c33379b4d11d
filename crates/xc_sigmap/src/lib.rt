//! Map files: which viewpoints are merged, over which variables, and what each of them sends and tells.
#![tactic(auto)]

mod draft;
mod due;
mod gather;
mod judge;
mod limits;
mod lookup;
mod names;
mod reader;
mod rows;
mod sigmap;
mod verdict;

pub use reader::read;
pub use sigmap::SigMap;
pub use verdict::{MapFiles, files_have_one_map};
