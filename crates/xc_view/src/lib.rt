//! Viewpoint files: guarded commands and propositions, with values of a lattice that is named and not looked up.
#![tactic(auto)]

mod copies;
mod draft;
mod due;
mod gather;
mod judge;
mod limits;
mod lines;
mod reader;
mod rows;
mod verdict;
mod view;

pub use lines::{Command, PropLine};
pub use reader::read;
pub use verdict::{ViewFiles, files_have_one_view};
pub use view::View;
