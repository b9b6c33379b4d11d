//! The text of formulas: how formulas that are written out are printed, and files of formulas, whose limits are on that text.
#![tactic(auto)]

mod canonical;
mod printer;
mod reader;
mod rows;
mod verdict;

pub use canonical::print;
pub use reader::read_formulas;
pub use verdict::files_have_one_reading;
