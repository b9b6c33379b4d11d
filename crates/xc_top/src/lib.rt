//! The program: what the words ask for, from the files to the text that is written.
#![tactic(auto)]

mod outcome;
mod program;

pub use outcome::requests_have_one_outcome;
pub use program::run;
pub use xc_lines::Status;
