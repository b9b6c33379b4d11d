//! The command line: what the words that a program is given ask for.
#![tactic(auto)]

mod asked;
mod command;
mod fault;
mod file_name;
mod laws;
mod number;
mod reading;

pub use asked::{Request, ShowKind};
pub use fault::WordsFault;
pub use file_name::FileName;
pub use laws::lists_are_taken_without_fault;
pub use reading::request;
