//! The lines of viewpoint files: which statement a line is.
#![tactic(auto)]

mod line_reading;
mod statement;

pub use line_reading::line;
pub use statement::Statement;
