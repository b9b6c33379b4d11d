//! The lines of map files: their statements, what these say together, and which statement a line is.
#![tactic(auto)]

mod decide;
mod parts;
mod statement;
mod words;

pub use decide::line;
pub use parts::{Carry, SendLine, Stutter, Tell, Told, Use};
pub use statement::{Pair, Statement};
