//! The text of a report on a merged machine: the line of the machine, and what is told of each formula.
#![tactic(auto)]

mod blocks;
mod fit;
mod heads;
mod pieces;
mod rounds;
mod shares;
mod told;
mod values;

pub use blocks::block;
pub use fit::formulas_fit;
pub use heads::head;
