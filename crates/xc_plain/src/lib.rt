//! The explicit engine: what formulas denote on a machine, state by state and round by round.
#![tactic(auto)]

mod engine;
mod form;
mod next;
mod node;
mod row;
mod rows;
mod settle;
mod steps;
mod table;

pub use engine::{Engine, solve};
pub use table::PlainTable;
