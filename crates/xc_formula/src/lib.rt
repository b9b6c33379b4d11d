//! Formulas of computation tree logic as they are written, and how tokens are read as one.
#![tactic(auto)]

mod atom_parser;
mod laws;
mod operators;
mod parser;
mod phrase;
mod prefix;
mod words;

pub use laws::formulas_are_read;
pub use parser::parse_formula;
pub use phrase::Phrase;
pub use prefix::{Paths, Prefix};
