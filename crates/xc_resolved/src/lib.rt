//! Formulas written out: names are looked up, and abbreviations give way to what they stand for.
#![tactic(auto)]

mod resolver;
mod written_out;

pub use resolver::resolve;
