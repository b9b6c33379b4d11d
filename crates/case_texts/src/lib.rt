//! What a case says: the texts of its files with their changes, and when a run is as expected.
#![tactic(auto)]

mod case;
mod changing;
mod comparing;
mod fault;
mod sources;
mod tally;

pub use case::{Case, Each, Ending, Expectation, Expected, Failing, NamedText, Ran};
pub use changing::{Change, changed};
pub use comparing::{Difference, first_difference};
pub use fault::{CaseFault, Fault, KeyFault, NameFault, Why, name_fault};
pub use sources::{Sources, example_of, find, out_of};
pub use tally::Tally;
