//! Viewpoints that are merged: what is worked out once of each of them, and what they give to steps and propositions.
#![tactic(auto)]

mod codes;
mod digits;
mod elements;
mod feeds;
mod gathering;
mod joins;
mod merged;
mod seen;
mod stuttering;
mod tables;
mod tabulate;
mod tellings;

pub use elements::is_good;
pub use merged::Merged;
pub use tables::{Feed, Tables, Telling};
