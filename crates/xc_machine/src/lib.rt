//! The merged machine of several viewpoints: its states, its steps and its propositions, asked one at a time.
#![tactic(auto)]

mod encoder;
mod framed;
mod initials;
mod judgement;
mod laws;
mod machine;

pub use machine::Machine;
