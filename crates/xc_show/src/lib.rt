//! The modes that look at one file: to judge a lattice, and to show a file in its canonical form.
#![tactic(auto)]

mod judging;
mod showing;

pub use judging::lattice;
pub use showing::show;
