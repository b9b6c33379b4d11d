//! The canonical texts of views, and that they are read again as the same view.
#![tactic(auto)]

mod canonical;

pub use canonical::print;
