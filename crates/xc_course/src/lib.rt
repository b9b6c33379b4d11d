//! What a course of work is: the stages over files, how it ends, and what out gets of a request that is served.
#![tactic(auto)]

mod laws;

pub use laws::courses_end_once;
