//! Writing an answer: items are put on a sink one after another, and each is forgotten before the next is made.
#![tactic(auto)]

mod put;

pub use put::{put_text, serve_text};
