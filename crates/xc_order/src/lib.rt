//! The order that pairs of elements span, with its bounds and its height.
#![tactic(auto)]

mod closure;
mod height;
mod order;

pub use order::{Order, Pair};
