//! Extremal fixpoints of monotone steps on functions from finitely many states to the elements of an algebra.
//!
//! The definitions stand in `specs/`. Each function has an empty body: its contract is a law of the definitions.
#![tactic(auto)]

mod heights;
mod laws;

pub use heights::heights_of_products;
pub use laws::{
    extremal_fixpoints, fixpoints_as_lists, fixpoints_by_induction, fixpoints_grow,
    iterates_settle, iterates_settle_soon,
};
