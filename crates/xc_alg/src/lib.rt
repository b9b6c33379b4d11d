//! Algebras: the operations that every layer above computes values with, and their laws.
//!
//! The definitions stand in `specs/`. The functions of `laws` have empty bodies: their contracts are laws.
#![tactic(auto)]

mod algebra;
mod any_table;
mod laws;
mod op_table;

pub use algebra::{Algebra, implies, laws_hold};
pub use any_table::AnyTable;
pub use laws::{
    bounds_of_lists, distributive_laws, lattice_laws, monotone_laws, negation_laws,
    products_are_algebras,
};
pub use op_table::OpTable;
