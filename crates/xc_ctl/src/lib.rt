//! What formulas of computation tree logic mean: formulas written out, their tables of nodes, and what these denote on a frame.
#![tactic(auto)]

mod elements;
mod formula;
mod framed;
mod kind;
mod laws;
mod numbering;
mod rebuilt;
mod rounds;
mod tree;
mod vocabulary;

pub use elements::{element, part_at, total_from};
pub use formula::{Formula, Formulas};
pub use framed::{Framed, machines_are_frames, weighed};
pub use kind::Kind;
pub use laws::{formulas_have_one_denotation, formulas_have_one_table, tables_stand_for_trees};
pub use numbering::{nodes_of, tree_size};
pub use rebuilt::formula_of;
pub use rounds::Rounds;
pub use tree::Tree;
pub use vocabulary::Vocabulary;
