//! The stages of a course that touch no sink: files are loaded, cut and read, and viewpoints are merged.
//!
//! The clauses of a stage say what becomes of a course that begins with it, whatever is to come behind it.
#![tactic(auto)]

mod formulas;
mod lattices;
mod load;
mod machines;
mod maps;
mod viewpoints;
mod views;

pub use formulas::open_formulas;
pub use lattices::{Judged, judge_lattice, open_lattice};
pub use machines::{merge, within};
pub use maps::open_map;
pub use viewpoints::open_viewpoints;
pub use views::open_view;
