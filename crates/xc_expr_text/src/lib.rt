//! The canonical texts of guards and actions, and that they are read again as what was printed.
#![tactic(auto)]

mod print;
mod print_laws;

pub use print::{print_action, print_guard, push_action, push_guard};
pub use print_laws::{printed_actions_are_read, printed_guards_are_read};
