//! Guards and actions over variables: how they are written, and what they say of states.
#![tactic(auto)]

mod action_laws;
mod action_names;
mod action_parser;
mod action_reader;
mod assign;
mod copies;
mod fault;
mod guard;
mod guard_names;
mod guard_parser;
mod guard_reader;
mod laws;
mod operands;
mod phrase;
mod read;
mod setting;

pub use action_laws::actions_are_read;
pub use action_names::{resolve_action, sets_twice};
pub use action_parser::parse_action;
pub use assign::{Action, Assign};
pub use copies::{copy_action, copy_guard};
pub use fault::ExprFault;
pub use guard::Guard;
pub use guard_names::resolve_guard;
pub use guard_parser::parse_guard;
pub use laws::guards_are_read;
pub use phrase::Phrase;
pub use read::{read_action, read_guard};
pub use setting::Setting;
