//! What line formats share: variables, the lines that declare them, and their names, values and limits.
#![tactic(auto)]

mod copies;
mod count;
mod declared;
mod domain;
mod limits;
mod print;
mod words;

pub use copies::{copy_domain, copy_vars};
pub use count::state_count;
pub use declared::{find_var, is_var_again, var_line};
pub use domain::{Domain, Vars};
pub use limits::{line_fault, var_fault};
pub use print::{lexeme, push_vars, push_words, word};
pub use words::{is_value_name, is_variable_name};
