//! How a request ends: the status, what stops the work, and the lines and texts that the program writes for it.
#![tactic(auto)]

mod halt;
mod passed;
mod refusal;
mod status;
mod text;

pub use halt::Halt;
pub use passed::Passed;
pub use refusal::{
    fault_read, refused_broken, refused_file, refused_merge, refused_size, refused_states,
    refused_text,
};
pub use status::Status;
pub use text::{broken_text, lattice_line};
