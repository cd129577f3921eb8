//! The command words of the program: what they ask for, or why they ask for nothing.
//!
//! - [`read_request`] reads those that the system gave, and says what they ask for.
//! - [`WordsFault`] is why they ask for nothing, what the user is told, and the status.
#![tactic(auto)]

mod commands;
mod fault;
mod reading;

pub use fault::WordsFault;
pub use reading::read_request;
