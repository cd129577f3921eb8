//! What is told of the run of a schedule, in words, as JSON and on a page: worked out once, for all
//! of these. [`Told`] has it, with the names that the guest gives; [`Settings`] tells where the
//! values of a test come from.
#![tactic(auto)]

mod settings;
mod told;

pub use crate::settings::{Setting, Settings, locals_of};
pub use crate::told::Told;
