//! The events of a run, one after the other, and which of them are the cause of how it ended.
//!
//! [`events_of`] lists what each thread did: its steps, and each statement of its local runs.
//! [`Causes::of`] marks those events that the end of the run depends on: an assertion that failed,
//! a statement at which a thread stopped, a thread that is blocked. This is a backward slice of the
//! run. The methods of [`Causes`] say where a value came from, and [`unchanged_since`] and
//! [`next_change`] how long a variable had it. [`Causes::repeats_run_out`] says which loops ran out of
//! turns, and [`Turns`] in which turns statements were carried out, by the text.
#![tactic(auto)]

mod backward_slice;
mod causes;
mod changes;
mod decisions;
mod direct_cause;
mod event;
mod events;
mod failure;
pub mod laws;
mod origins;
mod repeats;
mod turns;

pub use crate::causes::Causes;
pub use crate::changes::{next_change, unchanged_since};
pub use crate::decisions::is_decided;
pub use crate::event::{Deed, Event};
pub use crate::events::events_of;
pub use crate::failure::Failure;
pub use crate::turns::{InTurns, Turns};
