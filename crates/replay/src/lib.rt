//! Schedules of a program: their texts, their runs, and the traces of the runs.
//!
//! - [`schedule_from`] reads a schedule exactly where a text spells one of at most [`PLACES`]
//!   places, and else names the first piece that can't be taken; [`schedule_text`] writes the
//!   spelling with the longest runs.
//! - [`replay`] answers the run of a schedule exactly where each of its steps is one of an enabled
//!   thread, and else names the first place that is not, and why.
//! - [`trace_text`] prints a run: the text is the defined one, byte for byte.
#![tactic(auto)]

mod error;
pub mod laws;
mod piece;
mod run;
mod schedule;
mod trace;

pub use crate::error::{ReplayError, ScheduleError};
pub use crate::run::{Act, Line, Run, act_of, replay};
pub use crate::schedule::{PLACES, schedule_from, schedule_text};
pub use crate::trace::trace_text;
