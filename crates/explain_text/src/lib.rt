//! The explanation of a schedule as text: `head` says how it ended, `origins` where values came
//! from, `decisions` which tests led there; `rows` has the table of the steps; `reasons` says why
//! threads can't go on, and `unblocking` which statements could end their waits.
#![tactic(auto)]

mod decisions;
mod head;
mod origins;
mod reasons;
mod rows;
mod text;
mod unblocking;

pub use crate::head::run_out_lines;
pub use crate::text::{Layout, explanation_text, why_text};
