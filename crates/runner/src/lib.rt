//! Searches of a program, and their reports.
//!
//! - [`explore_alone`] searches bound after bound, from no preemption on, and stops at the first
//!   bound that a bad schedule is within; or without a bound, where sleep sets prune. Its contract
//!   says what the report means of all complete schedules of the program.
//! - [`explore`] does it by several workers, each in a thread of its own, who ask a [`Gate`]. Its
//!   report is the same, whatever their number, unless the search was cut short; of a quick one
//!   the counts and end views may be others.
//! - [`explore_under`] searches what is under an item, and answers what it found at each bound.
//!   [`report_of`] makes the report of such findings, where a search ends with them; [`end_of`]
//!   says how a schedule ends.
//! - [`explore_text_alone`] and [`explore_text`] do the same from the bytes of a text on, or say
//!   what is wrong with it. [`program_of`] is the program that a text spells.
//! - [`report_text`] prints a report: its text is the defined one, byte for byte.
#![tactic(auto)]

mod alone;
mod course;
mod judge;
pub mod laws;
pub mod limits;
mod reports;
mod text;
mod together;

pub use alone::explore_alone;
pub use book::progress::Progress;
pub use limits::{BOUND, QUOTA, WORKERS};
pub use reports::{end_of, report_of};
pub use runner_report::{
    Cause, ExploreError, Level, Options, Report, Search, Verdict, report_text, report_value,
};
pub use runner_workers::{Answer, Gate, Open};
pub use text::{explore_text, explore_text_alone, program_of};
pub use together::{explore, explore_under};
