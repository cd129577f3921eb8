//! Reports of searches: what is asked for, what was found, and how it is printed.
//!
//! - [`Options`] say how far a search goes, and what it may leave out.
//! - [`Report`] is what it found. What a report means of all complete schedules of its program is
//!   defined in `specs/Promises.antt`; the searches promise it.
//! - [`Level`] is what a search found at one bound.
//! - [`ExploreError`] is why there is no report.
//! - [`report_text`] prints a report as JSON: the defined text, byte for byte. Functions such as
//!   [`bound_value`] give the JSON values of which a report's object is made.
#![tactic(auto)]

mod error;
mod level;
pub mod limits;
mod options;
mod printing;
mod report;

pub use error::ExploreError;
pub use level::Level;
pub use options::{Options, Search};
pub use printing::{
    bound_value, cause_value, ends_value, first_bad_value, report_text, report_value,
    schedule_value,
};
pub use report::{Cause, Report, Verdict};
