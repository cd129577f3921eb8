//! The explanation of a schedule for programs and browsers: as JSON, and as a page whose script
//! draws that.
//!
//! `facts` has what is written, and `writer` writes it out, key by key in the order of their bytes;
//! `steps`, `threads`, `failures`, `objects` and `places` write the parts. `docs/FORMATS.md` says
//! what each key means. `page` has the fixed parts of a page, and `html` puts the JSON into them.
#![tactic(auto)]

mod facts;
mod failures;
mod html;
mod json;
mod objects;
mod page;
mod places;
mod steps;
mod threads;
mod words;
mod writer;

pub use crate::html::{explanation_html, no_schedule_html};
pub use crate::json::{explanation_json, no_schedule_json};
