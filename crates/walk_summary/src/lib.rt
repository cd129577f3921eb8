//! Summaries of complete schedules: how many there were, how they ended, and the first bad one.
//!
//! [`Summary`] is what is known of a list of complete schedules: the counts, the least bad one, and
//! the end views, sorted, each once; and whether some schedule is beyond a bound.
//!
//! What is promised:
//!
//! - Its type keeps that counts stop at the greatest `u64`, that the end views are strictly sorted,
//!   and that there is a first bad schedule exactly where one failed or got stuck.
//! - [`Summary::from_parts`] makes one exactly where its parts fit, [`Summary::add`] counts one
//!   schedule more, [`Summary::join`] joins two summaries as their lists would be, and
//!   [`Summary::join_in`] does so in place. Where memory runs out, the summary is as before.
//! - [`laws`] says of the definitions that the sum of a list followed by another is the join of
//!   their sums, that a join may be made in any order, and what a sum counts and keeps.
//!
//! [`EndHints`] and [`EndMemory`] make it fast to add to a summary: they say where an end view may
//! stand, and keep views that are not needed any more. A wrong hint costs time alone. No clause
//! says that a hint is right, or that memory is used again.
#![tactic(auto)]

mod end_memory;
pub mod laws;
mod summary;

pub use crate::end_memory::{EndHints, EndMemory};
pub use crate::summary::{Counts, Summary};
