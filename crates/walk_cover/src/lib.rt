//! Covers: prefixes of a program's schedules such that each complete schedule begins with exactly
//! one of them. A search can be cut into parts by them: the summaries of the schedules under each
//! prefix join to the summary of all schedules.
//!
//! - [`prefixes`] answers the prefixes of the least length at which there are as many as asked for,
//!   and [`prefix_lines`] prints them.
//! - [`cover_by`] tests a list of prefixes: it answers the items of the prefixes where they cover
//!   the program, and else a prefix that is missing, two that are nested, or one that is no use.
//! - [`item_under`] answers the item of the schedules that begin with a prefix, with sleep sets
//!   also which threads sleep after it.
//! - [`laws`] says what a cover is good for, and that the prefixes of a length are one.
//!
//! In all of these the mode `Reduced` stands for a search with sleep sets: a cover is then one of
//! the schedules that they leave. A mode with equal threads once counts as the one with all.
//!
//! `specs/` has the definitions. Nothing is searched here: that does the crate `walk`.
#![tactic(auto)]

mod children;
mod covering;
pub mod laws;
mod listing;
mod under;

pub use crate::covering::{CoverError, cover_by};
pub use crate::listing::{prefix_lines, prefixes};
pub use crate::under::item_under;
