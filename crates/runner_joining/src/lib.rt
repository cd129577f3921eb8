//! Parts of a search, each what was found under one prefix at one bound, joined to the report of
//! the whole search.
//!
//! - [`join`] joins parts: where each says what is true of its prefix at its bound, the report is
//!   one of the program, as that of a search by one process. What it can test it tests: that each
//!   schedule of the program begins with exactly one of the prefixes, that each prefix has a part
//!   for each bound, that no two parts of one prefix and bound differ, and that each schedule that
//!   a part names is bad, begins with the part's prefix and is within its bound. By a law, what
//!   searches under prefixes find is true. [`last_mode`] is the mode in which prefixes are searched.
//! - [`JoinError`] says what is missing or wrong; [`JoinError::needs_more_parts`] whether more
//!   parts would help.
#![tactic(auto)]

mod bad_schedules;
mod by_prefix;
mod error;
mod joined;
pub mod laws;

pub use crate::error::{JoinError, PartPlace};
pub use crate::joined::{join, last_mode};
