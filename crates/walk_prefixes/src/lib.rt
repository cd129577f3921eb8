//! Packed lists of prefixes: lists of steps, each a byte, of which neighbours mostly begin alike.
//!
//! [`Prefixes`] keeps the last prefix in full, and of each earlier one a delta that makes it of the
//! prefix after it: how many steps to drop, and which to append. Neighbours that begin alike cost a
//! few bytes. It knows no program: that a prefix runs is for the caller to say.
//!
//! What is promised, for every list of prefixes:
//!
//! - It is the list that was put in: contracts see it as a list of lists of numbers. A prefix is
//!   appended ([`Prefixes::push`], [`Prefixes::push_after`]), all of another list are
//!   ([`Prefixes::append`]), and the last are removed ([`Prefixes::pop`], [`Prefixes::truncate`],
//!   [`Prefixes::clear`]). Where memory runs out, it is as before.
//! - All prefixes that come after a schedule are removed in place ([`Prefixes::remove_later`]).
//! - [`Prefixes::position`] finds a prefix that the list has, and answers `None` for others.
//! - [`Rev`] reads the prefixes in reverse order.
//! - [`shared_len`] counts the steps that two prefixes have in common at their start.
//!
//! How few bytes it takes no clause says; `bench/walk.py` measures it. Tests show that its calls
//! succeed where there is memory.
#![tactic(auto)]

mod bytes;
mod prefixes;
mod seeker;

pub use crate::bytes::{is_later, shared_len};
pub use crate::prefixes::{Prefixes, Rev};
