//! What is odd about a program: its warnings, and what its schedules show.
//!
//! [`warnings::all_warnings`] answers exactly the warnings that hold by `IsSo` of
//! `specs/Warnings.antt`, which is defined over the flat code. What a path through the code of a
//! thread is, is said in `specs/Paths.antt`; all paths are followed in one pass, since jumps go
//! forwards.
//!
//! [`exploration::explore`] explores the schedules that sleep sets leave, step by step and back, up
//! to a number of them, and keeps what they show of each assertion, each `signal` and each loop. It
//! shares no code with the search.
//!
//! Places in the text and words are put in by a crate above. What is in `specs/inner` only the
//! proofs need.
#![tactic(auto)]

pub mod exploration;
pub mod paths;
pub mod seen;
pub mod spin;
pub mod uses;
pub mod warning;
pub mod warnings;
