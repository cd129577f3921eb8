//! A state of a program in the form in which it is fast to step and to copy.
//!
//! A [`Machine`] shows a state: it holds the values of its variables, its queues and the locals in
//! one list, and all else, of a fixed size, in a [`Control`]: also which threads can take a step,
//! and which are about to take each mutex and semaphore, so that a step asks no thread anew but its
//! own and those that it wakes. What each step of the program touches is made once, as two sets of
//! bits, by which two steps are seen to be independent. A machine knows no schedule.
//!
//! Each public contract speaks of the state that is shown (`Shows` in `specs/Refinement.antt`):
//!
//! - [`Machine::start`] shows the initial state. It alone takes memory.
//! - [`Machine::run`] shows the state after a thread's step, or further ones while the same threads
//!   stay enabled, or any.
//! - [`Machine::enabled`], [`Machine::kind`], [`Machine::variables`],
//!   [`Machine::sleep_set_after`] and [`Machine::seen`] answer what the definitions say of the
//!   state.
//! - [`Machine::restore`] shows a state again of which a [`Control`] and its values were copied.
//!
//! `Shows` needs no belief: the first call gives it, each other keeps it. What has to be believed
//! is what the clauses name: `start`, `step`, `is_enabled`, `final_kind`, `next_sleep_set` and
//! `is_hidden`.
#![tactic(auto)]

mod control;
mod equal;
mod machine;
mod touch;

pub use crate::control::Control;
pub use crate::machine::{Machine, Reach, Run, Shape};
