//! What a program of the guest language does: its states, their steps, and how they end.
//!
//! `State::start` is where all begin: each thread has run its own instructions up to its first
//! visible statement. `State::enabled` says who may take a step, `State::step` takes one,
//! `State::undo` takes it back, and `State::kind` says how it ended where nobody may step. Lists of
//! such steps, schedules, are for the crate `semantics_schedules`.
//!
//! The contracts speak of a `State` as a snapshot: the lists of the variables' values, the owners
//! of the mutexes, the queues of the conditions, the counts of the semaphores, and the threads.
//! Each method answers just what the definitions of `specs/` say of that snapshot, for every
//! program that is well formed and every state of it:
//!
//! - a step changes what the definition of a step changes, and nothing else; it needs no memory
//!   and can't fail;
//! - the mask of the enabled threads has exactly those that are enabled by definition;
//! - a kind and an end view come exactly where nobody is enabled;
//! - each state that a step leads to is again a state of the program: its places are in the code,
//!   its counts within the limit, and in each queue threads that wait, each once.
//!
//! `laws` says of the definitions themselves what each step does with objects and threads, that it
//! leaves less work, what the operators are, and what a kind says of the threads.
#![tactic(auto)]

mod action;
mod initial;
pub mod laws;
mod local;
pub mod mask;
pub mod queue;
mod signals;
pub mod state;
pub mod undo;
pub mod view;

pub use crate::action::{action_at, owns};
pub use crate::local::{
    Landing, Turn, access, expression_value, operand_value, run_if_local, run_local,
};
