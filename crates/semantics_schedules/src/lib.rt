//! Schedules: which there are, how one is carried out, which steps commute, and who sleeps.
//!
//! A schedule is a list of thread numbers, one for each step; it is complete where nobody may step
//! after it.
//!
//! - An [`execution::Execution`] carries a schedule out: beside the state it has the last thread
//!   and the preemptions so far, and its contract says which schedule has led to it.
//! - [`independence::independent`] says whether the next steps of two threads are independent: then
//!   each leaves the other enabled, and both orders lead to one state.
//! - [`independence::sleep_set_after`] says who sleeps after a step: whatever a sleeping thread
//!   leads to is met in an earlier schedule too.
//!
//! [`laws`] says of the definitions what a search for bugs rests on: complete schedules are one
//! list, in order, each once, and short; how preemptions count; which are under a prefix, or within
//! a bound; that independent steps commute; that what sleep sets leave has all end views and the
//! least bad schedule; and that of two equal threads only the lower one has to be tried. Others are
//! of states that schedules lead to, and of three small programs.
#![tactic(auto)]

pub mod execution;
pub mod independence;
pub mod laws;
pub mod limits;
