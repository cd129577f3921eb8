//! Why a schedule ends as it does, told to a person.
//!
//! [`Explanation::new`] carries a schedule out as far as it runs, and keeps of each step what it
//! did and what changed, and of each thread why it can't go on. [`Source`] has the names and the
//! places that an explanation is told with, and [`repeats`] the loops of a text; the texts are made in
//! crates above.
#![tactic(auto)]

mod assignments;
mod explanation;
mod loops;
mod object;
mod source;
mod statement;
mod step;
mod thread_state;

pub use crate::assignments::Assignment;
pub use crate::explanation::{Explanation, Holder, Start};
pub use crate::loops::{Repeat, repeats};
pub use crate::object::{Object, ObjectState};
pub use crate::source::Source;
pub use crate::statement::{Statement, name_text, op_text};
pub use crate::step::Step;
pub use crate::thread_state::{Reason, ThreadState};
