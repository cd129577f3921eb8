//! Who could end the wait of each thread that is blocked where a schedule ends, and why it won't.
//!
//! A thread that waits for a mutex waits for its owner; one that waits for a condition or a
//! semaphore waits for each thread that comes, if it goes on, to a `signal`, a `broadcast` or a
//! `release` of it that helps: one that is woken only to wait again isn't helped. [`Waits::new`]
//! answers, for each blocked thread, every such statement and what came of it, the threads that it
//! waits for, and all circles: sets of threads each of which waits, directly or through other
//! threads, for each of them (circular waits, the strongly connected components of the wait-for
//! graph). No thread is in two ([`laws`]). Which statements are ahead of a thread is said in
//! `specs/Ways.antt`: its locals decide the tests on its way, unless they may be set before. All is
//! read from an [`Explanation`](explain_run::Explanation) and the code of the program. `specs/` has
//! the definitions, by relations and whole lists.
#![tactic(auto)]

mod ending;
mod fate;
mod graph;
pub mod laws;
mod look;
mod wait;
mod ways;

pub use crate::ending::Statement;
pub use crate::fate::Fate;
pub use crate::look::Look;
pub use crate::wait::{Wait, Waits};
