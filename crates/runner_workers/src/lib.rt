//! Workers, who walk the rounds of a search together, each in a thread of its own.
//!
//! - A [`Team`] is a book and its workers. It walks a stretch of rounds and settles the walks, up
//!   to a round after which the caller decides how the search goes on. The book is of the same
//!   search then.
//! - Workers share each round, or, where many items are open, each is lent rounds of its own.
//! - Each worker asks a [`Gate`] before it walks an item, and stops where it says so.
//! - [`Exit`] is how the workers ended.
#![tactic(auto)]

mod desk;
mod exit;
mod gate;
mod lender;
pub mod limits;
mod monitor;
mod own_rounds;
mod seated_worker;
mod stretch;
mod team;

pub use exit::Exit;
pub use gate::{Answer, Gate, Open};
pub use limits::WORKERS;
pub use team::Team;
