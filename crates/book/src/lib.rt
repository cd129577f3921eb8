//! The book of a search: the summary of what is finished, the items that are still open, and those
//! that are deferred to the next bound.
//!
//! - A [`books::Book`] splits all schedules of an item, the root of a program or one under which is
//!   searched. The functions of [`laws`] say what its type means for the schedules of the program.
//! - [`books::Book::settle`] enters a walk of an open item, [`books::Book::raise`] goes to
//!   the next bound, [`books::Book::whole_summary`] answers the sum where nothing is left to walk.
//! - A [`lending::LendingBook`] lends open items to workers, each of which has a [`loan::Loan`],
//!   copies of these, and walks them as a round of its own without the book.
//! - [`progress::Progress`] says how far the search of a book is.
//! - A quick book may drop open items that can't hold the first bad schedule; what it finds has no
//!   greater counts than the program's summary, and the same first bad schedule.
#![tactic(auto)]

pub mod books;
pub mod errors;
mod item_list;
pub mod laws;
pub mod lending;
pub mod limits;
pub mod loan;
pub mod progress;
