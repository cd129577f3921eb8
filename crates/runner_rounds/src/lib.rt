//! A round of a search that several workers share, and what a worker finds in it.
//!
//! - A [`Round`] is some open items of a book, and how they are walked.
//! - A [`Worker`] walks items of a round, and keeps what it found until that is settled.
//! - A [`BrandedBook`] is a book whose type says which search it belongs to. A worker that gets it
//!   from a lock settles its walks there, and need not compare programs or modes first.
#![tactic(auto)]

mod branded;
pub mod limits;
mod round;
mod worker;

pub use branded::{BrandedBook, SearchBrand};
pub use limits::{KEPT_WALKS, PADDING_WORDS};
pub use round::Round;
pub use worker::Worker;
