//! The limits of a search, beside those of a walk.

pub use runner_report::limits::{BOUND, QUOTA};
pub use runner_workers::limits::{SPINS, WORKERS, YIELDS};
