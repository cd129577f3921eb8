//! What a search found at one bound.

use crate::report::Cause;
use walk_summary::Summary;

/// What a search found at one bound: all that is there, or with a cause what was tried before the
/// search was cut short.
#[derive(Drop)]
pub struct Level {
    /// The bound; `None` where the search is unbounded.
    pub bound: Option<u32>,
    /// The schedules that were tried, as one: all of them, where there is no cause.
    pub summary: Summary,
    /// Why the search was cut short at this bound; `None` where it wasn't.
    pub cause: Option<Cause>,
}
