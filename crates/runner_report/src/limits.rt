//! The greatest bound of a search, and the default quota.

pub use walk_items::limits::BOUND;

/// How many complete schedules one walk tries at most, where nothing else is asked for.
pub const QUOTA: u32 = 256;
