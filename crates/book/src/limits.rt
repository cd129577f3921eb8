//! The limits of a book.

/// How many items a round has at most.
pub const ROUND: usize = 64;
