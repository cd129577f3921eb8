//! The limits of what a worker keeps.

/// How many words of padding stand between a value that one thread writes and one that another
/// reads: so the two share no line of a processor's cache, nor a pair of lines fetched together.
pub const PADDING_WORDS: usize = 16;

/// How many walks a worker keeps at most before it settles them. It settles earlier at the end of a
/// round, and where a quick search found a bad schedule.
pub const KEPT_WALKS: usize = 32;
