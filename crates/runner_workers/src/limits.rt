//! The limits of a search by several workers.

/// How many workers a search has at most.
pub const WORKERS: u32 = 16;

/// How often a worker that waits, for the lock of the book or for a round to end, looks and pauses,
/// before it lets other threads run or sleeps.
pub const SPINS: u32 = 1000;

/// How often a worker that waits looks and lets other threads run, before it sleeps.
pub const YIELDS: u32 = 50;

/// How many parts per worker the free items are divided into. A worker is lent one part, at most a
/// round, at a time.
pub const SHARES: usize = 2;
