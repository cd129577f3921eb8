//! The limits of a text.

/// The most bytes that a text may have.
pub const TEXT_BYTES: usize = 65_536;
/// How deep blocks may lie inside the block of a thread, which has depth 0.
pub const DEPTH: u32 = 32;
/// The greatest number that a text may hold, with or without a minus before it: 2^63 - 1.
pub const NUMBER: u64 = 9_223_372_036_854_775_807;
/// The greatest count of a semaphore.
pub const COUNT: u64 = 65_535;
/// The most times that a `repeat` may run its block.
pub const REPEATS: u64 = 100;
