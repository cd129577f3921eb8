//! What was found under one prefix at one bound.

use crate::guest::GuestDigest;
use runner_report::Level;

/// The version of lines of parts and of the guest language, which each line names: one more where
/// either changes, so that parts of two versions are never joined.
pub const VERSION: u64 = 1;

/// What a search under a prefix found at one bound.
#[derive(Drop)]
pub struct Part {
    /// The prefix: the threads that take its steps, by their numbers.
    pub under: Vec<u8>,
    /// What was found of the schedules that begin with the prefix.
    pub level: Level,
    /// Which guest was searched.
    pub guest: GuestDigest,
}
