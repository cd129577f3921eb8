//! What a search needs of the system.

use std::alloc::{Alloc, Global};
use std::io::Eprint;
use std::sync::Wait;
use std::thread::Threads;

/// A system on which searches can run: it has threads, which may wait, memory, and standard error
/// for their progress.
pub trait Host: Threads + Wait + Sync + Eprint + Alloc<A = Global> {}

impl<H: Threads + Wait + Sync + Eprint + Alloc<A = Global>> Host for H {}
