//! The limits of a program.

use guest_syntax::limits as text;

/// The most threads of a program.
pub const THREADS: usize = 16;
/// The most variables of a program.
pub const VARIABLES: usize = 16;
/// The most mutexes of a program, and the most conditions, and the most semaphores.
pub const OBJECTS: usize = 8;
/// The most locals of a thread.
pub const LOCALS: usize = 16;
/// The most instructions of a thread.
pub const INSTRUCTIONS: usize = 1_024;
/// The greatest count of a semaphore: that of a text.
pub const COUNT: u16 = text::COUNT as u16;
