//! How to take a step back.

use crate::state::Thread;
use crate::state::objects::Objects;

/// The record of a step, by which it can be taken back: its thread and the objects that it changed,
/// as they were before it. Of fixed size.
#[derive(Drop)]
pub struct Undo {
    pub(crate) thread: u8,
    pub(crate) before: Thread,
    pub(crate) objects: Objects,
}
