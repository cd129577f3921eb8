//! Loops that a `leave` may end.

use guest_syntax::place::Pos;

/// A loop that a `leave` may end, as a spin loop: one copy of a `repeat` in the flat code.
#[derive(Drop)]
pub struct Spin {
    /// The thread that has the loop.
    pub thread: u8,
    /// Where the `repeat` is.
    pub at: Pos,
    /// The number of the first instruction after the loop's last turn.
    pub exit: usize,
    /// For each instruction of the thread, whether it is in the loop, and isn't a `leave` of this
    /// loop.
    pub inside: Vec<bool>,
}

impl Spin {
    /// Whether the turns of the loop run out where a thread goes from instruction `from` to
    /// instruction `to`: whether the loop is of this thread and ends so, and not by its `leave`.
    pub fn runs_out(&self, thread: u8, from: usize, to: usize) -> bool {
        self.thread == thread && self.exit == to && self.inside.get(from).copied().unwrap_or(false)
    }
}
