//! The queue of a condition.

ghost use Rattle.std.specs.Prelude.{◌≡◌, ◌<◌, ◌≤◌, length, [], ◌∷◌, ◌++◌, take, drop, MatchOption};

use guest_code::limits::THREADS;
use std::alloc::AllocError;
use std::marker::Model;

/// Threads that wait, the longest waiting first. Has room for every thread: nothing is allocated.
#[derive(Drop)]
pub struct Queue {
    threads: [u8; THREADS],
    length: usize,
}

impl Model for Queue {
    ghost use Rattle.std.specs.Prelude.{List, ℕ, ◌≤◌, take};
    ghost use Rattle.guest_code.specs.declared.limits.TheConstants.{THREADS};

    ghost Value = { List ℕ };

    ghost view = { λ q. take q.length q.threads };

    ghost invariant = { λ q. q.length ≤ THREADS };
}

impl Clone for Queue {
    ghost use Rattle.std.specs.Prelude.{◌≡◌};

    ghost is_clone = { λ q copy. copy ≡ q };

    /// A copy, as [`Queue::copy`] makes it: it never fails.
    fn clone(&self) -> Result<Queue, AllocError> {
        Ok(self.copy())
    }
}

impl Queue {
    /// An empty queue.
    pub fn new() -> Queue
        ensures { result ≡ [] }
    {
        Queue {
            threads: [0; THREADS],
            length: 0,
        }
    }

    /// The threads in the queue, the one that waits longest first.
    pub fn threads(&self) -> &[u8]
        ensures { result.now ≡ self.now }
    {
        &self.threads[..self.length]
    }

    /// A copy of the queue. Nothing is allocated.
    pub fn copy(&self) -> Queue
        ensures { result ≡ self.now }
    {
        Queue {
            threads: self.threads,
            length: self.length,
        }
    }

    /// Puts a thread at the end of the queue.
    pub fn push(&mut self, thread: u8)
        requires room { length self.old < THREADS }
        ensures { self.new ≡ self.old ++ thread ∷ [] }
    {
        self.threads[self.length] = thread;
        self.length += 1;
    }

    /// Takes out the thread that waits longest, and answers it; `None` where the queue is empty.
    pub fn pop(&mut self) -> Option<u8>
        ensures rest { self.new ≡ drop 1 self.old }
        ensures first { MatchOption result (self.old ≡ []) (λ t. take 1 self.old ≡ t ∷ []) }
    {
        if self.length == 0 {
            return None;
        }
        let first = self.threads[0];
        self.threads.rotate_left(1);
        self.length -= 1;
        Some(first)
    }

    /// Takes all threads out of the queue.
    pub fn clear(&mut self)
        ensures { self.new ≡ [] }
    {
        self.length = 0;
    }
}
