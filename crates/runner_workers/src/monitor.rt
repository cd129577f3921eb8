//! A monitor: a lock, and a count of turns that workers wait for.

use crate::limits::{SPINS, YIELDS};
use runner_rounds::PADDING_WORDS;
use std::sync::atomic::{AtomicU64, Ordering};
use std::sync::{Mutex, MutexGuard, Wait};
use std::{hint, thread};

/// What workers share under a lock, and, beside it, the number of the last turn that has ended.
/// Workers that wait look at that without the lock.
#[derive(Drop)]
pub(crate) struct Monitor<D> {
    before_lock: [u64; PADDING_WORDS],
    pub mutex: Mutex<D>,
    before_word: [u64; PADDING_WORDS],
    ended: AtomicU64,
    after_word: [u64; PADDING_WORDS],
}

impl<D> Monitor<D> {
    /// A monitor with this value under its lock. No turn has ended.
    pub fn new(value: D) -> Monitor<D> {
        Monitor {
            before_lock: [0; PADDING_WORDS],
            mutex: Mutex::new(value),
            before_word: [0; PADDING_WORDS],
            ended: AtomicU64::new(0),
            after_word: [0; PADDING_WORDS],
        }
    }

    /// Waits for the lock and takes it. Spins for a while before it sleeps: to be woken takes
    /// longer than workers mostly hold the lock.
    pub fn lock<R: Wait>(&self, rt: &R) -> MutexGuard<'_, D> {
        for _ in 0..SPINS {
            if let Some(guard) = self.mutex.try_lock() {
                return guard;
            }
            hint::spin_loop();
        }
        self.mutex.lock(rt)
    }

    /// Notes that this turn has ended, and wakes all workers that wait. Turns may be noted out of
    /// order: the number of the last one never falls.
    pub fn notify_all(&self, turn: u64) {
        self.ended.fetch_max(turn, Ordering::SeqCst);
        self.ended.wake_all();
    }

    /// Waits until the turn with this number has ended: spins, then yields, then sleeps.
    pub fn wait<R: Wait>(&self, rt: &R, turn: u64) {
        for look in 0..SPINS + YIELDS {
            if self.ended.load(Ordering::SeqCst) >= turn {
                return;
            }
            if look < SPINS {
                hint::spin_loop();
            } else {
                thread::yield_now();
            }
        }
        self.sleep(rt, turn);
    }

    // Sleeps until the turn with this number has ended. `park` doesn't sleep where the low 32 bits
    // of the word are others than those that were read.
    fn sleep<R: Wait>(&self, rt: &R, turn: u64) {
        for _ in rt.forever() {
            let ended = self.ended.load(Ordering::SeqCst);
            if ended >= turn {
                return;
            }
            self.ended.park(rt, (ended % (1 << 32)) as u32);
        }
    }
}
