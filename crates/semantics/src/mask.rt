//! Sets of thread numbers.

ghost use Rattle.std.specs.Prelude.{◌≡◌, ◌≢◌, ◌<◌, ◌≤◌, ◌+◌, ◌∷◌, ◌&&◌, ◌||◌, [], ℕ, false, not, IsTrue, MatchOption};
ghost use Rattle.semantics.specs.Mask.{has, no_threads, members_from};

use guest_code::limits::THREADS;

/// A set of thread numbers, a bit for each thread.
#[derive(Clone, Copy, PartialEq, Eq)]
pub struct Mask {
    pub(crate) bits: u16,
}

impl Mask {
    /// Whether a thread is in the set; false for a number of `THREADS` or more.
    pub fn has(self, thread: u8) -> bool
        ensures { result ≡ has self thread }
    {
        (thread as usize) < THREADS && (self.bits >> thread) & 1 == 1
    }

    /// The empty set.
    pub fn empty() -> Mask
        ensures { result ≡ no_threads }
    {
        Mask { bits: 0 }
    }

    /// The set with the thread added where `on` is true, else with the thread taken out.
    pub fn with(self, thread: u8, on: bool) -> Mask
        requires { thread < THREADS }
        ensures same { has result thread ≡ on }
        ensures others { (u : ℕ) → u ≢ thread → has result u ≡ has self u }
    {
        if on {
            Mask {
                bits: self.bits | (1 << thread),
            }
        } else {
            Mask {
                bits: self.bits & !(1 << thread),
            }
        }
    }

    /// The members of this set that aren't in the other one.
    pub fn difference(self, other: Mask) -> Mask
        ensures { (u : ℕ) → has result u ≡ (has self u && not (has other u)) }
    {
        Mask {
            bits: self.bits & !other.bits,
        }
    }

    /// The threads that are in this set, in the other one, or in both.
    pub fn union(self, other: Mask) -> Mask
        ensures { (u : ℕ) → has result u ≡ (has self u || has other u) }
    {
        Mask {
            bits: self.bits | other.bits,
        }
    }

    /// The member with the least number that is `least` or more; `None` where there is none.
    pub fn first_from(self, least: u8) -> Option<u8>
        ensures list { MatchOption result (members_from self least ≡ [])
            (λ t. members_from self least ≡ t ∷ members_from self (t + 1)) }
        ensures member { MatchOption result (members_from self least ≡ [])
            (λ t. IsTrue (has self t) × (least ≤ t) × (t < THREADS)) }
        ensures none { MatchOption result (members_from self least ≡ [])
            (λ t. (u : ℕ) → least ≤ u → u < t → has self u ≡ false) }
    {
        if least as usize >= THREADS {
            return None;
        }
        let rest = self.bits >> least;
        if rest == 0 {
            return None;
        }
        let more = rest.trailing_zeros() as u8;
        Some(least + more)
    }
}
