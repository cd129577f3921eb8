//! What holds of each state that a schedule leads to.

ghost use Rattle.std.specs.Prelude.{◌≡◌, ℕ, List, true, Some};
ghost use Rattle.guest_code.specs.Program.{Program, IsWellFormed};
ghost use Rattle.semantics.specs.{Effects.IsOver, Machine.{Snapshot, start, owner_of, thread_at}};
ghost use Rattle.semantics.specs.{Reachable.IsOf, Waiters.HasWaiters};
ghost use Rattle.semantics_schedules.specs.Schedules.{runs, state_after};

/// Each schedule that runs in a well formed program leads to a state of the program.
pub fn schedules_stay_in_the_program()
    ensures { (p : Program) (w : List ℕ) →
        IsWellFormed p → runs p (start p) w ≡ true → IsOf p (state_after p (start p) w) }
{}

/// After each schedule that runs, each thread in a condition's queue waits for that condition, and
/// is in the queue once.
pub fn queues_hold_waiters()
    ensures { (p : Program) (w : List ℕ) →
        runs p (start p) w ≡ true → HasWaiters (state_after p (start p) w) }
{}

/// A thread that stopped or ended keeps its mutexes, whatever steps follow, and stays as it is.
pub fn threads_that_are_over_keep_their_mutexes()
    ensures mutexes { (p : Program) (s : Snapshot) (u m : ℕ) (w : List ℕ) →
        IsOver (thread_at s u) → owner_of s m ≡ Some u → runs p s w ≡ true →
        owner_of (state_after p s w) m ≡ Some u }
    ensures thread { (p : Program) (s : Snapshot) (u : ℕ) (w : List ℕ) →
        IsOver (thread_at s u) → runs p s w ≡ true →
        thread_at (state_after p s w) u ≡ thread_at s u }
{}
