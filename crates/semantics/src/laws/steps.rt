//! What steps do with objects and threads.

ghost use Rattle.std.specs.Prelude.{◌≡◌, ◌≢◌, ◌+◌, ◌-◌, ◌<◌, ◌↔◌, ℕ, pos, true, List, [], ◌∷◌, ◌++◌, length, Some, None};
ghost use Rattle.guest_code.specs.{Program.Program, declared.limits.TheConstants.COUNT};
ghost use Rattle.guest_code.specs.declared.program.Value.{Value};
ghost use Rattle.guest_syntax.specs.declared.tree.Op.TheVariants.{Add as Plus};
ghost use Rattle.semantics.specs.Accesses.{Writes, Object.{variable, mutex, condition, semaphore}};
ghost use Rattle.semantics.specs.Effects.{IsAboutTo, RunsOn, PutsInto, StopsNotHeld, StopsFull, IsLeft, operand_of};
ghost use Rattle.semantics.specs.Machine.{Snapshot, step, is_enabled, next_of, threads_to_wake, value_of, owner_of, queue_of, count_of, thread_at, of_both};
ghost use Rattle.semantics.specs.{Waiters.{In, HasWaiters}, Work.work};
ghost use Rattle.semantics.specs.declared.state.Action.{Action};
ghost use Rattle.semantics.specs.declared.state.Action.TheVariants.{OnVariable, OnMutex, Wait as Waits, OnCondition, OnSemaphore};
ghost use Rattle.semantics.specs.declared.state.ConditionAction.{ConditionAction};
ghost use Rattle.semantics.specs.declared.state.ConditionAction.TheVariants.{Signal, Broadcast};
ghost use Rattle.semantics.specs.declared.state.MutexAction.{MutexAction, TheVariants.Unlock};
ghost use Rattle.semantics.specs.declared.state.SemaphoreAction.TheVariants.{Acquire, Release};
ghost use Rattle.semantics.specs.declared.state.Status.TheVariants.{Waiting, Woken};
ghost use Rattle.semantics.specs.declared.state.VariableAction.TheVariants.{Load, Store, Add, Cas};

// What a step leaves.

/// A step changes no object that it doesn't write.
pub fn steps_change_only_what_they_write()
    ensures variables { (p : Program) (s : Snapshot) (t x : ℕ) (a : Action) →
        IsAboutTo p s t a → (Writes a (variable x) → ⊥) →
        value_of (step p s t) x ≡ value_of s x }
    ensures mutexes { (p : Program) (s : Snapshot) (t m : ℕ) (a : Action) →
        IsAboutTo p s t a → (Writes a (mutex m) → ⊥) →
        owner_of (step p s t) m ≡ owner_of s m }
    ensures conditions { (p : Program) (s : Snapshot) (t c : ℕ) (a : Action) →
        IsAboutTo p s t a → (Writes a (condition c) → ⊥) →
        queue_of (step p s t) c ≡ queue_of s c }
    ensures semaphores { (p : Program) (s : Snapshot) (t k : ℕ) (a : Action) →
        IsAboutTo p s t a → (Writes a (semaphore k) → ⊥) →
        count_of (step p s t) k ≡ count_of s k }
{}

/// A step of one thread leaves each other thread as it is, or wakes it; place and locals stay.
pub fn steps_leave_other_threads()
    ensures { (p : Program) (s : Snapshot) (t u : ℕ) →
        is_enabled p s t ≡ true → u ≢ t → IsLeft (thread_at s u) (thread_at (step p s t) u) }
{}

/// Each step of an enabled thread lowers the work: how many steps all threads may still take.
pub fn work_falls()
    ensures { (p : Program) (s : Snapshot) (t : ℕ) →
        is_enabled p s t ≡ true → work p (step p s t) < work p s }
{}

// Variables. In each of these x is the variable, and r the local that the step writes.

/// A load puts the variable's value into its local, and changes no variable.
pub fn loads_read()
    ensures local { (p : Program) (s : Snapshot) (t x r : ℕ) →
        IsAboutTo p s t (OnVariable x (Load r)) → PutsInto p s t r (value_of s x) }
    ensures variables { (p : Program) (s : Snapshot) (t x r : ℕ) →
        IsAboutTo p s t (OnVariable x (Load r)) → (step p s t).vars ≡ s.vars }
{}

/// After a store its variable has the value of its operand. The store changes no other variable,
/// and its thread runs on with its locals as they were.
pub fn stores_write()
    ensures value { (p : Program) (s : Snapshot) (t x : ℕ) (a : Value) →
        IsAboutTo p s t (OnVariable x (Store a)) → x < length s.vars →
        value_of (step p s t) x ≡ operand_of s t a }
    ensures others { (p : Program) (s : Snapshot) (t x : ℕ) (a : Value) →
        IsAboutTo p s t (OnVariable x (Store a)) →
        (y : ℕ) → y ≢ x → value_of (step p s t) y ≡ value_of s y }
    ensures thread { (p : Program) (s : Snapshot) (t x : ℕ) (a : Value) →
        IsAboutTo p s t (OnVariable x (Store a)) → RunsOn p s t }
{}

/// In one step, an `add` puts the variable's old value into its local, and the sum of the old value
/// and its operand, as `+` makes it, into the variable.
pub fn adds_are_atomic()
    ensures local { (p : Program) (s : Snapshot) (t x r : ℕ) (a : Value) →
        IsAboutTo p s t (OnVariable x (Add r a)) → PutsInto p s t r (value_of s x) }
    ensures value { (p : Program) (s : Snapshot) (t x r : ℕ) (a : Value) →
        IsAboutTo p s t (OnVariable x (Add r a)) → x < length s.vars →
        value_of (step p s t) x ≡ of_both Plus (value_of s x) (operand_of s t a) }
{}

/// In one step, a `cas` whose variable has the expected value gives it the new one, and puts 1 into
/// its local; any other `cas` puts 0 into its local, and changes no variable.
pub fn cas_is_atomic()
    ensures hit { (p : Program) (s : Snapshot) (t x r : ℕ) (a b : Value) →
        IsAboutTo p s t (OnVariable x (Cas r a b)) → x < length s.vars →
        value_of s x ≡ operand_of s t a → value_of (step p s t) x ≡ operand_of s t b }
    ensures hit_local { (p : Program) (s : Snapshot) (t x r : ℕ) (a b : Value) →
        IsAboutTo p s t (OnVariable x (Cas r a b)) →
        value_of s x ≡ operand_of s t a → PutsInto p s t r (pos 1) }
    ensures miss { (p : Program) (s : Snapshot) (t x r : ℕ) (a b : Value) →
        IsAboutTo p s t (OnVariable x (Cas r a b)) →
        value_of s x ≢ operand_of s t a → (step p s t).vars ≡ s.vars }
    ensures miss_local { (p : Program) (s : Snapshot) (t x r : ℕ) (a b : Value) →
        IsAboutTo p s t (OnVariable x (Cas r a b)) →
        value_of s x ≢ operand_of s t a → PutsInto p s t r (pos 0) }
{}

// Mutexes.

/// A thread whose next step locks a mutex, or takes it again after a `wait`, is enabled exactly
/// where the mutex is free, and owns it after the step.
pub fn free_mutexes_are_taken()
    ensures enabled { (p : Program) (s : Snapshot) (t m : ℕ) (d : MutexAction) →
        d ≢ Unlock → IsAboutTo p s t (OnMutex m d) →
        (is_enabled p s t ≡ true) ↔ (owner_of s m ≡ None) }
    ensures owned { (p : Program) (s : Snapshot) (t m : ℕ) (d : MutexAction) →
        d ≢ Unlock → IsAboutTo p s t (OnMutex m d) → m < length s.owners →
        owner_of (step p s t) m ≡ Some t }
{}

/// An unlock by the mutex's owner frees the mutex, and the thread runs on; one by another thread
/// leaves the mutex as it is, and stops that other thread.
pub fn owners_alone_unlock()
    ensures frees { (p : Program) (s : Snapshot) (t m : ℕ) →
        IsAboutTo p s t (OnMutex m Unlock) → owner_of s m ≡ Some t →
        owner_of (step p s t) m ≡ None }
    ensures runs_on { (p : Program) (s : Snapshot) (t m : ℕ) →
        IsAboutTo p s t (OnMutex m Unlock) → owner_of s m ≡ Some t → RunsOn p s t }
    ensures leaves { (p : Program) (s : Snapshot) (t m : ℕ) →
        IsAboutTo p s t (OnMutex m Unlock) → owner_of s m ≢ Some t →
        owner_of (step p s t) m ≡ owner_of s m }
    ensures stops { (p : Program) (s : Snapshot) (t m : ℕ) →
        IsAboutTo p s t (OnMutex m Unlock) → owner_of s m ≢ Some t → StopsNotHeld p s t }
{}

/// A wait by the mutex's owner frees the mutex, and the thread waits, last in the condition's
/// queue; one by another thread leaves mutex and queue as they are, and stops that other thread.
pub fn owners_alone_wait()
    ensures frees { (p : Program) (s : Snapshot) (t m c : ℕ) →
        IsAboutTo p s t (Waits c m) → owner_of s m ≡ Some t → owner_of (step p s t) m ≡ None }
    ensures waits { (p : Program) (s : Snapshot) (t m c : ℕ) →
        IsAboutTo p s t (Waits c m) → owner_of s m ≡ Some t →
        (thread_at (step p s t) t).status ≡ Waiting c }
    ensures joins { (p : Program) (s : Snapshot) (t m c : ℕ) →
        IsAboutTo p s t (Waits c m) → owner_of s m ≡ Some t → c < length s.queues →
        queue_of (step p s t) c ≡ queue_of s c ++ t ∷ [] }
    ensures leaves { (p : Program) (s : Snapshot) (t m c : ℕ) →
        IsAboutTo p s t (Waits c m) → owner_of s m ≢ Some t →
        owner_of (step p s t) m ≡ owner_of s m }
    ensures leaves_queue { (p : Program) (s : Snapshot) (t m c : ℕ) →
        IsAboutTo p s t (Waits c m) → owner_of s m ≢ Some t →
        queue_of (step p s t) c ≡ queue_of s c }
    ensures stops { (p : Program) (s : Snapshot) (t m c : ℕ) →
        IsAboutTo p s t (Waits c m) → owner_of s m ≢ Some t → StopsNotHeld p s t }
{}

/// A mutex that one thread owns is still that thread's after every step of another thread.
pub fn others_leave_an_owned_mutex()
    ensures { (p : Program) (s : Snapshot) (t u m : ℕ) →
        is_enabled p s t ≡ true → owner_of s m ≡ Some u → t ≢ u →
        owner_of (step p s t) m ≡ Some u }
{}

// Conditions.

/// Where each thread in a condition's queue waits for that condition, a signal wakes the first
/// thread of the queue, and a broadcast wakes all threads of it.
pub fn threads_to_wake_are_woken()
    ensures { (p : Program) (s : Snapshot) (t u c : ℕ) (d : ConditionAction) →
        HasWaiters s → next_of p s t ≡ Some (OnCondition c d) →
        In (threads_to_wake d (queue_of s c)) u →
        (thread_at (step p s t) u).status ≡ Woken }
{}

/// Where each thread in a queue waits for the queue's condition, a signal wakes the first thread of
/// its condition's queue, which leaves the queue, and no other; an empty queue has nobody to wake.
pub fn signals_wake_the_first()
    ensures woken { (p : Program) (s : Snapshot) (t c u : ℕ) (us : List ℕ) →
        HasWaiters s → IsAboutTo p s t (OnCondition c Signal) → queue_of s c ≡ u ∷ us →
        (thread_at (step p s t) u).status ≡ Woken }
    ensures queue { (p : Program) (s : Snapshot) (t c u : ℕ) (us : List ℕ) →
        IsAboutTo p s t (OnCondition c Signal) → c < length s.queues →
        queue_of s c ≡ u ∷ us → queue_of (step p s t) c ≡ us }
    ensures others { (p : Program) (s : Snapshot) (t c u : ℕ) (us : List ℕ) (v : ℕ) →
        IsAboutTo p s t (OnCondition c Signal) → queue_of s c ≡ u ∷ us → v ≢ t → v ≢ u →
        thread_at (step p s t) v ≡ thread_at s v }
    ensures nobody { (p : Program) (s : Snapshot) (t c v : ℕ) →
        IsAboutTo p s t (OnCondition c Signal) → queue_of s c ≡ [] → v ≢ t →
        thread_at (step p s t) v ≡ thread_at s v }
{}

/// After a broadcast the queue of its condition is empty.
pub fn broadcasts_empty_the_queue()
    ensures { (p : Program) (s : Snapshot) (t c : ℕ) →
        IsAboutTo p s t (OnCondition c Broadcast) → c < length s.queues →
        queue_of (step p s t) c ≡ [] }
{}

// Semaphores.

/// A thread whose next step acquires a semaphore is enabled exactly where the count is above 0. The
/// step lowers the count by 1, and the thread runs on.
pub fn acquires_lower_the_count()
    ensures enabled { (p : Program) (s : Snapshot) (t k : ℕ) →
        IsAboutTo p s t (OnSemaphore k Acquire) →
        (is_enabled p s t ≡ true) ↔ (0 < count_of s k) }
    ensures count { (p : Program) (s : Snapshot) (t k : ℕ) →
        IsAboutTo p s t (OnSemaphore k Acquire) → k < length s.counts →
        count_of (step p s t) k ≡ count_of s k - 1 }
    ensures thread { (p : Program) (s : Snapshot) (t k : ℕ) →
        IsAboutTo p s t (OnSemaphore k Acquire) → RunsOn p s t }
{}

/// A release raises its semaphore's count by 1, and its thread runs on; where the count is `COUNT`
/// already it stays, and the thread stops.
pub fn releases_raise_the_count()
    ensures count { (p : Program) (s : Snapshot) (t k : ℕ) →
        IsAboutTo p s t (OnSemaphore k Release) → k < length s.counts →
        count_of s k ≢ COUNT → count_of (step p s t) k ≡ count_of s k + 1 }
    ensures thread { (p : Program) (s : Snapshot) (t k : ℕ) →
        IsAboutTo p s t (OnSemaphore k Release) → count_of s k ≢ COUNT → RunsOn p s t }
    ensures full { (p : Program) (s : Snapshot) (t k : ℕ) →
        IsAboutTo p s t (OnSemaphore k Release) → k < length s.counts →
        count_of s k ≡ COUNT → count_of (step p s t) k ≡ COUNT }
    ensures stops { (p : Program) (s : Snapshot) (t k : ℕ) →
        IsAboutTo p s t (OnSemaphore k Release) → count_of s k ≡ COUNT → StopsFull p s t }
{}
