//! Independent steps, and what sleep sets leave. That a thread that was tried sleeps for its later
//! siblings, until a step that depends on it wakes it, is Godefroid's idea (LNCS 1032, 1996); the
//! rule is our own.

ghost use Rattle.std.specs.Prelude.{◌≡◌, ◌≢◌, ◌↔◌, ◌⊎◌, ℕ, Bool, true, false, not, List, [], ◌∷◌, map, filter, flat_map, Contains, Some, None};
ghost use Rattle.guest_code.specs.{Program.Program, declared.program.Expression.Expression};
ghost use Rattle.guest_code.specs.declared.program.Instruction.TheVariants.{Load, Store, Add, Cas, Lock, Unlock, Wait, Signal, Broadcast, Acquire, Release, Set, Assert, SkipIfZero, Skip};
ghost use Rattle.guest_code.specs.declared.program.Value.{Value};
ghost use Rattle.semantics.specs.Accesses.{Object};
ghost use Rattle.semantics.specs.Accesses.Access.{reads_var, writes_var, writes_mutex, writes_condition, writes_semaphore};
ghost use Rattle.semantics.specs.{Effects.IsAboutTo, Ends.{enabled, is_terminal}};
ghost use Rattle.semantics.specs.{Machine.{Snapshot, step, is_enabled, next_of}, View.View};
ghost use Rattle.semantics.specs.declared.state.Action.{Action, TheVariants.OnVariable};
ghost use Rattle.semantics.specs.declared.state.Status.TheVariants.{Running, Woken};
ghost use Rattle.semantics.specs.declared.state.VariableAction.TheVariants.{Load as Loads};
ghost use Rattle.semantics_schedules.specs.Dependence.{ConflictOn, accesses_at};
ghost use Rattle.semantics_schedules.specs.Order.{is_complete, least, end_from, ends_badly};
ghost use Rattle.semantics_schedules.specs.Schedules.{before, complete_schedules};
ghost use Rattle.semantics_schedules.specs.Sleep.{independent, is_kept, next_sleep_set, reduced_schedules, none_asleep, IsMetEarlier, IsMetAsleep};

// Independent steps.

/// Independence of next steps is symmetric, and no thread's next step is independent of itself, or
/// of a thread that has no next step.
pub fn independence_is_symmetric()
    ensures either_order { (p : Program) (s : Snapshot) (t v : ℕ) →
        independent p s t v ≡ independent p s v t }
    ensures itself { (p : Program) (s : Snapshot) (t : ℕ) → independent p s t t ≡ false }
    ensures none { (p : Program) (s : Snapshot) (t v : ℕ) →
        next_of p s t ≡ None → independent p s t v ≡ false }
{}

/// Steps of two different threads are dependent exactly where there is an object that both access
/// and that at least one of them writes; so two loads are always independent.
pub fn dependent_means_a_shared_object()
    ensures dependent { (p : Program) (s : Snapshot) (t v : ℕ) (a b : Action) →
        t ≢ v → IsAboutTo p s t a → IsAboutTo p s v b →
        (independent p s t v ≡ false) ↔ ((o : Object) × ConflictOn a b o) }
    ensures loads { (p : Program) (s : Snapshot) (t v x y r q : ℕ) →
        t ≢ v → IsAboutTo p s t (OnVariable x (Loads r)) →
        IsAboutTo p s v (OnVariable y (Loads q)) → independent p s t v ≡ true }
{}

/// What the step of each instruction accesses: a load reads its variable; a store, an `add` and a
/// `cas` write it, a `cas` also where it misses; lock, unlock and taking the mutex again write the
/// mutex, a wait writes its condition and its mutex, a signal and a broadcast write the condition,
/// and acquire and release write the semaphore. The other instructions take no step.
pub fn steps_access_these_objects()
    ensures load { (r x : ℕ) → accesses_at Running (Load r x) ≡ Some (reads_var x ∷ []) }
    ensures store { (x : ℕ) (a : Value) →
        accesses_at Running (Store x a) ≡ Some (writes_var x ∷ []) }
    ensures add { (r x : ℕ) (a : Value) →
        accesses_at Running (Add r x a) ≡ Some (writes_var x ∷ []) }
    ensures cas { (r x : ℕ) (a b : Value) →
        accesses_at Running (Cas r x a b) ≡ Some (writes_var x ∷ []) }
    ensures lock { (m : ℕ) → accesses_at Running (Lock m) ≡ Some (writes_mutex m ∷ []) }
    ensures unlock { (m : ℕ) → accesses_at Running (Unlock m) ≡ Some (writes_mutex m ∷ []) }
    ensures wait { (c m : ℕ) →
        accesses_at Running (Wait c m) ≡ Some (writes_condition c ∷ writes_mutex m ∷ []) }
    ensures retake { (c m : ℕ) → accesses_at Woken (Wait c m) ≡ Some (writes_mutex m ∷ []) }
    ensures signal { (c : ℕ) → accesses_at Running (Signal c) ≡ Some (writes_condition c ∷ []) }
    ensures broadcast { (c : ℕ) →
        accesses_at Running (Broadcast c) ≡ Some (writes_condition c ∷ []) }
    ensures acquire { (k : ℕ) →
        accesses_at Running (Acquire k) ≡ Some (writes_semaphore k ∷ []) }
    ensures release { (k : ℕ) →
        accesses_at Running (Release k) ≡ Some (writes_semaphore k ∷ []) }
    ensures set { (r : ℕ) (e : Expression) → accesses_at Running (Set r e) ≡ None }
    ensures assert { (e : Expression) → accesses_at Running (Assert e) ≡ None }
    ensures skip { (e : Expression) (n : ℕ) →
        (accesses_at Running (SkipIfZero e n) ≡ None) × (accesses_at Running (Skip n) ≡ None) }
{}

/// Of two independent steps of enabled threads each leaves the other thread enabled.
pub fn independent_stay_enabled()
    ensures second { (p : Program) (s : Snapshot) (t v : ℕ) →
        is_enabled p s t ≡ true → is_enabled p s v ≡ true → independent p s t v ≡ true →
        is_enabled p (step p s t) v ≡ true }
    ensures first { (p : Program) (s : Snapshot) (t v : ℕ) →
        is_enabled p s t ≡ true → is_enabled p s v ≡ true → independent p s t v ≡ true →
        is_enabled p (step p s v) t ≡ true }
{}

/// Both orders of two independent steps of enabled threads lead to one state.
pub fn independent_commute()
    ensures { (p : Program) (s : Snapshot) (t v : ℕ) →
        is_enabled p s t ≡ true → is_enabled p s v ≡ true → independent p s t v ≡ true →
        step p (step p s t) v ≡ step p (step p s v) t }
{}

// What sleep sets leave.

/// The reduced schedules from a state with the sleep set `Z`, those that sleep sets leave, are the
/// empty one alone where no thread is enabled; else, for each enabled thread that isn't in `Z`, in
/// rising order, a step of it followed by each reduced schedule from the state after that step,
/// with the sleep set after it.
pub fn reduced_schedules_unfold()
    ensures terminal { (p : Program) (s : Snapshot) (Z : ℕ → Bool) →
        is_terminal p s ≡ true → reduced_schedules p s Z ≡ [] ∷ [] }
    ensures more { (p : Program) (s : Snapshot) (Z : ℕ → Bool) →
        is_terminal p s ≡ false →
        reduced_schedules p s Z
        ≡ flat_map (λ t. before t (reduced_schedules p (step p s t) (next_sleep_set p s Z t)))
        (filter (λ t. not (Z t)) (enabled p s)) }
{}

/// The reduced schedules from a state with the sleep set `Z` are exactly the complete ones that are
/// kept: no step is of a thread in the sleep set before that step. Each kept schedule is complete.
pub fn reduced_are_the_kept()
    ensures members { (p : Program) (s : Snapshot) (Z : ℕ → Bool) (w : List ℕ) →
        Contains (reduced_schedules p s Z) w
        ↔ (Contains (complete_schedules p s) w × (is_kept p s Z w ≡ true)) }
    ensures complete { (p : Program) (s : Snapshot) (Z : ℕ → Bool) (w : List ℕ) →
        is_kept p s Z w ≡ true → is_complete p s w ≡ true }
{}

/// Each complete schedule from a state with the sleep set `Z` is kept, unless a complete one that
/// comes before it, or that begins with a step of a thread in `Z`, leads to the same state.
pub fn pruned_schedules_are_redundant()
    ensures { (p : Program) (s : Snapshot) (Z : ℕ → Bool) (w : List ℕ) →
        is_complete p s w ≡ true →
        (is_kept p s Z w ≡ true) ⊎ (IsMetEarlier p s w ⊎ IsMetAsleep p s Z w) }
{}

/// With an empty sleep set at the start, the end views of the schedules that sleep sets leave are
/// those of all complete schedules.
pub fn ends_are_kept()
    ensures { (p : Program) (s : Snapshot) (x : View) →
        Contains (map (end_from p s) (complete_schedules p s)) x
        ↔ Contains (map (end_from p s) (reduced_schedules p s none_asleep)) x }
{}

/// With an empty sleep set at the start, the least bad one of all complete schedules is the least
/// bad one of those that sleep sets leave; where no complete one is bad, neither has one.
pub fn least_bad_is_kept()
    ensures { (p : Program) (s : Snapshot) →
        least (filter (ends_badly p s) (complete_schedules p s))
        ≡ least (filter (ends_badly p s) (reduced_schedules p s none_asleep)) }
{}
