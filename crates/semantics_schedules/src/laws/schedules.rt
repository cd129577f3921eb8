//! Which threads are enabled, which schedules are complete, their lengths, their preemptions, and
//! those that begin with a prefix.

ghost use Rattle.std.specs.Prelude.{◌≡◌, ◌≢◌, ◌+◌, ◌<◌, ◌≤◌, ◌↔◌, ◌⊎◌, ℕ, true, false, List, [], ◌∷◌, ◌++◌, length, filter, flat_map, Contains, Some, None};
ghost use Rattle.guest_code.specs.Program.{Program, IsWellFormed};
ghost use Rattle.semantics_schedules.specs.Order.{is_complete};
ghost use Rattle.semantics_schedules.specs.Rising.{IsRising, HasEachOnce, IsPrefixFree};
ghost use Rattle.semantics_schedules.specs.Schedules.{runs, state_after, before, or_complete, complete_schedules, schedules_under, schedules_within, exceeds_bound, begins_with, preemptions, last_of};
ghost use Rattle.semantics_schedules.specs.declared.limits.TheConstants.{STEPS};
ghost use Rattle.semantics.specs.Ends.{enabled, is_terminal};
ghost use Rattle.semantics.specs.{Machine.{Snapshot, step, is_enabled, start}, Work.most_steps};

// Enabled threads.

/// The list of the enabled threads of a state has exactly those that are enabled; each is a thread
/// of the state.
pub fn enabled_lists_exactly_the_enabled()
    ensures listed { (p : Program) (s : Snapshot) (t : ℕ) →
        (is_enabled p s t ≡ true) ↔ Contains (enabled p s) t }
    ensures there { (p : Program) (s : Snapshot) (t : ℕ) →
        is_enabled p s t ≡ true → t < length s.threads }
{}

/// A state is terminal exactly where no thread is enabled.
pub fn terminal_means_none_enabled()
    ensures { (p : Program) (s : Snapshot) →
        (is_terminal p s ≡ true) ↔ ((t : ℕ) → is_enabled p s t ≡ false) }
{}

// How long schedules are.

/// A schedule that runs has at most one step for each instruction, and one more for each `wait`.
pub fn schedules_are_short()
    ensures { (p : Program) (w : List ℕ) → runs p (start p) w ≡ true → length w ≤ most_steps p }
{}

/// In a well formed program no schedule that runs has over `STEPS` steps; `limit` says how many.
pub fn schedules_are_within_the_limit()
    ensures limit { STEPS ≡ 32768 }
    ensures within { (p : Program) (w : List ℕ) →
        IsWellFormed p → runs p (start p) w ≡ true → length w ≤ STEPS }
{}

// Complete schedules.

/// The complete schedules from a state are the empty one alone where no thread is enabled; else,
/// for each enabled thread in rising order, a step of it followed by each complete schedule from
/// the state after that step.
pub fn complete_schedules_unfold()
    ensures { (p : Program) (s : Snapshot) →
        complete_schedules p s
        ≡ or_complete (enabled p s)
        (flat_map (λ t. before t (complete_schedules p (step p s t))) (enabled p s)) }
{}

/// The list of the complete schedules from a state has exactly the schedules that are complete.
pub fn lists_exactly_the_complete()
    ensures { (p : Program) (s : Snapshot) (w : List ℕ) →
        (is_complete p s w ≡ true) ↔ Contains (complete_schedules p s) w }
{}

/// A schedule is complete exactly where each of its steps is one of an enabled thread and no thread
/// is enabled after it.
pub fn complete_schedules_run_to_the_end()
    ensures { (p : Program) (s : Snapshot) (w : List ℕ) →
        (is_complete p s w ≡ true)
        ↔ ((runs p s w ≡ true) × (is_terminal p (state_after p s w) ≡ true)) }
{}

/// The list of the complete schedules from a state has each of them once.
pub fn lists_each_complete_schedule_once()
    ensures { (p : Program) (s : Snapshot) → HasEachOnce (complete_schedules p s) }
{}

/// The list of complete schedules is in rising order: each comes before the next one in it.
pub fn complete_schedules_rise()
    ensures { (p : Program) (s : Snapshot) → IsRising (complete_schedules p s) }
{}

/// No complete schedule begins with another one.
pub fn none_begins_another()
    ensures { (p : Program) (s : Snapshot) → IsPrefixFree (complete_schedules p s) }
{}

// Preemptions, counted as by Musuvathi and Qadeer (PLDI 2007): the switches away from a thread that
// is still enabled.

/// The last thread of a schedule is that of its last step; a schedule without steps has none.
pub fn last_is_of_the_last_step()
    ensures none { last_of [] ≡ None }
    ensures some { (w : List ℕ) (t : ℕ) → last_of (w ++ t ∷ []) ≡ Some t }
{}

/// A step after a schedule adds a preemption exactly where the schedule's last thread is enabled
/// before the step and another thread takes the step; the first step of all adds none.
pub fn preemptions_at_the_end()
    ensures none { (p : Program) → preemptions p [] ≡ 0 }
    ensures first { (p : Program) (u : ℕ) → preemptions p (u ∷ []) ≡ 0 }
    ensures preempting { (p : Program) (w : List ℕ) (t u : ℕ) →
        last_of w ≡ Some t → is_enabled p (state_after p (start p) w) t ≡ true → t ≢ u →
        preemptions p (w ++ u ∷ []) ≡ preemptions p w + 1 }
    ensures blocked { (p : Program) (w : List ℕ) (t u : ℕ) →
        last_of w ≡ Some t → is_enabled p (state_after p (start p) w) t ≡ false →
        preemptions p (w ++ u ∷ []) ≡ preemptions p w }
    ensures same { (p : Program) (w : List ℕ) (t : ℕ) →
        last_of w ≡ Some t → preemptions p (w ++ t ∷ []) ≡ preemptions p w }
{}

/// Each prefix that runs is the beginning of a complete schedule with as many preemptions; so a
/// prefix within a bound is the beginning of a complete schedule within that bound.
pub fn prefixes_extend()
    ensures as_many { (p : Program) (x : List ℕ) →
        runs p (start p) x ≡ true →
        (w : List ℕ) × Contains (complete_schedules p (start p)) w
        × (begins_with x w ≡ true) × (preemptions p w ≡ preemptions p x) }
    ensures within { (p : Program) (x : List ℕ) (b : ℕ) →
        runs p (start p) x ≡ true → preemptions p x ≤ b →
        (w : List ℕ) × Contains (schedules_within p x b) w }
{}

// Schedules under a prefix.

/// Under a prefix are the complete schedules that begin with it. Those of them with at most b
/// preemptions are within the bound b. The prefix exceeds the bound exactly where some schedule
/// under it has more.
pub fn schedules_under_and_within()
    ensures under { (p : Program) (x w : List ℕ) →
        ((is_complete p (start p) w ≡ true) × (begins_with x w ≡ true))
        ↔ Contains (schedules_under p x) w }
    ensures within { (p : Program) (x : List ℕ) (b : ℕ) (w : List ℕ) →
        (Contains (schedules_under p x) w × (preemptions p w ≤ b))
        ↔ Contains (schedules_within p x b) w }
    ensures beyond { (p : Program) (x : List ℕ) (b : ℕ) →
        (exceeds_bound p x b ≡ true)
        ↔ ((w : List ℕ) × Contains (schedules_under p x) w × (b < preemptions p w)) }
{}

/// Where prefix y begins with prefix x, the complete schedules under y are those under x that begin
/// with y, in the same order. The same holds of the ones with at most b preemptions.
pub fn longer_prefixes_filter_schedules()
    ensures under { (p : Program) (x y : List ℕ) →
        begins_with x y ≡ true →
        schedules_under p y ≡ filter (begins_with y) (schedules_under p x) }
    ensures within { (p : Program) (x y : List ℕ) (b : ℕ) →
        begins_with x y ≡ true →
        schedules_within p y b ≡ filter (begins_with y) (schedules_within p x b) }
{}

/// Of two prefixes of one schedule one begins with the other; so two prefixes of which neither
/// begins with the other are prefixes of no common schedule.
pub fn prefixes_of_one_schedule_are_comparable()
    ensures { (x y w : List ℕ) →
        begins_with x w ≡ true → begins_with y w ≡ true →
        (begins_with x y ≡ true) ⊎ (begins_with y x ≡ true) }
{}
