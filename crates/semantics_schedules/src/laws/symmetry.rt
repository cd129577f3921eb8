//! Equal threads: what they are, and that of two only the lower one has to be tried.

ghost use Rattle.std.specs.Prelude.{◌≡◌, ◌↔◌, ◌⊎◌, ℕ, Bool, true, false, not, List, [], ◌∷◌, map, filter, flat_map, Option, Some, None, option_map};
ghost use Rattle.guest_code.specs.Program.{Program};
ghost use Rattle.semantics.specs.Ends.{enabled, is_terminal};
ghost use Rattle.semantics.specs.Machine.{Snapshot, step, is_enabled};
ghost use Rattle.semantics_schedules.specs.EqualThreads.{AreEqual, StandsFor, are_equal, is_hidden, Hiding, is_unhidden, HidesEqual, HidesOthers, EndsEarlier, EndsEarlierWithin, EndsAsleep, complete_once, reduced_once};
ghost use Rattle.semantics_schedules.specs.Order.{is_complete, end_from};
ghost use Rattle.semantics_schedules.specs.Renaming.{IsRenaming, Renamed};
ghost use Rattle.semantics_schedules.specs.Represents.{Represents, RepresentsWithin};
ghost use Rattle.semantics_schedules.specs.Schedules.{before, complete_schedules, preemptions_from};
ghost use Rattle.semantics_schedules.specs.Sleep.{is_kept, next_sleep_set, none_asleep, reduced_schedules};

/// In a state where threads with the same code have changed numbers, a renamed thread is enabled
/// exactly where the thread is in the state, and its step leads to the renamed state after the
/// thread's step. A renamed schedule is complete exactly where the schedule is, has as many
/// preemptions, and its end view.
pub fn renamed_threads_run_alike()
    ensures enabled { (p : Program) (f : ℕ → ℕ) (s r : Snapshot) (t : ℕ) →
        IsRenaming p f → Renamed f s r → is_enabled p r (f t) ≡ is_enabled p s t }
    ensures step { (p : Program) (f : ℕ → ℕ) (s r : Snapshot) (t : ℕ) →
        IsRenaming p f → Renamed f s r → Renamed f (step p s t) (step p r (f t)) }
    ensures complete { (p : Program) (f : ℕ → ℕ) (s r : Snapshot) (w : List ℕ) →
        IsRenaming p f → Renamed f s r → is_complete p r (map f w) ≡ is_complete p s w }
    ensures preemptions { (p : Program) (f : ℕ → ℕ) (s r : Snapshot) (last : Option ℕ)
        (w : List ℕ) → IsRenaming p f → Renamed f s r →
        preemptions_from p r (option_map f last) (map f w) ≡ preemptions_from p s last w }
    ensures end { (p : Program) (f : ℕ → ℕ) (s r : Snapshot) (w : List ℕ) →
        IsRenaming p f → Renamed f s r → end_from p r (map f w) ≡ end_from p s w }
{}

/// Two threads pass the test exactly where they are equal: they have the same code, and
/// swapping them changes nothing in the state. A thread is hidden exactly where an enabled one
/// stands for it: a lower one that is equal to it, neither being the thread of the last step.
pub fn equal_threads_are_found()
    ensures equal { (p : Program) (s : Snapshot) (t u : ℕ) →
        (are_equal p s t u ≡ true) ↔ AreEqual p s t u }
    ensures hidden { (p : Program) (s : Snapshot) (last : Option ℕ) (t : ℕ) →
        (is_hidden p s last t ≡ true)
        ↔ ((u : ℕ) × (is_enabled p s u ≡ true) × StandsFor p s last u t) }
{}

/// Whatever hiding is used that hides only threads for which others stand: each complete schedule
/// from a state with the sleep set `Z` is kept, and no step of it is one of a hidden thread, unless
/// a complete one that comes before it, or that begins with a step of a thread in `Z`, has its end
/// view. Within a bound, where the thread of the last step is excepted: no step of it is one of a
/// hidden thread, unless a complete one that comes before it has its end view and as many
/// preemptions.
pub fn hidden_schedules_are_redundant()
    ensures unbounded { (p : Program) (H : Hiding) (s : Snapshot) (last : Option ℕ)
        (Z : ℕ → Bool) (w : List ℕ) → HidesEqual p H → is_complete p s w ≡ true →
        ((is_kept p s Z w ≡ true) × (is_unhidden H p s last w ≡ true))
        ⊎ (EndsEarlier p s w ⊎ EndsAsleep p s Z w) }
    ensures within { (p : Program) (H : Hiding) (s : Snapshot) (last : Option ℕ) (w : List ℕ) →
        HidesOthers p H → is_complete p s w ≡ true →
        (is_unhidden H p s last w ≡ true) ⊎ EndsEarlierWithin p s last w }
{}

/// What is left from a state where equal threads are tried once is the empty schedule alone where no
/// thread is enabled; else, for each enabled thread that isn't hidden, in rising order, a step of it
/// followed by each schedule that is left from the state after that step. With sleep sets nor is it
/// one that sleeps, and the thread of the last step makes no difference.
pub fn equal_threads_once_unfold()
    ensures terminal { (p : Program) (s : Snapshot) (last : Option ℕ) →
        is_terminal p s ≡ true → complete_once p s last ≡ [] ∷ [] }
    ensures more { (p : Program) (s : Snapshot) (last : Option ℕ) →
        is_terminal p s ≡ false →
        complete_once p s last
        ≡ flat_map (λ t. before t (complete_once p (step p s t) (Some t)))
        (filter (λ t. not (is_hidden p s last t)) (enabled p s)) }
    ensures reduced_terminal { (p : Program) (s : Snapshot) (Z : ℕ → Bool) →
        is_terminal p s ≡ true → reduced_once p s Z ≡ [] ∷ [] }
    ensures reduced_more { (p : Program) (s : Snapshot) (Z : ℕ → Bool) →
        is_terminal p s ≡ false →
        reduced_once p s Z
        ≡ flat_map (λ t. before t (reduced_once p (step p s t) (next_sleep_set p s Z t)))
        (filter (λ t. not (is_hidden p s None t)) (filter (λ t. not (Z t)) (enabled p s))) }
{}

/// What is left where equal threads are tried once represents all: it has all end views, and the
/// least bad schedule. Of what sleep sets leave, with an empty sleep set at the start; and of all
/// complete schedules within each bound, which one that is left exceeds exactly where one of all
/// does.
pub fn equal_threads_once_suffice()
    ensures unbounded { (p : Program) (s : Snapshot) →
        Represents p s (reduced_once p s none_asleep) (reduced_schedules p s none_asleep) }
    ensures within { (p : Program) (s : Snapshot) (last : Option ℕ) →
        RepresentsWithin p s last (complete_once p s last) (complete_schedules p s) }
{}
