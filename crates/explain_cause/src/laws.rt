//! What follows of all that is told of a cause. A law is what its function ensures; the function
//! does nothing.

ghost use Rattle.std.specs.Prelude.{◌≡◌, ◌+◌, ◌<◌, ℕ, Some, false, length, slice_index_or, true};
ghost use Rattle.guest_code.specs.Program.{Program};
ghost use Rattle.explain_run.specs.declared.explanation.Explanation.{Explanation};
ghost use Rattle.explain_cause.specs.Causes.{NoneOf, event_at};
ghost use Rattle.explain_cause.specs.Events.{is_end, sets_local, uses_local};
ghost use Rattle.explain_cause.specs.{Told.Tells, Touching.touches, declared.causes.Causes.Causes};

/// A step of a thread that set a local last before an assertion of the thread that tests the local
/// and fails, or did so in the local run after it, is in the cause.
pub fn steps_that_set_values_of_a_failed_assertion_are_in_the_cause()
    ensures { (p : Program) (run : Explanation) (told : Causes) (r j k step : ℕ) →
        Tells p run told → j < length told.events.items → k < j →
        is_end (event_at told.events.items j) ≡ true →
        uses_local (event_at told.events.items j).thread r (event_at told.events.items j) ≡ true →
        sets_local (event_at told.events.items j).thread r (event_at told.events.items k) ≡ true →
        NoneOf told.events.items (sets_local (event_at told.events.items j).thread r) (k + 1) j →
        (event_at told.events.items k).step ≡ Some step → step < length run.steps.items →
        slice_index_or told.steps.items step false ≡ true }
{}

/// An event that is no end of the run, and that touches no later event of the cause, isn't in the
/// cause.
pub fn what_touches_nothing_in_the_cause_is_not_in_it()
    ensures { (p : Program) (run : Explanation) (told : Causes) (k : ℕ) →
        Tells p run told → k < length told.events.items →
        is_end (event_at told.events.items k) ≡ false →
        ((j : ℕ) → k < j → slice_index_or told.marks.items j false ≡ true →
        touches p (event_at told.events.items k) (event_at told.events.items j) ≡ false) →
        slice_index_or told.marks.items k false ≡ false }
{}
