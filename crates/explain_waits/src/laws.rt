//! What follows of all that is told of waits. A law is what its function ensures; the function does
//! nothing.

ghost use Rattle.std.specs.Prelude.{◌≡◌, ℕ, IsTrue, Contains};
ghost use Rattle.guest_code.specs.Program.{Program};
ghost use Rattle.semantics.specs.{Mask.has, declared.mask.Mask.Mask};
ghost use Rattle.explain_run.specs.declared.explanation.Explanation.{Explanation};
ghost use Rattle.explain_waits.specs.{Waiting.TellsWaits, declared.wait.Waits.Waits};

/// No thread is in two circles, which are sets of threads each of which waits, directly or through
/// others, for each of them: two circles that share a thread have the same threads.
pub fn no_thread_is_in_two_circles()
    ensures { (p : Program) (told : Explanation) (waits : Waits) (c d : Mask) (t : ℕ) →
        TellsWaits p told waits →
        Contains waits.circles.items c → Contains waits.circles.items d →
        IsTrue (has c t) → IsTrue (has d t) → (u : ℕ) → has c u ≡ has d u }
{}
