//! What the kind of a complete schedule says of the threads in its last state.

ghost use Rattle.std.specs.Prelude.{◌≡◌, ◌↔◌, List};
ghost use Rattle.semantics.specs.{Ends.final_kind, FinalKinds.{SomeStopped, SomeUnended, AllEnded}};
ghost use Rattle.semantics.specs.declared.state.Thread.{Thread};
ghost use Rattle.semantics.specs.declared.view.Kind.TheVariants.{Done, Failed, Stuck};

/// By the threads of its last state, a complete schedule has failed exactly where some thread
/// stopped; it is done exactly where all threads ended, so that none stopped; it is stuck exactly
/// where no thread stopped and not all ended.
pub fn final_kind_says_how_threads_end()
    ensures failed { (threads : List Thread) → (final_kind threads ≡ Failed) ↔ SomeStopped threads }
    ensures done { (threads : List Thread) → (final_kind threads ≡ Done) ↔ AllEnded threads }
    ensures stuck { (threads : List Thread) →
        (final_kind threads ≡ Stuck) ↔ ((SomeStopped threads → ⊥) × SomeUnended threads) }
{}
