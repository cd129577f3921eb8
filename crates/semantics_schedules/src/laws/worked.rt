//! The schedules of small programs, one by one.

ghost use Rattle.std.specs.Prelude.{◌≡◌, pos, nat_le, [], ◌∷◌, map, filter, take, None};
ghost use Rattle.semantics.specs.declared.state.Status.TheVariants.{Ended, Stopped};
ghost use Rattle.semantics.specs.declared.state.Stop.TheVariants.{Assert as FailedAssert};
ghost use Rattle.semantics.specs.declared.view.Kind.TheVariants.{Done, Failed};
ghost use Rattle.semantics_schedules.specs.Branches.{branches, IsAt};
ghost use Rattle.semantics_schedules.specs.EqualThreads.{complete_once, hides_equal, is_unhidden};
ghost use Rattle.semantics.specs.Machine.{start, thread_at};
ghost use Rattle.semantics_schedules.specs.Schedules.{complete_schedules, preemptions};
ghost use Rattle.semantics_schedules.specs.Order.{end_of};
ghost use Rattle.semantics_schedules.specs.Sleep.{reduced_schedules, none_asleep};
ghost use Rattle.semantics_schedules.specs.Increments.{increments, six_schedules, four_schedules, done_with};
ghost use Rattle.semantics_schedules.specs.PrunedAway.{pruned_away, last, between, three_schedules};

/// Two threads that each load a variable, add 1 and store the sum have six complete schedules, with
/// 0, 2, 1, 1, 2 and 0 preemptions; all but the two with none lose an update. Sleep sets keep four:
/// of schedules that differ in the order of the two loads alone, the first. The threads are equal at
/// the start, and after both loads: tried once, they have the first three. Were the thread of the
/// last step hidden, too, the first two would be left, and none with one preemption that loses an
/// update.
pub fn increments_have_six_schedules()
    ensures complete { complete_schedules increments (start increments) ≡ six_schedules }
    ensures preemptions { map (preemptions increments) six_schedules ≡ 0 ∷ 2 ∷ 1 ∷ 1 ∷ 2 ∷ 0 ∷ [] }
    ensures ends { map (end_of increments) six_schedules
        ≡ done_with (pos 2) ∷ done_with (pos 1) ∷ done_with (pos 1)
        ∷ done_with (pos 1) ∷ done_with (pos 1) ∷ done_with (pos 2) ∷ [] }
    ensures reduced { reduced_schedules increments (start increments) none_asleep ≡ four_schedules }
    ensures once { complete_once increments (start increments) None ≡ take 3 six_schedules }
    ensures last_hidden { filter
        (is_unhidden (hides_equal increments) increments (start increments) None)
        (complete_schedules increments (start increments)) ≡ take 2 six_schedules }
{}

/// Why a search within a bound must not prune by sleep sets: of the three complete schedules of the
/// program `pruned_away` the first one is done, and the others fail, the last one with no
/// preemption. Sleep sets keep the first two, of which only the one that is done has no preemption.
pub fn pruning_within_a_bound_loses_a_failure()
    ensures complete { complete_schedules pruned_away (start pruned_away) ≡ three_schedules }
    ensures preemptions { map (preemptions pruned_away) three_schedules ≡ 0 ∷ 1 ∷ 0 ∷ [] }
    ensures kinds { map (λ w. (end_of pruned_away w).kind) three_schedules
        ≡ Done ∷ Failed ∷ Failed ∷ [] }
    ensures reduced { reduced_schedules pruned_away (start pruned_away) none_asleep
        ≡ last ∷ between ∷ [] }
    ensures within { filter (λ w. nat_le (preemptions pruned_away w) 0)
        (reduced_schedules pruned_away (start pruned_away) none_asleep) ≡ last ∷ [] }
{}

/// Two threads that set a local, branch on it and assert: the one whose test holds takes the first
/// branch and ends, the other takes the second one and stops at its assertion. Neither takes a
/// step, so the one complete schedule is empty, and it fails.
pub fn branches_run_at_once()
    ensures taken { IsAt (thread_at (start branches) 0) 6 Ended (pos 7) }
    ensures other { IsAt (thread_at (start branches) 1) 5 (Stopped FailedAssert) (pos 9) }
    ensures complete { complete_schedules branches (start branches) ≡ [] ∷ [] }
    ensures end { end_of branches [] ≡ record { kind = Failed; vars = [] } }
{}
