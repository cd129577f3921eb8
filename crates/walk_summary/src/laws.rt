//! Laws of the definitions. A law is what its function ensures; the functions do nothing.

ghost use Rattle.std.specs.Prelude.{◌≡◌, ◌↔◌, ◌⊎◌, ◌+◌, ◌≤◌, ◌||◌, ℕ, Bool, List, [], ◌∷◌, ◌++◌, length, filter, map, Some, Contains};
ghost use Rattle.std.specs.List.Sorted.{IsStrictlySortedBy};
ghost use Rattle.guest_code.specs.Program.{Program};
ghost use Rattle.semantics.specs.declared.view.Kind.TheVariants.{Done, Failed, Stuck};
ghost use Rattle.semantics_schedules.specs.Order.{end_of, lesser};
ghost use Rattle.semantics.specs.View.{View, view_cmp};
ghost use Rattle.walk_summary.specs.Summaries.{SummaryView, IsSummary, cut, greatest_count, is_failed, is_stuck, end_kind, nothing, sum_of, join, with_beyond};

// Sums.

/// The sum of a list of schedules followed by another is the join of their sums.
pub fn sums_join()
    ensures { (p : Program) (K L : List (List ℕ)) →
        sum_of p (K ++ L) ≡ join (sum_of p K) (sum_of p L) }
{}

/// The sum of the empty list of schedules is `nothing`, the summary of no schedule.
pub fn sum_of_none()
    ensures { (p : Program) → sum_of p [] ≡ nothing }
{}

/// The sum of one schedule counts it once as tried and, where it failed or got stuck, as failed or
/// stuck; then it is the first bad one. Its end view is the only one.
pub fn sum_of_one_schedule()
    ensures done { (p : Program) (w : List ℕ) → end_kind p w ≡ Done →
        sum_of p (w ∷ []) ≡ record nothing { tried = 1; ends = end_of p w ∷ [] } }
    ensures failed { (p : Program) (w : List ℕ) → end_kind p w ≡ Failed → sum_of p (w ∷ []) ≡
        record nothing { tried = 1; failed = 1; first_bad = Some w; ends = end_of p w ∷ [] } }
    ensures stuck { (p : Program) (w : List ℕ) → end_kind p w ≡ Stuck → sum_of p (w ∷ []) ≡
        record nothing { tried = 1; stuck = 1; first_bad = Some w; ends = end_of p w ∷ [] } }
{}

/// The sum of a list counts its schedules, those of them that failed and those that got stuck, each
/// count up to the greatest `u64`.
pub fn sums_count_their_schedules()
    ensures tried { (p : Program) (L : List (List ℕ)) → (sum_of p L).tried ≡ cut (length L) }
    ensures failed { (p : Program) (L : List (List ℕ)) →
        (sum_of p L).failed ≡ cut (length (filter (λ w. is_failed (end_kind p w)) L)) }
    ensures stuck { (p : Program) (L : List (List ℕ)) →
        (sum_of p L).stuck ≡ cut (length (filter (λ w. is_stuck (end_kind p w)) L)) }
{}

/// Counts are exact up to the greatest `u64`; greater ones are cut to it.
pub fn counts_stop_at_the_greatest()
    ensures greatest { greatest_count ≡ 18446744073709551615 }
    ensures exact { (n : ℕ) → n ≤ greatest_count → cut n ≡ n }
    ensures stopped { (n : ℕ) → greatest_count ≤ n → cut n ≡ greatest_count }
{}

/// The end views in a list's sum are strictly sorted, and are those with which its schedules end.
pub fn views_are_sorted()
    ensures sorted { (p : Program) (L : List (List ℕ)) →
        IsStrictlySortedBy view_cmp (sum_of p L).ends }
    ensures members { (p : Program) (L : List (List ℕ)) (v : View) →
        Contains (sum_of p L).ends v ↔ Contains (map (end_of p) L) v }
{}

/// The sum of a list of schedules is a value that a `Summary` may have, also where `beyond` is set
/// in it, which says that some schedule, in the list or not, has more preemptions than a bound.
pub fn sums_are_summaries()
    ensures { (p : Program) (L : List (List ℕ)) (b : Bool) →
        IsSummary (with_beyond (sum_of p L) b) }
{}

// Joins.

/// `join` is commutative.
pub fn join_commutes()
    ensures { (a b : SummaryView) → join a b ≡ join b a }
{}

/// `join` is associative.
pub fn join_associates()
    ensures { (a b c : SummaryView) → join (join a b) c ≡ join a (join b c) }
{}

/// A summary joined with that of no schedule stays as it is.
pub fn join_with_nothing()
    ensures { (a : SummaryView) → IsSummary a → join a nothing ≡ a }
{}

/// A count of a join is the sum of both summaries' counts, if that is at most the greatest `u64`.
pub fn joins_add_up()
    ensures tried { (a b : SummaryView) →
        a.tried + b.tried ≤ greatest_count → (join a b).tried ≡ a.tried + b.tried }
    ensures failed { (a b : SummaryView) →
        a.failed + b.failed ≤ greatest_count → (join a b).failed ≡ a.failed + b.failed }
    ensures stuck { (a b : SummaryView) →
        a.stuck + b.stuck ≤ greatest_count → (join a b).stuck ≡ a.stuck + b.stuck }
{}

/// The join of two summaries says `beyond`, that some schedule has more preemptions than a bound,
/// where one of them does. It has the lesser of their first bad schedules, and the end views of
/// both, strictly sorted.
pub fn joins_have_both()
    ensures beyond { (a b : SummaryView) → (join a b).beyond ≡ (a.beyond || b.beyond) }
    ensures first_bad { (a b : SummaryView) →
        (join a b).first_bad ≡ lesser a.first_bad b.first_bad }
    ensures sorted { (a b : SummaryView) → IsStrictlySortedBy view_cmp (join a b).ends }
    ensures members { (a b : SummaryView) (v : View) →
        Contains (join a b).ends v ↔ (Contains a.ends v ⊎ Contains b.ends v) }
{}
