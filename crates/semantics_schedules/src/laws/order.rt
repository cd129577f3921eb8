//! The order of schedules, and the least of a list.

ghost use Rattle.std.specs.Prelude.{◌≡◌, ◌<◌, ◌⊎◌, ℕ, Bool, true, false, List, [], ◌∷◌, ◌++◌, filter, slice_get, Contains, Some, None};
ghost use Rattle.std.specs.{Cmp.Lexicographic.slice_cmp, Ordering.{nat_cmp, is_lt}};
ghost use Rattle.guest_code.specs.Program.{Program};
ghost use Rattle.semantics.specs.Machine.{Snapshot};
ghost use Rattle.semantics_schedules.specs.{Order.{precedes, least, ends_badly}, Rising.IsRising};
ghost use Rattle.semantics_schedules.specs.Schedules.{complete_schedules, begins_with};

/// The order of schedules is strict and transitive, and of two different ones one comes first.
pub fn order_is_total()
    ensures never_itself { (w : List ℕ) → precedes w w ≡ false }
    ensures later { (u v w : List ℕ) →
        precedes u v ≡ true → precedes v w ≡ true → precedes u w ≡ true }
    ensures either { (v w : List ℕ) →
        (v ≡ w) ⊎ ((precedes v w ≡ true) ⊎ (precedes w v ≡ true)) }
{}

/// The order of schedules is the one that slices of thread numbers have: lexicographic.
pub fn order_is_that_of_slices()
    ensures { (v w : List ℕ) → precedes v w ≡ is_lt (slice_cmp nat_cmp v w) }
{}

/// Of two schedules that are alike up to a step, the one whose step there is of the thread with the
/// smaller number comes first.
pub fn smaller_threads_come_first()
    ensures { (x v w : List ℕ) (t u : ℕ) →
        t < u → begins_with (x ++ t ∷ []) v ≡ true → begins_with (x ++ u ∷ []) w ≡ true →
        precedes v w ≡ true }
{}

/// The least schedule of a list is a member that no member comes before; only an empty list has
/// none.
pub fn least_is_minimal()
    ensures none { (L : List (List ℕ)) → least L ≡ None → L ≡ [] }
    ensures some { (L : List (List ℕ)) (m : List ℕ) →
        least L ≡ Some m →
        Contains L m × ((w : List ℕ) → Contains L w → precedes w m ≡ false) }
{}

/// In a list in rising order, the least of the members that pass a test is the first of them; so
/// the least bad schedule is the first bad one in the list of complete schedules.
pub fn least_is_first()
    ensures rising { (L : List (List ℕ)) (test : List ℕ → Bool) →
        IsRising L → least (filter test L) ≡ slice_get (filter test L) 0 }
    ensures bad { (p : Program) (s : Snapshot) →
        least (filter (ends_badly p s) (complete_schedules p s))
        ≡ slice_get (filter (ends_badly p s) (complete_schedules p s)) 0 }
{}
