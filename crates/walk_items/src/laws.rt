//! Laws of the definitions. A law is what its function ensures; the functions do nothing.

ghost use Rattle.std.specs.Prelude.{◌≡◌, ◌↔◌, ◌+◌, ◌≤◌, ◌<◌, ℕ, nat_le, nat_lt, Bool, true, false, List, [], ◌∷◌, ◌++◌};
ghost use Rattle.std.specs.Prelude.{length, filter, flat_map, slice_index_or, Contains, All, None};
ghost use Rattle.std.specs.List.{list_any};
ghost use Rattle.guest_code.specs.Program.{Program};
ghost use Rattle.semantics.specs.{Ends.is_terminal, Machine.start, Mask.has, Reachable.IsOf};
ghost use Rattle.semantics_schedules.specs.EqualThreads.{is_hidden, hides_equal, is_unhidden, complete_once, reduced_once};
ghost use Rattle.semantics_schedules.specs.{Order.{is_complete, precedes}, Rising.IsRising};
ghost use Rattle.semantics_schedules.specs.Schedules.{complete_schedules, preemptions, begins_with, last_of};
ghost use Rattle.semantics_schedules.specs.Sleep.{is_kept, reduced_schedules, none_asleep};
ghost use Rattle.walk_items.specs.{Children.{children_of, steps_of}, FullSums.{full_sum, full_sums}};
ghost use Rattle.walk_items.specs.Items.{ItemView, IsItem, IsScheduleOf, state_of, root_of, schedules_of, everything};
ghost use Rattle.walk_items.specs.Items.{goes_beyond, item_sum, item_sums, whole, schedule_count, is_under};
ghost use Rattle.walk_items.specs.Once.{up_to, pruned, once_of, SaysTheSame};
ghost use Rattle.walk_items.specs.Walks.{WalkView, IsWalked, IsBelow, IsDeferred, IsWithin, HasAllPast, tried_by};
ghost use Rattle.walk_items.specs.declared.mode.Mode.{Mode, TheVariants.{Bounded, Reduced, BoundedOnce, ReducedOnce}};
ghost use Rattle.walk_summary.specs.Summaries.{cut, greatest_count, sum_of, join, with_beyond};

use crate::limits::BOUND;

// Items.

/// The root item of a program has all complete schedules that are within the bound, and goes beyond
/// it where one has more preemptions. In the mode `Reduced` it has the schedules that sleep sets
/// leave where no thread sleeps at the start. With equal threads once this is so of what is left
/// where of equal threads only the lowest is tried.
pub fn root_has_all()
    ensures set { (p : Program) (bound : ℕ) → schedules_of (Bounded bound) (root_of p) ≡
        filter (λ w. nat_le (preemptions p w) bound) (complete_schedules p (start p)) }
    ensures beyond { (p : Program) (bound : ℕ) → goes_beyond (Bounded bound) (root_of p) ≡
        list_any (λ w. nat_lt bound (preemptions p w)) (complete_schedules p (start p)) }
    ensures pruned { (p : Program) →
        schedules_of Reduced (root_of p) ≡ reduced_schedules p (start p) none_asleep }
    ensures once_set { (p : Program) (bound : ℕ) → schedules_of (BoundedOnce bound) (root_of p) ≡
        filter (λ w. nat_le (preemptions p w) bound) (complete_once p (start p) None) }
    ensures once_beyond { (p : Program) (bound : ℕ) → goes_beyond (BoundedOnce bound) (root_of p) ≡
        list_any (λ w. nat_lt bound (preemptions p w)) (complete_once p (start p) None) }
    ensures once_pruned { (p : Program) →
        schedules_of ReducedOnce (root_of p) ≡ reduced_once p (start p) none_asleep }
{}

/// At a bound, an item has the complete schedules that begin with its prefix and whose preemptions
/// are within the bound; in the mode `Reduced`, its prefix followed by each that sleep sets leave
/// there. With equal threads once it has those of them that go on from the prefix without a step of
/// a hidden thread. In each mode its schedules are in order, each once. An item goes beyond the
/// bound where a complete schedule that begins with its prefix has more preemptions; with equal
/// threads once just there too.
pub fn items_have_their_schedules()
    ensures members { (i : ItemView) (bound : ℕ) (w : List ℕ) →
        Contains (schedules_of (Bounded bound) i) w ↔
        (IsScheduleOf i w × (preemptions i.program w ≤ bound)) }
    ensures pruned { (i : ItemView) (w : List ℕ) → Contains (schedules_of Reduced i) w ↔
        ((v : List ℕ) × (w ≡ i.prefix ++ v)
        × (is_kept i.program (state_of i) (has i.mask) v ≡ true)) }
    ensures once_members { (i : ItemView) (bound : ℕ) (w : List ℕ) →
        Contains (schedules_of (BoundedOnce bound) i) w ↔
        ((v : List ℕ) × (w ≡ i.prefix ++ v) × (is_complete i.program (state_of i) v ≡ true)
        × (is_unhidden (is_hidden i.program) i.program (state_of i) (last_of i.prefix) v ≡ true)
        × (preemptions i.program w ≤ bound)) }
    ensures once_pruned { (i : ItemView) (w : List ℕ) → Contains (schedules_of ReducedOnce i) w ↔
        ((v : List ℕ) × (w ≡ i.prefix ++ v)
        × (is_kept i.program (state_of i) (has i.mask) v ≡ true)
        × (is_unhidden (hides_equal i.program) i.program (state_of i) None v ≡ true)) }
    ensures order { (mode : Mode) (i : ItemView) → IsRising (schedules_of mode i) }
    ensures beyond { (i : ItemView) (bound : ℕ) → (goes_beyond (Bounded bound) i ≡ true) ↔
        ((w : List ℕ) × IsScheduleOf i w × (bound < preemptions i.program w)) }
    ensures once_beyond { (i : ItemView) (bound : ℕ) → IsItem i →
        goes_beyond (BoundedOnce bound) i ≡ goes_beyond (Bounded bound) i }
{}

/// An item whose own prefix has more preemptions than the bound has no schedule within it, and
/// goes beyond it.
pub fn prefix_past_the_bound()
    ensures none { (once : Bool) (i : ItemView) (bound : ℕ) → IsItem i →
        bound < preemptions i.program i.prefix → schedules_of (up_to once bound) i ≡ [] }
    ensures beyond { (once : Bool) (i : ItemView) (bound : ℕ) → IsItem i →
        bound < preemptions i.program i.prefix → goes_beyond (up_to once bound) i ≡ true }
{}

// Walks.

/// The sum of a walked item is that of what the walk tried joined with those of the items it left.
pub fn part_and_rest_join()
    ensures { (w : WalkView) → IsWalked w →
        item_sum w.mode w.item ≡ join w.part (item_sums w.mode w.rest) }
{}

/// The schedules that a walk tried are those of its item that begin with no left item's prefix.
pub fn tried_are_under_none()
    ensures { (w : WalkView) (v : List ℕ) → Contains (tried_by w) v ↔
        (Contains (schedules_of w.mode w.item) v ×
        All (λ r. begins_with r.prefix v ≡ false) w.rest) }
{}

/// The part of a walk, its flag `beyond` aside, is the sum of the schedules that the walk tried:
/// those of its item that begin with no left item's prefix.
pub fn part_is_the_sum_of_what_was_tried()
    ensures { (w : WalkView) → IsWalked w →
        w.part ≡ with_beyond (sum_of w.item.program (tried_by w)) w.part.beyond }
{}

/// Each item that a walk left has those of the walked item's schedules that begin with its prefix.
pub fn rest_has_its_schedules()
    ensures { (w : WalkView) → IsWalked w → All (λ r. schedules_of w.mode r ≡
        filter (begins_with r.prefix) (schedules_of w.mode w.item)) w.rest }
{}

/// No schedule begins with the prefixes of two of the items that a walk left or put off.
pub fn no_schedule_is_under_two_items()
    ensures { (w : WalkView) (v : List ℕ) (i j : ℕ) (d : ItemView) →
        IsWalked w → i < j → j < length (w.rest ++ w.deferred) →
        begins_with (slice_index_or (w.rest ++ w.deferred) i d).prefix v ≡ true →
        begins_with (slice_index_or (w.rest ++ w.deferred) j d).prefix v ≡ false }
{}

/// A walked item has as many schedules as the walk tried plus as many as the items that it left
/// have. Those that were tried are counted up to the greatest `u64`.
pub fn counts_add_up()
    ensures counts { (w : WalkView) → IsWalked w → length (schedules_of w.mode w.item) ≡
        length (tried_by w) + schedule_count w.mode w.rest }
    ensures tried { (w : WalkView) → IsWalked w → w.part.tried ≡ cut (length (tried_by w)) }
    ensures uncut { (w : WalkView) → IsWalked w → w.part.tried < greatest_count →
        length (schedules_of w.mode w.item) ≡ w.part.tried + schedule_count w.mode w.rest }
{}

/// The schedules that a walk tried come before all those of the items that it left.
pub fn tried_come_first()
    ensures { (w : WalkView) (v u : List ℕ) → IsWalked w → Contains (tried_by w) v →
        Contains (schedules_of w.mode w.item) u → is_under w.rest u ≡ true → precedes v u ≡ true }
{}

// What a bound puts off.

/// The items that a walk left or put off lie under the walked item: they are of the same program,
/// and their prefixes run in it and begin with the walked item's.
pub fn rest_and_deferred_lie_under_the_item()
    ensures { (w : WalkView) → IsWalked w → All (IsBelow w.item) (w.rest ++ w.deferred) }
{}

/// The full sum of a walked item, that of all its schedules whatever their preemptions, is the sum
/// of what was tried joined with the full sums of the items left and put off. At a bound this holds
/// where the item's prefix doesn't exceed it; all its schedules are then the complete ones that
/// begin with the prefix, with equal threads once those that go on without a step of a hidden one.
pub fn full_sums_join()
    ensures { (w : WalkView) → IsWalked w → IsWithin w.mode w.item → full_sum w.mode w.item ≡
        join (with_beyond w.part false) (full_sums w.mode (w.rest ++ w.deferred)) }
{}

/// Where a walked item's prefix is within the bound, each of all its schedules that is past it lies
/// under an item left or put off. The prefixes of the items left are within the bound; those of the
/// items put off are past it by their last step alone.
pub fn past_the_bound_is_left_or_deferred()
    ensures all { (w : WalkView) (once : Bool) (bound : ℕ) → IsWalked w →
        w.mode ≡ up_to once bound →
        HasAllPast (up_to once bound) bound w.item (w.rest ++ w.deferred) }
    ensures within { (w : WalkView) (once : Bool) (bound : ℕ) → IsWalked w →
        w.mode ≡ up_to once bound →
        All (λ r. preemptions r.program r.prefix ≤ bound) w.rest }
    ensures past { (w : WalkView) (once : Bool) (bound : ℕ) → IsWalked w →
        w.mode ≡ up_to once bound → All (IsDeferred bound) w.deferred }
{}

/// In the modes `Reduced` and `ReducedOnce`, which prune schedules, there is no bound: a walk puts
/// nothing off, and notes no schedule beyond a bound.
pub fn pruned_walks_put_off_nothing()
    ensures deferred { (w : WalkView) (once : Bool) → IsWalked w → w.mode ≡ pruned once →
        w.deferred ≡ [] }
    ensures beyond { (w : WalkView) (once : Bool) → IsWalked w → w.mode ≡ pruned once →
        w.part.beyond ≡ false }
{}

// Equal threads once.

/// The schedules of a program that are left where of equal threads only the lowest is tried are
/// some of those of the same mode, and their sum says what the sum of these says, but for their
/// number: the same first bad schedule, the same end views, and whether one is beyond the bound.
pub fn equal_threads_once_say_the_same()
    ensures own { (p : Program) (mode : Mode) (w : List ℕ) →
        Contains (schedules_of (once_of mode) (root_of p)) w →
        Contains (schedules_of mode (root_of p)) w }
    ensures same { (p : Program) (mode : Mode) →
        SaysTheSame (whole p (once_of mode)) (whole p mode) }
{}

/// What is left of an item's schedules, within the bound or not, where equal threads are tried once
/// is its prefix alone where no thread is enabled after it; else what is left of its children's, by
/// the steps of threads that are neither hidden nor, without a bound, asleep.
pub fn equal_threads_once_unfold()
    ensures terminal { (mode : Mode) (i : ItemView) →
        is_terminal i.program (state_of i) ≡ true → everything (once_of mode) i ≡ i.prefix ∷ [] }
    ensures more { (mode : Mode) (i : ItemView) → IsOf i.program (state_of i) →
        is_terminal i.program (state_of i) ≡ false → everything (once_of mode) i ≡
        flat_map (everything (once_of mode))
        (children_of (once_of mode) i (steps_of (once_of mode) i)) }
{}

// Limits.

/// `BOUND`, the greatest bound that a search can be asked for, is 64.
pub fn greatest_bound_is_64()
    ensures { BOUND ≡ 64 }
{}
