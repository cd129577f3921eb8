//! What a book's type keeps, said of the schedules of its program. A law is what its function
//! ensures; the functions do nothing.

ghost use Rattle.std.specs.Prelude.{◌≡◌, ◌≤◌, ◌<◌, ℕ, [], Bool, false, true, List, Some, Contains, All, length, slice_index_or};
ghost use Rattle.semantics.specs.{Machine.start, View.is_bad};
ghost use Rattle.semantics_schedules.specs.Schedules.{complete_schedules, begins_with, preemptions};
ghost use Rattle.walk_items.specs.FullSums.{full_sum, full_sums};
ghost use Rattle.walk_items.specs.Items.{ItemView, everything, item_sum, item_sums, is_under};
ghost use Rattle.walk_items.specs.Once.{up_to, pruned};
ghost use Rattle.walk_items.specs.Walks.{IsBelow, IsDeferred, clear_of};
ghost use Rattle.walk_items.specs.declared.mode.Mode.TheVariants.{Bounded, BoundedOnce};
ghost use Rattle.walk_summary.specs.Summaries.{sum_of, join, with_beyond, end_kind, IsBoundedBy};
ghost use Rattle.book.specs.Books.{BookView, Keeps, KeepsWhere, IsBook, IsThinned, book_schedules, items_left, HasItsSchedules};
ghost use Rattle.book.specs.declared.limits.TheConstants.{ROUND};

use crate::limits::ROUND;

/// A book that lists the prefixes that its bound puts off splits all schedules of its item: into
/// what is finished, those of the open items and those of the deferred ones (`IsBook`). Where items
/// were dropped, those of the dropped items are a part of their own (`IsThinned`).
pub fn listing_books_split_all()
    ensures { (b : BookView) → Keeps b → b.lists ≡ true → KeepsWhere b.dropped b }
{}

/// Of any book, whether or not it lists what its bound puts off: the sum of its item is what is
/// finished joined with the sums of the open items, where none was dropped. Where one was, the join
/// has no greater counts than the sum, no other end views, and the same first bad schedule.
pub fn every_book_joins()
    ensures whole { (b : BookView) → Keeps b → b.dropped ≡ false →
        item_sum b.mode b.of ≡ join b.finished (item_sums b.mode b.open_items) }
    ensures bounded { (b : BookView) → Keeps b → b.dropped ≡ true →
        IsBoundedBy (join b.finished (item_sums b.mode b.open_items)) (item_sum b.mode b.of) }
{}

/// Of any book, whether or not it lists what its bound puts off: no schedule begins with the
/// prefixes of two items, at different places among the open and the deferred ones.
pub fn no_book_has_a_schedule_twice()
    ensures { (b : BookView) (v : List ℕ) (i j : ℕ) (d : ItemView) → Keeps b →
        i < j → j < length (items_left b) →
        begins_with (slice_index_or (items_left b) i d).prefix v ≡ true →
        begins_with (slice_index_or (items_left b) j d).prefix v ≡ false }
{}

/// Of any book, whether or not it lists what its bound puts off: each open item lies under the
/// book's item, and has those of the book's schedules that begin with the open item's prefix. Where
/// no item was dropped, what is finished, its flag `beyond` aside, is the sum of the book's
/// schedules that lie under no open item.
pub fn every_book_splits()
    ensures below { (b : BookView) → Keeps b → All (IsBelow b.of) b.open_items }
    ensures schedules { (b : BookView) → Keeps b → All (HasItsSchedules b) b.open_items }
    ensures finished { (b : BookView) → Keeps b → b.dropped ≡ false → b.finished ≡ with_beyond
        (sum_of b.of.program (clear_of b.open_items (book_schedules b))) b.finished.beyond }
{}

/// Of a book from which nothing was dropped: the sum of the book's item is what is finished joined
/// with the sums of the open items.
pub fn finished_and_open_join()
    ensures { (b : BookView) → IsBook b →
        item_sum b.mode b.of ≡ join b.finished (item_sums b.mode b.open_items) }
{}

/// Of a book from which nothing was dropped: what is finished, its flag `beyond` aside, is the sum
/// of the book's schedules that lie under no open item.
pub fn finished_is_under_no_open_item()
    ensures { (b : BookView) → IsBook b → b.finished ≡ with_beyond
        (sum_of b.of.program (clear_of b.open_items (book_schedules b))) b.finished.beyond }
{}

/// Of a book from which nothing was dropped: each open item lies under the book's item, and has
/// those of the book's schedules that begin with the open item's prefix.
pub fn open_items_have_their_schedules()
    ensures below { (b : BookView) → IsBook b → All (IsBelow b.of) b.open_items }
    ensures schedules { (b : BookView) → IsBook b → All (HasItsSchedules b) b.open_items }
{}

/// Of a book from which nothing was dropped: no schedule begins with the prefixes of two items, at
/// different places among the open and the deferred ones.
pub fn no_schedule_is_under_two_items()
    ensures { (b : BookView) (v : List ℕ) (i j : ℕ) (d : ItemView) → IsBook b →
        i < j → j < length (items_left b) →
        begins_with (slice_index_or (items_left b) i d).prefix v ≡ true →
        begins_with (slice_index_or (items_left b) j d).prefix v ≡ false }
{}

/// Of a book from which nothing was dropped: the sum of all schedules of its item, at a bound
/// whatever their preemptions, is what is finished, its flag `beyond` aside, joined with those of
/// the open and the deferred items. So no schedule was tried twice, whatever the bounds of the settled
/// walks were.
pub fn nothing_is_walked_twice()
    ensures { (b : BookView) → IsBook b → full_sum b.mode b.of ≡
        join (with_beyond b.finished false) (full_sums b.mode (items_left b)) }
{}

/// Of a book at a bound from which nothing was dropped: each complete schedule past the bound that
/// begins with the prefix of the book's item lies under an open or a deferred item; with equal
/// threads once, each of the item's schedules does. The open items are within the bound. The
/// deferred ones lie under the book's item, and are past the bound by their last step alone.
pub fn past_the_bound_is_open_or_deferred()
    ensures all { (b : BookView) (bound : ℕ) (v : List ℕ) → b.mode ≡ Bounded bound → IsBook b →
        Contains (complete_schedules b.of.program (start b.of.program)) v →
        begins_with b.of.prefix v ≡ true → bound < preemptions b.of.program v →
        is_under (items_left b) v ≡ true }
    ensures once { (b : BookView) (bound : ℕ) (v : List ℕ) → b.mode ≡ BoundedOnce bound →
        IsBook b → Contains (everything b.mode b.of) v → bound < preemptions b.of.program v →
        is_under (items_left b) v ≡ true }
    ensures within { (b : BookView) (once : Bool) (bound : ℕ) → b.mode ≡ up_to once bound →
        IsBook b → All (λ i. preemptions i.program i.prefix ≤ bound) b.open_items }
    ensures below { (b : BookView) → IsBook b → All (IsBelow b.of) b.deferred }
    ensures past { (b : BookView) (once : Bool) (bound : ℕ) → b.mode ≡ up_to once bound →
        IsBook b → All (IsDeferred bound) b.deferred }
{}

/// Nothing is deferred in a book from which nothing was dropped and whose mode uses sleep sets.
pub fn pruned_books_defer_nothing()
    ensures { (b : BookView) (once : Bool) → b.mode ≡ pruned once → IsBook b → b.deferred ≡ [] }
{}

/// Of a quick book from which an item was dropped: what is finished joined with the sums of the
/// open items is bounded by the sum of the book's item (`IsBoundedBy`): it has the same first bad
/// schedule, no greater counts, and no end views but those of that sum.
pub fn dropping_leaves_a_lower_bound()
    ensures { (b : BookView) → IsThinned b →
        IsBoundedBy (join b.finished (item_sums b.mode b.open_items)) (item_sum b.mode b.of) }
{}

/// Of a quick book from which an item was dropped: what is finished has a first bad schedule, which
/// is one of the book's schedules and is bad.
pub fn dropping_needs_a_bad_one()
    ensures { (b : BookView) → IsThinned b → (w : List ℕ) × (b.finished.first_bad ≡ Some w) ×
        Contains (book_schedules b) w × (is_bad (end_kind b.of.program w) ≡ true) }
{}

/// Of a quick book from which an item was dropped: each open item lies under the book's item, and
/// has those of the book's schedules that begin with the open item's prefix; no schedule begins
/// with the prefixes of two items, at different places among the open and the deferred ones.
pub fn dropping_keeps_the_open()
    ensures below { (b : BookView) → IsThinned b →
        All (IsBelow b.of) b.open_items }
    ensures schedules { (b : BookView) → IsThinned b → All (HasItsSchedules b) b.open_items }
    ensures apart { (b : BookView) (v : List ℕ) (i j : ℕ) (d : ItemView) → IsThinned b →
        i < j → j < length (items_left b) →
        begins_with (slice_index_or (items_left b) i d).prefix v ≡ true →
        begins_with (slice_index_or (items_left b) j d).prefix v ≡ false }
{}

/// `ROUND`, the most items of a round, is 64.
pub fn greatest_round_is_64()
    ensures { ROUND ≡ 64 }
{}
