//! The book of a search: what is finished, which items are open, and which are deferred.

ghost use Rattle.std.specs.Prelude.{true, false, None, count_by, ◌≡◌, ◌<◌, ◌≤◌, ◌+◌, ◌-◌, ◌↔◌, [], length, drop, is_ok, if◌then◌else◌};
ghost use Rattle.std.specs.Prelude.{IfOk, OnOk, IfErr, OnErr, Ok, IfSome, IfNone, IsTrue, slice_get, Some, All};
ghost use Rattle.std.specs.Arc.{arc_value};
ghost use Rattle.walk_items.specs.Items.{whole, root_of, item_sum, AreOf};
ghost use Rattle.walk_items.specs.{Walks.{IsWithin, listed_if}, declared.limits.TheConstants.BOUND};
ghost use Rattle.book.specs.Books.{Keeps, drops, thinned, opening, opening_of, HasWalkedRound, HaveFound};
ghost use Rattle.book.specs.Books.{HaveSettled, AreNotTaken, taken_in, remove_each, AreWithin, Settles, IsRefused};
ghost use Rattle.book.specs.Books.{Raises, IsNotRaised, IsClosed, bound_of, next_mode, made_last};
ghost use Rattle.book.specs.declared.limits.TheConstants.{ROUND};
ghost use Rattle.walk_summary.specs.Summaries.{IsBoundedBy};

use crate::errors::{RaiseError, SettleError};
use crate::item_list::ItemList;
use crate::limits::ROUND;
use guest_code::program::Program;
use semantics::mask::Mask;
use std::alloc::{AllocError, Global};
use std::marker::Model;
use std::mem;
use std::sync::Arc;
use walk::found::Found;
use walk::walked::Walked;
use walk::walker::Walker;
use walk_items::item::{Item, same_masks};
use walk_items::limits::BOUND;
use walk_items::mode::Mode;
use walk_prefixes::{Prefixes, is_later};
use walk_summary::{EndHints, Summary};

/// The book of a search of an item's schedules in a mode: the summary of what is finished, the
/// items that are still open, and those deferred to the next bound. For all schedules of a program
/// the item is the program's root. A quick book, of a search that wants the first bad schedule
/// alone, drops open items whose schedules all come after a bad one that was found.
///
/// The type keeps that the item's sum is what is finished joined with the sums of the open items,
/// that nothing is counted that was not tried, that every item lies under the book's, and that no
/// schedule lies under two items. Where items were dropped, they come after the first bad schedule
/// that was found. A book whose bound is made the last one doesn't list the prefixes that walks
/// defer: the type keeps that there is such a list.
#[derive(Drop)]
pub struct Book {
    // The item whose schedules are searched.
    pub(crate) of: Item,
    pub(crate) mode: Mode,
    pub(crate) finished: Summary,
    pub(crate) open_items: ItemList,
    pub(crate) deferred: ItemList,
    // Whether prefixes that walks defer are listed.
    pub(crate) lists: bool,
    pub(crate) quick: bool,
    // Whether an open item was dropped.
    pub(crate) dropped: bool,
    // Whether the book is known to have no open item to drop.
    pub(crate) swept: bool,
    // Hints at where end views stand in the finished summary.
    pub(crate) hints: Box<EndHints>,
}

impl Model for Book {
    ghost use Rattle.book.specs.Books.{BookView, Keeps, IsSwept, book_view};

    ghost Value = { BookView };

    ghost view = { λ b. book_view b.of b.mode b.finished b.open_items b.deferred b.lists
        b.quick b.dropped };

    ghost invariant = { λ b. Keeps (book_view b.of b.mode b.finished b.open_items b.deferred
        b.lists b.quick b.dropped) × IsSwept b.swept
        (book_view b.of b.mode b.finished b.open_items b.deferred b.lists b.quick b.dropped) };
}

impl Book {
    /// The book of all schedules of a program at the start of a search: the root is its one open
    /// item. Fails where memory runs out.
    pub fn open(alloc: Global, program: Arc<Program>, mode: Mode) -> Result<Book, AllocError>
        ensures { IfOk result (λ b. b ≡ opening (arc_value program) mode false) }
    {
        Book::open_as(alloc, Item::root(alloc, program)?, mode, false)
    }

    /// The book of all schedules of a program at the start of a quick search: the root is its one
    /// open item. The book may drop items that come after a bad schedule. Fails where memory runs
    /// out.
    pub fn open_quick(alloc: Global, program: Arc<Program>, mode: Mode) -> Result<Book, AllocError>
        ensures { IfOk result (λ b. b ≡ opening (arc_value program) mode true) }
    {
        Book::open_as(alloc, Item::root(alloc, program)?, mode, true)
    }

    /// The book of an item's schedules at the start of a search: the item is the one open item. Its
    /// prefix must have no more preemptions than the mode's bound, if there is one. Fails where
    /// memory runs out.
    pub fn open_under(alloc: Global, item: Item, mode: Mode) -> Result<Book, AllocError>
        requires { IsWithin mode item }
        ensures { IfOk result (λ b. b ≡ opening_of item mode false) }
    {
        Book::open_as(alloc, item, mode, false)
    }

    // The book of an item's schedules at the start of a search: the item is the one open item.
    // `quick` says whether the search is a quick one.
    fn open_as(alloc: Global, of: Item, mode: Mode, quick: bool) -> Result<Book, AllocError>
        requires { IsWithin mode of }
        ensures { IfOk result (λ b. b ≡ opening_of of mode quick) }
    {
        let hints = Box::new(alloc, EndHints::new())?;
        let open_items = ItemList::of_item(alloc, of.try_clone(alloc)?)?;
        let deferred = ItemList::new(alloc);
        Ok(Book {
            of,
            mode,
            finished: Summary::empty(alloc),
            open_items,
            deferred,
            lists: true,
            quick,
            dropped: false,
            swept: false,
            hints,
        })
    }

    /// The program whose schedules are searched.
    pub fn program(&self) -> &Arc<Program>
        ensures { arc_value result.now ≡ self.now.of.program }
    {
        self.of.shared_program()
    }

    /// Which schedules of the book's item are to be tried: those within a bound, or those that
    /// sleep sets leave.
    pub fn mode(&self) -> Mode
        ensures { result ≡ self.now.mode }
    {
        self.mode
    }

    /// The summary of what settled walks of the book's items have tried.
    pub fn finished(&self) -> &Summary
        ensures finished { result.now ≡ self.now.finished }
        ensures kept { Keeps self.now }
    {
        &self.finished
    }

    /// How many items are open, that is, still to be walked.
    pub fn open_len(&self) -> usize
        ensures length { result ≡ length self.now.open_items }
        ensures kept { Keeps self.now }
    {
        self.open_items.len()
    }

    /// A copy of the open item at a place, counted from 0. Fails where memory runs out.
    pub fn open_item(&self, alloc: Global, place: usize) -> Result<Item, AllocError>
        requires { place < length self.now.open_items }
        ensures { IfOk result (λ i. slice_get self.now.open_items place ≡ Some i) }
    {
        self.open_items.item(alloc, self.of.shared_program(), place)
    }

    /// Whether the book lists the prefixes that walks defer; false once its bound was made the
    /// last.
    pub fn lists_deferred(&self) -> bool
        ensures { result ≡ self.now.lists }
    {
        self.lists
    }

    /// How many items are deferred to the next bound; 0 where the book doesn't list them.
    pub fn deferred_len(&self) -> usize
        ensures { result ≡ length self.now.deferred }
    {
        self.deferred.len()
    }

    /// A copy of the deferred item at a place, counted from 0. Fails where memory runs out.
    pub fn deferred_item(&self, alloc: Global, place: usize) -> Result<Item, AllocError>
        requires { place < length self.now.deferred }
        ensures { IfOk result (λ i. slice_get self.now.deferred place ≡ Some i) }
    {
        self.deferred.item(alloc, self.of.shared_program(), place)
    }

    /// Whether the search is a quick one, which may drop open items.
    pub fn is_quick(&self) -> bool
        ensures { result ≡ self.now.quick }
    {
        self.quick
    }

    /// Whether the book has dropped an open item.
    pub fn has_dropped(&self) -> bool
        ensures { result ≡ self.now.dropped }
    {
        self.dropped
    }

    /// The book's next round: copies of the last open items, at most `ROUND`, in their order. Fails
    /// where memory runs out.
    pub fn round(&self, alloc: Global) -> Result<Vec<Item>, AllocError>
        ensures { IfOk result (λ v. v.items
            ≡ drop (length self.now.open_items - ROUND) self.now.open_items) }
    {
        let mut items = Vec::new(alloc);
        self.next_round(alloc, &mut items)?;
        Ok(items)
    }

    /// Replaces `items`, which have to be of the same program, by the book's next round. The memory
    /// of `items` serves copies of packed items. Fails where memory runs out. `items` has some items
    /// of the program then, not the round.
    pub fn next_round(&self, alloc: Global, items: &mut Vec<Item>) -> Result<(), AllocError>
        requires { AreOf self.now.of.program items.old.items }
        ensures items { OnOk result (items.new.items
            ≡ drop (length self.now.open_items - ROUND) self.now.open_items) }
        ensures program { AreOf self.now.of.program items.new.items }
    {
        self.open_items
            .clone_last_into(alloc, self.of.shared_program(), ROUND, items)
    }

    /// The sum of the schedules of the book's item in the book's mode. `None` where an item is
    /// open, whose schedules it lacks, or the book is quick: it may lack those of dropped items.
    pub fn whole_summary(&self) -> Option<&Summary>
        ensures some { IfSome result (λ s. (s.now ≡ self.now.finished) × (self.now.quick ≡ false) ×
            (self.now.open_items ≡ [])) }
        ensures none { IfNone result (self.now.quick ≡ false → self.now.open_items ≡ [] → ⊥) }
        ensures whole { IfSome result (λ s. s.now ≡ item_sum self.now.mode self.now.of) }
    {
        if !self.quick && self.open_items.len() == 0 {
            Some(&self.finished)
        } else {
            None
        }
    }

    /// The summary of all schedules of a program in a mode. `None` where an item is open, the book
    /// is quick, so that it may lack schedules, or the book isn't of the program's root and this
    /// mode. Programs are compared by value.
    pub fn closed(&self, program: &Program, mode: Mode) -> Option<&Summary>
        ensures some { IfSome result (λ s. (s.now ≡ self.now.finished) × (self.now.quick ≡ false) ×
            IsClosed self.now program.now mode) }
        ensures none { IfNone result (self.now.quick ≡ false → IsClosed self.now program.now mode
            → ⊥) }
        ensures whole { IfSome result (λ s. s.now ≡ whole program.now mode) }
    {
        if self.is_closed(program, mode) {
            self.whole_summary()
        } else {
            None
        }
    }

    /// What a quick search of all schedules of a program in a mode tried. `None` where an item is
    /// open, the book isn't a quick one, or it isn't of the program's root and this mode. Programs
    /// are compared by value. The answer has the first bad schedule of the program's summary, no
    /// greater counts and no other end views; the two are equal where no bad schedule was found.
    pub fn closed_quick(&self, program: &Program, mode: Mode) -> Option<&Summary>
        ensures some { IfSome result (λ s. (s.now ≡ self.now.finished) × (self.now.quick ≡ true) ×
            IsClosed self.now program.now mode) }
        ensures none { IfNone result (self.now.quick ≡ true → IsClosed self.now program.now mode
            → ⊥) }
        ensures bounded { IfSome result (λ s. IsBoundedBy s.now (whole program.now mode)) }
        ensures whole { IfSome result (λ s.
            self.now.dropped ≡ false → s.now ≡ whole program.now mode) }
        ensures clean { IfSome result (λ s. s.now.first_bad ≡ None → self.now.dropped ≡ false) }
    {
        if self.quick && self.is_closed(program, mode) {
            Some(&self.finished)
        } else {
            None
        }
    }

    // Whether no item is open, and the book is of all schedules of this program, in this mode.
    fn is_closed(&self, program: &Program, mode: Mode) -> bool
        ensures { IsTrue result ↔ IsClosed self.now program.now mode }
    {
        self.open_items.len() == 0 && same_modes(self.mode, mode) && is_root(&self.of, program)
    }

    /// Whether [`Book::drop_later`] drops this item where it is open: the book is quick, and each
    /// schedule of the item comes after the first bad schedule so far.
    pub fn drops(&self, item: &Item) -> bool
        ensures { result ≡ drops self.now item.now }
    {
        if !self.quick {
            return false;
        }
        match self.finished.first_bad() {
            None => false,
            Some(first) => is_later(first, item.prefix()),
        }
    }

    /// Drops the open items of a quick book whose schedules all come after the first bad schedule
    /// so far, and answers how many. It is 0 where the book isn't quick, has no bad schedule, or is
    /// known to have no such item. No memory is taken.
    pub fn drop_later(&mut self) -> u64
        ensures book { self.new ≡ thinned self.old }
        ensures number { result ≡ count_by (drops self.old) self.old.open_items }
    {
        if !self.quick {
            return 0;
        }
        if self.swept {
            return 0;
        }
        let Some(first) = self.finished.first_bad() else {
            return 0;
        };
        let number = self.open_items.drop_later(first);
        self.dropped = self.dropped || number > 0;
        self.swept = true;
        number
    }

    /// Settles a walk: takes its item from the open ones, joins what was tried to what is finished,
    /// appends what the walk left to the open items and, where the book lists deferred items, what
    /// it deferred to these.
    ///
    /// # Errors
    ///
    /// `Stranger` where the walk is of another program or mode, else `NotOpen` where its item isn't
    /// open, `OutOfMemory` where memory runs out. The book is as before then, and an item that is
    /// open can be walked again.
    pub fn settle(&mut self, alloc: Global, walked: Walked) -> Result<(), SettleError>
        ensures ok { OnOk result (Settles self.old walked self.new) }
        ensures err { IfErr result (λ e. (self.new ≡ self.old) × IsRefused self.old walked e) }
    {
        if !same_modes(self.mode, walked.mode()) || !self.of.program().is_same(walked.program()) {
            return Err(SettleError::Stranger);
        }
        let (item, mut found) = walked.into_parts();
        let Some(place) = self.open_items.position(&item) else {
            return Err(SettleError::NotOpen);
        };
        self.settle_at(alloc, &mut found, place, &[place])?;
        Ok(())
    }

    /// Settles at once what walks found of items of the book's last round, in the book's mode: of
    /// the items `items[k]`, for each k of `places` in turn. Answers whether the walks were
    /// settled. They aren't where the items aren't open in that order, or where the book lists
    /// deferred prefixes and `found` doesn't. All items have to be of the book's program. The
    /// memory of `found` serves later walks. Fails where memory runs out. The book and `found` are
    /// as before then, and also where the walks aren't settled.
    pub fn settle_all(
        &mut self,
        alloc: Global,
        items: &[Item],
        places: &[usize],
        found: &mut Found,
    ) -> Result<bool, AllocError>
        requires program { AreOf self.old.of.program items.now }
        requires walked { let b = self.old in
            HaveFound b.of.program b.mode items.now places.now found.old }
        ensures taken { let b = self.old in
            (f : HaveFound b.of.program b.mode items.now places.now found.old) →
            result ≡ Ok true → HaveSettled b f.walks self.new }
        ensures not_taken { result ≡ Ok false →
            AreNotTaken self.old items.now places.now found.old }
        ensures same { (result ≡ Ok true → ⊥) → self.new ≡ self.old }
        ensures found { (result ≡ Ok true → ⊥) → found.new ≡ found.old }
    {
        if self.lists && !found.lists {
            return Ok(false);
        }
        let Some(open_at) = self
            .open_items
            .unpack_and_find(alloc, self.of.shared_program(), items, places)?
        else {
            return Ok(false);
        };
        let first = self.open_items.packed_len();
        self.settle_at(alloc, found, first, open_at.as_slice())?;
        Ok(true)
    }

    /// Walks the last open items, at most `ROUND`, in their order, each for at most `quota`
    /// schedules, and settles the walks at once. No item is copied. What the walks find is gathered
    /// in `found`, whose memory serves later rounds. Fails where memory runs out. The book is as
    /// before then, and the items have to be walked again.
    pub fn walk_round(
        &mut self,
        alloc: Global,
        walker: &mut Walker,
        found: &mut Found,
        quota: u32,
    ) -> Result<(), AllocError>
        requires walker { walker.old ≡ self.old.of.program }
        requires quota { 1 ≤ quota }
        ensures walker { walker.new ≡ walker.old }
        ensures ok { OnOk result (HasWalkedRound self.old quota self.new) }
        ensures err { IfErr result (λ _. self.new ≡ self.old) }
    {
        let end = self.open_items.len();
        let first = end.saturating_sub(ROUND);
        self.open_items
            .unpack_from(alloc, self.of.shared_program(), first)?;
        walker.clear(found, self.lists);
        for place in first..end {
            let item = self.open_items.unpacked_item(place);
            walker.walk_into(alloc, found, item, self.mode, quota)?;
        }
        let places = [first; ROUND];
        self.settle_at(alloc, found, first, &places[..end - first])
    }

    // Settles what walks found of the open items at `places`, none of which is below `first`. Each
    // place is counted without the items of the places before it in `places`. Unpacks the open
    // items from `first` on. All that takes memory comes first, so that the book is as before where
    // it runs out. The memory of `found` serves later walks.
    fn settle_at(
        &mut self,
        alloc: Global,
        found: &mut Found,
        first: usize,
        places: &[usize],
    ) -> Result<(), AllocError>
        requires first { All (λ k. first ≤ k) places.now }
        requires within { AreWithin self.old.open_items places.now }
        requires keeps { let left = remove_each self.old.open_items places.now in
            Keeps (taken_in self.old left found.old) }
        ensures book { let left = remove_each self.old.open_items places.now in
            self.new ≡ (if is_ok result then taken_in self.old left found.old else self.old) }
        ensures found { OnErr result (found.new ≡ found.old) }
    {
        let program = self.of.shared_program();
        self.open_items.unpack_from(alloc, program, first)?;
        let deferred_len = self.deferred.len();
        let quiet = adds_nothing_to_drop(found);
        self.open_items.reserve(found.rest.len())?;
        let none = Prefixes::new(alloc);
        let listed = listed_prefixes(self.lists, &found.deferred, &none);
        self.deferred.append_prefixes(alloc, program, listed)?;
        if let Err(error) = self.finished.join_in(&mut self.hints, &mut found.part) {
            self.deferred.truncate(deferred_len);
            return Err(error);
        }
        self.open_items.append(alloc, &mut found.rest);
        self.open_items.remove_each(places);
        self.swept &= quiet;
        Ok(())
    }

    /// Makes the book's bound the last one of the search: the deferred items are forgotten, and
    /// prefixes that later walks defer aren't listed. No memory is taken.
    pub fn make_bound_last(&mut self)
        ensures { self.new ≡ made_last self.old }
    {
        self.deferred.truncate(0);
        self.lists = false;
    }

    /// Goes on from the book's bound to the next one: the deferred items are open, and what is
    /// finished stays, but for its mark that some schedule is beyond the bound. No memory is taken.
    ///
    /// # Errors
    ///
    /// `StillOpen` where an item is open, else `Dropped` where one was dropped, else `LastBound`
    /// where the bound is the greatest or was made the last one, or the mode has none. The book is
    /// as before then.
    pub fn raise(&mut self) -> Result<(), RaiseError>
        ensures ok { OnOk result (Raises self.old self.new) }
        ensures err { IfErr result (λ e. (self.new ≡ self.old) × IsNotRaised self.old e) }
    {
        if self.open_items.len() > 0 {
            return Err(RaiseError::StillOpen);
        }
        if self.dropped {
            return Err(RaiseError::Dropped);
        }
        if !self.lists {
            return Err(RaiseError::LastBound);
        }
        let Some(mode) = next_mode(self.mode) else {
            return Err(RaiseError::LastBound);
        };
        mem::swap(&mut self.open_items, &mut self.deferred);
        self.mode = mode;
        self.swept = false;
        self.finished.forget_beyond();
        Ok(())
    }
}

// Which of the `prefixes` that walks deferred a book lists: all where `lists` is set, else `none`,
// a list that has to be empty.
pub(crate) fn listed_prefixes<'a>(
    lists: bool,
    prefixes: &'a Prefixes,
    none: &'a Prefixes,
) -> &'a Prefixes
    requires { none.now ≡ [] }
    ensures { result.now ≡ listed_if lists prefixes.now }
{
    if lists { prefixes } else { none }
}

// Whether an item is the root of this program: its prefix is empty, and no thread sleeps.
fn is_root(item: &Item, program: &Program) -> bool
    ensures { IsTrue result ↔ (item.now ≡ root_of program.now) }
{
    item.prefix().is_empty()
        && same_masks(item.mask(), Mask::empty())
        && item.program().is_same(program)
}

// Whether two modes are equal.
fn same_modes(first: Mode, second: Mode) -> bool
    ensures { IsTrue result ↔ (first ≡ second) }
{
    first == second
}

// The mode at the next bound. `None` where the bound is the greatest, or the mode has none.
fn next_mode(mode: Mode) -> Option<Mode>
    ensures some { IfSome result (λ m. (bound_of mode < BOUND) × (m ≡ next_mode mode)) }
    ensures none { IfNone result (BOUND ≤ bound_of mode) }
{
    match mode {
        Mode::Bounded(bound) => {
            if bound < BOUND {
                Some(Mode::Bounded(bound + 1))
            } else {
                None
            }
        }
        Mode::BoundedOnce(bound) => {
            if bound < BOUND {
                Some(Mode::BoundedOnce(bound + 1))
            } else {
                None
            }
        }
        Mode::Reduced => None,
        Mode::ReducedOnce => None,
    }
}

// Whether walks found no bad schedule and left no item open: a quick book that settles them has no
// more open items to drop than before.
fn adds_nothing_to_drop(found: &Found) -> bool
    ensures { IsTrue result → (found.now.rest.items ≡ []) × (found.now.part.first_bad ≡ None) }
{
    found.rest.is_empty() && found.part.first_bad().is_none()
}
