//! Books that lend open items to workers.

ghost use Rattle.std.specs.Prelude.{◌≡◌, ◌≤◌, [], true, false, Ok, IfOk, length, set};
ghost use Rattle.walk_summary.specs.Summaries.{cut};
ghost use Rattle.book.specs.{Books.{Keeps, HaveFound, HaveSettled, places_from}, ItemLists.all_of};
ghost use Rattle.book.specs.Lending.{as_book, lending, Reorders, IsLoanOf, Has, Lends, IsNotSettled};
ghost use Rattle.book.specs.Progress.{IsProgressOf};

use crate::books::{Book, listed_prefixes};
use crate::item_list::ItemList;
use crate::loan::Loan;
use crate::progress::{Progress, mode_bound};
use std::alloc::{AllocError, Global};
use std::marker::Model;
use walk::found::Found;
use walk_items::item::Item;
use walk_items::mode::Mode;
use walk_prefixes::Prefixes;
use walk_summary::{EndHints, Summary};

/// A book that lends open items to workers, which walk them as rounds of their own. A lent item is
/// still open, and comes before the free items, which are lent to nobody. No item was dropped from
/// the book.
///
/// The type keeps what the type [`Book`] keeps.
#[derive(Drop)]
pub struct LendingBook {
    of: Item,
    mode: Mode,
    finished: Summary,
    // The open items that are lent to nobody, and those lent to each worker.
    free: ItemList,
    lent: Vec<ItemList>,
    deferred: ItemList,
    // Whether prefixes that walks defer are listed.
    lists: bool,
    quick: bool,
    // Hints at where end views stand in the finished summary.
    hints: Box<EndHints>,
}

impl Model for LendingBook {
    ghost use Rattle.book.specs.Books.{Keeps};
    ghost use Rattle.book.specs.Lending.{LendingView, lending_view, as_book};

    ghost Value = { LendingView };

    ghost view = { λ b. lending_view b.of b.mode b.finished b.free b.lent.items b.deferred
        b.lists b.quick };

    ghost invariant = { λ b. Keeps (as_book (lending_view b.of b.mode b.finished b.free
        b.lent.items b.deferred b.lists b.quick)) };
}

impl LendingBook {
    /// A book that lends its items to `workers` workers, which are numbered from 0. None has an
    /// item yet. The book must have dropped no item. Fails where memory runs out; the book is given
    /// up then.
    pub fn new(alloc: Global, book: Book, workers: usize) -> Result<LendingBook, AllocError>
        requires all { book.dropped ≡ false }
        ensures lending { IfOk result (λ b. b ≡ lending book workers) }
        ensures book { IfOk result (λ b. as_book b ≡ book) }
    {
        let mut lent = Vec::new(alloc);
        for _ in 0..workers {
            lent.push(ItemList::new(alloc))?;
        }
        let Book {
            of,
            mode,
            finished,
            open_items,
            deferred,
            lists,
            quick,
            hints,
            ..
        } = book;
        Ok(LendingBook {
            of,
            mode,
            finished,
            free: open_items,
            lent,
            deferred,
            lists,
            quick,
            hints,
        })
    }

    /// The book, which lends no more: what was lent to workers follows its other open items. Fails
    /// where memory runs out; the book is given up then.
    pub fn into_book(self, alloc: Global) -> Result<Book, AllocError>
        ensures { IfOk result (λ b. Reorders (as_book self) b) }
    {
        let LendingBook {
            of,
            mode,
            finished,
            mut free,
            mut lent,
            deferred,
            lists,
            quick,
            hints,
        } = self;
        let program = of.shared_program();
        while let Some(mut list) = lent.pop() {
            free.append_list(alloc, program, &mut list)?;
        }
        Ok(Book {
            of,
            mode,
            finished,
            open_items: free,
            deferred,
            lists,
            quick,
            dropped: false,
            swept: false,
            hints,
        })
    }

    /// The summary of what settled walks of the book's items have tried.
    pub fn finished(&self) -> &Summary
        ensures finished { result.now ≡ self.now.finished }
        ensures kept { Keeps (as_book self.now) }
    {
        &self.finished
    }

    /// How many open items are lent to no worker.
    pub fn free_len(&self) -> usize
        ensures { result ≡ length self.now.free }
    {
        self.free.len()
    }

    /// How far the search is. Open items, those lent included, are counted up to 2^64 - 1.
    pub fn progress(&self) -> Progress
        ensures progress { let b = as_book self.now in
            IsProgressOf b (record result { open_items = length b.open_items }) }
        ensures open_items { result.open_items ≡ cut (length (as_book self.now).open_items) }
    {
        let mut open_items = self.free.len();
        for list in &self.lent {
            open_items = open_items.saturating_add(list.len());
        }
        Progress {
            bound: mode_bound(self.mode),
            tried: self.finished.tried(),
            bad: self.finished.failed().saturating_add(self.finished.stuck()),
            open_items,
            deferred: self.deferred.len(),
            lists: self.lists,
        }
    }

    /// Replaces the items of `loan` by copies of the last free items, at most `most`, and lends
    /// these to a worker that has none. Answers whether it did: false where no worker has this
    /// number, or the worker still has items; true also where no item is free. Fails where memory
    /// runs out; the worker may have the items then, and no copies.
    pub fn lend(
        &mut self,
        alloc: Global,
        worker: usize,
        most: usize,
        loan: &mut Loan,
    ) -> Result<bool, AllocError>
        ensures book { Reorders (as_book self.old) (as_book self.new) }
        ensures loan { result ≡ Ok true → IsLoanOf self.old.of.program loan.new }
        ensures few { result ≡ Ok true → length (all_of self.old.of.program loan.new) ≤ most }
        ensures lent { result ≡ Ok true → Lends self.old worker most loan.new self.new }
        ensures not_lent { result ≡ Ok false → Has self.old worker [] → ⊥ }
        ensures same { result ≡ Ok false → (self.new ≡ self.old) × (loan.new ≡ loan.old) }
    {
        let Some(lent) = self.lent.get_mut(worker) else {
            return Ok(false);
        };
        if lent.len() > 0 {
            return Ok(false);
        }
        self.free.move_last_into(most, lent)?;
        loan.list.clone_from(alloc, lent)?;
        Ok(true)
    }

    /// Settles at once what walks found of all items of a worker's loan, in the loan's order; items
    /// that the walks left are free. Answers whether they were settled: false where the loan's
    /// items aren't those lent to a worker of this number, or the book lists deferred prefixes and
    /// `found` doesn't. The memory of `found` serves later walks. Fails where memory runs out. The
    /// book and `found` are as before then, and also where the walks aren't settled.
    pub fn settle(
        &mut self,
        alloc: Global,
        worker: usize,
        loan: &Loan,
        found: &mut Found,
    ) -> Result<bool, AllocError>
        requires loan { IsLoanOf self.old.of.program loan.now }
        requires walked { let items = all_of self.old.of.program loan.now in
            HaveFound self.old.of.program self.old.mode items (places_from 0 (length items))
            found.old }
        ensures taken { let items = all_of self.old.of.program loan.now in
            (f : HaveFound self.old.of.program self.old.mode items (places_from 0 (length items))
            found.old) → result ≡ Ok true →
            HaveSettled (as_book self.old) f.walks (as_book self.new) }
        ensures lent { result ≡ Ok true → self.new.lent ≡ set self.old.lent worker [] }
        ensures not_taken { result ≡ Ok false →
            IsNotSettled self.old worker (all_of self.old.of.program loan.now) found.old.lists }
        ensures same { (result ≡ Ok true → ⊥) → self.new ≡ self.old }
        ensures found { (result ≡ Ok true → ⊥) → found.new ≡ found.old }
    {
        if self.lists && !found.lists {
            return Ok(false);
        }
        let program = self.of.shared_program();
        let Some(lent) = self.lent.get_mut(worker) else {
            return Ok(false);
        };
        if !lent.has_same_items(alloc, program, &loan.list)? {
            return Ok(false);
        }
        self.free.reserve(found.rest.len())?;
        let deferred_len = self.deferred.len();
        let none = Prefixes::new(alloc);
        let listed = listed_prefixes(self.lists, &found.deferred, &none);
        self.deferred.append_prefixes(alloc, program, listed)?;
        if let Err(error) = self.finished.join_in(&mut self.hints, &mut found.part) {
            self.deferred.truncate(deferred_len);
            return Err(error);
        }
        self.free.append(alloc, &mut found.rest);
        lent.clear();
        Ok(true)
    }
}
