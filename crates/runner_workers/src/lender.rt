//! What workers with rounds of their own have under a lock.

ghost use Rattle.std.specs.Prelude.{◌≡◌, ◌≤◌, ◌⊎◌, ◌↔◌, ◌<◌, true, false, IfOk, IfNone, IsTrue, length};
ghost use Rattle.book.specs.{Books.{HaveFound, HaveSettled, places_from}, ItemLists.all_of};
ghost use Rattle.book.specs.{Lending.{as_book, IsLoanOf}, declared.limits.TheConstants.ROUND};
ghost use Rattle.runner_rounds.specs.Rounds.{IsOf};
ghost use Rattle.runner_workers.specs.declared.lender.Task.TheVariants.{Walk, Quit};
ghost use Rattle.runner_workers.specs.inner.Loans.{IsLent, MayLend};

use crate::gate::Gate;
use crate::limits::SHARES;
use book::books::Book;
use book::lending::LendingBook;
use book::limits::ROUND;
use book::loan::Loan;
use runner_rounds::{PADDING_WORDS, SearchBrand, Worker};
use std::alloc::{AllocError, Global};
use std::marker::PhantomData;

/// What a worker does next.
#[derive(Clone, Copy)]
pub(crate) enum Task {
    /// The worker walks the items that it was lent.
    Walk,
    /// The worker waits for the turn with this number to end, and asks again.
    Wait(u64),
    /// The worker quits: nothing more is lent in this stretch.
    Quit,
}

/// A book that lends workers open items for rounds of their own, and what decides when.
#[derive(Drop)]
pub(crate) struct Lender<N: SearchBrand> {
    padding: [u64; PADDING_WORDS],
    book: LendingBook,
    workers: usize,
    limit: Option<u64>,
    quick: bool,
    /// How many workers walk items that they were lent.
    walking: usize,
    /// Whether nothing more is lent in this stretch.
    ends: bool,
    /// Whether memory was refused to a worker.
    refused: bool,
    /// Whether a worker waits for items that other workers may leave.
    waits: bool,
    /// The number of the turn that ended last. At a turn's end, workers that wait look again.
    turn: u64,
    search: PhantomData<N>,
    ghost of: { IsOf (as_book book) N.of N.mode N.quick N.lists },
}

impl<N: SearchBrand> Lender<N> {
    /// A lender of a book's open items to `workers` workers, which are numbered from 0. Fails where
    /// memory runs out.
    pub fn new(
        alloc: Global,
        book: Book,
        workers: usize,
        limit: Option<u64>,
    ) -> Result<Lender<N>, AllocError>
        requires book { IsOf book N.of N.mode N.quick N.lists }
        requires all { book.dropped ≡ false }
    {
        Ok(Lender {
            padding: [0; PADDING_WORDS],
            quick: book.is_quick(),
            book: LendingBook::new(alloc, book, workers)?,
            workers,
            limit,
            walking: 0,
            ends: false,
            refused: false,
            waits: false,
            turn: 0,
            search: PhantomData,
        })
    }

    /// Gives the book back, once the stretch is over. Items that are still lent are open. Fails
    /// where memory runs out or was refused to a worker.
    pub fn into_book(self, alloc: Global) -> Result<Book, AllocError>
        ensures { IfOk result (λ b. IsOf b N.of N.mode N.quick N.lists) }
    {
        if self.refused {
            return Err(AllocError);
        }
        self.book.into_book(alloc)
    }

    // How many items a worker is lent at most: the free ones divided by `SHARES` times the number
    // of workers, but from 1 to `ROUND`. So few are lent where few are free, and nobody waits long.
    fn share_len(&self) -> usize
        ensures { result ≤ ROUND }
    {
        let shares = self.workers.saturating_mul(SHARES);
        let share = self.book.free_len().checked_div(shares);
        share.unwrap_or(1).max(1).min(ROUND)
    }

    /// Lends a worker free items for its own round, as `loan`, and answers `Walk`. Answers `Wait`
    /// where none is free, but other workers may leave some; else `Quit`. Where memory is refused,
    /// or the book doesn't lend to this worker, nothing is lent from then on.
    pub fn lend(&mut self, alloc: Global, worker: u32, loan: &mut Loan) -> Task
        ensures walk { result ≡ Walk → (self.old.ends ≡ false) × IsLent N.of.program loan.new }
        ensures quit { result ≡ Quit → (self.new.ends ≡ true)
            ⊎ ((self.old.walking ≡ 0) × (length self.old.book.free ≡ 0)) }
    {
        let is_free = self.book.free_len() > 0;
        if self.ends || (!is_free && self.walking == 0) {
            return Task::Quit;
        }
        if !is_free {
            self.waits = true;
            return Task::Wait(self.turn.wrapping_add(1));
        }
        let most = self.share_len();
        let lent = self.book.lend(alloc, worker as usize, most, loan);
        if lent == Ok(true) {
            self.walking = self.walking.saturating_add(1);
            return Task::Walk;
        }
        self.refused = self.refused || lent.is_err();
        self.ends = true;
        Task::Quit
    }

    // Whether more may be lent: the search is below its limit, and has no bad schedule if quick.
    fn may_lend(&self) -> bool
        ensures { IsTrue result ↔ MayLend self.now.limit self.now.quick self.now.book.finished }
    {
        let finished = self.book.finished();
        if self.quick && finished.first_bad().is_some() {
            return false;
        }
        match self.limit {
            Some(limit) => finished.tried() < limit,
            None => true,
        }
    }

    /// Settles what a worker's walks of all items of its loan found. Where they aren't settled, the
    /// limit is reached, or a quick search has a bad schedule, nothing more is lent. Else, if an
    /// item is open, the gate is told how far the search is.
    pub fn settle<G: Gate>(&mut self, alloc: Global, worker: &mut Worker, loan: &Loan, gate: &G)
        requires loan { IsLoanOf N.of.program loan.now }
        requires walked { let items = all_of N.of.program loan.now in
            HaveFound N.of.program N.mode items (places_from 0 (length items)) worker.old.found }
        ensures walker { worker.new.walker ≡ worker.old.walker }
        ensures settled { let b = self.old.book in let items = all_of b.of.program loan.now in
            (f : HaveFound b.of.program b.mode items (places_from 0 (length items))
            worker.old.found) →
            self.new.ends ≡ false → HaveSettled (as_book b) f.walks (as_book self.new.book) }
        ensures goes_on { self.new.ends ≡ false →
            MayLend self.old.limit self.old.quick self.new.book.finished }
    {
        self.walking = self.walking.saturating_sub(1);
        let (number, found) = (worker.number as usize, &mut worker.found);
        let settled = self.book.settle(alloc, number, loan, found);
        self.refused = self.refused || settled.is_err();
        if settled != Ok(true) || !self.may_lend() {
            self.ends = true;
        }
        if !self.ends && (self.walking > 0 || self.book.free_len() > 0) {
            gate.round_ended(self.book.progress());
        }
    }

    /// Gives up a worker's loan, for whose walks there was no memory: its items stay open, nothing
    /// more is lent, and `into_book` fails.
    pub fn give_up(&mut self)
        ensures { (self.new.ends ≡ true) × (self.new.refused ≡ true) }
    {
        self.walking = self.walking.saturating_sub(1);
        self.refused = true;
        self.ends = true;
    }

    /// Ends a turn if workers wait for that, and have to look again: an item is free, or nothing
    /// more will be lent. Answers the number of the turn; `None` where none ended.
    pub fn end_turn_if_due(&mut self) -> Option<u64>
        ensures { IfNone result (self.old.waits ≡ true → (0 < self.old.walking)
            × (self.old.ends ≡ false) × (length self.old.book.free ≡ 0)) }
    {
        let turn_lasts = self.walking > 0 && !self.ends && self.book.free_len() == 0;
        if !self.waits || turn_lasts {
            return None;
        }
        self.waits = false;
        self.turn = self.turn.wrapping_add(1);
        Some(self.turn)
    }
}
