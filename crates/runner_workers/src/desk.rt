//! What workers that share rounds have under a lock.

ghost use Rattle.std.specs.Prelude.{◌≡◌, ◌≤◌, ◌-◌, ◌||◌, ◌↔◌, true, false, if◌then◌else◌, vec_len, IfSome, OnOk, OnErr, IsTrue};
ghost use Rattle.std.specs.{Arc.arc_value, Option.ForSome};
ghost use Rattle.walk_items.specs.Items.{AreOf};
ghost use Rattle.book.specs.Books.{thinned};
ghost use Rattle.runner_rounds.specs.{Rounds.{IsOf, IsRoundOf, GoesOn}, declared.round.Round.Round};
ghost use Rattle.runner_workers.specs.inner.Rounds.{Follows};

use crate::gate::Gate;
use book::books::Book;
use book::progress::Progress;
use runner_report::Options;
use runner_rounds::{BrandedBook, PADDING_WORDS, Round, SearchBrand};
use std::alloc::{AllocError, Global};
use std::mem;
use std::sync::Arc;
use walk_items::item::Item;

/// What workers that share rounds have under a lock: the search's book, and their round.
#[derive(Drop)]
pub(crate) struct Desk<N: SearchBrand> {
    /// Padding after the lock, which other workers try while one has it.
    padding: [u64; PADDING_WORDS],
    pub book: BrandedBook<N>,
    limit: Option<u64>,
    /// From how many open items on workers have rounds of their own.
    own_from: usize,
    round: Arc<Round>,
    /// The round before this one, whose memory serves the next one.
    last: Option<Arc<Round>>,
    /// How many items of the round are neither settled nor given up.
    left: usize,
    /// Whether this round is the last of the stretch.
    ends: bool,
    /// Whether the last round of the stretch has ended.
    is_over: bool,
    ghost of: { IsRoundOf N.of.program N.mode (arc_value round) },
    ghost last_of: { ForSome last (λ r. IsRoundOf N.of.program N.mode (arc_value r)) },
}

impl<N: SearchBrand> Desk<N> {
    /// A desk with a book and the first round of a stretch, which follows an empty round 0.
    /// `own_from` is the number of open items from which on workers have rounds of their own. Fails
    /// where memory runs out.
    pub fn new(
        alloc: Global,
        book: Book,
        options: Options,
        own_from: usize,
    ) -> Result<Desk<N>, AllocError>
        requires book { IsOf book N.of N.mode N.quick N.lists }
        requires quota { 1 ≤ options.quota }
    {
        let none = Round {
            mode: book.mode(),
            quick: book.is_quick(),
            lists: book.lists_deferred(),
            quota: options.quota,
            turn: 0,
            first: 0,
            items: Vec::new(alloc),
        };
        let mut desk = Desk {
            padding: [0; PADDING_WORDS],
            book: BrandedBook::new(book),
            limit: options.limit,
            own_from,
            round: Arc::new(alloc, none)?,
            last: None,
            left: 0,
            ends: false,
            is_over: false,
        };
        desk.begin_next_round(alloc)?;
        Ok(desk)
    }

    /// Gives the book back, once the stretch is over.
    pub fn into_book(self) -> Book
        ensures { IsOf result N.of N.mode N.quick N.lists }
    {
        self.book.into_book()
    }

    /// The round that workers walk; `None` where the stretch is over, or it can't be cloned.
    pub fn round(&self) -> Option<Arc<Round>>
        ensures { IfSome result (λ r. IsRoundOf N.of.program N.mode (arc_value r)) }
    {
        if self.is_over {
            return None;
        }
        Arc::try_clone(&self.round).ok()
    }

    // Takes the items of the round before this one, whose memory serves the next round. Answers no
    // items where there is no such round, or a worker still has it.
    fn take_spare_items(&mut self, alloc: Global) -> Vec<Item>
        ensures items { AreOf N.of.program result.items }
        ensures same { (self.new.book ≡ self.old.book) × (self.new.round ≡ self.old.round)
            × (self.new.left ≡ self.old.left) × (self.new.limit ≡ self.old.limit)
            × (self.new.own_from ≡ self.old.own_from)
            × (self.new.ends ≡ self.old.ends) × (self.new.is_over ≡ self.old.is_over) }
    {
        match self.last.take() {
            Some(last) => match Arc::into_inner(last) {
                Some(round) => round.items,
                None => Vec::new(alloc),
            },
            None => Vec::new(alloc),
        }
    }

    // Begins the next round of the stretch, or ends the stretch where no item is open. Where memory
    // runs out, the desk keeps the round that it has.
    fn begin_next_round(&mut self, alloc: Global) -> Result<(), AllocError>
        ensures round { OnOk result
            (Follows self.old.book (arc_value self.old.round) (arc_value self.new.round)) }
        ensures left { OnOk result (self.new.left ≡ vec_len (arc_value self.new.round).items) }
        ensures over { OnOk result (IsTrue self.new.is_over ↔ self.new.left ≡ 0) }
        ensures refused { OnErr result ((self.new.round ≡ self.old.round)
            × (self.new.left ≡ self.old.left) × (self.new.is_over ≡ self.old.is_over)) }
        ensures same { (self.new.book ≡ self.old.book) × (self.new.limit ≡ self.old.limit)
            × (self.new.own_from ≡ self.old.own_from) × (self.new.ends ≡ self.old.ends) }
    {
        let mut items = self.take_spare_items(alloc);
        self.book.book().next_round(alloc, &mut items)?;
        let before = &self.round;
        let round = Round {
            mode: before.mode,
            quick: before.quick,
            lists: before.lists,
            quota: before.quota,
            turn: before.turn.wrapping_add(1),
            first: before.first.wrapping_add(before.items.len() as u64),
            items,
        };
        let round = Arc::new(alloc, round)?;
        self.last = Some(mem::replace(&mut self.round, round));
        self.left = self.round.items.len();
        self.is_over = self.left == 0;
        Ok(())
    }

    /// Notes that `done` more items of the round are settled or given up, and, if `ends` is set,
    /// that the round is the last of the stretch. Answers whether all items of the round are done.
    pub fn note_done(&mut self, done: usize, ends: bool) -> bool
        ensures answer { IsTrue result ↔ self.new.left ≡ 0 }
        ensures left { self.new.left ≡ self.old.left - done }
        ensures ends { self.new.ends ≡ self.old.ends || ends }
        ensures same { (self.new.book ≡ self.old.book) × (self.new.round ≡ self.old.round)
            × (self.new.limit ≡ self.old.limit) × (self.new.own_from ≡ self.old.own_from)
            × (self.new.is_over ≡ self.old.is_over) }
    {
        self.ends |= ends;
        self.left = self.left.saturating_sub(done);
        self.left == 0
    }

    /// Goes on from a round whose items are all done to the next, or ends the stretch. Unless the
    /// round was noted as the last, first drops open items of a quick book that can't hold the
    /// first bad schedule any more. If another round follows, tells the gate how far the search is.
    /// Fails where memory runs out. The stretch is over then.
    pub fn advance<G: Gate>(&mut self, alloc: Global, gate: &G) -> Result<(), AllocError>
        ensures book { self.new.book
            ≡ (if self.old.ends then self.old.book else thinned self.old.book) }
        ensures over { OnOk result (self.new.is_over ≡ false
            ↔ (self.old.ends ≡ false) × GoesOn self.old.limit self.old.own_from self.new.book) }
        ensures round { OnOk result (self.new.is_over ≡ false →
            Follows self.new.book (arc_value self.old.round) (arc_value self.new.round)) }
        ensures left { OnOk result (self.new.is_over ≡ false →
            self.new.left ≡ vec_len (arc_value self.new.round).items) }
        ensures refused { OnErr result (self.new.is_over ≡ true) }
        ensures same { (self.new.limit ≡ self.old.limit) × (self.new.own_from ≡ self.old.own_from) }
    {
        self.is_over = true;
        if !self.ends && self.book.finish_round(self.limit, self.own_from) {
            gate.round_ended(Progress::of(self.book.book()));
            self.begin_next_round(alloc)?;
        }
        Ok(())
    }
}
