//! Books that are known to be of one search, by their type.

ghost use Rattle.std.specs.Prelude.{◌≡◌, ◌⊎◌, ◌↔◌, [], OnOk, OnErr, IsTrue};
ghost use Rattle.book.specs.Books.{HaveFound, HaveSettled, AreNotTaken, thinned};
ghost use Rattle.runner_rounds.specs.{Rounds.IsOf, declared.round.Round.Round};
ghost use Rattle.runner_rounds.specs.Rounds.{IsRoundOf, AreKept, GoesOn};

use crate::round::Round;
use crate::worker::Worker;
use book::books::Book;
use std::alloc::{AllocError, Global};
use std::marker::{Brand, Model, PhantomData};

/// The search that a book is of, as a type: item, mode, and whether it is quick and lists deferred
/// prefixes. For contracts alone. Each stretch of rounds is given its own.
pub trait SearchBrand {
    ghost use Rattle.std.specs.Prelude.{Bool};
    ghost use Rattle.walk_items.specs.declared.mode.Mode.{Mode};
    ghost use Rattle.walk_items.specs.Items.{ItemView};

    ghost of: { ItemView };

    ghost mode: { Mode };

    ghost quick: { Bool };

    ghost lists: { Bool };
}

// These values are never used: `Brand` stands for other ones at each call.
impl SearchBrand for Brand {
    ghost use Rattle.std.specs.Prelude.{[], false};
    ghost use Rattle.walk_items.specs.declared.mode.Mode.TheVariants.{Reduced};
    ghost use Rattle.walk_items.specs.Items.{root_of};

    ghost of = { root_of (record {
      variables = [];
      mutexes = [];
      conditions = [];
      semaphores = [];
      threads = [];
    }) };

    ghost mode = { Reduced };

    ghost quick = { false };

    ghost lists = { false };
}

/// A book that is known, by its type, to be of the search `N`: a worker that gets it from a lock
/// compares nothing. Contracts see the book.
#[derive(Drop)]
pub struct BrandedBook<N: SearchBrand> {
    book: Book,
    of: PhantomData<N>,
}

impl<N: SearchBrand> Model for BrandedBook<N> {
    ghost use Rattle.book.specs.Books.{BookView};
    ghost use Rattle.runner_rounds.specs.Rounds.{IsOf};

    ghost Value = { BookView };

    ghost view = { λ n. n.book };

    ghost invariant = { λ n. IsOf n.book N.of N.mode N.quick N.lists };
}

impl<N: SearchBrand> BrandedBook<N> {
    /// Brands a book that is of the search `N`: its type says so from then on.
    pub fn new(book: Book) -> BrandedBook<N>
        requires { IsOf book N.of N.mode N.quick N.lists }
        ensures { result ≡ book }
    {
        BrandedBook {
            book,
            of: PhantomData,
        }
    }

    /// The book, without its brand.
    pub fn book(&self) -> &Book
        ensures same { result.now ≡ self.now }
        ensures of { IsOf result.now N.of N.mode N.quick N.lists }
    {
        &self.book
    }

    /// Gives the book back, without its brand.
    pub fn into_book(self) -> Book
        ensures same { result ≡ self }
        ensures of { IsOf result N.of N.mode N.quick N.lists }
    {
        self.book
    }

    /// Settles the walks that a worker keeps of a round, all at once; the worker keeps none then.
    /// They are given up, and the book stays as it is, where their items aren't open in the order of
    /// the walks, or where the book lists deferred prefixes and the walks don't. Fails where memory
    /// runs out; the walks are given up then.
    pub fn settle(
        &mut self,
        alloc: Global,
        worker: &mut Worker,
        round: &Round,
    ) -> Result<(), AllocError>
        requires round { IsRoundOf N.of.program N.mode round.now }
        requires walker { worker.old.walker ≡ N.of.program }
        requires kept { AreKept round.now worker.old }
        ensures settled { let ks = worker.old.places.items in
            (f : HaveFound N.of.program N.mode round.now.items.items ks worker.old.found) →
            OnOk result (HaveSettled self.old f.walks self.new
            ⊎ ((self.new ≡ self.old)
            × AreNotTaken self.old round.now.items.items ks worker.old.found)) }
        ensures refused { OnErr result (self.new ≡ self.old) }
        ensures walker { worker.new.walker ≡ worker.old.walker }
        ensures places { worker.new.places.items ≡ [] }
        ensures kept { (r : Round) → AreKept r worker.new }
    {
        let (items, places) = (round.items.as_slice(), worker.places.as_slice());
        let settled = self
            .book
            .settle_all(alloc, items, places, &mut worker.found);
        worker.clear(round.lists);
        let _is_taken = settled?;
        Ok(())
    }

    /// Finishes a round: drops open items of a quick book that can't hold the first bad schedule
    /// any more, and answers whether another round that workers share follows. It does where items
    /// are open, but fewer than `own_from`, from which on each worker has rounds of its own, and
    /// the limit isn't reached.
    pub fn finish_round(&mut self, limit: Option<u64>, own_from: usize) -> bool
        ensures book { self.new ≡ thinned self.old }
        ensures answer { IsTrue result ↔ GoesOn limit own_from self.new }
    {
        let _number = self.book.drop_later();
        let open = self.book.open_len();
        if open == 0 || open >= own_from {
            return false;
        }
        match limit {
            Some(limit) => self.book.finished().tried() < limit,
            None => true,
        }
    }
}
