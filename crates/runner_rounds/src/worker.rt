//! Workers, and what their walks found that isn't settled yet.

ghost use Rattle.std.specs.Prelude.{◌≡◌, ◌<◌, false, [], vec_len, IfOk, OnOk};
ghost use Rattle.std.specs.Arc.{arc_value};
ghost use Rattle.runner_rounds.specs.declared.{limits.TheConstants.KEPT_WALKS, round.Round.Round};
ghost use Rattle.runner_rounds.specs.Rounds.{IsRoundOf, AreKept};

use crate::limits::{KEPT_WALKS, PADDING_WORDS};
use crate::round::Round;
use guest_code::program::Program;
use std::alloc::{AllocError, Global};
use std::sync::Arc;
use walk::found::Found;
use walk::walker::Walker;

/// A worker: its walker, the indexes in a round of the items that it walked and that aren't settled
/// yet, and what these walks found. Its number is the one that items are lent to.
#[derive(Drop)]
pub struct Worker {
    pub walker: Walker,
    pub places: Vec<usize>,
    pub found: Found,
    pub number: u32,
    /// Padding: what follows in memory is another worker's.
    pub padding: [u64; PADDING_WORDS],
}

impl Worker {
    /// A worker with this number, for a program. It keeps no walk.
    pub fn new(alloc: Global, program: Arc<Program>, number: u32) -> Result<Worker, AllocError>
        ensures { IfOk result (λ b. b.walker ≡ arc_value program) }
    {
        Ok(Worker {
            walker: Walker::new(alloc, program)?,
            places: Vec::new(alloc),
            found: Found::new(alloc),
            number,
            padding: [0; PADDING_WORDS],
        })
    }

    /// Forgets the walks that the worker keeps, whose memory serves later ones. `lists` says
    /// whether prefixes that later walks defer are to be listed.
    pub fn clear(&mut self, lists: bool)
        ensures walker { self.new.walker ≡ self.old.walker }
        ensures places { self.new.places.items ≡ [] }
        ensures kept { (r : Round) → AreKept r self.new }
    {
        self.walker.clear(&mut self.found, lists);
        self.places.clear();
    }

    /// Whether the worker keeps as many walks as it may.
    pub fn is_full(&self) -> bool
        ensures { result ≡ false → vec_len self.now.places < KEPT_WALKS }
    {
        self.places.len() >= KEPT_WALKS
    }

    // Walks the item with this index in a round, and keeps the walk, to be settled later. Where
    // memory runs out, the caller has to clear the worker.
    fn walk_item(&mut self, alloc: Global, round: &Round, place: usize) -> Result<(), AllocError>
        requires round { IsRoundOf self.old.walker round.now.mode round.now }
        requires place { place < vec_len round.now.items }
        requires room { vec_len self.old.places < KEPT_WALKS }
        requires kept { AreKept round.now self.old }
        ensures walker { self.new.walker ≡ self.old.walker }
        ensures kept { OnOk result (AreKept round.now self.new) }
    {
        let item = &round.items[place];
        self.walker
            .walk_into(alloc, &mut self.found, item, round.mode, round.quota)?;
        self.places.push(place)?;
        Ok(())
    }

    /// Walks the item with this index in a round, and keeps the walk, to be settled later. Answers
    /// whether the walks that the worker keeps found a bad schedule. Fails where memory runs out.
    /// The worker keeps no walk then.
    pub fn walk(&mut self, alloc: Global, round: &Round, place: usize) -> Result<bool, AllocError>
        requires round { IsRoundOf self.old.walker round.now.mode round.now }
        requires place { place < vec_len round.now.items }
        requires room { vec_len self.old.places < KEPT_WALKS }
        requires kept { AreKept round.now self.old }
        ensures walker { self.new.walker ≡ self.old.walker }
        ensures kept { AreKept round.now self.new }
    {
        if let Err(error) = self.walk_item(alloc, round, place) {
            self.clear(round.lists);
            return Err(error);
        }
        Ok(self.found.part.first_bad().is_some())
    }
}
