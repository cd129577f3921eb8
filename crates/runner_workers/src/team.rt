//! The book and the workers of a search, between the stretches of rounds that they walk.

ghost use Rattle.std.specs.Prelude.{◌≡◌, ◌<◌, ◌≤◌, true, false, IfOk, IfErr, IfSome};
ghost use Rattle.runner_workers.specs.declared.limits.TheConstants.{WORKERS};
ghost use Rattle.runner_report.specs.declared.error.ExploreError.TheVariants.{OutOfMemory};
ghost use Rattle.runner_workers.specs.declared.exit.Exit.TheVariants.{Stopped};
ghost use Rattle.runner_rounds.specs.Rounds.{IsOf};
ghost use Rattle.runner_workers.specs.Teams.{IsTeam};

use crate::exit::Exit;
use crate::gate::{Answer, Gate};
use crate::own_rounds::run_own_rounds;
use crate::stretch::Stretch;
use board::Board;
use book::books::Book;
use book::errors::SettleError;
use book::limits::ROUND;
use runner_report::{ExploreError, Options};
use runner_rounds::Worker;
use std::alloc::{AllocError, Global};
use std::marker::Brand;
use std::sync::{Arc, Wait};
use std::thread::Threads;
use walk::walker::walk;

/// A search's book and its workers: what is kept from one stretch of rounds to the next.
#[derive(Drop)]
pub struct Team {
    /// The book of the search.
    pub book: Book,
    pub(crate) workers: Vec<Worker>,
}

// Walks the items of a book's next round in order, in this thread, each up to `quota` schedules,
// and settles each walk before the next. The gate is asked and told as if worker 0 walked them.
// Answers `Stopped` where it stopped the worker, and leaves the other items open, else `Finished`.
fn walk_and_settle_in_order<G: Gate>(
    alloc: Global,
    gate: &G,
    book: &mut Book,
    quota: u32,
) -> Result<Exit, AllocError>
    requires quota { 1 ≤ quota }
    ensures book { let b = book.old in
        IsOf book.new b.of b.mode b.quick b.lists }
    ensures stopped { IfOk result (λ e. e ≡ Stopped → G.stops gate.now ≡ true) }
{
    let items = book.round(alloc)?;
    for k in 0..items.len() {
        if gate.before(0, k as u64) == Answer::Stop {
            return Ok(Exit::Stopped);
        }
        let walked = walk(alloc, &items[k], book.mode(), quota)?;
        gate.walked(0, k as u64);
        if let Err(SettleError::OutOfMemory) = book.settle(alloc, walked) {
            return Err(AllocError);
        }
    }
    Ok(Exit::Finished)
}

// How many items have to be open for each worker to have rounds of its own: a full round for each.
// `None` where workers have to share rounds: the gate may stop them, the book dropped items, or a
// quick search found a bad schedule; also where the number is too great for a `usize`.
fn own_rounds_threshold<G: Gate>(gate: &G, book: &Book, workers: usize) -> Option<usize>
    ensures open { IfSome result (λ _. G.stops gate.now ≡ false) }
    ensures all { IfSome result (λ _. book.now.dropped ≡ false) }
{
    let has_found = book.is_quick() && book.finished().first_bad().is_some();
    if gate.may_stop() || book.has_dropped() || has_found {
        return None;
    }
    workers.checked_mul(ROUND)
}

impl Team {
    /// A team of a book and `count` workers, which are numbered from 0.
    pub fn new(alloc: Global, book: Book, count: u32) -> Result<Team, AllocError>
        requires { (0 < count) × (count ≤ WORKERS) }
        ensures book { IfOk result (λ t. t.book ≡ book) }
        ensures team { IfOk result (IsTeam book.of.program) }
    {
        let mut workers = Vec::new(alloc);
        for number in 0..count {
            let program = Arc::try_clone(book.program())?;
            workers.push(Worker::new(alloc, program, number)?)?;
        }
        Ok(Team { book, workers })
    }

    /// Walks one round of the book's open items or more, and settles the walks in the book. Ends
    /// after a round where no item is open any more, the limit is reached, the gate stopped a
    /// worker, or a quick search found a bad schedule: then the caller decides how the search goes
    /// on. Ends also where workers shared a round and may now have rounds of their own.
    ///
    /// Workers have rounds of their own, of items that the book lends to each, where the gate may
    /// not stop, enough items are open for a full round for each, and a quick search has neither
    /// found a bad schedule nor dropped an item. Else they share each round. Where there is no
    /// memory for the board that sharing takes, one round is walked in this thread alone.
    ///
    /// # Errors
    ///
    /// `OutOfMemory` where memory runs out.
    pub fn walk_and_settle_rounds<G: Gate, R: Threads + Wait + Sync>(
        mut self,
        rt: &R,
        alloc: Global,
        gate: &G,
        options: Options,
    ) -> Result<(Team, Exit), ExploreError>
        requires quota { 1 ≤ options.quota }
        requires team { IsTeam self.book.of.program self }
        ensures book { let b = self.book in
            IfOk result (λ r. IsOf r.0.book b.of b.mode b.quick b.lists) }
        ensures team { IfOk result (λ r. IsTeam self.book.of.program r.0) }
        ensures stopped { IfOk result (λ r. r.1 ≡ Stopped → G.stops gate.now ≡ true) }
        ensures error { IfErr result (λ e. e ≡ OutOfMemory) }
    {
        let own_from = match own_rounds_threshold(gate, &self.book, self.workers.len()) {
            Some(from) if self.book.open_len() >= from => {
                let team = run_own_rounds::<Brand, G, R>(self, rt, alloc, gate, options)?;
                return Ok((team, Exit::Finished));
            }
            Some(from) => from,
            None => usize::MAX,
        };
        let Ok((board, seats)) = Board::new(alloc, u32::MAX, self.workers.len() as u32) else {
            let exit = walk_and_settle_in_order(alloc, gate, &mut self.book, options.quota)?;
            return Ok((self, exit));
        };
        let stretch = Stretch::new(alloc, self, board, seats)?;
        Ok(stretch.run::<Brand, G, R>(rt, alloc, gate, options, own_from)?)
    }
}
