//! Workers that share rounds, each in a thread of its own.

ghost use Rattle.std.specs.Prelude.{◌≡◌, ◌<◌, ◌↔◌, ℕ, [], true, false, vec_len, Some, None, OnOk, IfSome, IfNone, IsTrue};
ghost use Rattle.std.specs.List.{All, Any};
ghost use Rattle.runner_rounds.specs.{Rounds.{IsRoundOf, AreKept, rank}, declared.limits.TheConstants.KEPT_WALKS};
ghost use Rattle.runner_workers.specs.declared.exit.Exit.TheVariants.{Finished, Stopped, OutOfMemory};
ghost use Rattle.board.specs.Claims.{Draws, IsAnswered, marked, with_told};
ghost use Rattle.runner_workers.specs.inner.Rounds.{IsOn};

use crate::desk::Desk;
use crate::exit::Exit;
use crate::gate::{Answer, Gate};
use crate::limits::WORKERS;
use crate::monitor::Monitor;
use board::{Board, Seat};
use runner_rounds::{Round, SearchBrand, Worker};
use std::alloc::{AllocError, Global};
use std::sync::Wait;
use std::thread::Threads;
use std::{mem, thread};
use walk_items::item::Item;

/// What workers that share rounds have: the gate, the board to draw items' numbers from, the desk.
#[derive(Drop)]
pub(crate) struct Shared<'a, N: SearchBrand, G> {
    pub alloc: Global,
    pub gate: &'a G,
    pub board: Board,
    pub monitor: Monitor<Desk<N>>,
}

/// A worker that shares the rounds of a stretch with others, and its seat at the board.
#[derive(Drop)]
pub(crate) struct SeatedWorker {
    pub seat: Seat,
    /// The number that the worker drew last, if it is of an item of a later round.
    pub ahead: Option<u64>,
    /// How many items of the round the worker drew that the desk doesn't count as done yet.
    pub drawn: usize,
    pub exit: Exit,
    pub worker: Worker,
}

impl SeatedWorker {
    // Draws the number of the worker's next item: the one that it drew last, if that was of a later
    // round, else one from the board. `None` where none is left.
    fn draw_number(&mut self, board: &Board) -> Option<u64>
        requires { self.old.seat.board ≡ board.now.id }
        ensures ahead { IfSome self.old.ahead (λ k. (result ≡ Some k)
            × (self.new.seat ≡ self.old.seat)) }
        ensures drawn { self.old.ahead ≡ None →
            IfSome result (λ k. Draws self.old.seat k self.new.seat) }
        ensures all { self.old.ahead ≡ None → IfNone result (self.new.seat ≡ marked self.old.seat) }
        ensures none { self.new.ahead ≡ None }
        ensures board { self.new.seat.board ≡ self.old.seat.board }
        ensures worker { self.new.worker ≡ self.old.worker }
    {
        match self.ahead.take() {
            Some(number) => Some(number),
            None => board.claim(&mut self.seat),
        }
    }

    // Whether the search is quick and leaves an item open, since an item of the round that comes
    // before it is told on the board to have a bad schedule.
    fn leaves_out(&mut self, board: &Board, round: &Round, item: &Item) -> bool
        requires { self.old.seat.board ≡ board.now.id }
        ensures whole { round.now.quick ≡ false → result ≡ false }
        ensures quick { round.now.quick ≡ true → (least : ℕ)
            × IsAnswered self.old.seat least self.new.seat
            × (IsTrue result ↔ least < rank round.now.items.items item.now) }
        ensures board { self.new.seat.board ≡ self.old.seat.board }
        ensures worker { self.new.worker ≡ self.old.worker }
    {
        if !round.quick {
            return false;
        }
        let least = board.least(&mut self.seat);
        round.leaves_out(item, least)
    }

    // Tells the other workers, on the board, the rank of an item of a round with a bad schedule.
    fn tell_bad_item(&mut self, board: &Board, round: &Round, item: &Item)
        requires { self.old.seat.board ≡ board.now.id }
        ensures told { self.new ≡ record self.old {
          seat = with_told self.old.seat (rank round.now.items.items item.now);
        } }
    {
        board.tell(&mut self.seat, round.rank_of(item));
    }

    // Lets the worker walk one round after another, and settle the walks, until the stretch is over
    // or the board has no number left (`Finished`), the gate stops the worker or memory runs out.
    fn work<N: SearchBrand, G: Gate, R: Wait>(&mut self, rt: &R, shared: &Shared<N, G>) -> Exit
        requires { IsOn shared.now.board.id N.of.program self.old }
        ensures on { IsOn shared.now.board.id N.of.program self.new }
        ensures stopped { result ≡ Stopped → G.stops shared.now.gate.now ≡ true }
    {
        for _ in rt.forever() {
            let Some(round) = shared.monitor.lock(rt).round() else {
                return Exit::Finished;
            };
            if let Some(exit) = self.walk_and_settle_round(rt, shared, &round) {
                return exit;
            }
            shared.monitor.wait(rt, round.turn);
        }
        unreachable!()
    }

    // Lets the worker walk items of a round until all are drawn, and settle the walks. Answers how
    // the worker ended; `None` where it can walk the next round.
    fn walk_and_settle_round<N: SearchBrand, G: Gate, R: Wait>(
        &mut self,
        rt: &R,
        shared: &Shared<N, G>,
        round: &Round,
    ) -> Option<Exit>
        requires round { IsRoundOf N.of.program N.mode round.now }
        requires on { IsOn shared.now.board.id N.of.program self.old }
        ensures on { IsOn shared.now.board.id N.of.program self.new }
        ensures stopped { result ≡ Some Stopped → G.stops shared.now.gate.now ≡ true }
    {
        self.worker.clear(round.lists);
        let exit = self.draw_and_walk(rt, shared, round);
        if self.drawn == 0 {
            return exit;
        }
        match self.settle(rt, shared, round, exit.is_some()) {
            Ok(()) => exit,
            Err(AllocError) => Some(Exit::OutOfMemory),
        }
    }

    // Settles the walks of a round that the worker keeps, or gives them up where memory runs out.
    // If `ends` is set or memory ran out, the round is the stretch's last. If all its items are
    // done now, begins the next round, where one follows, and wakes the workers that wait for that.
    fn settle<N: SearchBrand, G: Gate, R: Wait>(
        &mut self,
        rt: &R,
        shared: &Shared<N, G>,
        round: &Round,
        ends: bool,
    ) -> Result<(), AllocError>
        requires round { IsRoundOf N.of.program N.mode round.now }
        requires on { IsOn shared.now.board.id N.of.program self.old }
        requires kept { AreKept round.now self.old.worker }
        ensures on { IsOn shared.now.board.id N.of.program self.new }
        ensures kept { AreKept round.now self.new.worker }
        ensures places { self.new.worker.places.items ≡ [] }
    {
        let drawn = mem::replace(&mut self.drawn, 0);
        let mut desk = shared.monitor.lock(rt);
        let settled = desk.book.settle(shared.alloc, &mut self.worker, round);
        if !desk.note_done(drawn, ends || settled.is_err()) {
            return settled;
        }
        let ended = desk.advance(shared.alloc, shared.gate);
        drop(desk);
        shared.monitor.notify_all(round.turn);
        settled?;
        ended
    }

    // Settles the walks that the worker keeps before all items are drawn, if it keeps as many as it
    // may, or the search is quick and the last walk, of `item`, found a bad schedule (`is_bad`). In
    // the latter case the round is the stretch's last, and others are told of `item` on the board.
    fn settle_if_due<N: SearchBrand, G: Gate, R: Wait>(
        &mut self,
        rt: &R,
        shared: &Shared<N, G>,
        round: &Round,
        item: &Item,
        is_bad: bool,
    ) -> Result<(), AllocError>
        requires round { IsRoundOf N.of.program N.mode round.now }
        requires on { IsOn shared.now.board.id N.of.program self.old }
        requires kept { AreKept round.now self.old.worker }
        ensures on { IsOn shared.now.board.id N.of.program self.new }
        ensures kept { AreKept round.now self.new.worker }
        ensures room { OnOk result (vec_len self.new.worker.places < KEPT_WALKS) }
    {
        let ends = round.quick && is_bad;
        if !ends && !self.worker.is_full() {
            return Ok(());
        }
        self.settle(rt, shared, round, ends)?;
        if ends {
            self.tell_bad_item(&shared.board, round, item);
        }
        Ok(())
    }

    // Lets the worker draw items of a round and walk them, until all are drawn. Settles walks where
    // that can't wait, and keeps the others. Items that a quick search leaves out stay open.
    // Answers how the worker ended; `None` where it can walk the next round.
    fn draw_and_walk<N: SearchBrand, G: Gate, R: Wait>(
        &mut self,
        rt: &R,
        shared: &Shared<N, G>,
        round: &Round,
    ) -> Option<Exit>
        requires round { IsRoundOf N.of.program N.mode round.now }
        requires on { IsOn shared.now.board.id N.of.program self.old }
        requires kept { AreKept round.now self.old.worker }
        requires none { self.old.worker.places.items ≡ [] }
        ensures on { IsOn shared.now.board.id N.of.program self.new }
        ensures kept { AreKept round.now self.new.worker }
        ensures stopped { result ≡ Some Stopped → G.stops shared.now.gate.now ≡ true }
    {
        for _ in rt.forever() {
            let Some(number) = self.draw_number(&shared.board) else {
                return Some(Exit::Finished);
            };
            let Some(place) = round.place_of(number) else {
                self.ahead = Some(number);
                return None;
            };
            self.drawn = self.drawn.saturating_add(1);
            let item = &round.items[place];
            if self.leaves_out(&shared.board, round, item) {
                continue;
            }
            if shared.gate.before(self.worker.number, place as u64) == Answer::Stop {
                return Some(Exit::Stopped);
            }
            let Ok(is_bad) = self.worker.walk(shared.alloc, round, place) else {
                return Some(Exit::OutOfMemory);
            };
            shared.gate.walked(self.worker.number, place as u64);
            let settled = self.settle_if_due(rt, shared, round, item, is_bad);
            if settled.is_err() {
                return Some(Exit::OutOfMemory);
            }
        }
        unreachable!()
    }
}

/// Runs all workers, each in a thread of its own: they walk rounds that they share, and settle the
/// walks. Those for which no thread can be made do so one after another.
pub(crate) fn run_workers<N: SearchBrand + Send + Sync, G: Gate, R: Threads + Wait + Sync>(
    rt: &R,
    shared: &Shared<N, G>,
    workers: &mut Vec<SeatedWorker>,
)
    requires { All (IsOn shared.now.board.id N.of.program) workers.old.items }
    ensures on { All (IsOn shared.now.board.id N.of.program) workers.new.items }
    ensures stopped { All (λ w. w.exit ≡ Stopped → G.stops shared.now.gate.now ≡ true)
        workers.new.items }
    ensures count { vec_len workers.new ≡ vec_len workers.old }
{
    let one = |_: usize, w: &mut SeatedWorker|
        requires { IsOn shared.now.board.id N.of.program w.old }
        ensures { IsOn shared.entry.now.board.id N.of.program w.new
            × (w.new.exit ≡ Stopped → G.stops shared.entry.now.gate.now ≡ true) }
    { w.exit = w.work(rt, shared) };
    thread::for_each_mut(rt, workers.as_mut_slice(), WORKERS as usize, &one);
}

/// How the workers ended, as one: out of memory where one of them was, else stopped where one was.
pub(crate) fn exit_of(workers: &[SeatedWorker]) -> Exit
    ensures stopped { result ≡ Stopped → Any (λ w. w.exit ≡ Stopped) workers.now }
    ensures memory { result ≡ OutOfMemory → Any (λ w. w.exit ≡ OutOfMemory) workers.now }
    ensures none { (result ≡ OutOfMemory → ⊥) → All (λ w. w.exit ≡ OutOfMemory → ⊥) workers.now }
    ensures drawn { result ≡ Finished → All (λ w. w.exit ≡ Finished) workers.now }
{
    if workers.iter().any(|w| w.exit == Exit::OutOfMemory) {
        Exit::OutOfMemory
    } else if workers.iter().any(|w| w.exit == Exit::Stopped) {
        Exit::Stopped
    } else {
        Exit::Finished
    }
}
