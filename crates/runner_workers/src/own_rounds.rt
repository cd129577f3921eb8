//! A stretch of rounds that workers don't share: each round is one worker's own.

ghost use Rattle.std.specs.Prelude.{◌≡◌, ◌≤◌, false, IfOk, OnOk, length, vec_len};
ghost use Rattle.std.specs.{Arc.arc_value, List.All};
ghost use Rattle.walk_items.specs.Items.{AreOf};
ghost use Rattle.book.specs.{Books.{HaveFound, places_from}, ItemLists.all_of};
ghost use Rattle.runner_rounds.specs.Rounds.{IsOf};
ghost use Rattle.runner_workers.specs.{Teams.IsTeam, declared.lender.Task.TheVariants.Walk};
ghost use Rattle.runner_workers.specs.inner.Loans.{IsLent};

use crate::gate::{Answer, Gate};
use crate::lender::{Lender, Task};
use crate::limits::WORKERS;
use crate::monitor::Monitor;
use crate::team::Team;
use book::loan::Loan;
use guest_code::program::Program;
use runner_report::Options;
use runner_rounds::{SearchBrand, Worker};
use std::alloc::{AllocError, Global};
use std::sync::{Arc, Wait};
use std::thread;
use std::thread::Threads;
use walk_items::item::Item;
use walk_items::mode::Mode;

/// What workers with rounds of their own share: how to walk, a gate that never stops, the lender.
#[derive(Drop)]
pub(crate) struct Lending<'a, N: SearchBrand, G: Gate> {
    pub alloc: Global,
    pub program: Arc<Program>,
    pub mode: Mode,
    pub lists: bool,
    pub quota: u32,
    pub gate: &'a G,
    pub monitor: Monitor<Lender<N>>,
    ghost of: { (arc_value program ≡ N.of.program) × (mode ≡ N.mode) × (1 ≤ quota) },
    ghost open: { G.stops gate.now ≡ false },
}

impl<N: SearchBrand, G: Gate> Lending<'_, N, G> {
    // Makes a worker anew in its own thread, so that what it writes to doesn't lie beside what
    // another worker writes to. Where memory is refused, it stays as it is.
    fn renew(&self, worker: &mut Worker)
        requires { worker.old.walker ≡ N.of.program }
        ensures { worker.new.walker ≡ N.of.program }
    {
        let Ok(program) = Arc::try_clone(&self.program) else {
            return;
        };
        if let Ok(made) = Worker::new(self.alloc, program, worker.number) {
            *worker = made;
        }
    }

    // Walks the items that a worker was lent, in the loan's order. `worker.found` then has what the
    // walks found, and `items` copies of the items. The gate never stops a worker here.
    fn walk_loan(
        &self,
        worker: &mut Worker,
        loan: &Loan,
        items: &mut Vec<Item>,
    ) -> Result<(), AllocError>
        requires walker { worker.old.walker ≡ N.of.program }
        requires lent { IsLent N.of.program loan.now }
        requires items { AreOf N.of.program items.old.items }
        ensures walker { worker.new.walker ≡ N.of.program }
        ensures items { AreOf N.of.program items.new.items }
        ensures walked { let items = all_of N.of.program loan.now in OnOk result
            (HaveFound N.of.program N.mode items (places_from 0 (length items)) worker.new.found) }
    {
        worker.walker.clear(&mut worker.found, self.lists);
        loan.clone_items_into(self.alloc, &self.program, items)?;
        for place in 0..items.len() {
            if self.gate.before(worker.number, place as u64) == Answer::Stop {
                unreachable!()
            }
            let (item, found) = (&items[place], &mut worker.found);
            worker
                .walker
                .walk_into(self.alloc, found, item, self.mode, self.quota)?;
            self.gate.walked(worker.number, place as u64);
        }
        Ok(())
    }

    // Lets a worker walk the items that it was lent. Then it takes the lock, settles the walks, or
    // gives them up where memory ran out, and is lent more. If others wait and have to look again,
    // it wakes them. Answers what the worker does next.
    fn walk_and_settle_round<R: Wait>(
        &self,
        rt: &R,
        worker: &mut Worker,
        loan: &mut Loan,
        items: &mut Vec<Item>,
    ) -> Task
        requires walker { worker.old.walker ≡ N.of.program }
        requires lent { IsLent N.of.program loan.old }
        requires items { AreOf N.of.program items.old.items }
        ensures walker { worker.new.walker ≡ N.of.program }
        ensures items { AreOf N.of.program items.new.items }
        ensures lent { result ≡ Walk → IsLent N.of.program loan.new }
    {
        let walked = self.walk_loan(worker, loan, items);
        let mut lender = self.monitor.lock(rt);
        match walked {
            Ok(()) => lender.settle(self.alloc, worker, loan, self.gate),
            Err(AllocError) => lender.give_up(),
        }
        let next = lender.lend(self.alloc, worker.number, loan);
        let ended = lender.end_turn_if_due();
        drop(lender);
        if let Some(turn) = ended {
            self.monitor.notify_all(turn);
        }
        next
    }

    // Lets a worker walk rounds of its own, and settle the walks, until nothing more is lent.
    fn work<R: Wait>(&self, rt: &R, worker: &mut Worker)
        requires { worker.old.walker ≡ N.of.program }
        ensures { worker.new.walker ≡ N.of.program }
    {
        self.renew(worker);
        let mut loan = Loan::new(self.alloc);
        let mut items = Vec::new(self.alloc);
        // Turn 0 has ended from the start: the worker is lent its first items at once.
        let mut next = Task::Wait(0);
        for _ in rt.forever() {
            next = match next {
                Task::Walk => self.walk_and_settle_round(rt, worker, &mut loan, &mut items),
                Task::Wait(turn) => {
                    self.monitor.wait(rt, turn);
                    let mut lender = self.monitor.lock(rt);
                    lender.lend(self.alloc, worker.number, &mut loan)
                }
                Task::Quit => return,
            };
        }
        unreachable!()
    }
}

// Runs all workers, each in a thread of its own: they walk rounds that they don't share, and settle
// the walks. Those for which no thread can be made do so one after another.
fn run_workers<N: SearchBrand + Send + Sync, G: Gate, R: Threads + Wait + Sync>(
    rt: &R,
    lending: &Lending<N, G>,
    workers: &mut Vec<Worker>,
)
    requires { All (λ b. b.walker ≡ N.of.program) workers.old.items }
    ensures walkers { All (λ b. b.walker ≡ N.of.program) workers.new.items }
    ensures count { vec_len workers.new ≡ vec_len workers.old }
{
    let one = |_: usize, w: &mut Worker|
        requires { w.old.walker ≡ N.of.program }
        ensures { w.new.walker ≡ N.of.program }
    { lending.work(rt, w) };
    thread::for_each_mut(rt, workers.as_mut_slice(), WORKERS as usize, &one);
}

/// Lets each of a team's workers walk rounds of its own, of items that the book lends to it, and
/// settle the walks, until nothing more is lent. Answers the team. Fails where memory runs out.
pub(crate) fn run_own_rounds<N: SearchBrand + Send + Sync, G: Gate, R: Threads + Wait + Sync>(
    team: Team,
    rt: &R,
    alloc: Global,
    gate: &G,
    options: Options,
) -> Result<Team, AllocError>
    requires quota { 1 ≤ options.quota }
    requires team { IsTeam N.of.program team }
    requires book { IsOf team.book N.of N.mode N.quick N.lists }
    requires all { team.book.dropped ≡ false }
    requires open { G.stops gate.now ≡ false }
    ensures book { IfOk result (λ t. IsOf t.book N.of N.mode N.quick N.lists) }
    ensures team { IfOk result (IsTeam N.of.program) }
{
    let Team { book, mut workers } = team;
    let lending = Lending {
        alloc,
        program: Arc::try_clone(book.program())?,
        mode: book.mode(),
        lists: book.lists_deferred(),
        quota: options.quota,
        gate,
        monitor: Monitor::new(Lender::<N>::new(alloc, book, workers.len(), options.limit)?),
    };
    run_workers(rt, &lending, &mut workers);
    let Lending { monitor, .. } = lending;
    let book = monitor.mutex.into_inner().into_book(alloc)?;
    Ok(Team { book, workers })
}
