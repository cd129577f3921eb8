//! Stretches of rounds, for each of which workers' threads are made once.

ghost use Rattle.std.specs.Prelude.{◌≡◌, ◌≤◌, true, vec_len, IfOk};
ghost use Rattle.std.specs.List.{All};
ghost use Rattle.runner_workers.specs.declared.exit.Exit.TheVariants.{Stopped};
ghost use Rattle.runner_rounds.specs.Rounds.{IsOf};
ghost use Rattle.runner_workers.specs.Teams.{IsTeam};
ghost use Rattle.runner_workers.specs.inner.Rounds.{IsOn, IsStretch};

use crate::desk::Desk;
use crate::exit::Exit;
use crate::gate::Gate;
use crate::monitor::Monitor;
use crate::seated_worker::{SeatedWorker, Shared, exit_of, run_workers};
use crate::team::Team;
use board::{Board, Seat};
use book::books::Book;
use guest_code::program::Program;
use runner_report::Options;
use runner_rounds::{SearchBrand, Worker};
use std::alloc::{AllocError, Global};
use std::sync::{Arc, Wait};
use std::thread::Threads;

/// A stretch of rounds: the book, a board of its items' numbers, and a worker for each seat.
#[derive(Drop)]
pub(crate) struct Stretch {
    pub book: Book,
    pub board: Board,
    pub seated: Vec<SeatedWorker>,
}

// Gives each of a program's workers a seat at a board. There are as many seats as workers.
fn assign_seats(
    alloc: Global,
    board: &Board,
    program: &Program,
    seats: Vec<Seat>,
    mut workers: Vec<Worker>,
) -> Result<Vec<SeatedWorker>, AllocError>
    requires count { vec_len workers ≡ vec_len seats }
    requires seats { All (λ s. s.board ≡ board.now.id) seats.items }
    requires workers { All (λ b. b.walker ≡ program.now) workers.items }
    ensures seated { IfOk result (λ v. All (IsOn board.now.id program.now) v.items) }
    ensures count { IfOk result (λ v. vec_len v ≡ vec_len seats) }
{
    let mut seated = Vec::new(alloc);
    for seat in seats {
        let Some(worker) = workers.pop() else {
            unreachable!()
        };
        seated.push(SeatedWorker {
            seat,
            worker,
            ahead: None,
            drawn: 0,
            exit: Exit::Finished,
        })?;
    }
    Ok(seated)
}

// Takes workers from their seats. Answers the seats, which the board gathers in the end, and the
// workers.
fn unseat_workers<N: SearchBrand>(
    alloc: Global,
    board: &Board,
    seated: Vec<SeatedWorker>,
) -> Result<(Vec<Seat>, Vec<Worker>), AllocError>
    requires { All (IsOn board.now.id N.of.program) seated.items }
    ensures seats { IfOk result (λ r. All (λ s. s.board ≡ board.now.id) r.0.items) }
    ensures count { IfOk result (λ r. vec_len r.0 ≡ vec_len seated) }
    ensures workers { IfOk result (λ r. All (λ b. b.walker ≡ N.of.program) r.1.items) }
    ensures kept { IfOk result (λ r. vec_len r.1 ≡ vec_len seated) }
{
    let mut seats = Vec::new(alloc);
    let mut workers = Vec::new(alloc);
    for one in seated {
        let SeatedWorker { seat, worker, .. } = one;
        seats.push(seat)?;
        workers.push(worker)?;
    }
    Ok((seats, workers))
}

impl Stretch {
    /// A stretch of rounds of a team, whose workers are given these seats of a board.
    pub fn new(
        alloc: Global,
        team: Team,
        board: Board,
        seats: Vec<Seat>,
    ) -> Result<Stretch, AllocError>
        requires team { IsTeam team.book.of.program team }
        requires seats { All (λ s. s.board ≡ board.id) seats.items }
        requires count { vec_len seats ≡ board.seats }
        requires workers { vec_len team.workers ≡ vec_len seats }
        ensures book { IfOk result (λ s. s.book ≡ team.book) }
        ensures stretch { IfOk result (λ s. IsStretch s.book.of.program s) }
    {
        let Team { book, workers } = team;
        let program = Arc::try_clone(book.program())?;
        let seated = assign_seats(alloc, &board, &program, seats, workers)?;
        Ok(Stretch {
            book,
            board,
            seated,
        })
    }

    /// Runs the workers, each in a thread of its own, on rounds of the book's open items that they
    /// share: they walk the items, and settle the walks in the book. They go on from round to round
    /// until no item or at least `own_from` are open, the limit of `options` on schedules tried is
    /// reached, the gate stops a worker, or a quick search finds a bad schedule. Answers the team,
    /// and how its workers ended.
    pub fn run<N: SearchBrand + Send + Sync, G: Gate, R: Threads + Wait + Sync>(
        self,
        rt: &R,
        alloc: Global,
        gate: &G,
        options: Options,
        own_from: usize,
    ) -> Result<(Team, Exit), AllocError>
        requires quota { 1 ≤ options.quota }
        requires stretch { IsStretch N.of.program self }
        requires book { IsOf self.book N.of N.mode N.quick N.lists }
        ensures book { IfOk result (λ r. IsOf r.0.book N.of N.mode N.quick N.lists) }
        ensures team { IfOk result (λ r. IsTeam N.of.program r.0) }
        ensures stopped { IfOk result (λ r. r.1 ≡ Stopped → G.stops gate.now ≡ true) }
    {
        let Stretch {
            book,
            board,
            mut seated,
        } = self;
        let desk = Desk::<N>::new(alloc, book, options, own_from)?;
        let shared = Shared {
            alloc,
            gate,
            board,
            monitor: Monitor::new(desk),
        };
        run_workers(rt, &shared, &mut seated);
        let exit = exit_of(seated.as_slice());
        let Shared { board, monitor, .. } = shared;
        let (seats, workers) = unseat_workers::<N>(alloc, &board, seated)?;
        // A board ends with its seats gathered; what they counted isn't needed.
        let _claims = board.gather(seats);
        let book = monitor.mutex.into_inner().into_book();
        Ok((Team { book, workers }, exit))
    }
}
