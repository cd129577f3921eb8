//! Boards drawn from by threads and by hand. Who draws which number is for the threads; what all
//! draw together is not.

ghost use Rattle.std.specs.Prelude.{◌≡◌, ◌<◌, vec_len};
ghost use Rattle.std.specs.List.{All};

use board::{Board, NONE_TOLD, Seat};
use std::alloc::{AllocError, Global};
use std::sync::atomic::{AtomicU64, Ordering};
use std::test::Fail;
use std::thread;
use std::thread::Threads;

// As many counters, all at 0.
fn counters(alloc: Global, count: usize) -> Result<Vec<AtomicU64>, AllocError> {
    let mut counters = Vec::new(alloc);
    for _ in 0..count {
        counters.push(AtomicU64::new(0))?;
    }
    Ok(counters)
}

// Draws numbers by a seat until none is left, and adds 1 to the counter of each.
fn draw(board: &Board, seat: &mut Seat, drawn: &[AtomicU64])
    requires { seat.old.board ≡ board.now.id }
    ensures { seat.new.board ≡ board.now.id }
{
    for _ in 0..u64::MAX {
        let Some(k) = board.claim(seat) else {
            break;
        };
        if let Some(counter) = drawn.get(k as usize) {
            let _ = counter.fetch_add(1, Ordering::SeqCst);
        }
    }
}

// Draws numbers by each seat, in a thread of its own, until none is left.
fn draw_in_threads<R: Threads + Sync>(
    rt: &R,
    board: &Board,
    seats: &mut Vec<Seat>,
    drawn: &[AtomicU64],
)
    requires { All (λ s. s.board ≡ board.now.id) seats.old.items }
    ensures all { All (λ s. s.board ≡ board.now.id) seats.new.items }
    ensures len { vec_len seats.new ≡ vec_len seats.old }
{
    thread::for_each_mut(
        rt,
        seats.as_mut_slice(),
        16,
        &|_, seat| draw(board, seat, drawn),
    );
}

// Four threads, each with a seat, draw each number from 0 to 999 once. None of them tells a number.
#[test]
fn four_threads_draw_each_number_once(rt: HostRuntime) -> Result<(), Fail> {
    let drawn = counters(rt.alloc(), 1000)?;
    let (board, mut seats) = Board::new(rt.alloc(), 1000, 4)?;
    draw_in_threads(&rt, &board, &mut seats, drawn.as_slice());
    let claims = board.gather(seats);
    assert_eq!(rt; (claims.count(), claims.least()), (1000, NONE_TOLD));
    for counter in &drawn {
        assert_eq!(rt; counter.load(Ordering::SeqCst), 1);
    }
    Ok(())
}

// Draws twice by the one seat of a board of `n` numbers. Answers both draws, and how many the board
// counts.
fn draw_twice(alloc: Global, n: u32) -> Result<(Option<u64>, Option<u64>, u64), AllocError> {
    let (board, mut seats) = Board::new(alloc, n, 1)?;
    let first = board.claim(&mut seats[0]);
    let second = board.claim(&mut seats[0]);
    Ok((first, second, board.gather(seats).count()))
}

// Of no numbers a seat draws none, and of five it draws 0 and then 1.
#[test]
fn a_seat_draws_twice(rt: HostRuntime) -> Result<(), Fail> {
    assert_eq!(rt; draw_twice(rt.alloc(), 0)?, (None, None, 0));
    assert_eq!(rt; draw_twice(rt.alloc(), 5)?, (Some(0), Some(1), 2));
    Ok(())
}

// Tells a board the number `k` by the seat with one index. Answers the least number told, as the
// board answers it to the seat with another.
fn tell_and_ask(board: &Board, seats: &mut Vec<Seat>, k: u64, by: usize, to: usize) -> u64
    requires seats { (by < vec_len seats.old) × (to < vec_len seats.old) }
    requires board { All (λ s. s.board ≡ board.now.id) seats.old.items }
    ensures all { All (λ s. s.board ≡ board.now.id) seats.new.items }
    ensures len { vec_len seats.new ≡ vec_len seats.old }
{
    board.tell(&mut seats[by], k);
    board.least(&mut seats[to])
}

// A board with two seats: seat 0 tells 3, then seat 1 tells 7. The other one is answered 3 both
// times.
#[test]
fn the_least_number_told_is_answered(rt: HostRuntime) -> Result<(), Fail> {
    let (board, mut seats) = Board::new(rt.alloc(), 5, 2)?;
    assert_eq!(rt; tell_and_ask(&board, &mut seats, 3, 0, 1), 3);
    assert_eq!(rt; tell_and_ask(&board, &mut seats, 7, 1, 0), 3);
    assert_eq!(rt; board.gather(seats).least(), 3);
    Ok(())
}
