//! Boards: numbers below a limit, each drawn by one seat at most, and the least number that was
//! told.

ghost use Rattle.std.specs.Prelude.{◌≡◌, ◌≤◌, true, vec_len, IfOk, IfSome, IfNone, ◌<◌};
ghost use Rattle.std.specs.List.{All};
ghost use Rattle.board.specs.Board.{new_seat};
ghost use Rattle.board.specs.Claims.{Draws, marked, with_told, IsAnswered, HasEachBelow};
ghost use Rattle.board.specs.Claims.{IsLeastTold, IsSomeTold, drawn_by, told_by, answered_to};

use crate::account::{Account, Size};
use crate::claims::Claims;
use crate::rule::{Asking, BoardRule, Claiming, ReadingCount, ReadingLeast, Seating, Telling};
use crate::seat::Seat;
use atomic_table::Table;
use std::alloc::{AllocError, Global};
use std::marker::Model;

/// The answer of [`Board::least`] where no number was told: no told number is greater.
pub const NONE_TOLD: u64 = u64::MAX;

// How many words a board's table has. Two are used; the 128 bytes before and after them are not, so
// that nothing else in memory shares a line of a cache with words that all threads write.
const WORDS: usize = 34;

// The index of the word that counts the calls to draw: how many numbers are drawn, and one more for
// each seat that was answered that none is left.
const DRAWN: usize = 16;

// The index of the word with the least number told.
const LEAST: usize = 17;

/// A board that threads share by a `&`: numbers to draw, as from a ticket dispenser, and the least
/// of the numbers told. A contract sees which board it is, its limit and how many seats it has.
#[derive(Drop)]
pub struct Board {
    table: Table<(), Account, Size, BoardRule, Global>,
    limit: u64,
    seats: u64,
}

impl Model for Board {
    ghost use Rattle.std.specs.Prelude.{◌≡◌, ◌<◌, ◌^◌};
    ghost use Rattle.board.specs.Board.{BoardView};
    ghost use Rattle.board.specs.declared.board.TheConstants.{WORDS};

    ghost Value = { BoardView };

    ghost view = { λ b. record {
      id = record { table = b.table.shared.table_id; limit = b.limit };
      seats = b.seats;
    } };

    ghost invariant = { λ b. (b.table.shared.table_id.words ≡ WORDS)
        × (b.table.shared.key.limit ≡ b.limit) × (b.table.shared.key.seats ≡ b.seats)
        × (b.limit < 2 ^ 32) × (b.seats < 2 ^ 32) × (0 < b.seats) };
}

impl Board {
    /// A board of the numbers below `n`, none drawn yet, and all its seats: `seats`, at least one.
    /// Fails where memory runs out.
    pub fn new(alloc: Global, n: u32, seats: u32) -> Result<(Board, Vec<Seat>), AllocError>
        requires { 0 < seats }
        ensures limit { IfOk result (λ made. made.0.id.limit ≡ n) }
        ensures seats { IfOk result (λ made. made.0.seats ≡ seats) }
        ensures count { IfOk result (λ made. vec_len made.1 ≡ seats) }
        ensures fresh { IfOk result (λ made. All (λ s. s ≡ new_seat made.0.id) made.1.items) }
    {
        let limit = u64::from(n);
        let count = u64::from(seats);
        let size = Size {
            limit,
            seats: count,
        };
        let mut words = [0; WORDS];
        words[LEAST] = NONE_TOLD;
        let (table, mut root) = Table::of_words(alloc, &words, &size)?;
        let mut all = Vec::new(alloc);
        for _ in 0..count {
            let inner = table.shared.split_seat::<Seating>(&mut root);
            all.push(Seat {
                inner,
                marked: false,
            })?;
        }
        let board = Board {
            table,
            limit,
            seats: count,
        };
        Ok((board, all))
    }

    /// Draws a number for a seat: the least one that no seat drew. `None` where all are drawn. The
    /// seat is marked then: it is answered `None` from then on without a look at the board, so that
    /// it adds to the count past the limit only once.
    pub fn claim(&self, seat: &mut Seat) -> Option<u64>
        requires { seat.old.board ≡ self.now.id }
        ensures some { IfSome result (λ k. Draws seat.old k seat.new) }
        ensures none { IfNone result (seat.new ≡ marked seat.old) }
    {
        if seat.marked {
            return None;
        }
        let found = self
            .table
            .shared
            .fetch_add::<Claiming>(&mut seat.inner, DRAWN, 1);
        if found < self.limit {
            Some(found)
        } else {
            seat.marked = true;
            None
        }
    }

    /// Tells the number `k` to all seats: [`Board::least`] answers the least number told.
    pub fn tell(&self, seat: &mut Seat, k: u64)
        requires { seat.old.board ≡ self.now.id }
        ensures { seat.new ≡ with_told seat.old k }
    {
        self.table
            .shared
            .fetch_min::<Telling>(&mut seat.inner, LEAST, k);
    }

    /// The least number that any seat has told so far; [`NONE_TOLD`] where none was told.
    pub fn least(&self, seat: &mut Seat) -> u64
        requires { seat.old.board ≡ self.now.id }
        ensures { IsAnswered seat.old result seat.new }
    {
        self.table.shared.load::<Asking>(&mut seat.inner, LEAST)
    }

    /// Ends a board, and takes all its seats: answers how many numbers were drawn, and the least
    /// number told. The count in the table may be past the limit: each marked seat added one.
    pub fn gather(self, mut seats: Vec<Seat>) -> Claims
        requires board { All (λ s. s.board ≡ self.id) seats.items }
        requires all { vec_len seats ≡ self.seats }
        ensures drawn { HasEachBelow result.count (drawn_by seats.items) }
        ensures within { result.count ≤ self.id.limit }
        ensures full { All (λ s. s.marked ≡ true → result.count ≡ self.id.limit) seats.items }
        ensures least { IsLeastTold result.least (told_by seats.items) }
        ensures answered { All (IsSomeTold result.least (told_by seats.items))
            (answered_to seats.items) }
    {
        let limit = self.limit;
        let shared = &self.table.shared;
        let Some(last) = seats.pop() else {
            unreachable!()
        };
        let Seat {
            inner: mut first,
            ..
        } = last;
        while let Some(seat) = seats.pop() {
            let Seat { inner, .. } = seat;
            shared.join_seat::<Seating>(&mut first, inner);
        }
        let found = shared.load::<ReadingCount>(&mut first, DRAWN);
        let least = shared.load::<ReadingLeast>(&mut first, LEAST);
        Claims {
            count: found.min(limit),
            least,
        }
    }
}
