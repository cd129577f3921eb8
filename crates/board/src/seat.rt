//! Seats of a board: the right of one thread to draw and to tell.

use crate::account::Account;
use std::marker::Model;

/// A seat of a board, by which a thread draws and tells. A contract sees its board, the numbers
/// that it drew, told and was answered, and its mark: it was answered that all are drawn.
#[derive(Drop)]
pub struct Seat {
    pub(crate) inner: atomic_table::Seat<(), Account>,
    pub(crate) marked: bool,
}

impl Model for Seat {
    ghost use Rattle.std.specs.Prelude.{◌≡◌, [], if◌then◌else◌};
    ghost use Rattle.board.specs.Board.{SeatView};

    ghost Value = { SeatView };

    ghost view = { λ s. record {
      board = record { table = s.inner.table_id; limit = s.inner.me.0.limit };
      drawn = s.inner.me.0.drawn;
      told = s.inner.me.0.told;
      answered = s.inner.me.0.answered;
      marked = s.marked;
    } };

    ghost invariant = { λ s. (s.inner.me.1 ≡ []) × (s.inner.me.0.seats ≡ 1)
        × (s.inner.me.0.marks ≡ (if s.marked then 1 else 0)) };
}
