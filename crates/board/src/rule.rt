//! The rule that a board's words keep, and what each atomic step on them tells a seat.

ghost use Rattle.std.specs.Prelude.{[]};
ghost use Rattle.board.specs.inner.Rule.{IsBoard, account, Claimed, Told, Asked, Counted, Closed};
ghost use Rattle.board.specs.inner.Rule.{without_one, of_one_seat, both, empty};

use crate::account::{Account, Size};
use atomic_table::{Join, Play, Split, TableRule};

// The rule that the words of a board's table and the accounts of all seats keep together.
pub struct BoardRule;

impl TableRule<(), Account, Size> for BoardRule {
    ghost holds = { λ size s. IsBoard size.limit size.seats s.words s.views };

    ghost first = { λ size. account size.limit size.seats 0 [] [] [] };
}

// The atomic step of a seat that draws a number, or is marked where all are drawn.
pub struct Claiming;

impl Play<(), Account> for Claiming {
    ghost then = { λ _ before found after. Claimed before found after };
}

// The atomic step of a seat that tells a number.
pub struct Telling;

impl Play<(), Account> for Telling {
    ghost then = { λ st before _ after. Told st.first before after };
}

// The atomic step of a seat that asks for the least number told.
pub struct Asking;

impl Play<(), Account> for Asking {
    ghost then = { λ _ before found after. Asked before found after };
}

// The atomic step that reads how many numbers were drawn, when one account is of all seats.
pub struct ReadingCount;

impl Play<(), Account> for ReadingCount {
    ghost then = { λ _ before found after. Counted before found after };
}

// The atomic step that reads the least number told, when one account is of all seats.
pub struct ReadingLeast;

impl Play<(), Account> for ReadingLeast {
    ghost then = { λ _ before found _. Closed before.0 found };
}

// How the account of all seats is split into one for each, and how accounts are joined again.
pub struct Seating;

impl Split<Account> for Seating {
    ghost left = { without_one };

    ghost right = { of_one_seat };
}

impl Join<Account> for Seating {
    ghost both = { both };

    ghost spent = { empty };
}
