//! A board of numbers that threads share without a lock: each number is drawn by one seat.
//!
//! - [`Board::claim`] answers the least number that no seat drew, or that all are drawn. A draw is
//!   one atomic addition; no call waits or takes memory.
//! - [`Board::tell`] and [`Board::least`] pass on the least of the numbers that seats told: a hint.
//! - [`Board::gather`] ends a board: the seats together drew the numbers below a count, each once,
//!   and all of them where a seat was answered that all are drawn.
//!
//! Each thread has a seat, by which it draws and tells, so contracts say what each seat was
//! answered whatever the schedule of the threads. Which seat draws which number is not said.
#![tactic(auto)]

mod account;
mod board;
mod claims;
pub mod laws;
mod rule;
mod seat;

pub use crate::board::{Board, NONE_TOLD};
pub use crate::claims::Claims;
pub use crate::seat::Seat;
