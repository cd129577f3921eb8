//! What proofs say of a board's table of words: the accounts of seats, and the board's size.

use std::collections::LinkedList;

// What some seats of a board did together, for proofs alone: no account exists at run time. A seat
// has an account of its own; where a seat is joined to another, that one's account is of both.
pub struct Account {
    // the limit of the board's numbers
    pub limit: u64,
    // how many seats
    pub seats: u64,
    // how many of the seats were answered that all numbers are drawn
    pub marks: u64,
    // the numbers that the seats drew, told, and were answered as the least one told
    pub drawn: LinkedList<u64>,
    pub told: LinkedList<u64>,
    pub answered: LinkedList<u64>,
}

// The size of a board, which doesn't change once the board is made.
#[derive(Drop)]
pub struct Size {
    // the board's numbers are those below this limit
    pub limit: u64,
    // how many seats the board has
    pub seats: u64,
}
