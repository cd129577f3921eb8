//! A search by hand, with items, walks, a book and a board, made again where memory is refused.

use board::Board;
use book::books::Book;
use book::errors::SettleError;
use guest_code::program::Program;
use std::alloc::{AllocError, Global};
use std::sync::Arc;
use walk::walked::Walked;
use walk::walker::walk;
use walk_items::item::Item;
use walk_items::mode::Mode;
use walk_summary::Summary;

/// More walks than a search by hand makes.
const MOST_WALKS: usize = 10_000;

/// What the calls answered: how many walks were settled after the root's, how many schedules were
/// tried, how many the summary joined with itself has, and how many end views; the steps of the
/// schedule's item (`copied`) and of the next bound's first round (`next`); a board's seats.
#[derive(Clone, Copy)]
pub struct BookFacts {
    pub settled: u64,
    pub tried: u64,
    pub joined: u64,
    pub ends: usize,
    pub copied: usize,
    pub next: usize,
    pub seats: usize,
}

/// What is seen of a book: what it finished, and copies of its open items and its deferred ones.
#[derive(Drop)]
struct BookSnapshot {
    tried: u64,
    ends: usize,
    is_beyond: bool,
    is_closed: bool,
    open: Vec<Item>,
    deferred: Vec<Item>,
}

// Whether two lists have equal items in the same order.
fn are_equal_items(first: &[Item], second: &[Item]) -> bool {
    first.len() == second.len() && first.iter().zip(second).all(|(a, b)| a.equals(b))
}

impl BookSnapshot {
    // A snapshot of a book of this program.
    fn of(alloc: Global, book: &Book, program: &Program) -> Result<BookSnapshot, AllocError> {
        Ok(BookSnapshot {
            tried: book.finished().tried(),
            ends: book.finished().ends().len(),
            is_beyond: book.finished().beyond(),
            is_closed: book.closed(program, book.mode()).is_some(),
            open: open_items(alloc, book)?,
            deferred: deferred_items(alloc, book)?,
        })
    }

    // Whether two snapshots of a book are equal, so that nothing that they show has changed.
    fn is_equal(&self, other: &BookSnapshot) -> bool {
        self.tried == other.tried
            && self.ends == other.ends
            && self.is_beyond == other.is_beyond
            && self.is_closed == other.is_closed
            && are_equal_items(self.open.as_slice(), other.open.as_slice())
            && are_equal_items(self.deferred.as_slice(), other.deferred.as_slice())
    }
}

// How many steps the prefixes of these items have together.
fn count_steps(items: &[Item]) -> usize {
    let mut sum = 0usize;
    for item in items {
        sum = sum.saturating_add(item.prefix().len());
    }
    sum
}

// Copies of the open items of a book.
fn open_items(alloc: Global, book: &Book) -> Result<Vec<Item>, AllocError> {
    let mut items = Vec::new(alloc);
    for place in 0..book.open_len() {
        items.push(book.open_item(alloc, place)?)?;
    }
    Ok(items)
}

// Copies of the items of a book that wait for the next bound.
fn deferred_items(alloc: Global, book: &Book) -> Result<Vec<Item>, AllocError> {
    let mut items = Vec::new(alloc);
    for place in 0..book.deferred_len() {
        items.push(book.deferred_item(alloc, place)?)?;
    }
    Ok(items)
}

// A snapshot of a book, made once more if memory is refused; `None` if it is refused again.
fn snapshot_of(alloc: Global, book: &Book, program: &Program) -> Option<BookSnapshot> {
    again!(BookSnapshot::of(alloc, book, program).ok())
}

// A walk of an item that tries one schedule, made once more if it fails; `None` if it fails again.
fn walk_one(alloc: Global, item: &Item, mode: Mode) -> Option<Walked> {
    again!(walk(alloc, item, mode, 1).ok())
}

// Walks an item and settles the walk, once more where memory to settle it is refused and the book
// is unchanged. `None` where the book is changed, or a call fails for another reason or twice.
fn walk_and_settle(alloc: Global, book: &mut Book, program: &Program, item: &Item) -> Option<()> {
    let before = snapshot_of(alloc, book, program)?;
    match book.settle(alloc, walk_one(alloc, item, book.mode())?) {
        Ok(()) => Some(()),
        Err(SettleError::OutOfMemory) => {
            if !snapshot_of(alloc, book, program)?.is_equal(&before) {
                return None;
            }
            book.settle(alloc, walk_one(alloc, item, book.mode())?).ok()
        }
        Err(_) => None,
    }
}

// Joins a summary with itself and copies the result: how many schedules the copy counts, and how
// many end views it has. `None` where memory is refused.
fn doubled_counts(alloc: Global, summary: &Summary) -> Option<(u64, usize)> {
    let twice = summary.join(alloc, summary).ok()?;
    let copy = twice.try_clone(alloc).ok()?;
    Some((copy.tried(), copy.ends().len()))
}

// A copy of the item of this prefix; `None` where memory is refused.
fn item_after(alloc: Global, program: &Arc<Program>, steps: &[u8]) -> Option<Item> {
    let item = Item::at(alloc, Arc::try_clone(program).ok()?, steps).ok()?;
    item.try_clone(alloc).ok()
}

// How many seats a new board of 5 numbers and 3 seats has; `None` where memory is refused.
fn count_seats(alloc: Global) -> Option<usize> {
    let (_board, seats) = Board::new(alloc, 5, 3).ok()?;
    Some(seats.len())
}

// A new book of a program, at bound 0; `None` where memory is refused.
fn open_book(alloc: Global, program: &Arc<Program>) -> Option<Book> {
    Book::open(alloc, Arc::try_clone(program).ok()?, Mode::Bounded(0)).ok()
}

// Walks the root of a new book and then all items that are open, and settles the walks. Answers how
// many there were after the root's, at most `MOST_WALKS`; `None` where a walk or settling it fails.
fn walk_and_settle_bound(alloc: Global, book: &mut Book, program: &Arc<Program>) -> Option<u64> {
    let mut settled = 0u64;
    walk_and_settle(
        alloc,
        book,
        program,
        &again!(item_after(alloc, program, &[]))?,
    )?;
    for _ in 0..MOST_WALKS {
        let items = again!(book.round(alloc).ok())?;
        let Some(item) = items.as_slice().last() else {
            break;
        };
        walk_and_settle(alloc, book, program, item)?;
        settled = settled.saturating_add(1);
    }
    Some(settled)
}

/// What the calls of a search answer that tries all schedules without a preemption, one a walk, and
/// then raises the bound; and those on a board and a schedule's item. `None` where one fails twice.
pub fn book_facts(alloc: Global, program: &Arc<Program>, schedule: &[u8]) -> Option<BookFacts> {
    let mut book = again!(open_book(alloc, program))?;
    let settled = walk_and_settle_bound(alloc, &mut book, program)?;
    let tried = book.finished().tried();
    let (joined, ends) = again!(doubled_counts(alloc, book.finished()))?;
    book.raise().ok()?;
    Some(BookFacts {
        settled,
        tried,
        joined,
        ends,
        copied: again!(item_after(alloc, program, schedule))?.prefix().len(),
        next: count_steps(again!(book.round(alloc).ok())?.as_slice()),
        seats: again!(count_seats(alloc))?,
    })
}
