//! Books by hand: what a book tells, and when it refuses, of walks and questions one after the
//! other.

use crate::walks::{program_of, walk_under};
use book::books::Book;
use std::alloc::{Alloc, AllocError, Global};
use std::fmt::Display;
use std::process::Abort;
use std::test::*;
use walk_items::item::Item;
use walk_items::mode::Mode;

/// Two threads that each add one to a variable.
const COUNTERS: &str =
    "var x; thread A { load r x; set r r + 1; store x r; } thread B { load r x; set r r + 1; store x r; }";

/// Three threads that each write a variable of their own.
const WRITERS: &str =
    "var x; var y; var z; thread A { store x 1; } thread B { store y 1; } thread C { store z 1; }";

/// Three threads that each write a variable of their own, and the first fails after its write.
const FAILING: &str =
    "var x; var y; var z; thread A { store x 1; assert 0; } thread B { store y 1; } thread C { store z 1; }";

/// Two programs that differ in the name of their mutex alone.
const NAMED: &str = "mutex m; thread A { lock m; }";

const RENAMED: &str = "mutex n; thread A { lock n; }";

/// The modes of the first bounds, and of the greatest one.
const FIRST: Mode = Mode::Bounded(0);

const SECOND: Mode = Mode::Bounded(1);

const THIRD: Mode = Mode::Bounded(2);

const GREATEST: Mode = Mode::Bounded(64);

/// What is done with a book. A program is a new one, which a text spells.
enum Act {
    /// Settles a walk: of a text's program under a prefix, in a mode, with a quota.
    Settle(&'static str, &'static [u8], Mode, u32),
    /// Asks whether the book is closed for a text's program in a mode, and for its quick search.
    Ask(&'static str, Mode),
    /// Raises the book to the next bound.
    Raise,
    /// Lets the book drop what comes later than its first bad schedule.
    DropLater,
}

/// What is done with a book, and what it tells then: the answer, how many schedules are tried,
/// whether some are beyond the bound, and the prefixes of the open items and of the deferred ones.
type Row = (Act, &'static str);

/// The counters' root is cut short, and then walked again; then the item that it left.
const ONE_BY_ONE: [Row; 3] = [
    (
        Act::Settle(COUNTERS, &[], FIRST, 1),
        "done: 1 true open [1] deferred [0, 1]",
    ),
    (
        Act::Settle(COUNTERS, &[], FIRST, 1),
        "book B1 NotOpen: 1 true open [1] deferred [0, 1]",
    ),
    (
        Act::Settle(COUNTERS, &[1], FIRST, 9),
        "done: 2 true deferred [0, 1] deferred [1, 0]",
    ),
];

/// Walks of another program, of two other modes, and of an item that isn't open; then the root of a
/// program that is equal, twice. The book is closed then, for its program and bound alone.
const OF_WRITERS: [Row; 10] = [
    (
        Act::Settle(COUNTERS, &[], FIRST, 9),
        "book B2 Stranger: 0 false open []",
    ),
    (
        Act::Settle(WRITERS, &[], Mode::Reduced, 9),
        "book B2 Stranger: 0 false open []",
    ),
    (
        Act::Settle(WRITERS, &[], SECOND, 9),
        "book B2 Stranger: 0 false open []",
    ),
    (
        Act::Settle(WRITERS, &[1], FIRST, 9),
        "book B1 NotOpen: 0 false open []",
    ),
    (Act::Ask(WRITERS, FIRST), "false false: 0 false open []"),
    (Act::Settle(WRITERS, &[], FIRST, 9), "done: 6 false"),
    (
        Act::Settle(WRITERS, &[], FIRST, 9),
        "book B1 NotOpen: 6 false",
    ),
    (Act::Ask(WRITERS, FIRST), "true false: 6 false"),
    (Act::Ask(COUNTERS, FIRST), "false false: 6 false"),
    (Act::Ask(WRITERS, SECOND), "false false: 6 false"),
];

/// A program that differs in a name is another one.
const OF_NAMED: [Row; 1] = [(
    Act::Settle(RENAMED, &[], FIRST, 9),
    "book B2 Stranger: 0 false open []",
)];

/// Nothing is walked twice over the bounds: 2, 4 and 6 of the 6 schedules are tried.
const BOUNDS: [Row; 7] = [
    (
        Act::Settle(COUNTERS, &[], FIRST, 256),
        "done: 2 true deferred [0, 1] deferred [1, 0]",
    ),
    (Act::Raise, "done: 2 false open [0, 1] open [1, 0]"),
    (
        Act::Settle(COUNTERS, &[0, 1], SECOND, 256),
        "done: 3 true open [1, 0] deferred [0, 1, 0]",
    ),
    (
        Act::Settle(COUNTERS, &[1, 0], SECOND, 256),
        "done: 4 true deferred [0, 1, 0] deferred [1, 0, 1]",
    ),
    (Act::Raise, "done: 4 false open [0, 1, 0] open [1, 0, 1]"),
    (
        Act::Settle(COUNTERS, &[0, 1, 0], THIRD, 256),
        "done: 5 false open [1, 0, 1]",
    ),
    (
        Act::Settle(COUNTERS, &[1, 0, 1], THIRD, 256),
        "done: 6 false",
    ),
];

/// At the greatest bound a book isn't raised, neither while its root is open nor later.
const AT_GREATEST: [Row; 3] = [
    (Act::Raise, "book B4 StillOpen: 0 false open []"),
    (Act::Settle(WRITERS, &[], GREATEST, 9), "done: 6 false"),
    (Act::Raise, "book B5 LastBound: 6 false"),
];

/// A quick book drops the items that come after its first, bad schedule. It is closed then for the
/// quick search alone, and isn't raised.
const QUICK: [Row; 6] = [
    (Act::DropLater, "0: 0 false open []"),
    (
        Act::Settle(FAILING, &[], FIRST, 1),
        "done: 1 false open [0, 2] open [1] open [2]",
    ),
    (
        Act::Ask(FAILING, FIRST),
        "false false: 1 false open [0, 2] open [1] open [2]",
    ),
    (Act::DropLater, "3: 1 false"),
    (Act::Ask(FAILING, FIRST), "false true: 1 false"),
    (Act::Raise, "book B6 Dropped: 1 false"),
];

// A new book of the program that a text spells, in a mode: its root is open.
fn open_book(alloc: Global, text: &str, mode: Mode, is_quick: bool) -> Result<Book, Fail> {
    let program = program_of(alloc, text)?;
    let book = if is_quick {
        Book::open_quick(alloc, program, mode)
    } else {
        Book::open(alloc, program, mode)
    };
    Ok(book?)
}

// Appends to a line that something is done, or why it was refused.
fn push_answer(
    line: &mut String,
    answer: Result<(), impl Display + Drop>,
) -> Result<(), AllocError> {
    match answer {
        Ok(()) => line.push_str("done"),
        Err(error) => write!(line, "{error}"),
    }
}

// Appends a word and an item's prefix to a line.
fn push_item(line: &mut String, word: &str, item: &Item) -> Result<(), AllocError> {
    write!(line, " {word} {:?}", item.prefix())
}

// Appends to a line what a book has: see `Row`.
fn push_book(line: &mut String, alloc: Global, book: &Book) -> Result<(), AllocError> {
    write!(
        line,
        ": {} {}",
        book.finished().tried(),
        book.finished().beyond()
    )?;
    for place in 0..book.open_len() {
        push_item(line, "open", &book.open_item(alloc, place)?)?;
    }
    for place in 0..book.deferred_len() {
        push_item(line, "deferred", &book.deferred_item(alloc, place)?)?;
    }
    Ok(())
}

// Does something with a book, and appends the answer to a line.
fn push_act(line: &mut String, alloc: Global, book: &mut Book, act: &Act) -> Result<(), Fail> {
    match act {
        Act::Settle(text, prefix, mode, quota) => {
            let walked = walk_under(alloc, text, prefix, *mode, *quota)?;
            push_answer(line, book.settle(alloc, walked))?;
        }
        Act::Ask(text, mode) => {
            let program = program_of(alloc, text)?;
            let is_closed = book.closed(&program, *mode).is_some();
            write!(
                line,
                "{is_closed} {}",
                book.closed_quick(&program, *mode).is_some()
            )?;
        }
        Act::Raise => push_answer(line, book.raise())?,
        Act::DropLater => write!(line, "{}", book.drop_later())?,
    }
    Ok(())
}

// Checks that a book tells what each row says.
fn check_rows(
    rt: &(impl Abort + Alloc<A = Global>),
    book: &mut Book,
    rows: &[Row],
) -> Result<(), Fail> {
    for (act, want) in rows {
        let mut line = String::new(rt.alloc());
        push_act(&mut line, rt.alloc(), book, act)?;
        push_book(&mut line, rt.alloc(), book)?;
        assert_eq!(rt; line.as_str(), *want);
    }
    Ok(())
}

/// The books of the tables above: the text of the program, the mode, whether the search is quick.
const BOOKS: [(&str, Mode, bool, &[Row]); 6] = [
    (COUNTERS, FIRST, false, &ONE_BY_ONE),
    (WRITERS, FIRST, false, &OF_WRITERS),
    (NAMED, FIRST, false, &OF_NAMED),
    (COUNTERS, FIRST, false, &BOUNDS),
    (WRITERS, GREATEST, false, &AT_GREATEST),
    (FAILING, FIRST, true, &QUICK),
];

// Each book tells what its rows say.
#[test]
fn what_books_tell(rt: HostRuntime) -> Result<(), Fail> {
    for (text, mode, is_quick, rows) in &BOOKS {
        check_rows(
            &rt,
            &mut open_book(rt.alloc(), text, *mode, *is_quick)?,
            rows,
        )?;
    }
    Ok(())
}
