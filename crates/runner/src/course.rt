//! The state of a search from round to round, and from bound to bound.

ghost use Rattle.std.specs.Prelude.{◌≡◌, ◌<◌, ◌≤◌, Bool, [], true, false, None, Some, IfOk, IfErr, OnOk};
ghost use Rattle.std.specs.Arc.{arc_value};
ghost use Rattle.semantics_schedules.specs.Schedules.{preemptions};
ghost use Rattle.walk_items.specs.declared.mode.Mode.TheVariants.{Bounded};
ghost use Rattle.walk_summary.specs.Summaries.{nothing, with_beyond};
ghost use Rattle.walk_items.specs.Items.{ItemView, IsItem, root_of};
ghost use Rattle.book.specs.Books.{Keeps, opening};
ghost use Rattle.runner_report.specs.declared.error.ExploreError.TheVariants.{OutOfMemory};
ghost use Rattle.runner_report.specs.Promises.{IsSearch, first_mode};
ghost use Rattle.runner.specs.Levels.{IsModeOf, GoesOn, AreBelow, AreLevels};
ghost use Rattle.runner.specs.inner.Judging.{IsAt, AreKept, HasKept, IsCourse, Ends, level_at, begun, bounds_left, lists_at};

use crate::judge::Ending;
use crate::reports::run_of;
use book::books::Book;
use book::errors::RaiseError;
use book::progress::mode_bound;
use guest_code::laws::programs_are_well_formed;
use guest_code::program::Program;
use runner_report::{Cause, ExploreError, Level, Options, Search};
use std::alloc::Global;
use std::sync::Arc;
use walk_items::item::Item;
use walk_items::mode::Mode;
use walk_summary::Summary;

/// The state of a search: what it is asked for, its book, and what was found at each bound that it
/// has passed, as levels, where these are kept.
#[derive(Drop)]
pub(crate) struct Course {
    pub options: Options,
    pub book: Book,
    pub levels: Option<Vec<Level>>,
}

/// How many preemptions an item's prefix has.
pub(crate) fn preemptions_of(alloc: Global, item: &Item) -> Result<u32, ExploreError>
    ensures number { IfOk result (λ n. n ≡ preemptions item.now.program item.now.prefix) }
    ensures runs { IsItem item.now }
    ensures error { IfErr result (λ e. e ≡ OutOfMemory) }
{
    let program = item.program();
    programs_are_well_formed(program);
    let run = run_of(alloc, program, item.prefix())?;
    Ok(run.preemptions() as u32)
}

// Whether a search keeps a list of the prefixes that walks in a mode defer, for the next bound to
// open: it does unless the mode's bound is the last that was asked for, or there is no bound.
fn lists_deferred(search: Search, mode: Mode) -> bool
    ensures { result ≡ lists_at search mode }
{
    match (search, mode) {
        (Search::UpTo(last), Mode::Bounded(bound)) => bound < last,
        (Search::UpTo(last), Mode::BoundedOnce(bound)) => bound < last,
        (_, _) => false,
    }
}

// Prepares a search's book for walks at its bound. If that is the search's last bound, or there is
// none, the book is made to list no deferred prefixes.
fn begin_bound(book: &mut Book, search: Search)
    requires lists { book.old.lists ≡ true }
    ensures { book.new ≡ begun search book.old }
{
    if !lists_deferred(search, book.mode()) {
        book.make_bound_last();
    }
}

// The book of a program at the start of a search in a mode, a quick one or not.
fn open_book(
    alloc: Global,
    program: Arc<Program>,
    mode: Mode,
    quick: bool,
) -> Result<Book, ExploreError>
    ensures book { IfOk result (λ b. b ≡ opening (arc_value program) mode quick) }
    ensures error { IfErr result (λ e. e ≡ OutOfMemory) }
{
    if quick {
        Ok(Book::open_quick(alloc, program, mode)?)
    } else {
        Ok(Book::open(alloc, program, mode)?)
    }
}

/// The state of a search of a program at its start, where nothing is tried. No levels are kept.
pub(crate) fn begin_search(
    alloc: Global,
    program: &Arc<Program>,
    options: Options,
) -> Result<Course, ExploreError>
    ensures course { IfOk result (IsCourse (root_of (arc_value program.now)) options false) }
    ensures error { IfErr result (λ e. e ≡ OutOfMemory) }
{
    let program = Arc::try_clone(program)?;
    let mode = options.search.first_mode(options.symmetry, 0);
    let mut book = open_book(alloc, program, mode, options.quick)?;
    begin_bound(&mut book, options.search);
    Ok(Course {
        options,
        book,
        levels: None,
    })
}

/// The level of a bound at which nothing is tried, since the item's own prefix exceeds it. Its
/// summary is empty, but for a note that there are schedules beyond the bound.
pub(crate) fn untried_level(alloc: Global, bound: u32) -> Level
    ensures { result ≡
        record { bound = Some bound; summary = with_beyond nothing true; cause = None } }
{
    let mut summary = Summary::empty(alloc);
    summary.set_beyond();
    Level {
        bound: Some(bound),
        summary,
        cause: None,
    }
}

/// The levels of the bounds from 0 to below `end`, at which nothing is tried, since the item's own
/// prefix exceeds them.
pub(crate) fn untried_levels(alloc: Global, end: u32) -> Result<Vec<Level>, ExploreError>
    ensures levels { IfOk result (λ v. (i : ItemView) → IsItem i →
        end ≤ preemptions i.program i.prefix → AreBelow i (Bounded end) v.items) }
    ensures error { IfErr result (λ e. e ≡ OutOfMemory) }
{
    let mut levels = Vec::new(alloc);
    for bound in 0..end {
        levels.push(untried_level(alloc, bound))?;
    }
    Ok(levels)
}

// The levels of the bounds at which a search under a prefix tries nothing: those below `number`,
// the preemptions that the prefix has. There are none where the search is unbounded.
fn levels_below(alloc: Global, search: Search, number: u32) -> Result<Vec<Level>, ExploreError>
    ensures levels { IfOk result (λ v. (i : ItemView) → IsItem i →
        number ≡ preemptions i.program i.prefix → AreBelow i (first_mode false search number) v.items) }
    ensures error { IfErr result (λ e. e ≡ OutOfMemory) }
{
    match search {
        Search::UpTo(_) => untried_levels(alloc, number),
        Search::Unbounded => Ok(Vec::new(alloc)),
    }
}

/// The state of a search under an item at its start, in the first mode in which anything is tried.
/// The item's prefix has `number` preemptions. Levels are kept; those of the bounds below `number`
/// are there from the start.
pub(crate) fn begin_search_under(
    alloc: Global,
    item: Item,
    number: u32,
    options: Options,
) -> Result<Course, ExploreError>
    requires number { number ≡ preemptions item.program item.prefix }
    requires runs { IsItem item }
    requires mode { IsModeOf false options.search (first_mode false options.search number) }
    requires quick { options.quick ≡ false }
    requires symmetry { options.symmetry ≡ false }
    ensures course { IfOk result (IsCourse item options true) }
    ensures error { IfErr result (λ e. e ≡ OutOfMemory) }
{
    let mode = options.search.first_mode(false, number);
    let levels = levels_below(alloc, options.search, number)?;
    let mut book = Book::open_under(alloc, item, mode)?;
    begin_bound(&mut book, options.search);
    Ok(Course {
        options,
        book,
        levels: Some(levels),
    })
}

// The level of a book's bound: what was tried, and the cause if the search was cut short there.
fn level_of(alloc: Global, book: &Book, cause: Option<Cause>) -> Result<Level, ExploreError>
    ensures level { IfOk result (λ l. l ≡ level_at book.now.mode book.now.finished cause) }
    ensures kept { Keeps book.now }
    ensures error { IfErr result (λ e. e ≡ OutOfMemory) }
{
    Ok(Level {
        bound: mode_bound(book.mode()),
        summary: book.finished().try_clone(alloc)?,
        cause,
    })
}

// Adds the level of a book's finished bound to `levels`; does nothing where these are `None`.
fn keep_level(
    alloc: Global,
    book: &Book,
    levels: &mut Option<Vec<Level>>,
) -> Result<(), ExploreError>
    ensures levels { OnOk result (HasKept book.now levels.old levels.new) }
    ensures kept { Keeps book.now }
    ensures error { IfErr result (λ e. e ≡ OutOfMemory) }
{
    let _open = book.open_len();
    match levels {
        Some(levels) => {
            levels.push(level_of(alloc, book, None)?)?;
            Ok(())
        }
        None => Ok(()),
    }
}

/// Raises a book whose bound is finished to the next bound, to which its search goes on. Before
/// that, adds the finished bound's level to `levels`, unless these are `None`.
pub(crate) fn raise(
    alloc: Global,
    options: Options,
    book: &mut Book,
    levels: &mut Option<Vec<Level>>,
) -> Result<(), ExploreError>
    requires search { IsSearch options.search }
    requires at { IsAt book.old.of options book.old }
    requires closed { book.old.open_items ≡ [] }
    requires goes_on { GoesOn options.search book.old.mode book.old.finished }
    ensures at { OnOk result (IsAt book.old.of options book.new) }
    ensures levels { OnOk result ((keeps : Bool) →
        AreKept keeps book.old.of book.old.mode levels.old →
        AreKept keeps book.old.of book.new.mode levels.new) }
    ensures less { OnOk result (bounds_left options.search book.new.mode
        < bounds_left options.search book.old.mode) }
    ensures error { IfErr result (λ e. e ≡ OutOfMemory) }
{
    keep_level(alloc, book, levels)?;
    match book.raise() {
        Ok(()) => {
            begin_bound(book, options.search);
            Ok(())
        }
        Err(RaiseError::StillOpen) => unreachable!(),
        Err(RaiseError::Dropped) => unreachable!(),
        Err(RaiseError::LastBound) => unreachable!(),
    }
}

/// The levels of a search that has ended with this ending and kept levels: those of the bounds that
/// it has passed, then that of the book's bound.
pub(crate) fn levels_at_end(
    alloc: Global,
    course: Course,
    ending: Ending,
) -> Result<Vec<Level>, ExploreError>
    requires course { IsCourse course.book.of course.options true course }
    requires quick { course.options.quick ≡ false }
    ensures levels { IfOk result (λ v. (may : Bool) → Ends may course.options course.book ending →
        AreLevels may course.options.search course.options.limit course.book.of v.items) }
    ensures error { IfErr result (λ e. e ≡ OutOfMemory) }
{
    let Course { book, levels, .. } = course;
    let last = level_of(alloc, &book, ending.cause())?;
    match levels {
        Some(mut levels) => {
            levels.push(last)?;
            Ok(levels)
        }
        None => unreachable!(),
    }
}
