//! Searches by several workers, each in a thread.

ghost use Rattle.std.specs.Prelude.{◌≡◌, ◌≤◌, ◌<◌, Bool, false, IfOk, IfErr, OnOk, IfSome, IfNone};
ghost use Rattle.std.specs.Arc.{arc_value};
ghost use Rattle.runner_report.specs.declared.error.ExploreError.TheVariants.{OutOfMemory};
ghost use Rattle.runner_report.specs.declared.options.Search.TheVariants.{UpTo};
ghost use Rattle.runner_workers.specs.declared.limits.TheConstants.{WORKERS};
ghost use Rattle.runner_report.specs.Promises.{IsSearch, IsReport, first_mode};
ghost use Rattle.runner.specs.Levels.{IsModeOf, AreLevels};
ghost use Rattle.runner.specs.inner.Judging.{IsAt, AreKept, HasEnded, Ends};

use crate::alone::search_alone;
use crate::course::{
    Course, begin_search, begin_search_under, levels_at_end, preemptions_of, raise, untried_level,
    untried_levels,
};
use crate::judge::{Ending, Next, judge};
use crate::reports::report_at_end;
use book::books::Book;
use book::progress::Progress;
use guest_code::program::Program;
use runner_report::{ExploreError, Level, Options, Report, Search};
use runner_workers::{Gate, Team};
use std::alloc::Global;
use std::sync::{Arc, Wait};
use std::thread::Threads;
use walk_items::item::Item;

// Judges how a search goes on after rounds that are settled in its book; `stopped` says whether the
// gate stopped a worker. Answers how the search ends; `None` where another round follows. If that
// is one of the next bound, raises the book to it. Before it judges, drops the open items of a
// quick book that can't hold the first bad schedule any more.
fn judge_and_raise(
    alloc: Global,
    options: Options,
    book: &mut Book,
    levels: &mut Option<Vec<Level>>,
    stopped: bool,
) -> Result<Option<Ending>, ExploreError>
    requires search { IsSearch options.search }
    requires at { IsAt book.old.of options book.old }
    ensures at { OnOk result (IsAt book.old.of options book.new) }
    ensures levels { OnOk result ((keeps : Bool) →
        AreKept keeps book.old.of book.old.mode levels.old →
        AreKept keeps book.old.of book.new.mode levels.new) }
    ensures ended { IfOk result (λ e. IfSome e (Ends stopped options book.new)) }
    ensures error { IfErr result (λ e. e ≡ OutOfMemory) }
{
    let _number = book.drop_later();
    match judge(options, book, stopped) {
        Next::Again => Ok(None),
        Next::Raise => {
            raise(alloc, options, book, levels)?;
            Ok(None)
        }
        Next::End(ending) => Ok(Some(ending)),
    }
}

// Searches by several workers, from 1 to `WORKERS`, until the search ends; a single one works in
// this thread. Answers the search's state then and how it ended.
fn search<G: Gate, R: Threads + Wait + Sync>(
    rt: &R,
    alloc: Global,
    course: Course,
    workers: u32,
    gate: &G,
) -> Result<(Course, Ending), ExploreError>
    requires search { IsSearch course.options.search }
    requires quota { 1 ≤ course.options.quota }
    requires at { IsAt course.book.of course.options course.book }
    requires workers { (1 ≤ workers) × (workers ≤ WORKERS) }
    ensures ended { IfOk result (HasEnded (G.stops gate.now) course) }
    ensures error { IfErr result (λ e. e ≡ OutOfMemory) }
{
    if workers == 1 {
        return search_alone(alloc, course, gate);
    }
    let Course {
        options,
        book,
        mut levels,
    } = course;
    let mut team = Team::new(alloc, book, workers)?;
    for _ in rt.forever() {
        let (next, exit) = team.walk_and_settle_rounds(rt, alloc, gate, options)?;
        let stopped = exit.is_stopped()?;
        team = next;
        gate.round_ended(Progress::of(&team.book));
        let next = judge_and_raise(alloc, options, &mut team.book, &mut levels, stopped)?;
        if let Some(ending) = next {
            let book = team.book;
            let course = Course {
                options,
                book,
                levels,
            };
            return Ok((course, ending));
        }
    }
    unreachable!()
}

/// The report of a search of a program by several workers, from 1 to [`WORKERS`](crate::WORKERS).
///
/// The search goes by rounds. The workers draw the items of a round one by one. Each asks the gate,
/// and walks the item while it holds no lock. What some walks found is settled together: it is
/// entered in the search's book, which all workers share and which has what is finished and what is
/// still open. Where the gate may not stop and many items are open, each worker has rounds of its
/// own instead. Workers go from round to round in the threads that they have, up to a round after
/// which it has to be decided how the search goes on: the last of a bound, one in which the limit
/// was reached or the gate stopped a worker, and, where [`Options::quick`] is set, one in which a
/// bad schedule was found.
///
/// The report is that of [`explore_alone`], whatever the workers and the quota, but for the numbers
/// of an incomplete report, and for what a quick search leaves out. More schedules may be tried
/// than the limit says: rounds that have begun when it is reached are walked to their end.
///
/// A worker that the gate stops walks no more in its round. Where the search has no answer then, it
/// is cut short. A single worker doesn't ask the gate; it only tells it after each round how far
/// the search is, as several do.
///
/// The contract holds if the call returns. That it does is not proved: workers wait for the lock of
/// the book, for the gate, and for a round to end.
///
/// # Errors
///
/// `OutOfMemory` where memory runs out.
pub fn explore<G: Gate, R: Threads + Wait + Sync>(
    rt: &R,
    alloc: Global,
    program: &Arc<Program>,
    options: Options,
    workers: u32,
    gate: &G,
) -> Result<Report, ExploreError>
    requires search { IsSearch options.search }
    requires quota { 1 ≤ options.quota }
    requires workers { (1 ≤ workers) × (workers ≤ WORKERS) }
    ensures report { IfOk result (IsReport (G.stops gate.now) (arc_value program.now) options) }
    ensures error { IfErr result (λ e. e ≡ OutOfMemory) }
{
    let course = begin_search(alloc, program, options)?;
    let (course, ending) = search(rt, alloc, course, workers, gate)?;
    report_at_end(alloc, program, options, &course.book, ending)
}

// The last bound of a search, if a prefix with this many preemptions exceeds it; else `None`.
fn exceeded_bound(search: Search, preemptions: u32) -> Option<u32>
    ensures past { IfSome result (λ last. (search ≡ UpTo last) × (last < preemptions)) }
    ensures within { IfNone result
        (IsModeOf false search (first_mode false search preemptions)) }
{
    match search {
        Search::UpTo(last) if last < preemptions => Some(last),
        _ => None,
    }
}

/// What a search under an item finds by several workers, as [`explore`] does under the root of a
/// program: a level for each bound, from 0 to the first at which a schedule under the item is bad
/// or none under it exceeds the bound, or to the bound that was asked for. It is one level where
/// the search is unbounded. At a bound that the item's own prefix exceeds nothing is tried, and the
/// level says that there are schedules beyond the bound. Where the search is cut short, the last
/// level has the cause. No search under an item is quick or tries equal threads once, whatever the
/// options say.
///
/// As that of [`explore`], the contract holds if the call returns.
///
/// # Errors
///
/// `OutOfMemory` where memory runs out.
pub fn explore_under<G: Gate, R: Threads + Wait + Sync>(
    rt: &R,
    alloc: Global,
    item: Item,
    options: Options,
    workers: u32,
    gate: &G,
) -> Result<Vec<Level>, ExploreError>
    requires search { IsSearch options.search }
    requires quota { 1 ≤ options.quota }
    requires workers { (1 ≤ workers) × (workers ≤ WORKERS) }
    ensures levels { IfOk result (λ v.
        AreLevels (G.stops gate.now) options.search options.limit item v.items) }
    ensures error { IfErr result (λ e. e ≡ OutOfMemory) }
{
    let preemptions = preemptions_of(alloc, &item)?;
    if let Some(last) = exceeded_bound(options.search, preemptions) {
        let mut levels = untried_levels(alloc, last)?;
        levels.push(untried_level(alloc, last))?;
        return Ok(levels);
    }
    let options = Options {
        quick: false,
        symmetry: false,
        ..options
    };
    let course = begin_search_under(alloc, item, preemptions, options)?;
    let (course, ending) = search(rt, alloc, course, workers, gate)?;
    levels_at_end(alloc, course, ending)
}
