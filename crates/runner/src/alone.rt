//! Searches by one thread.

ghost use Rattle.std.specs.Prelude.{◌≡◌, ◌≤◌, false, IfOk, IfErr, OnOk};
ghost use Rattle.std.specs.Arc.{arc_value};
ghost use Rattle.runner_report.specs.Promises.{IsSearch, IsReport};
ghost use Rattle.runner_report.specs.declared.error.ExploreError.TheVariants.{OutOfMemory};
ghost use Rattle.runner.specs.inner.{Judging.{IsAt, ComesAfter, HasEnded}, Shrinking.{Went, Goes}};

use crate::course::{Course, begin_search, raise};
use crate::judge::{Ending, Next, judge};
use crate::reports::report_at_end;
use book::books::Book;
use book::progress::Progress;
use guest_code::program::Program;
use runner_report::{ExploreError, Options, Report};
use runner_workers::{Gate, Open};
use std::alloc::Global;
use std::slice;
use std::sync::Arc;
use walk::found::Found;
use walk::walker::Walker;
use walk_items::item::Item;

// The only worker of a search: its walker, and memory for what a walk finds.
#[derive(Drop)]
struct Lone {
    walker: Walker,
    found: Found,
}

impl Lone {
    // Walks an item of a round, up to `quota` schedules, and settles the walk; an item that the
    // book drops isn't walked. A quick book then drops all open items that can't hold the first bad
    // schedule any more. The walk of an item that isn't open is given up, the book stays as it is.
    fn walk_and_settle(
        &mut self,
        alloc: Global,
        book: &mut Book,
        item: &Item,
        quota: u32,
    ) -> Result<(), ExploreError>
        requires quota { 1 ≤ quota }
        requires item { item.now.program ≡ self.old.walker }
        requires book { book.old.of.program ≡ self.old.walker }
        ensures walker { self.new.walker ≡ self.old.walker }
        ensures book { Went book.old item.now result book.new }
        ensures error { IfErr result (λ e. e ≡ OutOfMemory) }
    {
        if book.drops(item) {
            let _number = book.drop_later();
            return Ok(());
        }
        self.walker.clear(&mut self.found, book.lists_deferred());
        self.walker
            .walk_into(alloc, &mut self.found, item, book.mode(), quota)?;
        if !book.settle_all(alloc, slice::from_ref(item), &[0], &mut self.found)? {
            return Ok(());
        }
        let _dropped = book.drop_later();
        Ok(())
    }

    // Walks the items of a book's next round in order, and settles each walk before the next. Walks
    // copies of the items, since a quick book may drop its open items after each walk.
    fn walk_and_settle_each(
        &mut self,
        alloc: Global,
        book: &mut Book,
        quota: u32,
    ) -> Result<(), ExploreError>
        requires quota { 1 ≤ quota }
        requires book { book.old.of.program ≡ self.old.walker }
        ensures walker { self.new.walker ≡ self.old.walker }
        ensures book { OnOk result (Goes book.old book.new) }
        ensures error { IfErr result (λ e. e ≡ OutOfMemory) }
    {
        let mut items = Vec::new(alloc);
        book.next_round(alloc, &mut items)?;
        for item in &items {
            self.walk_and_settle(alloc, book, item, quota)?;
        }
        Ok(())
    }

    // Walks the items of a book's next round in order, and settles the walks: those of a quick book
    // one by one, others all at once.
    fn walk_and_settle_round(
        &mut self,
        alloc: Global,
        book: &mut Book,
        quota: u32,
    ) -> Result<(), ExploreError>
        requires quota { 1 ≤ quota }
        requires book { book.old.of.program ≡ self.old.walker }
        ensures walker { self.new.walker ≡ self.old.walker }
        ensures book { OnOk result (Goes book.old book.new) }
        ensures error { IfErr result (λ e. e ≡ OutOfMemory) }
    {
        if book.is_quick() {
            self.walk_and_settle_each(alloc, book, quota)
        } else {
            book.walk_round(alloc, &mut self.walker, &mut self.found, quota)?;
            Ok(())
        }
    }
}

// Walks the rounds of a search at its book's bound, or of one without a bound, and settles the
// walks, until no further round follows. Answers how the search ends; `None` where it goes on to
// the next bound. The gate is told after each round how far the search is, and asked nothing.
fn search_bound<G: Gate>(
    alloc: Global,
    options: Options,
    book: &mut Book,
    lone: &mut Lone,
    gate: &G,
) -> Result<Option<Ending>, ExploreError>
    requires quota { 1 ≤ options.quota }
    requires at { IsAt book.old.of options book.old }
    requires walker { lone.old.walker ≡ book.old.of.program }
    ensures walker { lone.new.walker ≡ lone.old.walker }
    ensures at { OnOk result (IsAt book.old.of options book.new × (book.new.mode ≡ book.old.mode)) }
    ensures next { IfOk result (ComesAfter options book.new) }
    ensures error { IfErr result (λ e. e ≡ OutOfMemory) }
{
    loop {
        lone.walk_and_settle_round(alloc, book, options.quota)?;
        let _open = book.open_len();
        gate.round_ended(Progress::of(book));
        match judge(options, book, false) {
            Next::Again => {}
            Next::Raise => return Ok(None),
            Next::End(ending) => return Ok(Some(ending)),
        }
    }
}

/// Searches by one thread, bound after bound, until the search ends. Answers its state then and how
/// it ended. The gate is told after each round how far the search is, and asked nothing.
pub(crate) fn search_alone<G: Gate>(
    alloc: Global,
    course: Course,
    gate: &G,
) -> Result<(Course, Ending), ExploreError>
    requires search { IsSearch course.options.search }
    requires quota { 1 ≤ course.options.quota }
    requires at { IsAt course.book.of course.options course.book }
    ensures ended { IfOk result (HasEnded false course) }
    ensures error { IfErr result (λ e. e ≡ OutOfMemory) }
{
    let mut course = course;
    let options = course.options;
    let program = Arc::try_clone(course.book.program())?;
    let mut lone = Lone {
        walker: Walker::new(alloc, program)?,
        found: Found::new(alloc),
    };
    loop {
        match search_bound(alloc, options, &mut course.book, &mut lone, gate)? {
            Some(ending) => return Ok((course, ending)),
            None => raise(alloc, options, &mut course.book, &mut course.levels)?,
        }
    }
}

/// The report of a search of a program by one thread.
///
/// A search up to a bound tries all complete schedules with no preemption, then those with at most
/// one, and so on. It ends at the first bound within which a schedule is bad, at the least bound
/// that no schedule exceeds, or at the bound that was asked for. A search without a bound tries the
/// schedules that sleep sets leave. A quick one leaves out items that can't hold the first bad
/// schedule any more; with [`Options::symmetry`], of threads that are equal where they are only the
/// lowest is let step, which changes nothing but the counts, where it isn't cut short. Each search is
/// cut short, unless it has its answer, after a round in which the limit was reached.
///
/// # Errors
///
/// `OutOfMemory` where memory runs out.
pub fn explore_alone(
    alloc: Global,
    program: &Arc<Program>,
    options: Options,
) -> Result<Report, ExploreError>
    requires search { IsSearch options.search }
    requires quota { 1 ≤ options.quota }
    ensures report { IfOk result (IsReport false (arc_value program.now) options) }
    ensures error { IfErr result (λ e. e ≡ OutOfMemory) }
{
    let course = begin_search(alloc, program, options)?;
    let (course, ending) = search_alone(alloc, course, &Open)?;
    report_at_end(alloc, program, options, &course.book, ending)
}
