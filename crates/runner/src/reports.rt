//! The report of a search, made when the search has ended.

ghost use Rattle.std.specs.Prelude.{◌≡◌, Bool, [], true, false, Some, None, Contains, IfOk, IfErr, IfSome, IfNone};
ghost use Rattle.semantics.specs.Machine.{start};
ghost use Rattle.semantics_schedules.specs.Schedules.{runs, complete_schedules, preemptions};
ghost use Rattle.walk_summary.specs.Summaries.{end_kind};
ghost use Rattle.replay.specs.Run.{IsRunOf};
ghost use Rattle.walk_items.specs.Items.{root_of, whole};
ghost use Rattle.book.specs.Books.{Keeps, IsClosed};
ghost use Rattle.runner_report.specs.declared.error.ExploreError.TheVariants.{OutOfMemory};
ghost use Rattle.runner_report.specs.Promises.{IsReport};
ghost use Rattle.runner.specs.Levels.{IsModeOf, GoesOn, IsOfProgram, HasPassed};
ghost use Rattle.runner.specs.inner.Judging.{IsAt, IsFound, IsFinishedIn, IsBoundBelow, IsVerdictOn, Ends, report_in};

use crate::judge::{Ending, needs_next_bound};
use book::books::Book;
use book::progress::mode_bound;
use guest_code::laws::programs_are_well_formed;
use guest_code::program::Program;
use replay::laws::one_place_is_the_first_bad;
use replay::{ReplayError, Run, replay};
use runner_report::{ExploreError, Options, Report, Verdict};
use semantics::view::Kind;
use std::alloc::Global;
use walk_items::mode::Mode;
use walk_summary::Summary;

/// The run of a schedule that is known to run in the program: its replay.
pub(crate) fn run_of(alloc: Global, program: &Program, schedule: &[u8]) -> Result<Run, ExploreError>
    requires { runs program.now (start program.now) schedule.now ≡ true }
    ensures run { IfOk result (IsRunOf program.now schedule.now) }
    ensures error { IfErr result (λ e. e ≡ OutOfMemory) }
{
    one_place_is_the_first_bad();
    match replay(alloc, program, schedule) {
        Ok(run) => Ok(run),
        Err(ReplayError::OutOfMemory) => Err(ExploreError::OutOfMemory),
        Err(ReplayError::NoSuchThread(_)) => unreachable!(),
        Err(ReplayError::NotEnabled(_)) => unreachable!(),
    }
}

// How the run of a complete schedule ends.
fn kind_of(run: &Run) -> Kind
    requires { run.now.kind ≡ None → ⊥ }
    ensures { run.now.kind ≡ Some result }
{
    match run.kind() {
        Some(kind) => kind,
        None => unreachable!(),
    }
}

/// How a complete schedule ends, and how many preemptions it has.
///
/// # Errors
///
/// `OutOfMemory` where memory runs out.
pub fn end_of(
    alloc: Global,
    program: &Program,
    schedule: &[u8],
) -> Result<(Kind, u32), ExploreError>
    requires { Contains (complete_schedules program.now (start program.now)) schedule.now }
    ensures kind { IfOk result (λ x. x.0 ≡ end_kind program.now schedule.now) }
    ensures preemptions { IfOk result (λ x. x.1 ≡ preemptions program.now schedule.now) }
    ensures error { IfErr result (λ e. e ≡ OutOfMemory) }
{
    programs_are_well_formed(program);
    let run = run_of(alloc, program, schedule)?;
    Ok((kind_of(&run), run.preemptions() as u32))
}

// The verdict of a search that has tried all, with this summary: bad, with the first bad schedule,
// or clean where no schedule is bad.
fn verdict_on(alloc: Global, program: &Program, summary: &Summary) -> Result<Verdict, ExploreError>
    requires { IsOfProgram program.now summary.now.first_bad }
    ensures verdict { IfOk result (IsVerdictOn program.now summary.now) }
    ensures error { IfErr result (λ e. e ≡ OutOfMemory) }
{
    let Some(schedule) = summary.first_bad() else {
        let all = !summary.beyond();
        return Ok(Verdict::Clean { all });
    };
    let (kind, preemptions) = end_of(alloc, program, schedule)?;
    Ok(Verdict::Bad {
        preemptions,
        schedule: schedule.to_vec(alloc)?,
        kind,
    })
}

// The report of a search that ends in a mode with this summary and verdict.
fn report_in(
    alloc: Global,
    options: Options,
    mode: Mode,
    summary: &Summary,
    verdict: Verdict,
) -> Result<Report, ExploreError>
    ensures report { IfOk result (λ r. r ≡ report_in options mode summary.now verdict) }
    ensures error { IfErr result (λ e. e ≡ OutOfMemory) }
{
    Ok(Report {
        bound: mode_bound(mode),
        verdict,
        summary: summary.try_clone(alloc)?,
        quick: options.quick,
        symmetry: options.symmetry,
    })
}

// The report of a search that ends in a mode in which all is tried, with this summary.
fn whole_report(
    alloc: Global,
    program: &Program,
    options: Options,
    mode: Mode,
    summary: &Summary,
) -> Result<Report, ExploreError>
    requires mode { IsModeOf options.symmetry options.search mode }
    requires bad { IsOfProgram program.now summary.now.first_bad }
    requires ends { GoesOn options.search mode summary.now → ⊥ }
    ensures report { IfOk result (λ r. (may : Bool) → HasPassed (root_of program.now) mode →
        IsFound options.quick program.now mode summary.now → IsReport may program.now options r) }
    ensures error { IfErr result (λ e. e ≡ OutOfMemory) }
{
    let verdict = verdict_on(alloc, program, summary)?;
    report_in(alloc, options, mode, summary, verdict)
}

/// The report of a search, if it ends in this mode with this summary of all of the program's
/// schedules in the mode: one is bad, none exceeds the bound, or the mode is the last. `None` where
/// the search goes on to the next bound.
///
/// The report is right where the search has passed all bounds below the mode's, and the summary is
/// that of all the schedules.
///
/// # Errors
///
/// `OutOfMemory` where memory runs out.
pub fn report_of(
    alloc: Global,
    program: &Program,
    options: Options,
    mode: Mode,
    summary: &Summary,
) -> Result<Option<Report>, ExploreError>
    requires mode { IsModeOf options.symmetry options.search mode }
    requires bad { IsOfProgram program.now summary.now.first_bad }
    ensures report { IfOk result (λ o. IfSome o (λ r. HasPassed (root_of program.now) mode →
        summary.now ≡ whole program.now mode → IsReport false program.now options r)) }
    ensures none { IfOk result (λ o. IfNone o (GoesOn options.search mode summary.now)) }
    ensures error { IfErr result (λ e. e ≡ OutOfMemory) }
{
    if needs_next_bound(options.search, mode, summary) {
        return Ok(None);
    }
    let report = whole_report(alloc, program, options, mode, summary)?;
    Ok(Some(report))
}

// The summary of what a book, quick or not, found of all schedules of a program in a mode. `None`
// where an item is open, or the book isn't of the program's root and this mode.
fn found_summary<'a>(book: &'a Book, program: &Program, mode: Mode) -> Option<&'a Summary>
    ensures some { IfSome result (λ s.
        (s.now ≡ book.now.finished) × IsClosed book.now program.now mode) }
    ensures none { IfNone result (IsClosed book.now program.now mode → ⊥) }
    ensures found { IfSome result (λ s. IsFound book.now.quick program.now mode s.now) }
    ensures kept { Keeps book.now }
{
    // Called for its contract alone.
    let _open = book.open_len();
    if book.is_quick() {
        book.closed_quick(program, mode)
    } else {
        book.closed(program, mode)
    }
}

// The bound one below a mode's; `None` where the mode's bound is 0, or it has none.
fn bound_below(mode: Mode) -> Option<u32>
    ensures { IsBoundBelow mode result }
{
    match mode {
        Mode::Bounded(0) => None,
        Mode::Bounded(bound) => Some(bound - 1),
        Mode::BoundedOnce(0) => None,
        Mode::BoundedOnce(bound) => Some(bound - 1),
        Mode::Reduced => None,
        Mode::ReducedOnce => None,
    }
}

// The last bound that a search of a program has finished, by its book: the book's, if no item is
// open, else the one below it. `None` where there is no such bound.
fn last_finished_bound(program: &Program, book: &Book) -> Option<u32>
    requires passed { HasPassed (root_of program.now) book.now.mode }
    requires none { book.now.open_items ≡ [] → book.now.finished.first_bad ≡ None }
    ensures { IsFinishedIn program.now book.now.mode result }
{
    let mode = book.mode();
    match found_summary(book, program, mode) {
        Some(_) => mode_bound(mode),
        None => bound_below(mode),
    }
}

/// The report of a search of a program that has ended with this ending, by its book. The verdict is
/// incomplete where the search was cut short.
pub(crate) fn report_at_end(
    alloc: Global,
    program: &Program,
    options: Options,
    book: &Book,
    ending: Ending,
) -> Result<Report, ExploreError>
    requires at { IsAt (root_of program.now) options book.now }
    requires ends { Ends true options book.now ending }
    ensures report { IfOk result (λ r. (may : Bool) → Ends may options book.now ending →
        IsReport may program.now options r) }
    ensures error { IfErr result (λ e. e ≡ OutOfMemory) }
{
    let mode = book.mode();
    match ending {
        Ending::Whole => match found_summary(book, program, mode) {
            Some(summary) => whole_report(alloc, program, options, mode, summary),
            None => unreachable!(),
        },
        Ending::Cut(cause) => {
            let finished = last_finished_bound(program, book);
            let verdict = Verdict::Incomplete { cause, finished };
            report_in(alloc, options, mode, book.finished(), verdict)
        }
    }
}
