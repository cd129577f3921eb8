//! What can be asked of one guest program.

ghost use Rattle.std.specs.Prelude.{◌≡◌, ◌≤◌, ◌<◌, false, length, IfOk, IfErr};
ghost use Rattle.std.specs.Arc.{arc_value};
ghost use Rattle.runner_report.specs.Promises.{IsReport, IsSearch};
ghost use Rattle.runner_report.specs.declared.error.ExploreError.TheVariants.{OutOfMemory};
ghost use Rattle.runner_workers.specs.declared.limits.TheConstants.{WORKERS};
ghost use Rattle.ctxbound_answers.specs.inner.Searches.{IsSearch-prop};

use crate::host::Host;
use crate::progress::ProgressGate;
use guest_code::program::Program;
use runner::explore;
use runner_report::{ExploreError, Options, Report, Search};
use std::sync::Arc;

/// The bound of a search, in preemptions, where the command words give none.
pub const DEFAULT_BOUND: u32 = 2;

/// Whether two threads of a program have the same code, so that they may be equal. Where none have,
/// a search with equal threads once tries what one without tries, and takes longer.
pub fn has_equal_threads(program: &Program) -> bool {
    for thread in 0..program.threads() {
        if has_lower_equal(program, thread) {
            return true;
        }
    }
    false
}

/// What is said after the number of schedules that a search tried, by its report.
pub fn once_words(report: &Report) -> &'static str {
    if report.symmetry {
        ", equal threads once"
    } else {
        ""
    }
}

// Whether a thread of a lower number has the code of this one.
fn has_lower_equal(program: &Program, thread: u8) -> bool
    requires { thread < length program.now.threads }
{
    for lower in 0..thread {
        if program.code(lower) == program.code(thread) {
            return true;
        }
    }
    false
}

/// What is asked of a guest program.
#[derive(Drop)]
pub enum GuestRequest {
    /// To replay one schedule, in schedule text, and print its trace.
    Replay { schedule: String },
    /// To search for a bad schedule, and print the report.
    Explore(Exploration),
    /// To search, and print the report and the trace of the schedule that it names, if any.
    Trace(Exploration),
}

/// A search, and by how many workers. Only where it is cut short its report depends on the workers.
#[derive(Clone, Copy)]
pub struct Exploration {
    pub options: Options,
    /// The workers of the search, at least 1, at most [`WORKERS`](runner_workers::WORKERS).
    pub workers: u32,
    /// Whether it is told on standard error how far the search is.
    pub progress: bool,
    ghost search: { IsSearch options.search } by { IsSearch-prop options.search },
    ghost quota: { 1 ≤ options.quota },
    ghost some_worker: { 1 ≤ workers },
    ghost few_workers: { workers ≤ WORKERS },
}

impl Default for Exploration {
    /// The search up to [`DEFAULT_BOUND`] preemptions by one worker, with no limit and no progress.
    fn default() -> Exploration {
        Exploration {
            options: Options::new(Search::UpTo(DEFAULT_BOUND)),
            workers: 1,
            progress: false,
        }
    }
}

impl Exploration {
    /// The report of this search of a program.
    ///
    /// # Errors
    ///
    /// `OutOfMemory` where memory runs out.
    pub fn report<H: Host>(self, rt: &H, program: &Arc<Program>) -> Result<Report, ExploreError>
        ensures report { IfOk result (IsReport false (arc_value program.now) self.options) }
        ensures error { IfErr result (λ e. e ≡ OutOfMemory) }
    {
        let gate = ProgressGate::new(rt, self.progress);
        explore(rt, rt.alloc(), program, self.options, self.workers, &gate)
    }
}
