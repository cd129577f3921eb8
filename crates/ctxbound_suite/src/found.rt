//! One search, the bad schedule that it found, and what it shows of all schedules.

ghost use Rattle.std.specs.Prelude.{◌≡◌, ◌+◌, ℕ, List, Some, IfOk, IfErr};
ghost use Rattle.std.specs.Arc.{arc_value};
ghost use Rattle.runner_report.specs.{Promises.IsSearch, ReportText.named_schedule};
ghost use Rattle.runner_report.specs.Reports.{IsBadSchedule};
ghost use Rattle.runner_report.specs.declared.error.ExploreError.TheVariants.{OutOfMemory};
ghost use Rattle.ctxbound_suite.specs.Shown.{options_of, clean_below, is_right, is_clean, IsNamedBad, IsFound};

use ctxbound_answers::{Exploration, Host, Limits, has_equal_threads};
use guest_code::program::Program;
use runner::{ExploreError, Options, QUOTA, Report, Search, Verdict, end_of};
use semantics::view::Kind;
use std::alloc::Global;
use std::sync::Arc;

/// A complete schedule that fails or gets stuck.
#[derive(Drop)]
pub struct BadSchedule {
    /// The numbers of the threads that take the schedule's steps, in order.
    pub steps: Vec<u8>,
    /// How many preemptions the schedule has.
    pub preemptions: u32,
    /// How the schedule ends: failed or stuck.
    pub kind: Kind,
}

/// What a search found of a program.
#[derive(Drop)]
pub struct Found {
    /// The report of the search.
    pub report: Report,
    /// The bad schedule that the report names, if it names one.
    pub bad: Option<BadSchedule>,
}

impl Found {
    /// How many preemptions each bad schedule of the program has at least, as the search shows; 0
    /// where it had no bound, or was cut short before it finished one.
    pub fn clean_below(&self) -> u64
        ensures { result ≡ clean_below self.now.report }
    {
        match (self.report.bound, &self.report.verdict) {
            (Some(bound), Verdict::Clean { .. }) => next_bound(bound),
            (Some(_), Verdict::Bad { preemptions, .. }) => u64::from(*preemptions),
            (
                Some(_),
                Verdict::Incomplete {
                    finished: Some(finished),
                    ..
                },
            ) => next_bound(*finished),
            (_, _) => 0,
        }
    }

    /// Whether the search shows that the program is right, that is, no schedule at all is bad.
    pub fn shows_right(&self) -> bool
        ensures { result ≡ is_right self.now.report.verdict }
    {
        match &self.report.verdict {
            Verdict::Clean { all } => *all,
            _ => false,
        }
    }

    /// Whether the search shows that no schedule is bad as far as it was to go: within its bound,
    /// or at all where it had none.
    pub fn is_clean(&self) -> bool
        ensures { result ≡ is_clean self.now.report.verdict }
    {
        matches!(&self.report.verdict, Verdict::Clean { .. })
    }
}

// One more than a bound, as a `u64`, in which it can't overflow.
fn next_bound(bound: u32) -> u64
    ensures { result ≡ bound + 1 }
{
    u64::from(bound) + 1
}

// The bad schedule that a report names, with its preemptions and how it ends, which a replay shows;
// `None` where it names none.
fn named_bad_schedule(
    alloc: Global,
    program: &Program,
    report: &Report,
) -> Result<Option<BadSchedule>, ExploreError>
    requires { (w : List ℕ) → named_schedule report.now ≡ Some w → IsBadSchedule program.now w }
    ensures bad { IfOk result (IsNamedBad program.now (named_schedule report.now)) }
    ensures error { IfErr result (λ e. e ≡ OutOfMemory) }
{
    let Some(steps) = report.schedule() else {
        return Ok(None);
    };
    let (kind, preemptions) = end_of(alloc, program, steps)?;
    Ok(Some(BadSchedule {
        steps: steps.to_vec(alloc)?,
        preemptions,
        kind,
    }))
}

/// Searches a program as far as `search` says, with equal threads once where it may have some, by the
/// workers of `limits`, and cuts the search short at the number of schedules in `limits`, whose bound
/// isn't used.
///
/// # Errors
///
/// `OutOfMemory` where memory runs out.
#[tactic(auto, using(crate::proofs::Shows::named_is_bad, crate::proofs::Shows::found_is))]
pub fn run_search<H: Host>(
    rt: &H,
    program: &Arc<Program>,
    search: Search,
    limits: Limits,
) -> Result<Found, ExploreError>
    requires { IsSearch search }
    ensures found { IfOk result (IsFound (arc_value program.now) (options_of search limits.limit)) }
    ensures error { IfErr result (λ e. e ≡ OutOfMemory) }
{
    let exploration = Exploration {
        options: Options {
            search,
            limit: Some(limits.limit),
            quota: QUOTA,
            quick: false,
            symmetry: has_equal_threads(program),
        },
        workers: limits.workers,
        progress: limits.progress,
    };
    let report = exploration.report(rt, program)?;
    let bad = named_bad_schedule(rt.alloc(), program, &report)?;
    Ok(Found { report, bad })
}
