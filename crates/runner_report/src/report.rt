//! The report of a search: how it ended, and the summary of what was tried.

ghost use Rattle.std.specs.Prelude.{◌≡◌, Some, None, MatchOption};
ghost use Rattle.runner_report.specs.ReportText.{named_schedule};

use semantics::view::Kind;
use walk_summary::Summary;

/// Why a search was cut short.
#[derive(Clone, Copy, PartialEq, Eq)]
pub enum Cause {
    /// As many schedules as the limit were tried.
    Limit,
    /// A gate stopped the search.
    Stopped,
}

/// How a search ended.
#[derive(Drop)]
pub enum Verdict {
    /// No complete schedule as far as the search went is bad: none fails or gets stuck.
    Clean {
        /// Whether no complete schedule has more preemptions than the report's bound; always so
        /// where the search is unbounded.
        all: bool,
    },
    /// A schedule is bad: in a search up to a bound the first of those with fewest preemptions, in
    /// an unbounded one the first of all. First is the one that is least as a list of thread
    /// numbers.
    Bad {
        /// How many preemptions the schedule has.
        preemptions: u32,
        /// The threads that take the steps, one after the other, by their numbers.
        schedule: Vec<u8>,
        /// How the schedule ends: failed or stuck.
        kind: Kind,
    },
    /// The search was cut short.
    Incomplete {
        /// Why the search was cut short.
        cause: Cause,
        /// The last bound that was finished, and has no bad schedule; `None` where there is none
        /// or the search is unbounded.
        finished: Option<u32>,
    },
}

/// The report of a search: what it found.
#[derive(Drop)]
pub struct Report {
    /// The bound within which the schedules of the summary are: the last that the search came to.
    /// `None` where the search is unbounded.
    pub bound: Option<u32>,
    /// How the search ended.
    pub verdict: Verdict,
    /// The schedules that were tried, as one: within the bound all of them, where the search was
    /// not cut short; in a quick search perhaps fewer, after a bad one was found.
    pub summary: Summary,
    /// Whether the search was a quick one.
    pub quick: bool,
    /// Whether the search tried equal threads once: the counts of the summary are of these schedules.
    pub symmetry: bool,
}

impl Report {
    /// The schedule that the report names: that of a bad verdict; where the search was cut short,
    /// the first bad one of those tried. `None` where no schedule that was tried is bad.
    pub fn schedule(&self) -> Option<&[u8]>
        ensures { MatchOption result
            (named_schedule self.now ≡ None) (λ w. named_schedule self.now ≡ Some w.now) }
    {
        match &self.verdict {
            Verdict::Clean { .. } => None,
            Verdict::Bad { schedule, .. } => Some(schedule.as_slice()),
            Verdict::Incomplete { .. } => self.summary.first_bad(),
        }
    }
}
