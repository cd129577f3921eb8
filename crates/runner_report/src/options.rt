//! What a search is asked for.

ghost use Rattle.std.specs.Prelude.{◌≡◌, None, false, IfSome, IfNone};
ghost use Rattle.runner_report.specs.Reports.{IsCause, HasNoCause};
ghost use Rattle.runner_report.specs.{Promises.first_mode, declared.limits.TheConstants.QUOTA};

use crate::limits::QUOTA;
use crate::report::Cause;
use walk_items::mode::Mode;
use walk_summary::Summary;

/// How far a search goes.
#[derive(Clone, Copy, PartialEq, Eq)]
pub enum Search {
    /// Through all complete schedules with no preemption, then with at most one, and so on, up to
    /// this bound; it ends at the first bound within which a schedule is bad. At most
    /// [`BOUND`](crate::limits::BOUND).
    ///
    /// Musuvathi and Qadeer, "Iterative Context Bounding for Systematic Testing of Multithreaded
    /// Programs" (PLDI 2007).
    UpTo(u32),
    /// Through the complete schedules that sleep sets leave, whatever their preemptions.
    ///
    /// The idea of sleep sets is that of Godefroid, "Partial-Order Methods for the Verification of
    /// Concurrent Systems" (1996).
    Unbounded,
}

impl Search {
    /// The first mode in which a search tries anything of what is under a prefix with this many
    /// preemptions: at the bound of these, or, if the search is unbounded, by sleep sets; with equal
    /// threads `once`, or not.
    pub fn first_mode(self, once: bool, preemptions: u32) -> Mode
        ensures { result ≡ first_mode once self preemptions }
    {
        match (self, once) {
            (Search::UpTo(_), false) => Mode::Bounded(preemptions),
            (Search::UpTo(_), true) => Mode::BoundedOnce(preemptions),
            (Search::Unbounded, false) => Mode::Reduced,
            (Search::Unbounded, true) => Mode::ReducedOnce,
        }
    }
}

/// What a search is asked for.
#[derive(Clone, Copy, PartialEq, Eq)]
pub struct Options {
    /// How far the search goes.
    pub search: Search,
    /// After a round by which this many schedules were tried, the search is cut short, unless
    /// it has its answer.
    pub limit: Option<u64>,
    /// How many complete schedules one walk tries at most; at least 1. A quota changes no Clean or
    /// Bad report but a quick one's summary.
    pub quota: u32,
    /// Whether to leave out, once a bad schedule is found, what can't have the first bad one.
    pub quick: bool,
    /// Whether to try equal threads once: to leave out each step of a thread for which an equal one
    /// of a lower number stands. It changes no Clean or Bad report but the summary's counts.
    pub symmetry: bool,
}

impl Options {
    /// The options of a search that goes as far as `search` says, with no limit, the quota `QUOTA`,
    /// not quick, and with all threads.
    pub fn new(search: Search) -> Options
        ensures { result ≡
            record { search = search; limit = None; quota = QUOTA; quick = false; symmetry = false } }
    {
        Options {
            search,
            limit: None,
            quota: QUOTA,
            quick: false,
            symmetry: false,
        }
    }

    /// Why a search is cut short after a round that leaves it without an answer: its gate `stopped`
    /// a worker, or as many schedules as the limit are tried. `None` where it isn't cut short.
    pub fn cause(self, summary: &Summary, stopped: bool) -> Option<Cause>
        ensures some { IfSome result (IsCause stopped self.limit summary.now) }
        ensures none { IfNone result (HasNoCause stopped self.limit summary.now) }
    {
        if stopped {
            return Some(Cause::Stopped);
        }
        match self.limit {
            Some(limit) if summary.tried() >= limit => Some(Cause::Limit),
            _ => None,
        }
    }
}
