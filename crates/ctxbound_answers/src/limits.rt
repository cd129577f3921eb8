//! How far several searches of one text go.

ghost use Rattle.std.specs.Prelude.{◌≤◌};
ghost use Rattle.runner_workers.specs.declared.limits.TheConstants.{WORKERS};
ghost use Rattle.runner_report.specs.{Promises.IsSearch, declared.options.Search.TheVariants.UpTo};
ghost use Rattle.ctxbound_answers.specs.inner.Searches.{IsSearch-prop};

/// The limit of a search, in schedules, where the command words give none.
pub const DEFAULT_LIMIT: u64 = 20_000_000;

/// How far each search of a text goes, where several may be made of it, and by how many workers.
#[derive(Clone, Copy)]
pub struct Limits {
    /// A search is cut short after the round in which it has tried this number of schedules in all.
    pub limit: u64,
    /// The most preemptions of a schedule, in a search after one without a bound that was cut
    /// short; at most [`BOUND`](runner_report::limits::BOUND).
    pub bound: u32,
    /// The workers of a search, at least 1, at most [`WORKERS`](runner_workers::WORKERS).
    pub workers: u32,
    /// Whether it is told on standard error how far each search is.
    pub progress: bool,
    ghost is_bound: { IsSearch (UpTo bound) } by { IsSearch-prop (UpTo bound) },
    ghost some_worker: { 1 ≤ workers },
    ghost few_workers: { workers ≤ WORKERS },
}
