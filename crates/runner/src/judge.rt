//! What comes next after a round: another round, the next bound, or the end of the search.

ghost use Rattle.std.specs.Prelude.{◌≡◌, ◌↔◌, IsTrue};
ghost use Rattle.runner.specs.Levels.{IsLast, GoesOn};
ghost use Rattle.runner.specs.inner.Judging.{Comes, ending_cause};

use book::books::Book;
use runner_report::{Cause, Options, Search};
use walk_items::mode::Mode;
use walk_summary::Summary;

/// How a search ends.
#[derive(Clone, Copy)]
pub(crate) enum Ending {
    /// All is tried at a bound, or without one, after which the search doesn't go on.
    Whole,
    /// The search is cut short.
    Cut(Cause),
}

impl Ending {
    /// Why the search is cut short; `None` where it isn't.
    pub(crate) fn cause(self) -> Option<Cause>
        ensures { result ≡ ending_cause self }
    {
        match self {
            Ending::Whole => None,
            Ending::Cut(cause) => Some(cause),
        }
    }
}

/// What comes next after a round.
#[derive(Clone, Copy)]
pub(crate) enum Next {
    /// Items are open, and another round follows.
    Again,
    /// The bound is finished, and the search goes on to the next.
    Raise,
    /// The search ends.
    End(Ending),
}

// Whether a mode is the last of a search: its bound is the one that was asked for, or both have no
// bound.
fn is_last_mode(search: Search, mode: Mode) -> bool
    ensures { IsTrue result ↔ IsLast search mode }
{
    match (search, mode) {
        (Search::UpTo(last), Mode::Bounded(bound)) => bound == last,
        (Search::UpTo(last), Mode::BoundedOnce(bound)) => bound == last,
        (Search::Unbounded, Mode::Reduced) => true,
        (Search::Unbounded, Mode::ReducedOnce) => true,
        (_, _) => false,
    }
}

/// Whether a search goes on to the next bound, once all is tried in a mode, with this summary: no
/// schedule is bad, some exceed the bound, and the mode isn't the search's last.
pub(crate) fn needs_next_bound(search: Search, mode: Mode, summary: &Summary) -> bool
    ensures { IsTrue result ↔ GoesOn search mode summary.now }
{
    summary.first_bad().is_none() && summary.beyond() && !is_last_mode(search, mode)
}

/// What comes next after a round of a search with this book: another round, the next bound, or the
/// end. `stopped` says whether the gate stopped a worker. Where all is tried and no next bound
/// follows, the search isn't cut short, even if a worker was stopped or the limit is reached.
pub(crate) fn judge(options: Options, book: &Book, stopped: bool) -> Next
    ensures { Comes stopped options book.now result }
{
    let is_open = book.open_len() > 0;
    if !is_open && !needs_next_bound(options.search, book.mode(), book.finished()) {
        return Next::End(Ending::Whole);
    }
    match options.cause(book.finished(), stopped) {
        Some(cause) => Next::End(Ending::Cut(cause)),
        None if is_open => Next::Again,
        None => Next::Raise,
    }
}
