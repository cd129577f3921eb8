//! How far a search is.

ghost use Rattle.std.specs.Prelude.{◌≡◌};
ghost use Rattle.book.specs.Progress.{IsProgressOf, mode_bound};

use crate::books::Book;
use walk_items::mode::Mode;

/// How far a search is after a round.
#[derive(Clone, Copy)]
pub struct Progress {
    /// The bound that the search is at, or `None` where it has no bound.
    pub bound: Option<u32>,
    /// How many schedules were tried, at most 2^64 - 1.
    pub tried: u64,
    /// How many of the tried schedules failed or got stuck, at most 2^64 - 1.
    pub bad: u64,
    /// How many items are open: prefixes whose schedules are still to be tried at this bound.
    pub open_items: usize,
    /// How many prefixes are deferred to the next bound.
    pub deferred: usize,
    /// Whether deferred prefixes are listed: the search may go on to a next bound.
    pub lists: bool,
}

/// The bound of a mode; `None` where it has none.
pub fn mode_bound(mode: Mode) -> Option<u32>
    ensures { result ≡ mode_bound mode }
{
    match mode {
        Mode::Bounded(bound) => Some(bound),
        Mode::BoundedOnce(bound) => Some(bound),
        Mode::Reduced => None,
        Mode::ReducedOnce => None,
    }
}

impl Progress {
    /// How far the search of this book is.
    pub fn of(book: &Book) -> Progress
        ensures { IsProgressOf book.now result }
    {
        let finished = book.finished();
        Progress {
            bound: mode_bound(book.mode()),
            tried: finished.tried(),
            bad: finished.failed().saturating_add(finished.stuck()),
            open_items: book.open_len(),
            deferred: book.deferred_len(),
            lists: book.lists_deferred(),
        }
    }
}
