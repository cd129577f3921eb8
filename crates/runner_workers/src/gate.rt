//! Gates: what is asked before an item is walked, and may stop a search of several workers.

ghost use Rattle.std.specs.Prelude.{◌≡◌, Bool, true};
ghost use Rattle.runner_workers.specs.declared.gate.Answer.TheVariants.{Stop};

use book::progress::Progress;

/// What a gate answers to a worker that is about to walk an item.
#[derive(Clone, Copy, PartialEq, Eq)]
pub enum Answer {
    /// The item is walked.
    Go,
    /// The worker walks no more in this round, and the item stays open.
    Stop,
}

/// What each worker of a search asks before it walks an item, and tells when it has walked it. No
/// lock is held during these two calls, so a gate may keep a worker waiting. After each round a
/// gate is told how far the search is.
///
/// Contracts see of a gate whether it may stop a worker, which never changes.
pub trait Gate: Sync {
    ghost stops: { Self → Bool };

    /// Whether the gate may stop a worker.
    fn may_stop(&self) -> bool
        ensures { result ≡ stops self.now };

    /// The decision whether a worker walks an item of its round. Workers are counted from 0, and so
    /// are the items of a round, shared or a worker's own. By default each is walked.
    fn before(&self, _worker: u32, _item: u64) -> Answer
        ensures { result ≡ Stop → stops self.now ≡ true }
    {
        Answer::Go
    }

    /// Tells the gate that a worker has walked an item of a round. The walk isn't settled yet.
    fn walked(&self, _worker: u32, _item: u64) {}

    /// Tells the gate how far the search is, after a round whose items are all done, and before
    /// workers begin another round that they share. Where the gate may not stop, other workers may
    /// be at rounds of their own. A lock may be held, so the gate may not wait for a worker here.
    /// The search of a single worker tells it, too.
    fn round_ended(&self, _progress: Progress) {}
}

/// The gate that never stops a worker.
#[derive(Clone, Copy)]
pub struct Open;

impl Gate for Open {
    ghost use Rattle.std.specs.Prelude.{false};

    ghost stops = { λ _. false };

    fn may_stop(&self) -> bool {
        false
    }
}
