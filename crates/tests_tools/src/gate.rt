//! A gate that logs what a search tells it.

use runner::{Answer, Gate, Progress};
use std::alloc::Global;
use std::sync::atomic::{AtomicU64, Ordering};
use std::{fmt, thread};

/// The events that a log has room for.
const LOG_CAPACITY: usize = 1 << 17;

/// How many items a full round has.
const FULL_ROUND: u64 = 64;

/// How many turns a held worker waits at most; far fewer are enough.
const MOST_TURNS: u64 = 2_000_000;

/// How many turns more a worker is held, so that another one is through with its walked item.
const EXTRA_TURNS: u64 = 500;

/// What a gate does with the workers that ask it.
#[derive(Clone, Copy)]
pub enum Policy {
    /// The gate stops nobody and holds nobody, though it says that it may stop.
    Open,
    /// The gate stops nobody and holds nobody, and says that it never stops anybody.
    NeverStop,
    /// The gate lets this many calls pass, and stops each later one.
    PassFirst(u64),
    /// The gate stops this worker alone.
    StopWorker(u64),
    /// The gate stops at the items of a round from the item of this number on.
    StopFrom(u64),
    /// In a round of 64 items the gate holds each group of this many calls until all have begun.
    HoldGroup(u64),
    /// The gate holds who comes to later items of a round until this one is walked, and a bit more.
    HoldAfter(u64),
}

/// What is logged: an answer to a worker, the end of a walk or round, or a wait that is too long.
#[derive(Clone, Copy, PartialEq, Eq)]
enum Event {
    Go,
    Stop,
    Walked,
    Round,
    Late,
}

/// An event with its worker and its number, packed into one word.
#[derive(Clone, Copy)]
pub struct LogEntry(u64);

impl fmt::Display for LogEntry {
    // The kind of the event, its worker and item; of a round, the schedules tried and items open.
    fn fmt<W: fmt::Write>(&self, f: &mut fmt::Formatter<W>) -> fmt::Result {
        let number = self.0 % (1 << 32);
        let worker = self.0 / (1 << 32) % (1 << 16);
        match self.0 / (1 << 48) {
            0 => write!(f, "go {worker} {number}"),
            1 => write!(f, "stop {worker} {number}"),
            2 => write!(f, "walked {worker} {number}"),
            3 => write!(f, "round {number} {worker}"),
            _ => write!(f, "late {worker} {number}"),
        }
    }
}

/// A gate that follows a policy, and logs the events of a search.
#[derive(Drop)]
pub struct LoggingGate {
    policy: Policy,
    entries: Vec<AtomicU64>,
    count: AtomicU64,
    /// How many calls of `before` have begun.
    asked: AtomicU64,
    /// How many of these have begun in this round, counted for `HoldGroup` alone.
    begun: AtomicU64,
    /// How many items were open when the round began.
    open: AtomicU64,
    /// 1 where the item that `HoldAfter` names was walked in this round.
    walked: AtomicU64,
}

impl LoggingGate {
    /// A gate of this policy that has logged nothing; `None` where memory for its log is refused.
    pub fn new(alloc: Global, policy: Policy) -> Option<LoggingGate> {
        let mut entries = Vec::new(alloc);
        for _ in 0..LOG_CAPACITY {
            entries.push(AtomicU64::new(0)).ok()?;
        }
        Some(LoggingGate {
            policy,
            entries,
            count: AtomicU64::new(0),
            asked: AtomicU64::new(0),
            begun: AtomicU64::new(0),
            open: AtomicU64::new(1),
            walked: AtomicU64::new(0),
        })
    }

    /// How many events are in the log; events that it had no room for are not counted.
    pub fn log_len(&self) -> usize {
        (self.count.load(Ordering::SeqCst) as usize).min(self.entries.len())
    }

    /// The event at a place of the log; after its last place, an entry of zeros.
    pub fn entry(&self, place: usize) -> LogEntry {
        match self.entries.get(place) {
            Some(line) => LogEntry(line.load(Ordering::SeqCst)),
            None => LogEntry(0),
        }
    }

    // Puts an event in the log, if there is room: its kind, 16 bits of worker and 32 of number.
    fn log(&self, event: Event, worker: u32, number: u64) {
        let kind = match event {
            Event::Go => 0u64,
            Event::Stop => 1,
            Event::Walked => 2,
            Event::Round => 3,
            Event::Late => 4,
        };
        let worker = u64::from(worker) % (1 << 16);
        let line = kind * (1 << 48) + worker * (1 << 32) + number % (1 << 32);
        let place = self.count.fetch_add(1, Ordering::SeqCst) as usize;
        if let Some(slot) = self.entries.get(place) {
            slot.store(line, Ordering::SeqCst);
        }
    }

    // Whether the policy stops a worker at this item of a round, after `before` calls to the gate.
    fn is_stopped(&self, worker: u32, item: u64, before: u64) -> bool {
        match self.policy {
            Policy::PassFirst(most) => before >= most,
            Policy::StopWorker(number) => u64::from(worker) == number,
            Policy::StopFrom(first) => item >= first,
            Policy::Open | Policy::NeverStop | Policy::HoldGroup(_) | Policy::HoldAfter(_) => false,
        }
    }

    // Holds a worker at an item until others raise `word` to `least`; after `MOST_TURNS` turns it
    // is logged as late and held no longer.
    fn hold(&self, word: &AtomicU64, least: u64, worker: u32, item: u64) {
        for _ in 0..MOST_TURNS {
            if word.load(Ordering::SeqCst) >= least {
                return;
            }
            thread::yield_now();
        }
        self.log(Event::Late, worker, item);
    }

    // Counts a call in this round, and holds its worker until all `number` calls of its group have
    // begun. Nobody is held in a round of fewer than 64 items, or in a last group with fewer calls.
    fn hold_group(&self, number: u64, worker: u32, item: u64) {
        let begun = self.begun.fetch_add(1, Ordering::SeqCst);
        let groups = (begun / number.max(1)).saturating_add(1);
        let least = groups.saturating_mul(number);
        if self.open.load(Ordering::SeqCst) >= FULL_ROUND && least <= FULL_ROUND {
            self.hold(&self.begun, least, worker, item);
        }
    }

    // Holds a worker until the item of `HoldAfter` is walked in this round, and then for
    // `EXTRA_TURNS` turns; doesn't hold it if the item is walked already.
    fn hold_after(&self, worker: u32, item: u64) {
        if self.walked.load(Ordering::SeqCst) > 0 {
            return;
        }
        self.hold(&self.walked, 1, worker, item);
        for _ in 0..EXTRA_TURNS {
            thread::yield_now();
        }
    }

    // Holds a worker who comes to this item of a round, if the policy says so.
    fn hold_at(&self, worker: u32, item: u64) {
        match self.policy {
            Policy::HoldGroup(number) => self.hold_group(number, worker, item),
            Policy::HoldAfter(first) if item > first => self.hold_after(worker, item),
            _ => {}
        }
    }
}

impl Gate for LoggingGate {
    ghost use Rattle.std.specs.Prelude.{true};

    ghost stops = { λ _. true };

    // Says that the gate may stop, whatever its policy.
    fn may_stop(&self) -> bool {
        true
    }

    // Logs whether the policy stops a worker at an item, and answers it; one that goes may be held.
    fn before(&self, worker: u32, item: u64) -> Answer {
        let before = self.asked.fetch_add(1, Ordering::SeqCst);
        if self.is_stopped(worker, item, before) {
            self.log(Event::Stop, worker, item);
            return Answer::Stop;
        }
        self.log(Event::Go, worker, item);
        self.hold_at(worker, item);
        Answer::Go
    }

    // Logs that an item was walked, and tells those whom `HoldAfter` holds until then.
    fn walked(&self, worker: u32, item: u64) {
        self.log(Event::Walked, worker, item);
        if let Policy::HoldAfter(first) = self.policy {
            if item == first {
                self.walked.store(1, Ordering::SeqCst);
            }
        }
    }

    // Logs the end of a round: how many items are open, at most `u16::MAX`, as an entry has 16 bits
    // for that, and how many schedules were tried. Then begins to count for the next round.
    fn round_ended(&self, progress: Progress) {
        let open = progress.open_items.min(u16::MAX as usize) as u32;
        self.log(Event::Round, open, progress.tried);
        self.begun.store(0, Ordering::SeqCst);
        self.open
            .store(progress.open_items as u64, Ordering::SeqCst);
        self.walked.store(0, Ordering::SeqCst);
    }
}

/// A gate that logs to another gate's log, stops and holds nobody, and says that it never stops.
#[derive(Clone, Copy)]
pub struct NeverStopping<'a>(pub &'a LoggingGate);

impl Gate for NeverStopping<'_> {
    ghost use Rattle.std.specs.Prelude.{false};

    ghost stops = { λ _. false };

    // Says that the gate never stops a worker.
    fn may_stop(&self) -> bool {
        false
    }

    // Logs in the other gate that a worker goes on to an item, and lets it go.
    fn before(&self, worker: u32, item: u64) -> Answer {
        self.0.log(Event::Go, worker, item);
        Answer::Go
    }

    // Tells the other gate, which logs it, that a worker has walked an item.
    fn walked(&self, worker: u32, item: u64) {
        self.0.walked(worker, item);
    }

    // Tells the other gate, which logs it, that a round has ended.
    fn round_ended(&self, progress: Progress) {
        self.0.round_ended(progress);
    }
}
