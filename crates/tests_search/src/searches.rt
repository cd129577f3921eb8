//! Searches of which a gate keeps a worker waiting, and one by one worker that ends at its limit.

use guest_code::lowering::lower;
use guest_code::program::Program;
use guest_syntax::parse;
use runner::{Gate, Options, Search, explore_text, explore_text_alone, report_text};
use std::alloc::{Alloc, Global};
use std::process::Abort;
use std::sync::atomic::{AtomicU64, Ordering};
use std::sync::{Arc, Wait};
use std::test::*;
use std::thread;
use std::thread::Threads;
use walk::walker::walk;
use walk_items::item::Item;
use walk_items::mode::Mode;

/// How many turns a held worker waits at most; far fewer are enough.
const MOST_TURNS: u64 = 1_000_000;

/// A gate that counts walks, and keeps the worker of the second one waiting until a number of walks
/// have ended, or the worker has waited too long.
#[derive(Drop)]
pub struct HoldingGate {
    /// How many walks have to end before the held worker goes on.
    pub until: u64,
    /// How many walks have ended.
    pub walks: AtomicU64,
    /// 1 where the held worker has waited too long.
    pub late: AtomicU64,
}

impl HoldingGate {
    /// A gate that keeps the worker of the second walk waiting until `until` walks have ended.
    pub fn new(until: u64) -> HoldingGate {
        HoldingGate {
            until,
            walks: AtomicU64::new(0),
            late: AtomicU64::new(0),
        }
    }
}

impl Gate for HoldingGate {
    ghost use Rattle.std.specs.Prelude.{false};

    ghost stops = { λ _. false };

    // Says that the gate never stops a worker.
    fn may_stop(&self) -> bool {
        false
    }

    // Counts a walk that ended. After the second one, holds its worker until `until` walks have
    // ended; after `MOST_TURNS` turns it notes that it is late, and lets the worker go.
    fn walked(&self, _worker: u32, _item: u64) {
        if self.walks.fetch_add(1, Ordering::SeqCst) != 1 {
            return;
        }
        for _ in 0..MOST_TURNS {
            if self.walks.load(Ordering::SeqCst) >= self.until {
                return;
            }
            thread::yield_now();
        }
        self.late.store(1, Ordering::SeqCst);
    }
}

/// Three threads that each store to a variable of their own: six schedules, without a preemption.
const THREE: &str =
    "var x; var y; var z; thread A { store x 1; } thread B { store y 1; } thread C { store z 1; }";

/// The report of a search of `THREE`.
const THREE_CLEAN: &str =
    r#"{"all":true,"bound":0,"ends":[{"kind":"done","vars":[1,1,1]}],"failed":0,"stuck":0,"tried":6,"verdict":"clean"}"#;

/// Four threads that each store to a variable of their own.
const FOUR: &str =
    "var w; var x; var y; var z; thread A { store w 1; } thread B { store x 1; } thread C { store y 1; } thread D { store z 1; }";

/// The report of a search of `FOUR`.
const FOUR_CLEAN: &str =
    r#"{"all":true,"bound":0,"ends":[{"kind":"done","vars":[1,1,1,1]}],"failed":0,"stuck":0,"tried":24,"verdict":"clean"}"#;

/// A search without preemptions that tries one schedule a walk.
const ONE_BY_ONE: Options = Options {
    search: Search::UpTo(0),
    limit: None,
    quota: 1,
    quick: false,
    symmetry: false,
};

// The report, as a text, of a search of a text's program by two workers, one schedule a walk.
fn search_report(
    rt: &(impl Threads + Wait + Sync + Alloc<A = Global>),
    text: &str,
    gate: &HoldingGate,
) -> Result<Vec<u8>, Fail> {
    let alloc = rt.alloc();
    match explore_text(rt, alloc, text.as_bytes(), ONE_BY_ONE, 2, gate) {
        Ok(report) => Ok(report_text(alloc, &report)?),
        Err(_) => Err(Fail::new("the search has no report")),
    }
}

// Checks that a search of a text's program by two workers has the report `want` and makes at least
// `least` walks, and that the gate, which keeps one worker waiting, didn't have to give up waiting.
fn check_holding(
    rt: &(impl Abort + Threads + Wait + Sync + Alloc<A = Global>),
    text: &str,
    gate: &HoldingGate,
    least: u64,
    want: &str,
) -> Result<(), Fail> {
    let found = search_report(rt, text, gate)?;
    assert_eq!(rt; found.as_slice(), want.as_bytes());
    assert_eq!(rt; gate.late.load(Ordering::SeqCst), 0);
    assert!(rt; gate.walks.load(Ordering::SeqCst) >= least);
    Ok(())
}

// The gate keeps the worker of the second walk until three walks have ended, so the other one makes
// the third walk meanwhile. All of `THREE` is searched, in at least four walks.
#[test]
fn two_walks_are_out_at_once(rt: HostRuntime) -> Result<(), Fail> {
    check_holding(&rt, THREE, &HoldingGate::new(3), 4, THREE_CLEAN)
}

// The program that a text spells.
fn program_of(alloc: Global, text: &str) -> Result<Arc<Program>, Fail> {
    let tree = parse(alloc, text.as_bytes())?;
    Ok(Arc::new(alloc, lower(alloc, &tree)?)?)
}

// How many walks of `FOUR` are made in the first two rounds: one of the root, which tries one
// schedule, and one of each item that this walk leaves.
fn count_first_walks(alloc: Global) -> Result<u64, Fail> {
    let root = Item::root(alloc, program_of(alloc, FOUR)?)?;
    let walked = walk(alloc, &root, Mode::Bounded(0), 1)?;
    Ok((walked.rest_len() as u64).saturating_add(1))
}

// The walk of the root of `FOUR` leaves at least six items. The gate keeps the worker of the second
// walk until as many walks have ended as the root and these take, so the other worker makes the
// others meanwhile. All of `FOUR` is searched.
#[test]
fn items_are_not_shared_out_beforehand(rt: HostRuntime) -> Result<(), Fail> {
    let walks = count_first_walks(rt.alloc())?;
    assert!(&rt; walks >= 7);
    check_holding(&rt, FOUR, &HoldingGate::new(walks), walks, FOUR_CLEAN)
}

/// The report of a search of `THREE` that ends at a limit of one schedule.
const LIMITED_TO_ONE: &str =
    r#"{"bound":0,"cause":"limit","ends":[{"kind":"done","vars":[1,1,1]}],"failed":0,"finished":null,"schedule":null,"stuck":0,"tried":1,"verdict":"incomplete"}"#;

// A search of `THREE` by one worker, one schedule a walk, ends at a limit of one schedule.
#[test]
fn one_worker_ends_at_the_limit(rt: HostRuntime) -> Result<(), Fail> {
    let options = Options {
        limit: Some(1),
        ..ONE_BY_ONE
    };
    let Ok(report) = explore_text_alone(rt.alloc(), THREE.as_bytes(), options) else {
        return Err(Fail::new("the search has no report"));
    };
    let text = report_text(rt.alloc(), &report)?;
    assert_eq!(rt; text.as_slice(), LIMITED_TO_ONE.as_bytes());
    Ok(())
}
