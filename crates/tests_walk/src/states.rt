//! Runs of small programs, each step of which is taken back on the way.

ghost use Rattle.std.specs.Prelude.{IsTrue};
ghost use Rattle.semantics.specs.{Machine.is_enabled, Reachable.IsOf};

use guest_code::lowering::lower;
use guest_code::program::Program;
use guest_syntax::parse;
use semantics::state::{State, Stop};
use semantics::view::Kind;
use std::alloc::{AllocError, Global};
use std::process::Abort;
use std::test::*;

/// A schedule of a program, how it ends, the values of the variables then, and why the first
/// thread stopped, if it did.
struct RunRow {
    text: &'static [u8],
    schedule: &'static [u8],
    kind: Kind,
    values: &'static [i64],
    stop: Option<Stop>,
}

/// Each statement is in one of these. Locals are set, and written by `load`, `add` and `cas`.
const RUNS: [RunRow; 9] = [
    RunRow {
        text: b"var x; thread A { load r x; set r r + 1; store x r; } thread B { load r x; store x 7; }",
        schedule: &[0, 1, 1, 0],
        kind: Kind::Done,
        values: &[1],
        stop: None,
    },
    RunRow {
        text: b"var x = 7; mutex m; thread A { set a 1; set b 2; lock m; cas c x 7 9; set a c + b; add b x a; store x b; unlock m; assert a == 4; } thread B { lock m; }",
        schedule: &[0, 0, 0, 0, 0, 1],
        kind: Kind::Failed,
        values: &[9],
        stop: Some(Stop::Assert),
    },
    RunRow {
        text: b"var x; thread A { repeat 5 { set r r + 1; if r == 3 { leave; } else { set q r; } } store x q; }",
        schedule: &[0],
        kind: Kind::Done,
        values: &[2],
        stop: None,
    },
    // Two threads wait, and both are called.
    RunRow {
        text: b"mutex m; cond c; thread A { lock m; wait c m; unlock m; } thread B { lock m; wait c m; unlock m; } thread C { lock m; broadcast c; unlock m; }",
        schedule: &[0, 0, 1, 1, 2, 2, 2, 1, 1, 0, 0],
        kind: Kind::Done,
        values: &[],
        stop: None,
    },
    // Two threads wait, and one of them is called.
    RunRow {
        text: b"mutex m; cond c; thread A { lock m; wait c m; unlock m; } thread B { lock m; wait c m; unlock m; } thread C { lock m; signal c; unlock m; }",
        schedule: &[0, 0, 1, 1, 2, 2, 2, 0, 0],
        kind: Kind::Stuck,
        values: &[],
        stop: None,
    },
    // A count comes to 0 and back.
    RunRow {
        text: b"sem s = 1; thread A { acquire s; release s; } thread B { acquire s; release s; }",
        schedule: &[0, 0, 1, 1],
        kind: Kind::Done,
        values: &[],
        stop: None,
    },
    RunRow {
        text: b"sem s = 65535; thread A { release s; } thread B { acquire s; }",
        schedule: &[0, 1],
        kind: Kind::Failed,
        values: &[],
        stop: Some(Stop::SemFull),
    },
    RunRow {
        text: b"mutex m; thread A { unlock m; }",
        schedule: &[0],
        kind: Kind::Failed,
        values: &[],
        stop: Some(Stop::NotHeld),
    },
    RunRow {
        text: b"mutex m; cond c; thread A { wait c m; } thread B { signal c; }",
        schedule: &[1, 0],
        kind: Kind::Failed,
        values: &[],
        stop: Some(Stop::NotHeld),
    },
];

// Whether the first mutex, condition and semaphore, where there are any, have the same owner, the
// same first two of a queue and the same count in two states.
fn same_objects(first: &State, second: &State, p: &Program) -> bool
    requires first { IsOf p.now first.now }
    requires second { IsOf p.now second.now }
{
    let owners = p.mutexes() == 0 || first.owner(0) == second.owner(0);
    let counts = p.semaphores() == 0 || first.count(0) == second.count(0);
    let queues = p.conditions() == 0
        || (first.queued(0, 0), first.queued(0, 1)) == (second.queued(0, 0), second.queued(0, 1));
    owners && counts && queues
}

// Whether each thread of a program has the same `pc`, status and locals in two states.
fn same_threads(first: &State, second: &State, p: &Program) -> bool
    requires first { IsOf p.now first.now }
    requires second { IsOf p.now second.now }
{
    for t in 0..p.threads() {
        let same = first.pc(t) == second.pc(t) && first.status(t) == second.status(t);
        if !same || first.locals(t) != second.locals(t) {
            return false;
        }
    }
    true
}

// Whether a copy of the state `before` is as it was after the enabled thread `t` takes a step and
// that is taken back.
fn is_taken_back(alloc: Global, p: &Program, before: &State, t: u8) -> Result<bool, AllocError>
    requires of { IsOf p.now before.now }
    requires enabled { IsTrue (is_enabled p.now before.now t) }
{
    let mut state = before.try_clone(alloc)?;
    let undo = state.step(p, t);
    state.undo(&undo);
    let variables = state.variables() == before.variables();
    Ok(variables && same_objects(&state, before, p) && same_threads(&state, before, p))
}

// Checks that a state ends as the row says, in its end view, too.
fn check_end(
    rt: &impl Abort,
    alloc: Global,
    p: &Program,
    state: &State,
    row: &RunRow,
) -> Result<(), AllocError>
    requires { IsOf p.now state.now }
{
    assert!(rt; p.threads() > 0);
    assert_eq!(rt; state.status(0).stop(), row.stop, "{:?}", row.schedule);
    assert_eq!(rt; state.kind(p), Some(row.kind), "{:?}", row.schedule);
    assert_eq!(rt; row.kind.is_bad(), row.kind != Kind::Done);
    assert_eq!(rt; state.variables(), row.values, "{:?}", row.schedule);
    let view = state.view(alloc, p)?.expect(rt, "an end view");
    assert_eq!(rt; (view.kind(), view.vars()), (row.kind, row.values));
    Ok(())
}

// Checks that each thread of a row's schedule is enabled in its turn, that its step can be taken
// back, and that the schedule ends as the row says.
fn check_run(rt: &impl Abort, alloc: Global, p: &Program, row: &RunRow) -> Result<(), AllocError> {
    let mut state = State::start(alloc, p)?;
    for t in row.schedule {
        assert!(rt; state.enabled(p).has(*t), "{t} of {:?}", row.schedule);
        assert!(rt;
            is_taken_back(alloc, p, &state, *t)?,
            "{t} of {:?}",
            row.schedule
        );
        let _ = state.step(p, *t);
    }
    check_end(rt, alloc, p, &state, row)
}

// The program that a text spells.
fn program_of(alloc: Global, text: &[u8]) -> Result<Program, Fail> {
    let tree = parse(alloc, text)?;
    Ok(lower(alloc, &tree)?)
}

// Each run of `RUNS` ends as its row says, and each of its steps can be taken back.
#[test]
fn steps_are_taken_back(rt: HostRuntime) -> Result<(), Fail> {
    for row in &RUNS {
        let p = program_of(rt.alloc(), row.text)?;
        check_run(&rt, rt.alloc(), &p, row)?;
    }
    Ok(())
}
