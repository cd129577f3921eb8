//! A depth-first exploration of the schedules that sleep sets leave, by steps of one state and by
//! taking them back, which notes what they show of a program.

ghost use Rattle.std.specs.Prelude.{◌<◌, ◌≡◌, length, IfOk, IfSome, OnOk, IsTrue};
ghost use Rattle.semantics.specs.{Machine.is_enabled, Reachable.{IsOf, IsValidAction}};
ghost use Rattle.guest_code.specs.Program.{Program, IsValidCode};
ghost use Rattle.check_lint.specs.inner.Frames.{TakesBack, IsExploration};

use crate::seen::{Seen, SeenStep};
use crate::spin::Spin;
use guest_code::limits::LOCALS;
use guest_code::program::{Instruction, Program};
use semantics::access;
use semantics::mask::Mask;
use semantics::state::{Action, State, Status, Stop};
use semantics::undo::Undo;
use semantics_schedules::independence::sleep_set_after;
use std::alloc::{AllocError, Global};

/// What is kept of a step to go back to the node before it: the sleep set there, the first thread
/// that is still to be tried there, and how to take the step back.
#[derive(Drop)]
pub struct Frame {
    asleep: Mask,
    next: u8,
    undo: Undo,
}

/// Where an exploration is: a state, the frames of the steps that led there and their threads, the
/// sleep set there, and the first thread that is still to be tried there.
#[derive(Drop)]
pub struct Exploration {
    state: State,
    frames: Vec<Frame>,
    path: Vec<u8>,
    asleep: Mask,
    next: u8,
}

/// What the explored schedules have shown, and whether these are all that sleep sets leave.
#[derive(Drop)]
pub struct Explored {
    pub seen: Seen,
    pub is_whole: bool,
}

// The locals of a thread after a step that does this action, and before the local run after it, by
// its locals and the variables' values before the step. Only actions on variables change locals.
fn locals_after(mut locals: [i64; LOCALS], variables: &[i64], action: Action) -> [i64; LOCALS]
    requires { (p : Program) × IsValidAction p action
        × (length variables.now ≡ length p.variables) }
{
    if let Action::OnVariable(variable, action) = action {
        let mut value = variables[variable];
        access(&mut value, &mut locals, action);
    }
    locals
}

// Whether a thread is at a `signal` of a condition for which two threads or more wait in this
// state, so that it matters which of them is woken.
fn is_at_signal_to_many(program: &Program, state: &State, thread: u8) -> bool
    requires of { IsOf program.now state.now }
    requires thread { thread < length program.now.threads }
{
    let Some(Instruction::Signal(condition)) = program.code(thread).get(state.pc(thread)) else {
        return false;
    };
    let mut waiting = 0_u32;
    for other in 0..program.threads() {
        if matches!(state.status(other), Status::Waiting(c) if c as usize == *condition) {
            waiting = waiting.saturating_add(1);
        }
    }
    waiting >= 2
}

// The first thread, from thread `from` on, that is enabled and isn't in the sleep set `asleep`;
// `None` where there is none.
fn next_thread(program: &Program, state: &State, asleep: Mask, from: u8) -> Option<u8>
    requires { IsOf program.now state.now }
    ensures there { IfSome result (λ t. t < length program.now.threads) }
    ensures enabled { IfSome result (λ t. IsTrue (is_enabled program.now state.now t)) }
{
    for thread in from..program.threads() {
        if !asleep.has(thread) && state.is_enabled(program, thread) {
            return Some(thread);
        }
    }
    None
}

// Takes the step that `step` tells of, whose thread is enabled, and notes in `seen` what it and the
// local run after it show. The answer is how to take the step back.
fn step_and_note(
    program: &Program,
    state: &mut State,
    seen: &mut Seen,
    step: SeenStep<'_>,
) -> Result<Undo, AllocError>
    requires of { IsOf program.now state.old }
    requires thread { step.thread < length program.now.threads }
    requires enabled { IsTrue (is_enabled program.now state.old step.thread) }
    requires code { (p : Program) × IsValidCode p step.code.now }
    ensures { IfOk result (λ u. TakesBack program.now u state.old state.new) }
{
    let thread = step.thread;
    let at = state.pc(thread);
    let action = state.next_action(program, thread).unwrap();
    let locals = locals_after(*state.locals(thread), state.variables(), action);
    if is_at_signal_to_many(program, state, thread) {
        seen.note_signal_to_many(step, at)?;
    }
    let undo = state.step(program, thread);
    // Where the thread waits, or stopped at the step itself, no local run followed the step.
    let has_run_locally = !matches!(
        state.status(thread),
        Status::Waiting(_) | Status::Stopped(Stop::NotHeld | Stop::SemFull)
    );
    if has_run_locally {
        seen.note_after_step(step, at, locals)?;
    }
    Ok(undo)
}

// Notes in `seen` what the local run of each thread before the first step shows. `spins` are the
// loops that a `leave` may end.
fn note_initial_runs(program: &Program, seen: &mut Seen, spins: &[Spin]) -> Result<(), AllocError> {
    for thread in 0..program.threads() {
        let step = SeenStep {
            spins,
            path: &[],
            thread,
            code: program.code(thread),
        };
        seen.note_local_run(step, 0, [0; LOCALS])?;
    }
    Ok(())
}

impl Exploration {
    // An exploration at the initial state of a program, where no thread sleeps or was tried yet.
    fn new(alloc: Global, program: &Program) -> Result<Exploration, AllocError>
        ensures { IfOk result (IsExploration program.now) }
    {
        Ok(Exploration {
            state: State::start(alloc, program)?,
            frames: Vec::new(alloc),
            path: Vec::new(alloc),
            asleep: Mask::empty(),
            next: 0,
        })
    }

    // Goes on by a step of an enabled thread to the node after it, with the sleep set there and no
    // thread tried there yet. Notes in `seen` what the step, and the local run after it, show.
    // `spins` are the loops that a `leave` may end.
    fn advance(
        &mut self,
        program: &Program,
        seen: &mut Seen,
        spins: &[Spin],
        thread: u8,
    ) -> Result<(), AllocError>
        requires exploration { IsExploration program.now self.old }
        requires thread { thread < length program.now.threads }
        requires enabled { IsTrue (is_enabled program.now self.old.state thread) }
        ensures { OnOk result (IsExploration program.now self.new) }
    {
        let enabled = self.state.enabled(program);
        let asleep = sleep_set_after(program, &self.state, enabled, self.asleep, thread);
        self.path.push(thread)?;
        let step = SeenStep {
            spins,
            path: self.path.as_slice(),
            thread,
            code: program.code(thread),
        };
        let undo = step_and_note(program, &mut self.state, seen, step)?;
        self.frames.push(Frame {
            asleep: self.asleep,
            next: thread + 1,
            undo,
        })?;
        self.asleep = asleep;
        self.next = 0;
        Ok(())
    }

    // Goes back to the node before the last step, by taking the step back, and answers true. False
    // where no step is left to take back: the exploration is at the initial state.
    fn backtrack(&mut self, program: &Program) -> bool
        requires { IsExploration program.now self.old }
        ensures { IsExploration program.now self.new }
    {
        let Some(frame) = self.frames.pop() else {
            return false;
        };
        self.state.undo(&frame.undo);
        self.asleep = frame.asleep;
        self.next = frame.next;
        let _ = self.path.pop();
        true
    }
}

/// Explores, depth first, the schedules that sleep sets leave and those that they cut short, up to
/// `limit` of them. Answers what they show, and whether they are all. `spins` are the loops that a
/// `leave` may end. Fails where memory runs out.
pub fn explore(
    alloc: Global,
    program: &Program,
    spins: &[Spin],
    limit: u64,
) -> Result<Explored, AllocError> {
    let mut seen = Seen::new(alloc, program, spins.len())?;
    note_initial_runs(program, &mut seen, spins)?;
    let mut dfs = Exploration::new(alloc, program)?;
    let mut left = limit;
    let mut is_whole = false;
    'ends: for _ in 0..u64::MAX {
        if let Some(thread) = next_thread(program, &dfs.state, dfs.asleep, dfs.next) {
            if left == 0 {
                break;
            }
            dfs.advance(program, &mut seen, spins, thread)?;
            continue;
        }
        // Where no thread was tried, a schedule ends or is cut short; else all threads were tried.
        if dfs.next == 0 {
            left = left.saturating_sub(1);
        }
        if !dfs.backtrack(program) {
            is_whole = true;
            break;
        }
    }
    Ok(Explored { seen, is_whole })
}
