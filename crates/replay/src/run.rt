//! The run of a schedule: what each step did, and where it leads.

ghost use Rattle.std.specs.Prelude.{◌≡◌, ◌+◌, ◌^◌, ◌<◌, length, All, IfOk, MatchResult};
ghost use Rattle.guest_code.specs.Program.{Program};
ghost use Rattle.semantics.specs.{Ends.is_stopped, Reachable.{IsOf, IsValidAction, IsValidAccess}};
ghost use Rattle.semantics.specs.declared.state.Action.TheVariants.{OnVariable};
ghost use Rattle.semantics_schedules.specs.Execution.{IsExecutionOf};
ghost use Rattle.replay.specs.Run.{act_of, stopped_in, IsRunOf, ReplayErrorMeans};
ghost use Rattle.replay.specs.{Trace.{IsValidAct, IsValidRun}, inner.Step.{IsStepOf, RefusalMeans}};

use crate::error::ReplayError;
use guest_code::program::Program;
use semantics::state::{
    Action, ConditionAction, MutexAction, SemaphoreAction, State, Status, Stop, VariableAction,
};
use semantics::view::Kind;
use semantics_schedules::execution::Execution;
use std::alloc::{AllocError, Global};
use std::marker::Model;

/// What a step did, and with which object. Objects go by their numbers, each kind counted from 0
/// in the order of declaration.
#[derive(Clone, Copy, PartialEq, Eq)]
pub enum Act {
    /// The value is the one read.
    Load {
        variable: usize,
        value: i64,
    },
    /// The value is the one stored.
    Store {
        variable: usize,
        value: i64,
    },
    /// The values before and after the step.
    Add {
        variable: usize,
        old: i64,
        new: i64,
    },
    /// The value before the step, and the one stored where that was the expected one.
    Cas {
        variable: usize,
        old: i64,
        hit: Option<i64>,
    },
    /// The mutex was taken.
    Lock(usize),
    /// The mutex was given back, or the thread stopped, since it didn't own the mutex.
    Unlock(usize),
    /// The first step of a `wait`: the thread gave the mutex back and waits, or it stopped, since
    /// it didn't own the mutex.
    Wait {
        condition: usize,
        mutex: usize,
    },
    /// The second step of a `wait`: the thread took the mutex again.
    Retake(usize),
    /// The thread that waited longest was woken, if one waited.
    Signal(usize),
    /// All threads that waited were woken.
    Broadcast(usize),
    /// The count fell by 1.
    Acquire(usize),
    /// The count rose by 1, or the thread stopped, since the count was at its limit.
    Release(usize),
}

/// One step of a run.
#[derive(Clone, Copy, PartialEq, Eq)]
pub struct Line {
    /// The thread, by its number.
    pub thread: u8,
    /// What the thread did.
    pub act: Act,
    /// Whether the switch to this step was preempting: another thread took the step before it, and
    /// is still enabled.
    pub preempting: bool,
    /// Why the thread stopped, if it did so in this step or in its own instructions after it.
    pub stop: Option<Stop>,
}

/// The run of a schedule: what each step did, and where the last one led.
#[derive(Drop)]
pub struct Run {
    stopped: Vec<u8>,
    lines: Vec<Line>,
    preemptions: usize,
    variables: Vec<i64>,
    kind: Option<Kind>,
}

impl Model for Run {
    ghost use Rattle.replay.specs.Run as model;

    ghost Value = { model.Run };

    ghost view = { λ run. record {
      stopped = run.stopped.items;
      lines = run.lines.items;
      preemptions = run.preemptions;
      vars = run.variables.items;
      kind = run.kind;
    } };
}

impl Run {
    /// The threads that stopped at the start, before any step, in rising order.
    pub fn stopped(&self) -> &[u8]
        ensures { result.now ≡ self.now.stopped }
    {
        self.stopped.as_slice()
    }

    /// What each step did, in the order of the schedule.
    pub fn lines(&self) -> &[Line]
        ensures { result.now ≡ self.now.lines }
    {
        self.lines.as_slice()
    }

    /// How many preemptions: switches to another thread from one that was still enabled.
    pub fn preemptions(&self) -> usize
        ensures { result ≡ self.now.preemptions }
    {
        self.preemptions
    }

    /// The values of the variables after the last step.
    pub fn variables(&self) -> &[i64]
        ensures { result.now ≡ self.now.vars }
    {
        self.variables.as_slice()
    }

    /// How the schedule ends (done, failed or stuck); `None` where it isn't complete.
    pub fn kind(&self) -> Option<Kind>
        ensures { result ≡ self.now.kind }
    {
        self.kind
    }
}

/// The run of a schedule from the initial state of a program: each of its steps is taken in order.
///
/// # Errors
///
/// `NoSuchThread` or `NotEnabled` with the first place of the schedule, counted from 0, whose
/// thread doesn't exist or isn't enabled there; `OutOfMemory` where memory runs out.
pub fn replay(alloc: Global, program: &Program, schedule: &[u8]) -> Result<Run, ReplayError>
    ensures value { MatchResult result
        (IsRunOf program.now schedule.now) (ReplayErrorMeans program.now schedule.now) }
    ensures valid { IfOk result (IsValidRun program.now) }
{
    let mut execution = Execution::start(alloc, program)?;
    let stopped = stopped_threads(alloc, program, execution.state())?;
    let mut lines = Vec::new(alloc);
    for (at, thread) in schedule.iter().enumerate() {
        let line = take_step(&mut execution, program, at, *thread)?;
        lines.push(line)?;
    }
    Ok(Run {
        stopped,
        lines,
        preemptions: execution.preemptions(),
        variables: execution.state().variables().to_vec(alloc)?,
        kind: execution.state().kind(program),
    })
}

// The threads that have stopped in a state, by rising numbers.
fn stopped_threads(alloc: Global, program: &Program, state: &State) -> Result<Vec<u8>, AllocError>
    requires { IsOf program.now state.now }
    ensures value { IfOk result (λ v. v.items ≡ stopped_in state.now) }
    ensures threads { IfOk result (λ v. All (λ t. t < length program.now.threads) v.items) }
{
    let mut stopped = Vec::new(alloc);
    for t in 0..program.threads() {
        if has_stopped(state.status(t)) {
            stopped.push(t)?;
        }
    }
    Ok(stopped)
}

// Whether a thread of this status has stopped.
fn has_stopped(status: Status) -> bool
    ensures { result ≡ is_stopped status }
{
    matches!(status, Status::Stopped(_))
}

// Takes a step of the thread that is at the place `at` of a schedule, and answers what the step
// did. Where there is no such thread, or it isn't enabled, the answer is an error with that place.
fn take_step(
    execution: &mut Execution,
    program: &Program,
    at: usize,
    thread: u8,
) -> Result<Line, ReplayError>
    requires of { IsExecutionOf program.now execution.old }
    requires room { execution.old.preemptions + 1 < 2 ^ 64 }
    ensures { MatchResult result
        (IsStepOf program.now execution.old execution.new thread)
        (RefusalMeans program.now execution.old.state at thread) }
{
    if thread >= program.threads() {
        return Err(ReplayError::NoSuchThread(at));
    }
    if !execution.state().is_enabled(program, thread) {
        return Err(ReplayError::NotEnabled(at));
    }
    let action = execution.state().next_action(program, thread).unwrap();
    let act = act_of(execution.state(), program, thread, action);
    let preempting = execution.preempts(program, thread);
    execution.step(program, thread);
    Ok(Line {
        thread,
        act,
        preempting,
        stop: execution.state().status(thread).stop(),
    })
}

/// What a thread's next step, which has this action, will do from this state, with the values that
/// it reads and stores.
pub fn act_of(state: &State, program: &Program, thread: u8, action: Action) -> Act
    requires of { IsOf program.now state.now }
    requires thread { thread < length program.now.threads }
    requires action { IsValidAction program.now action }
    ensures value { result ≡ act_of state.now thread action }
    ensures valid { IsValidAct program.now result }
{
    match action {
        Action::OnVariable(x, action) => act_on_variable(state, thread, x, action),
        Action::OnMutex(m, MutexAction::Lock) => Act::Lock(m),
        Action::OnMutex(m, MutexAction::Unlock) => Act::Unlock(m),
        Action::OnMutex(m, MutexAction::Retake) => Act::Retake(m),
        Action::Wait(condition, mutex) => Act::Wait { condition, mutex },
        Action::OnCondition(c, ConditionAction::Signal) => Act::Signal(c),
        Action::OnCondition(c, ConditionAction::Broadcast) => Act::Broadcast(c),
        Action::OnSemaphore(k, SemaphoreAction::Acquire) => Act::Acquire(k),
        Action::OnSemaphore(k, SemaphoreAction::Release) => Act::Release(k),
    }
}

// What a thread's next step, which has this action on a variable, will do from this state, with the
// values that it reads and stores.
fn act_on_variable(state: &State, thread: u8, variable: usize, action: VariableAction) -> Act
    requires thread { thread < length state.now.threads }
    requires variable { variable < length state.now.vars }
    requires access { IsValidAccess action }
    ensures { result ≡ act_of state.now thread (OnVariable variable action) }
{
    let old = state.variables()[variable];
    match action {
        VariableAction::Load(_) => Act::Load {
            variable,
            value: old,
        },
        VariableAction::Store(value) => Act::Store {
            variable,
            value: state.value_of(thread, value),
        },
        VariableAction::Add(_, value) => Act::Add {
            variable,
            old,
            new: old.wrapping_add(state.value_of(thread, value)),
        },
        VariableAction::Cas(_, expected, new) => Act::Cas {
            variable,
            old,
            hit: (old == state.value_of(thread, expected)).then_some(state.value_of(thread, new)),
        },
    }
}
