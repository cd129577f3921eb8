//! The explanation of a schedule, as a value.

ghost use Rattle.std.specs.Prelude.{◌≡◌, ◌<◌, length, Option, Some, None, IfOk, take, slice_get, slice_index_or};
ghost use Rattle.std.specs.Option.{option_copied};
ghost use Rattle.semantics.specs.{Machine.is_enabled, Reachable.IsOf};
ghost use Rattle.explain_run.specs.Blocked.{reason_of};
ghost use Rattle.explain_run.specs.Explains.{Explains, TellsOpening, TellsThreads};
ghost use Rattle.explain_run.specs.inner.Carrying.{IsCarriedOut, AreHoldersAfter, holder_after};

use crate::assignments::{Assignment, run_and_push_assignments};
use crate::step::Step;
use crate::thread_state::{Reason, ThreadState};
use guest_code::limits::LOCALS;
use guest_code::program::Program;
use semantics::state::{State, Stop};
use semantics::view::Kind;
use semantics_schedules::execution::Execution;
use std::alloc::{AllocError, Global};

/// The thread that owns a mutex, and since which step.
#[derive(Clone, Copy, PartialEq, Eq)]
pub struct Holder {
    /// The thread, by its number.
    pub thread: u8,
    /// The place of the step by which the thread took the mutex.
    pub since: usize,
}

/// A thread before the first step of a schedule.
#[derive(Drop)]
pub struct Start {
    /// The locals that the thread set in its local run from its first instruction on.
    pub assignments: Vec<Assignment>,
    /// The number of the instruction that the thread is at after that local run.
    pub next: usize,
    /// Why the thread stopped in that local run; `None` where it didn't.
    pub stop: Option<Stop>,
}

/// A schedule as far as it runs: its steps, and the threads and mutexes where it leads.
#[derive(Drop)]
pub struct Explanation {
    schedule: Vec<u8>,
    steps: Vec<Step>,
    starts: Vec<Start>,
    thread_states: Vec<ThreadState>,
    holders: Vec<Option<Holder>>,
    variables: Vec<i64>,
    preemptions: usize,
    kind: Option<Kind>,
    refused: Option<u8>,
}

impl Explanation {
    /// The explanation of a schedule, which is carried out from the start, to its end or up to a
    /// step of a thread that isn't enabled. Fails where memory runs out.
    pub fn new(alloc: Global, program: &Program, schedule: &[u8]) -> Result<Explanation, AllocError>
        ensures { IfOk result (Explains program.now schedule.now) }
    {
        let run = Run::new(alloc, program, schedule)?;
        let state = run.execution.state();
        let thread_states = thread_states_in(alloc, state, program)?;
        let kind = state.kind(program);
        let preemptions = run.execution.preemptions();
        let starts = starts_of(alloc, program)?;
        let variables = state.variables().to_vec(alloc)?;
        Ok(Explanation {
            schedule: schedule.to_vec(alloc)?,
            steps: run.steps,
            starts,
            thread_states,
            holders: run.holders,
            variables,
            preemptions,
            kind,
            refused: run.refused,
        })
    }

    /// The whole schedule that is explained, also its steps that weren't taken: the first step of a
    /// thread that isn't enabled, and all steps after it.
    pub fn schedule(&self) -> &[u8]
        ensures { result.now ≡ self.now.schedule.items }
    {
        self.schedule.as_slice()
    }

    /// The start of each thread, by number: its local run before the first step of the schedule.
    pub fn starts(&self) -> &[Start]
        ensures { result.now ≡ self.now.starts.items }
    {
        self.starts.as_slice()
    }

    /// The steps of the schedule that were taken, in their order.
    pub fn steps(&self) -> &[Step]
        ensures { result.now ≡ self.now.steps.items }
    {
        self.steps.as_slice()
    }

    /// The state of each thread, by number, after the last step that was taken.
    pub fn thread_states(&self) -> &[ThreadState]
        ensures { result.now ≡ self.now.thread_states.items }
    {
        self.thread_states.as_slice()
    }

    /// For each mutex, by number, the thread that owns it after the last step that was taken, and
    /// since which step; `None` for a mutex that nobody owns.
    pub fn holders(&self) -> &[Option<Holder>]
        ensures { result.now ≡ self.now.holders.items }
    {
        self.holders.as_slice()
    }

    /// The value of each variable, by number, after the last step that was taken.
    pub fn variables(&self) -> &[i64]
        ensures { result.now ≡ self.now.variables.items }
    {
        self.variables.as_slice()
    }

    /// How many preemptions the schedule has, in the steps that were taken.
    pub fn preemptions(&self) -> usize
        ensures { result ≡ self.now.preemptions }
    {
        self.preemptions
    }

    /// How the steps that were taken end: done, failed or stuck; `None` where a thread is still
    /// enabled after the last one.
    pub fn kind(&self) -> Option<Kind>
        ensures { result ≡ self.now.kind }
    {
        self.kind
    }

    /// The number of a thread that isn't enabled after the last step that was taken, though the
    /// schedule has it step next; `None` where all steps of the schedule were taken.
    pub fn refused(&self) -> Option<u8>
        ensures { result ≡ self.now.refused }
    {
        self.refused
    }

    /// The state of a thread after the last step that was taken; `None` where no thread has this
    /// number.
    pub fn thread_state(&self, thread: u8) -> Option<&ThreadState>
        ensures { option_copied result ≡ slice_get self.now.thread_states.items thread }
    {
        self.thread_states.get(thread as usize)
    }

    /// What a thread waits for after the last step that was taken; `None` where no thread of this
    /// number is blocked.
    pub fn reason(&self, thread: u8) -> Option<Reason>
        ensures { result ≡ reason_of (slice_get self.now.thread_states.items thread) }
    {
        self.thread_states.get(thread as usize)?.reason
    }

    /// The thread that owns a mutex after the last step that was taken, and since which step;
    /// `None` where nobody owns it, or there is no such mutex.
    pub fn holder(&self, mutex: usize) -> Option<Holder>
        ensures { result ≡ slice_index_or self.now.holders.items mutex None }
    {
        self.holders.get(mutex).copied().flatten()
    }
}

// A schedule carried out up to its end, or to a step of a thread that isn't enabled: where that
// leads, its steps, who owns each mutex, and that thread.
#[derive(Drop)]
struct Run {
    execution: Execution,
    steps: Vec<Step>,
    holders: Vec<Option<Holder>>,
    refused: Option<u8>,
}

impl Run {
    // The run of a schedule, which is carried out from the start, to its end or up to a step of a
    // thread that isn't enabled; `refused` is then the number of this thread, else `None`.
    fn new(alloc: Global, program: &Program, schedule: &[u8]) -> Result<Run, AllocError>
        ensures { IfOk result (IsCarriedOut program.now schedule.now) }
    {
        program.keeps_limits();
        let mut execution = Execution::start(alloc, program)?;
        let mut holders = vec![in alloc; None; program.mutexes() as usize]?;
        let mut steps = Vec::new(alloc);
        for (at, thread) in schedule.iter().enumerate() {
            if can_step(execution.state(), program, *thread) {
                let step = Step::take(alloc, &mut execution, program, *thread)?;
                steps.push(step)?;
                update_holders(&mut holders, execution.state(), at);
            } else {
                return Ok(Run {
                    execution,
                    steps,
                    holders,
                    refused: Some(*thread),
                });
            }
        }
        Ok(Run {
            execution,
            steps,
            holders,
            refused: None,
        })
    }
}

// Whether a thread is enabled in a state; false where the program has no thread of this number.
fn can_step(state: &State, program: &Program, thread: u8) -> bool
    requires { IsOf program.now state.now }
    ensures { result ≡ is_enabled program.now state.now thread }
{
    thread < program.threads() && state.is_enabled(program, thread)
}

// Brings the holders of all mutexes up to date after the step at place `at` of the schedule, which
// led to `state`: `holders` has, by mutex number, who owned each before it, and since which step.
fn update_holders(holders: &mut [Option<Holder>], state: &State, at: usize)
    requires { length holders.old ≡ length state.now.owners }
    ensures { AreHoldersAfter holders.old holders.new state.now at }
{
    for m in 0..holders.len() {
        holders[m] = holder_after(holders[m], state.owner(m), at);
    }
}

// The holder of a mutex after the step at place `at`: `owner` is the thread that owns it then, and
// `holder` who held it before the step. The same holder if the thread is the same, else the thread
// since this step. `None` where `owner` is `None`: nobody owns the mutex.
fn holder_after(holder: Option<Holder>, owner: Option<u8>, at: usize) -> Option<Holder>
    ensures { result ≡ holder_after holder owner at }
{
    let thread = owner?;
    match holder {
        Some(holder) if holder.thread == thread => Some(holder),
        _ => Some(Holder { thread, since: at }),
    }
}

// The state of each thread, by number, in a state of the program.
fn thread_states_in(
    alloc: Global,
    state: &State,
    program: &Program,
) -> Result<Vec<ThreadState>, AllocError>
    requires { IsOf program.now state.now }
    ensures { IfOk result (λ v. TellsThreads program.now state.now v.items) }
{
    let mut thread_states = Vec::new(alloc);
    for t in 0..program.threads() {
        thread_states.push(ThreadState::of(state, program, t))?;
    }
    Ok(thread_states)
}

// The start of each thread of a program, by number: what it did in its local run before the first
// step, and where that led.
fn starts_of(alloc: Global, program: &Program) -> Result<Vec<Start>, AllocError>
    ensures { IfOk result (λ v. TellsOpening program.now v.items) }
{
    let state = State::start(alloc, program)?;
    let mut starts = Vec::new(alloc);
    for t in 0..program.threads() {
        let mut assignments = Vec::new(alloc);
        run_and_push_assignments(&mut assignments, program.code(t), &mut [0; LOCALS], 0)?;
        starts.push(Start {
            assignments,
            next: state.pc(t),
            stop: state.status(t).stop(),
        })?;
    }
    Ok(starts)
}
