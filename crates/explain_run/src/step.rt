//! One step of a run, and what it changed.

ghost use Rattle.std.specs.Prelude.{◌≡◌, ◌<◌, ◌+◌, ◌^◌, IfOk, IsTrue, length, take};
ghost use Rattle.guest_code.specs.Program.{Program};
ghost use Rattle.semantics.specs.{Machine.{is_enabled, queue_of}, Reachable.{IsOf, IsValidAction}};
ghost use Rattle.semantics_schedules.specs.Execution.{IsExecutionOf};
ghost use Rattle.explain_run.specs.Steps.{IsTakenStep, held_in, woken_in};

use crate::assignments::{Assignment, Passage, assignments_of};
use crate::object::{Object, ObjectState};
use guest_code::program::Program;
use replay::{Line, act_of};
use semantics::owns;
use semantics::state::{Action, ConditionAction, State};
use semantics_schedules::execution::Execution;
use std::alloc::{AllocError, Global};

/// One step of a run.
#[derive(Drop)]
pub struct Step {
    /// The thread, what it did, whether the switch to it was preempting, and whether it stopped.
    pub line: Line,
    /// The number of the instruction that the step carried out.
    pub instruction: usize,
    /// The number of the instruction that the thread was at after the step, and its local run.
    pub next: usize,
    /// The object that the step is on: of a `wait` the condition.
    pub object: Object,
    /// The state of the object before the step.
    pub old: ObjectState,
    /// The state of the object after the step.
    pub new: ObjectState,
    /// The locals that the thread set, in the step and in the local run after it.
    pub assignments: Vec<Assignment>,
    /// The threads that the step woke, the one that waited longest first.
    pub woken: Vec<u8>,
    /// The mutexes that the thread owned when it took the step, in rising order.
    pub held: Vec<usize>,
}

impl Step {
    /// Takes a step of a thread that is enabled, in `execution`, and answers what the step did, and
    /// what it and the local run after it changed. Fails where memory runs out.
    pub fn take(
        alloc: Global,
        execution: &mut Execution,
        program: &Program,
        thread: u8,
    ) -> Result<Step, AllocError>
        requires of { IsExecutionOf program.now execution.old }
        requires thread { thread < length program.now.threads }
        requires enabled { IsTrue (is_enabled program.now execution.old.state thread) }
        requires room { execution.old.preemptions + 1 < 2 ^ 64 }
        ensures { IfOk result (IsTakenStep program.now execution.old execution.new thread) }
    {
        let state = execution.state();
        let action = state.next_action(program, thread).unwrap();
        let act = act_of(state, program, thread, action);
        let instruction = state.pc(thread);
        let object = Object::of(action);
        let old = object.state_in(state);
        let held = held_by(alloc, state, program, thread)?;
        let woken = woken_by(alloc, state, action)?;
        let preempting = execution.preempts(program, thread);
        let locals = *state.locals(thread);
        execution.step(program, thread);
        let state = execution.state();
        let passage = Passage {
            from: instruction,
            to: state.pc(thread),
            locals,
        };
        let assignments = assignments_of(alloc, program.code(thread), passage, act)?;
        Ok(Step {
            line: Line {
                thread,
                act,
                preempting,
                stop: state.status(thread).stop(),
            },
            instruction,
            next: passage.to,
            object,
            old,
            new: object.state_in(state),
            assignments,
            woken,
            held,
        })
    }
}

// The numbers of the mutexes that a thread owns in a state, in rising order.
fn held_by(
    alloc: Global,
    state: &State,
    program: &Program,
    thread: u8,
) -> Result<Vec<usize>, AllocError>
    requires { IsOf program.now state.now }
    ensures { IfOk result (λ v. v.items ≡ held_in state.now thread) }
{
    let mut held = Vec::new(alloc);
    for m in 0..program.mutexes() as usize {
        if owns(thread, state.owner(m)) {
            held.push(m)?;
        }
    }
    Ok(held)
}

// The threads that an action wakes in a state, the one that waited longest first: of a `signal` one
// at most, of a `broadcast` all that wait for the condition, of any other action none.
fn woken_by(alloc: Global, state: &State, action: Action) -> Result<Vec<u8>, AllocError>
    requires { (p : Program) × IsOf p state.now × IsValidAction p action }
    ensures { IfOk result (λ v. v.items ≡ woken_in state.now action) }
{
    match action {
        Action::OnCondition(c, ConditionAction::Signal) => first_queued(alloc, state, c, 1),
        Action::OnCondition(c, ConditionAction::Broadcast) => {
            first_queued(alloc, state, c, state.queue_len(c))
        }
        _ => Ok(Vec::new(alloc)),
    }
}

// The threads that have waited longest for a condition, the longest first: `most` of them, or all
// where fewer wait.
fn first_queued(
    alloc: Global,
    state: &State,
    condition: usize,
    most: usize,
) -> Result<Vec<u8>, AllocError>
    requires { condition < length state.now.queues }
    ensures { IfOk result (λ v. v.items ≡ take most (queue_of state.now condition)) }
{
    let mut queued = Vec::new(alloc);
    for place in 0..most {
        match state.queued(condition, place) {
            Some(thread) => queued.push(thread)?,
            None => return Ok(queued),
        }
    }
    Ok(queued)
}
