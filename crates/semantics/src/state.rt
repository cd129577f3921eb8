//! States of a program: the initial one, what can be read of a state, and who can take a step.

ghost use Rattle.std.specs.Prelude.{◌≡◌, ◌<◌, Some, length, slice_get, IfOk, IfSome};
ghost use Rattle.std.specs.List.{list_any, list_all};
ghost use Rattle.guest_code.specs.Program.{Program, IsValidValue};
ghost use Rattle.semantics.specs.Ends.{is_terminal, kind_of, view_of, final_kind, is_stopped, is_ended, stop_of};
ghost use Rattle.semantics.specs.Machine.{start, can_do, is_enabled, next_of, thread_at, owner_of, queue_of, count_of, value_of_operand};
ghost use Rattle.semantics.specs.{Mask.HasEnabled, Reachable.{IsOf, IsValidAction, StandsInCode}};

pub(crate) mod objects;
mod steps;

use crate::action::action_at;
use crate::initial::{initial_counts, initial_threads, initial_values};
use crate::local::operand_value;
use crate::mask::Mask;
use crate::queue::Queue;
use crate::view::{EndView, Kind};
use guest_code::limits::LOCALS;
use guest_code::program::{Program, Value};
use std::alloc::{AllocError, Global};
use std::marker::Model;

/// Why a thread stopped.
#[derive(Clone, Copy, Debug, PartialEq, Eq)]
pub enum Stop {
    /// The expression of an `assert` was 0.
    Assert,
    /// An `unlock` or a `wait` with a mutex that the thread doesn't own.
    NotHeld,
    /// A `release` of a semaphore whose count was `COUNT`.
    SemFull,
}

/// Whether a thread runs, waits, has to take its mutex again, ended or stopped.
#[derive(Clone, Copy, PartialEq, Eq)]
pub enum Status {
    /// The thread is at a visible statement.
    Running,
    /// A signal or a broadcast called the thread, which has to take its mutex again.
    Woken,
    /// The thread is in the queue of the condition of this number.
    Waiting(u8),
    /// The thread ran to the end of its code.
    Ended,
    /// The thread takes no further step, and keeps the mutexes that it owns.
    Stopped(Stop),
}

impl Status {
    /// Why a thread of this status stopped; `None` for a status other than `Stopped`.
    pub fn stop(self) -> Option<Stop>
        ensures { result ≡ stop_of self }
    {
        match self {
            Status::Stopped(why) => Some(why),
            Status::Running | Status::Waiting(_) | Status::Woken | Status::Ended => None,
        }
    }
}

/// Where in its code a thread is, its locals, and its status.
#[derive(Clone, Copy)]
pub struct Thread {
    /// The number of the instruction that the thread is at; where it ended, the length of its code.
    pub pc: usize,
    /// The values of the thread's locals; those that it doesn't have stay 0.
    pub locals: [i64; LOCALS],
    pub status: Status,
}

/// What a step does with a variable.
#[derive(Clone, Copy, PartialEq, Eq)]
pub enum VariableAction {
    /// The local of this number becomes the variable's value.
    Load(usize),
    /// The variable becomes this value.
    Store(Value),
    /// The local of this number becomes the variable's old value, and the variable the sum of that
    /// and this value.
    Add(usize, Value),
    /// Where the variable equals the first value it becomes the second one, and the local of this
    /// number 1; else the local becomes 0.
    Cas(usize, Value, Value),
}

/// What a step does with a mutex alone.
#[derive(Clone, Copy, PartialEq, Eq)]
pub enum MutexAction {
    Lock,
    Unlock,
    /// A woken thread takes the mutex of its `wait` again.
    Retake,
}

/// What a step does with a condition alone.
#[derive(Clone, Copy, PartialEq, Eq)]
pub enum ConditionAction {
    /// The thread that has waited longest is woken.
    Signal,
    /// All threads that wait are woken.
    Broadcast,
}

/// What a step does with a semaphore.
#[derive(Clone, Copy, PartialEq, Eq)]
pub enum SemaphoreAction {
    /// The count falls by 1.
    Acquire,
    /// The count rises by 1.
    Release,
}

/// What the next step of a thread does, and with which object, by its number.
#[derive(Clone, Copy, PartialEq, Eq)]
pub enum Action {
    OnVariable(usize, VariableAction),
    OnMutex(usize, MutexAction),
    /// The first step of a `wait` for this condition with this mutex.
    Wait(usize, usize),
    OnCondition(usize, ConditionAction),
    OnSemaphore(usize, SemaphoreAction),
}

/// A state of a program: the values of its variables, the owner of each mutex, the queue of each
/// condition, the count of each semaphore, and its threads.
#[derive(Drop)]
pub struct State {
    variables: Vec<i64>,
    owners: Vec<Option<u8>>,
    queues: Vec<Queue>,
    counts: Vec<u16>,
    threads: Vec<Thread>,
}

impl Model for State {
    ghost use Rattle.semantics.specs.Machine.{Snapshot};

    ghost Value = { Snapshot };

    ghost view = { λ s. record {
      vars = s.variables.items;
      owners = s.owners.items;
      queues = s.queues.items;
      counts = s.counts.items;
      threads = s.threads.items;
    } };
}

impl State {
    /// The initial state of a program: values and counts as declared, mutexes free, queues empty,
    /// and each thread after its first local run, up to a visible statement, its end or a failed
    /// assertion. Fails where memory runs out.
    pub fn start(alloc: Global, program: &Program) -> Result<State, AllocError>
        ensures value { IfOk result (λ s. s ≡ start program.now) }
        ensures of { IfOk result (λ s. IsOf program.now s) }
    {
        Ok(State {
            variables: initial_values(alloc, program)?,
            owners: vec![in alloc; None; program.mutexes() as usize]?,
            queues: vec![in alloc; Queue::new(); program.conditions() as usize]?,
            counts: initial_counts(alloc, program)?,
            threads: initial_threads(alloc, program)?,
        })
    }

    /// A copy of the state. Fails where memory runs out.
    pub fn try_clone(&self, alloc: Global) -> Result<State, AllocError>
        ensures { IfOk result (λ s. s ≡ self.now) }
    {
        Ok(State {
            variables: self.variables().to_vec(alloc)?,
            owners: self.owners.as_slice().to_vec(alloc)?,
            queues: self.queues.as_slice().to_vec(alloc)?,
            counts: self.counts.as_slice().to_vec(alloc)?,
            threads: self.threads.as_slice().to_vec(alloc)?,
        })
    }

    /// The values of the variables, in the order of the variables' numbers.
    pub fn variables(&self) -> &[i64]
        ensures { result.now ≡ self.now.vars }
    {
        self.variables.as_slice()
    }

    /// The thread that owns a mutex; `None` where the mutex is free.
    pub fn owner(&self, mutex: usize) -> Option<u8>
        requires { mutex < length self.now.owners }
        ensures { result ≡ owner_of self.now mutex }
    {
        self.owners[mutex]
    }

    /// How many threads are in the queue of a condition.
    pub fn queue_len(&self, condition: usize) -> usize
        requires { condition < length self.now.queues }
        ensures { result ≡ length (queue_of self.now condition) }
    {
        self.queues[condition].threads().len()
    }

    /// The thread at the index `place` of a condition's queue, in which the thread that waits
    /// longest has index 0; `None` where the queue ends before that index.
    pub fn queued(&self, condition: usize, place: usize) -> Option<u8>
        requires { condition < length self.now.queues }
        ensures { result ≡ slice_get (queue_of self.now condition) place }
    {
        self.queues[condition].threads().get(place).copied()
    }

    /// The count of a semaphore.
    pub fn count(&self, semaphore: usize) -> u16
        requires { semaphore < length self.now.counts }
        ensures { result ≡ count_of self.now semaphore }
    {
        self.counts[semaphore]
    }

    /// The number of the instruction that a thread is at; where it ended, the length of its code.
    pub fn pc(&self, thread: u8) -> usize
        requires { thread < length self.now.threads }
        ensures { result ≡ (thread_at self.now thread).pc }
    {
        self.threads[thread as usize].pc
    }

    /// The values of a thread's locals, `LOCALS` of them; those that the thread doesn't have are 0.
    pub fn locals(&self, thread: u8) -> &[i64; LOCALS]
        requires { thread < length self.now.threads }
        ensures { result.now ≡ (thread_at self.now thread).locals }
    {
        &self.threads[thread as usize].locals
    }

    /// Whether a thread runs, waits, has to take its mutex again, ended or stopped.
    pub fn status(&self, thread: u8) -> Status
        requires { thread < length self.now.threads }
        ensures { result ≡ (thread_at self.now thread).status }
    {
        self.threads[thread as usize].status
    }

    /// The value of the operand `value` in a thread: that of its local, or the literal itself.
    pub fn value_of(&self, thread: u8, value: Value) -> i64
        requires thread { thread < length self.now.threads }
        requires fine { IsValidValue value }
        ensures { result ≡ value_of_operand (thread_at self.now thread).locals value }
    {
        operand_value(self.locals(thread), value)
    }

    /// What the next step of a thread does, whether or not the thread is enabled; `None` where the
    /// thread waits for a condition, has ended or has stopped.
    pub fn next_action(&self, program: &Program, thread: u8) -> Option<Action>
        requires of { IsOf program.now self.now }
        requires thread { thread < length program.now.threads }
        ensures value { result ≡ next_of program.now self.now thread }
        ensures fine { IfSome result (IsValidAction program.now) }
        ensures pc { IfSome result (λ _. StandsInCode program.now self.now thread) }
    {
        let runner = &self.threads[thread as usize];
        match program.code(thread).get(runner.pc) {
            Some(instruction) => action_at(runner.status, instruction),
            None => None,
        }
    }

    /// Whether a thread has a next step, and needn't wait for a mutex or a semaphore to take it.
    pub fn is_enabled(&self, program: &Program, thread: u8) -> bool
        requires of { IsOf program.now self.now }
        requires thread { thread < length program.now.threads }
        ensures { result ≡ is_enabled program.now self.now thread }
    {
        match self.next_action(program, thread) {
            Some(action) => self.objects_allow(action),
            None => false,
        }
    }

    // Whether the objects allow a step with this action: the mutex that it takes is free, or the
    // semaphore that it acquires has a count above 0. Any other action is always allowed.
    fn objects_allow(&self, action: Action) -> bool
        requires { (p : Program) × IsOf p self.now × IsValidAction p action }
        ensures { result ≡ can_do self.now (Some action) }
    {
        match action {
            Action::OnMutex(m, MutexAction::Lock | MutexAction::Retake) => self.owners[m].is_none(),
            Action::OnSemaphore(k, SemaphoreAction::Acquire) => self.counts[k] > 0,
            Action::OnVariable(_, _)
            | Action::OnMutex(_, MutexAction::Unlock)
            | Action::Wait(_, _)
            | Action::OnCondition(_, _)
            | Action::OnSemaphore(_, SemaphoreAction::Release) => true,
        }
    }

    /// The set of the enabled threads, those that can take a step in this state.
    pub fn enabled(&self, program: &Program) -> Mask
        requires { IsOf program.now self.now }
        ensures { HasEnabled result program.now self.now }
    {
        let mut mask = Mask::empty();
        for t in 0..program.threads() {
            mask = mask.with(t, self.is_enabled(program, t));
        }
        mask
    }

    // Whether the state is terminal: no thread is enabled in it.
    fn is_terminal(&self, program: &Program) -> bool
        requires { IsOf program.now self.now }
        ensures { result ≡ is_terminal program.now self.now }
    {
        for t in 0..program.threads() {
            if self.is_enabled(program, t) {
                return false;
            }
        }
        true
    }

    /// The kind of end that this state is: done where all threads ended, else failed where one
    /// stopped, else stuck. `None` where it is no end, since a thread can still take a step.
    pub fn kind(&self, program: &Program) -> Option<Kind>
        requires { IsOf program.now self.now }
        ensures { result ≡ kind_of program.now self.now }
    {
        if self.is_terminal(program) {
            Some(final_kind(self.threads.as_slice()))
        } else {
            None
        }
    }

    /// The end view, the kind and the variables' values, where this state is an end; `None` where a
    /// thread can still take a step. Fails where memory runs out.
    pub fn view(&self, alloc: Global, program: &Program) -> Result<Option<EndView>, AllocError>
        requires { IsOf program.now self.now }
        ensures { IfOk result (λ v. v ≡ view_of program.now self.now) }
    {
        match self.kind(program) {
            Some(kind) => {
                let values = self.variables().to_vec(alloc)?;
                Ok(Some(EndView::new(kind, values)))
            }
            None => Ok(None),
        }
    }
}

// Whether at least one of the threads stopped.
fn any_stopped(threads: &[Thread]) -> bool
    ensures { result ≡ list_any (λ th. is_stopped th.status) threads.now }
{
    threads
        .iter()
        .any(|th| matches!(th.status, Status::Stopped(_)))
}

// Whether a thread has run to the end of its code.
fn has_ended(thread: &Thread) -> bool
    ensures { result ≡ is_ended thread.now.status }
{
    matches!(thread.status, Status::Ended)
}

// Whether all threads have run to the end of their code.
fn all_ended(threads: &[Thread]) -> bool
    ensures { result ≡ list_all (λ th. is_ended th.status) threads.now }
{
    threads.iter().all(|th| has_ended(th))
}

// How a complete schedule ends, by the threads in its last state: done where all ended, else failed
// where one stopped, else stuck.
fn final_kind(threads: &[Thread]) -> Kind
    ensures { result ≡ final_kind threads.now }
{
    if all_ended(threads) {
        Kind::Done
    } else if any_stopped(threads) {
        Kind::Failed
    } else {
        Kind::Stuck
    }
}
