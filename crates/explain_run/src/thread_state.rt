//! Where one thread is in a state, and what it waits for where it is blocked.

ghost use Rattle.std.specs.Prelude.{◌≡◌, ◌<◌, length, MatchOption, Some};
ghost use Rattle.semantics.specs.{Ends.is_stopped, Reachable.IsOf};
ghost use Rattle.explain_run.specs.Blocked.{IsBlockedBy, IsUnblocked, Stands, could_end, gives_back, mutex_of, waited_for};

use crate::object::Object;
use guest_code::limits::LOCALS;
use guest_code::program::{Instruction, Program};
use semantics::state::{Action, MutexAction, SemaphoreAction, State, Status};

/// What a blocked thread waits for.
#[derive(Clone, Copy, PartialEq, Eq)]
pub enum Reason {
    /// To lock the mutex of this number, which a thread owns.
    Lock(usize),
    /// To take the mutex of this number again, as one who was woken; a thread owns the mutex.
    Retake(usize),
    /// To acquire the semaphore of this number, whose count is 0.
    Acquire(usize),
    /// To be woken from the queue of the condition of this number.
    Signal(usize),
}

impl Reason {
    /// The number of the mutex that a blocked thread waits for; `None` where it waits for no mutex.
    pub fn mutex(self) -> Option<usize>
        ensures { result ≡ mutex_of self }
    {
        match self {
            Reason::Lock(m) | Reason::Retake(m) => Some(m),
            Reason::Acquire(_) | Reason::Signal(_) => None,
        }
    }
}

impl Reason {
    /// The object that a blocked thread waits for.
    pub fn object(self) -> Object
        ensures { result ≡ waited_for self }
    {
        match self {
            Reason::Lock(m) | Reason::Retake(m) => Object::Mutex(m),
            Reason::Acquire(k) => Object::Semaphore(k),
            Reason::Signal(c) => Object::Condition(c),
        }
    }

    /// Whether an instruction could end a wait for this reason: for a mutex an `unlock` of it or a
    /// `wait` with it, for a condition a `signal` or a `broadcast`, for a semaphore a `release`.
    pub fn could_be_ended_by(self, instruction: &Instruction) -> bool
        ensures { result ≡ could_end self instruction.now }
    {
        match self {
            Reason::Lock(m) | Reason::Retake(m) => gives_back(m, instruction),
            Reason::Signal(c) => match instruction {
                Instruction::Signal(it) | Instruction::Broadcast(it) => *it == c,
                _ => false,
            },
            Reason::Acquire(k) => match instruction {
                Instruction::Release(it) => *it == k,
                _ => false,
            },
        }
    }
}

// Whether an instruction gives a mutex back: an `unlock` of it, or a `wait` with it.
fn gives_back(mutex: usize, instruction: &Instruction) -> bool
    ensures { result ≡ gives_back mutex instruction.now }
{
    match instruction {
        Instruction::Unlock(it) => *it == mutex,
        Instruction::Wait { mutex: it, .. } => *it == mutex,
        _ => false,
    }
}

/// Where one thread is in a state of the program.
#[derive(Clone, Copy)]
pub struct ThreadState {
    /// Whether the thread goes on, waits, ended or stopped.
    pub status: Status,
    /// The number of the instruction that the thread is at; at its end the length of its code.
    pub instruction: usize,
    /// The values of the thread's locals.
    pub locals: [i64; LOCALS],
    /// What the thread waits for; `None` where it is enabled, ended or stopped.
    pub reason: Option<Reason>,
    enabled: bool,
}

impl ThreadState {
    /// The state of one thread in a state of the program: where it is, and what it waits for if it
    /// is blocked.
    pub fn of(state: &State, program: &Program, thread: u8) -> ThreadState
        requires of { IsOf program.now state.now }
        requires thread { thread < length program.now.threads }
        ensures { Stands program.now state.now thread result }
    {
        ThreadState {
            status: state.status(thread),
            instruction: state.pc(thread),
            locals: *state.locals(thread),
            reason: reason_of(state, program, thread),
            enabled: state.is_enabled(program, thread),
        }
    }

    /// Whether the thread is enabled.
    pub fn is_enabled(&self) -> bool
        ensures { result ≡ self.now.enabled }
    {
        self.enabled
    }

    /// Whether the thread has stopped in an error.
    pub fn is_stopped(&self) -> bool
        ensures { result ≡ is_stopped self.now.status }
    {
        matches!(self.status, Status::Stopped(_))
    }
}

/// What a thread waits for in a state where it is blocked; `None` where it is enabled, has ended or
/// has stopped.
pub fn reason_of(state: &State, program: &Program, thread: u8) -> Option<Reason>
    requires of { IsOf program.now state.now }
    requires thread { thread < length program.now.threads }
    ensures { MatchOption result (IsUnblocked program.now state.now thread)
        (IsBlockedBy program.now state.now thread) }
{
    if let Status::Waiting(c) = state.status(thread) {
        return Some(Reason::Signal(c as usize));
    }
    match state.next_action(program, thread)? {
        Action::OnMutex(m, MutexAction::Lock) if state.owner(m).is_some() => Some(Reason::Lock(m)),
        Action::OnMutex(m, MutexAction::Retake) if state.owner(m).is_some() => {
            Some(Reason::Retake(m))
        }
        Action::OnSemaphore(k, SemaphoreAction::Acquire) if state.count(k) == 0 => {
            Some(Reason::Acquire(k))
        }
        _ => None,
    }
}
