//! Objects of a program, and the state of each.

ghost use Rattle.std.specs.Prelude.{◌≡◌};
ghost use Rattle.semantics.specs.Reachable.{IsOf};
ghost use Rattle.guest_code.specs.Program.{Program};
ghost use Rattle.explain_run.specs.Objects.{object_of, reading_of, IsObjectOf};

use semantics::state::{Action, State};

/// An object, by its kind and its number.
#[derive(Clone, Copy, PartialEq, Eq)]
pub enum Object {
    /// The variable of this number.
    Variable(usize),
    /// The mutex of this number.
    Mutex(usize),
    /// The condition of this number.
    Condition(usize),
    /// The semaphore of this number.
    Semaphore(usize),
}

/// What a state says of an object.
#[derive(Clone, Copy, PartialEq, Eq)]
pub enum ObjectState {
    /// The value of a variable.
    Value(i64),
    /// The thread that owns a mutex, if one does.
    Owner(Option<u8>),
    /// How many threads wait for a condition.
    Waiting(usize),
    /// The count of a semaphore.
    Count(u16),
}

impl Object {
    /// The object that an action is on: of a `wait`, which is on a condition and a mutex, the
    /// condition.
    pub fn of(action: Action) -> Object
        ensures { result ≡ object_of action }
    {
        match action {
            Action::OnVariable(x, _) => Object::Variable(x),
            Action::OnMutex(m, _) => Object::Mutex(m),
            Action::Wait(c, _) | Action::OnCondition(c, _) => Object::Condition(c),
            Action::OnSemaphore(k, _) => Object::Semaphore(k),
        }
    }

    /// What a state says of the object: a variable's value, the thread that owns a mutex, how many
    /// threads wait for a condition, or a semaphore's count.
    pub fn state_in(self, state: &State) -> ObjectState
        requires { (p : Program) × IsOf p state.now × IsObjectOf p self }
        ensures { result ≡ reading_of state.now self }
    {
        match self {
            Object::Variable(x) => ObjectState::Value(state.variables()[x]),
            Object::Mutex(m) => ObjectState::Owner(state.owner(m)),
            Object::Condition(c) => ObjectState::Waiting(state.queue_len(c)),
            Object::Semaphore(k) => ObjectState::Count(state.count(k)),
        }
    }
}
