//! What a step changes beside the thread that takes it.

ghost use Rattle.std.specs.Prelude.{◌≡◌};
ghost use Rattle.guest_code.specs.Program.{Program, IsWellFormed};
ghost use Rattle.semantics.specs.Reachable.{IsOf, IsValidAction};
ghost use Rattle.semantics.specs.Undoing.{objects_of, put_back, HasObjects};

use crate::queue::Queue;
use crate::signals::wait_again;
use crate::state::{Action, State};

/// The objects that a step changes beside the thread that takes it, as they were before.
#[derive(Drop)]
pub enum Objects {
    /// A variable and its value.
    Variable(usize, i64),
    /// A mutex and its owner.
    Owner(usize, Option<u8>),
    /// A condition and its queue, and a mutex and its owner.
    Wait(usize, Queue, usize, Option<u8>),
    /// A condition and its queue, whose threads all waited.
    Call(u8, Queue),
    /// A semaphore and its count.
    Count(usize, u16),
}

impl Objects {
    /// The objects that a step with this action may change, as `state` has them before the step.
    pub fn before(state: &State, action: Action) -> Objects
        requires { (p : Program) × IsWellFormed p × IsOf p state.now × IsValidAction p action }
        ensures { result ≡ objects_of state.now action }
    {
        match action {
            Action::OnVariable(x, _) => Objects::Variable(x, state.variables[x]),
            Action::OnMutex(m, _) => Objects::Owner(m, state.owners[m]),
            Action::Wait(c, m) => Objects::Wait(c, state.queues[c].copy(), m, state.owners[m]),
            Action::OnCondition(c, _) => Objects::Call(c as u8, state.queues[c].copy()),
            Action::OnSemaphore(k, _) => Objects::Count(k, state.counts[k]),
        }
    }

    /// Takes back what a step changed beside the thread that took it: the objects are again as they
    /// are noted in `self`, and threads that a signal or a broadcast woke wait again.
    pub fn put_back(&self, state: &mut State)
        requires { HasObjects state.old self.now }
        ensures { state.new ≡ put_back self.now state.old }
    {
        match self {
            Objects::Variable(x, value) => state.variables[*x] = *value,
            Objects::Owner(m, owner) => state.owners[*m] = *owner,
            Objects::Wait(c, queue, m, owner) => {
                state.queues[*c] = queue.copy();
                state.owners[*m] = *owner;
            }
            Objects::Call(c, queue) => {
                wait_again(state.threads.as_mut_slice(), *c, queue.threads());
                state.queues[*c as usize] = queue.copy();
            }
            Objects::Count(k, count) => state.counts[*k] = *count,
        }
    }
}
