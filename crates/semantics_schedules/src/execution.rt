//! A schedule as it is carried out, one step after another.

ghost use Rattle.std.specs.Prelude.{◌≡◌, ◌+◌, ◌^◌, ◌<◌, List, ℕ, [], ◌∷◌, ◌++◌, IfOk, IsTrue};
ghost use Rattle.semantics.specs.Machine.{is_enabled};
ghost use Rattle.semantics_schedules.specs.Schedules.{preempts};
ghost use Rattle.semantics_schedules.specs.Execution.{IsExecutionOf, Reaches, stepped};

use guest_code::program::Program;
use semantics::state::State;
use std::alloc::{AllocError, Global};
use std::marker::Model;

/// The state that a schedule leads to, the thread of its last step, and its preemptions.
#[derive(Drop)]
pub struct Execution {
    state: State,
    last: Option<u8>,
    preemptions: usize,
}

impl Model for Execution {
    ghost use Rattle.semantics_schedules.specs.Execution.{ExecutionView};

    ghost Value = { ExecutionView };

    ghost view = { λ e. record { state = e.state; last = e.last; preemptions = e.preemptions } };
}

impl Execution {
    /// The execution of the empty schedule, before the first step of the program. Fails where
    /// memory runs out.
    pub fn start(alloc: Global, program: &Program) -> Result<Execution, AllocError>
        ensures reached { IfOk result (Reaches program.now []) }
        ensures of { IfOk result (IsExecutionOf program.now) }
    {
        Ok(Execution {
            state: State::start(alloc, program)?,
            last: None,
            preemptions: 0,
        })
    }

    /// A copy of the execution. Fails where memory runs out.
    pub fn try_clone(&self, alloc: Global) -> Result<Execution, AllocError>
        ensures { IfOk result (λ e. e ≡ self.now) }
    {
        Ok(Execution {
            state: self.state.try_clone(alloc)?,
            last: self.last,
            preemptions: self.preemptions,
        })
    }

    /// The state after the last step.
    pub fn state(&self) -> &State
        ensures { result.now ≡ self.now.state }
    {
        &self.state
    }

    /// The thread that took the last step; `None` before the first step.
    pub fn last(&self) -> Option<u8>
        ensures { result ≡ self.now.last }
    {
        self.last
    }

    /// How many of the steps so far were preemptions: switches from a thread still enabled.
    pub fn preemptions(&self) -> usize
        ensures { result ≡ self.now.preemptions }
    {
        self.preemptions
    }

    /// Whether a step of this thread is a preemption: another thread took the last step and is
    /// still enabled. False before the first step.
    pub fn preempts(&self, program: &Program, thread: u8) -> bool
        requires { IsExecutionOf program.now self.now }
        ensures { result ≡ preempts program.now self.now.state self.now.last thread }
    {
        match self.last {
            Some(last) => self.state.is_enabled(program, last) && last != thread,
            None => false,
        }
    }

    /// Takes a step of a thread that is enabled, counts it where it is a preemption, and notes the
    /// thread as the last one.
    pub fn step(&mut self, program: &Program, thread: u8)
        requires of { IsExecutionOf program.now self.old }
        requires enabled { IsTrue (is_enabled program.now self.old.state thread) }
        requires room { self.old.preemptions + 1 < 2 ^ 64 }
        ensures value { self.new ≡ stepped program.now self.old thread }
        ensures reached { (w : List ℕ) → Reaches program.now w self.old →
            Reaches program.now (w ++ thread ∷ []) self.new }
        ensures of { IsExecutionOf program.now self.new }
    {
        let preempts = self.preempts(program, thread);
        self.state.step(program, thread);
        self.last = Some(thread);
        self.preemptions += usize::from(preempts);
    }
}
