//! Programs as flat code, with all names resolved.

ghost use Rattle.std.specs.Prelude.{◌≡◌, ◌↔◌, ◌<◌, ◌≤◌, IsTrue, [], length, slice_index_or};
ghost use Rattle.guest_code.specs.Program.{IsWellFormed, IsValidCode, program_view, code_of, variable_at, semaphore_at, thread_at};

use crate::limits::*;
use guest_syntax::tree::Op;
use std::marker::Model;

/// A local of the thread, by its number, or a number.
#[derive(Clone, Copy, PartialEq, Eq)]
pub enum Value {
    /// The local of this number.
    Local(usize),
    /// This number.
    Literal(i64),
}

/// A value alone, or two with an operator between them.
#[derive(Clone, Copy, PartialEq, Eq)]
pub enum Expression {
    /// A value alone.
    Single(Value),
    /// What the operator makes of the two values.
    Both(Value, Op, Value),
}

/// One instruction of a thread. Objects and locals go by their numbers, each kind counted from 0
/// in the order of declaration, locals in the order of first use.
#[derive(Clone, Copy, PartialEq, Eq)]
pub enum Instruction {
    /// The local becomes the variable's value.
    Load {
        local: usize,
        variable: usize,
    },
    /// The variable becomes the value.
    Store {
        variable: usize,
        value: Value,
    },
    /// The local becomes the variable's value, and the variable becomes that value plus `value`, in
    /// one step. `value` is read before the local is written.
    Add {
        local: usize,
        variable: usize,
        value: Value,
    },
    /// Where the variable's value is `expected` it becomes `new` and the local 1; else the local
    /// becomes 0. All in one step; `expected` and `new` are read before the local is written.
    Cas {
        local: usize,
        variable: usize,
        expected: Value,
        new: Value,
    },
    /// Takes the mutex of this number.
    Lock(usize),
    /// Gives the mutex of this number back.
    Unlock(usize),
    /// Gives the mutex back, waits for the condition, and takes the mutex again.
    Wait {
        condition: usize,
        mutex: usize,
    },
    /// Wakes the thread that has waited longest for the condition of this number.
    Signal(usize),
    /// Wakes all threads that wait for the condition of this number.
    Broadcast(usize),
    /// Lowers the count of the semaphore of this number.
    Acquire(usize),
    /// Raises the count of the semaphore of this number.
    Release(usize),
    /// The local becomes the expression's value.
    Set {
        local: usize,
        value: Expression,
    },
    /// Stops the thread where the expression is 0.
    Assert(Expression),
    /// Passes over the next instructions, of which this is the number, where the expression is 0.
    SkipIfZero(Expression, usize),
    /// Passes over the next instructions, of which this is the number.
    Skip(usize),
}

/// A variable's name, and its value before the first step.
#[derive(PartialEq, Eq, Drop)]
pub struct Variable {
    /// The name, as the text spells it.
    pub name: Vec<u8>,
    /// The variable's value before the first step.
    pub opening: i64,
}

/// A semaphore's name, and its count before the first step.
#[derive(PartialEq, Eq, Drop)]
pub struct Semaphore {
    /// The name, as the text spells it.
    pub name: Vec<u8>,
    /// The semaphore's count before the first step, at most `COUNT`.
    pub count: u16,
}

/// A thread's name, how many locals it has, and its code.
#[derive(PartialEq, Eq, Drop)]
pub struct Thread {
    /// The name, as the text spells it.
    pub name: Vec<u8>,
    /// How many locals the thread has, at most `LOCALS`.
    pub locals: usize,
    /// At most `INSTRUCTIONS` instructions, all jumps forwards and within the code.
    pub code: Vec<Instruction>,
}

/// A program: names resolved, jumps forwards, limits kept.
#[derive(Drop)]
pub struct Program {
    variables: Vec<Variable>,
    mutexes: Vec<Vec<u8>>,
    conditions: Vec<Vec<u8>>,
    semaphores: Vec<Semaphore>,
    threads: Vec<Thread>,
}

impl Model for Program {
    ghost use Rattle.guest_code.specs.Program as model;
    ghost use Rattle.guest_code.specs.Program.{IsWellFormed, program_view};

    ghost Value = { model.Program };

    ghost view = { λ p. program_view p.variables p.mutexes p.conditions p.semaphores p.threads };

    ghost invariant = { λ p. IsWellFormed
        (program_view p.variables p.mutexes p.conditions p.semaphores p.threads) };
}

impl PartialEq for Program {
    ghost use Rattle.guest_code.specs.Same.{same_program, programs_partial_equivalence};

    ghost eq = { same_program };

    ghost laws = { programs_partial_equivalence };

    /// Whether all that two programs hold is equal, names included.
    fn eq(&self, other: &Program) -> bool {
        self.variables == other.variables
            && self.mutexes == other.mutexes
            && self.conditions == other.conditions
            && self.semaphores == other.semaphores
            && self.threads == other.threads
    }
}

impl Eq for Program {
    ghost use Rattle.guest_code.specs.Same.{programs_equivalence};

    ghost laws = { programs_equivalence };
}

impl Program {
    /// A program of these parts, each in the order of declaration.
    pub(crate) fn new(
        variables: Vec<Variable>,
        mutexes: Vec<Vec<u8>>,
        conditions: Vec<Vec<u8>>,
        semaphores: Vec<Semaphore>,
        threads: Vec<Thread>,
    ) -> Program
        requires { IsWellFormed (program_view variables mutexes conditions semaphores threads) }
        ensures { result ≡ program_view variables mutexes conditions semaphores threads }
    {
        Program {
            variables,
            mutexes,
            conditions,
            semaphores,
            threads,
        }
    }

    /// Whether all that two programs hold is equal, names included, as `==` has it.
    pub fn is_same(&self, other: &Program) -> bool
        ensures { IsTrue result ↔ (self.now ≡ other.now) }
    {
        *self == *other
    }

    /// Does nothing. Its contract: every limit is kept, and each number in the code is in range.
    pub fn keeps_limits(&self)
        ensures { IsWellFormed self.now }
    {
        let _ = &self.threads;
    }

    /// How many threads the program has, 1 to `THREADS`.
    pub fn threads(&self) -> u8
        ensures number { result ≡ length self.now.threads }
        ensures few { result ≤ THREADS }
    {
        self.threads.len() as u8
    }

    /// How many variables the program has, at most `VARIABLES`.
    pub fn variables(&self) -> u8
        ensures number { result ≡ length self.now.variables }
        ensures few { result ≤ VARIABLES }
    {
        self.variables.len() as u8
    }

    /// How many mutexes the program has, at most `OBJECTS`.
    pub fn mutexes(&self) -> u8
        ensures number { result ≡ length self.now.mutexes }
        ensures few { result ≤ OBJECTS }
    {
        self.mutexes.len() as u8
    }

    /// How many conditions the program has, at most `OBJECTS`.
    pub fn conditions(&self) -> u8
        ensures number { result ≡ length self.now.conditions }
        ensures few { result ≤ OBJECTS }
    {
        self.conditions.len() as u8
    }

    /// How many semaphores the program has, at most `OBJECTS`.
    pub fn semaphores(&self) -> u8
        ensures number { result ≡ length self.now.semaphores }
        ensures few { result ≤ OBJECTS }
    {
        self.semaphores.len() as u8
    }

    /// The value of the variable of this number before the first step.
    pub fn initial_value(&self, variable: usize) -> i64
        requires { variable < length self.now.variables }
        ensures { result ≡ (variable_at self.now variable).opening }
    {
        self.variables[variable].opening
    }

    /// The count of the semaphore of this number before the first step.
    pub fn initial_count(&self, semaphore: usize) -> u16
        requires { semaphore < length self.now.semaphores }
        ensures count { result ≡ (semaphore_at self.now semaphore).count }
        ensures few { result ≤ COUNT }
    {
        self.semaphores[semaphore].count
    }

    /// The code of the thread of this number.
    pub fn code(&self, thread: u8) -> &[Instruction]
        requires { thread < length self.now.threads }
        ensures code { result.now ≡ code_of self.now thread }
        ensures valid { IsValidCode self.now result.now }
    {
        self.threads[thread as usize].code.as_slice()
    }

    /// How many locals the thread of this number has, at most `LOCALS`.
    pub fn locals(&self, thread: u8) -> usize
        requires { thread < length self.now.threads }
        ensures locals { result ≡ (thread_at self.now thread).locals }
        ensures few { result ≤ LOCALS }
    {
        self.threads[thread as usize].locals
    }

    /// The name of the variable of this number.
    pub fn variable_name(&self, variable: usize) -> &[u8]
        requires { variable < length self.now.variables }
        ensures { result.now ≡ (variable_at self.now variable).name }
    {
        self.variables[variable].name.as_slice()
    }

    /// The name of the mutex of this number.
    pub fn mutex_name(&self, mutex: usize) -> &[u8]
        requires { mutex < length self.now.mutexes }
        ensures { result.now ≡ slice_index_or self.now.mutexes mutex [] }
    {
        self.mutexes[mutex].as_slice()
    }

    /// The name of the condition of this number.
    pub fn condition_name(&self, condition: usize) -> &[u8]
        requires { condition < length self.now.conditions }
        ensures { result.now ≡ slice_index_or self.now.conditions condition [] }
    {
        self.conditions[condition].as_slice()
    }

    /// The name of the semaphore of this number.
    pub fn semaphore_name(&self, semaphore: usize) -> &[u8]
        requires { semaphore < length self.now.semaphores }
        ensures { result.now ≡ (semaphore_at self.now semaphore).name }
    {
        self.semaphores[semaphore].name.as_slice()
    }

    /// The name of the thread of this number.
    pub fn thread_name(&self, thread: u8) -> &[u8]
        requires { thread < length self.now.threads }
        ensures { result.now ≡ (thread_at self.now thread).name }
    {
        self.threads[thread as usize].name.as_slice()
    }
}
