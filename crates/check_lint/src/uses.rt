//! What an instruction does with locals and with objects: a variable, mutex, condition or
//! semaphore.

ghost use Rattle.std.specs.Prelude.{◌≡◌};
ghost use Rattle.std.specs.List.{list_any};
ghost use Rattle.check_lint.specs.Uses.{value_reads, expression_reads, reads, is, local_set, variable_read, variable_written, variable_used, sets, does};

use guest_code::program::{Expression, Instruction, Value};

/// A way in which an instruction uses a local or an object, which is given by its number.
#[derive(Clone, Copy)]
pub enum Use {
    /// A local is read.
    Reads,
    /// A local gets a value.
    Sets,
    /// A local gets a value, and nothing else is done that another thread may see.
    OnlySets,
    /// A variable is read.
    Loads,
    /// A variable is written.
    Stores,
    /// A mutex is named.
    OfMutex,
    /// A condition is named.
    OfCondition,
    /// A semaphore is named.
    OfSemaphore,
    /// A condition is waited for.
    Waits,
    /// A condition is waited for with another mutex than the one of this number.
    WaitsWithout(usize),
    /// A condition is signalled, to one thread that waits for it or to all.
    Signals,
    /// A semaphore is acquired: its count is lowered.
    Acquires,
    /// A semaphore is released: its count is raised.
    Releases,
}

// Whether an operand reads this local: whether it is the local, and no number.
fn value_reads(local: usize, value: Value) -> bool
    ensures { result ≡ value_reads local value }
{
    match value {
        Value::Local(read) => read == local,
        Value::Literal(_) => false,
    }
}

/// Whether an expression reads a local.
pub fn expression_reads(local: usize, expression: &Expression) -> bool
    ensures { result ≡ expression_reads local expression.now }
{
    match expression {
        Expression::Single(a) => value_reads(local, *a),
        Expression::Both(a, _, b) => value_reads(local, *a) || value_reads(local, *b),
    }
}

/// Whether an instruction reads a local.
pub fn reads(local: usize, instruction: &Instruction) -> bool
    ensures { result ≡ reads local instruction.now }
{
    match instruction {
        Instruction::Store { value, .. } | Instruction::Add { value, .. } => {
            value_reads(local, *value)
        }
        Instruction::Cas { expected, new, .. } => {
            value_reads(local, *expected) || value_reads(local, *new)
        }
        Instruction::Set { value, .. } => expression_reads(local, value),
        Instruction::Assert(test) | Instruction::SkipIfZero(test, _) => {
            expression_reads(local, test)
        }
        _ => false,
    }
}

/// The local to which an instruction gives a value; `None` where it sets none.
pub fn local_set(instruction: &Instruction) -> Option<usize>
    ensures { result ≡ local_set instruction.now }
{
    match instruction {
        Instruction::Load { local, .. }
        | Instruction::Add { local, .. }
        | Instruction::Cas { local, .. }
        | Instruction::Set { local, .. } => Some(*local),
        _ => None,
    }
}

/// The variable that an instruction reads; `None` where it reads none.
pub fn variable_read(instruction: &Instruction) -> Option<usize>
    ensures { result ≡ variable_read instruction.now }
{
    match instruction {
        Instruction::Load { variable, .. }
        | Instruction::Add { variable, .. }
        | Instruction::Cas { variable, .. } => Some(*variable),
        _ => None,
    }
}

/// The variable that an instruction writes, a `cas` where it hits; `None` where it writes none.
pub fn variable_written(instruction: &Instruction) -> Option<usize>
    ensures { result ≡ variable_written instruction.now }
{
    match instruction {
        Instruction::Store { variable, .. }
        | Instruction::Add { variable, .. }
        | Instruction::Cas { variable, .. } => Some(*variable),
        _ => None,
    }
}

/// The variable that an instruction reads, writes or may write; `None` where it names none.
pub fn variable_used(instruction: &Instruction) -> Option<usize>
    ensures { result ≡ variable_used instruction.now }
{
    variable_read(instruction).or(variable_written(instruction))
}

/// Whether `there`, such as the local that an instruction sets, is `Some(number)`.
pub fn is_some_of(number: usize, there: Option<usize>) -> bool
    ensures { result ≡ is number there }
{
    match there {
        Some(other) => other == number,
        None => false,
    }
}

/// Whether an instruction gives a local a value.
pub fn sets(local: usize, instruction: &Instruction) -> bool
    ensures { result ≡ sets local instruction.now }
{
    is_some_of(local, local_set(instruction))
}

impl Use {
    /// Whether an instruction makes this use of the local or the object of this number.
    pub fn is_made(self, number: usize, instruction: &Instruction) -> bool
        ensures { result ≡ does self number instruction.now }
    {
        match self {
            Use::Reads => reads(number, instruction),
            Use::Sets => sets(number, instruction),
            // an `add` writes a variable, too, and a `cas` may
            Use::OnlySets => match instruction {
                Instruction::Load { local, .. } | Instruction::Set { local, .. } => *local
                    == number,
                _ => false,
            },
            Use::Loads => is_some_of(number, variable_read(instruction)),
            Use::Stores => is_some_of(number, variable_written(instruction)),
            Use::OfMutex => match instruction {
                Instruction::Lock(mutex) | Instruction::Unlock(mutex) => *mutex == number,
                Instruction::Wait { mutex, .. } => *mutex == number,
                _ => false,
            },
            Use::OfCondition => match instruction {
                Instruction::Signal(it) | Instruction::Broadcast(it) => *it == number,
                Instruction::Wait { condition, .. } => *condition == number,
                _ => false,
            },
            Use::OfSemaphore => match instruction {
                Instruction::Acquire(it) | Instruction::Release(it) => *it == number,
                _ => false,
            },
            Use::Waits => match instruction {
                Instruction::Wait { condition, .. } => *condition == number,
                _ => false,
            },
            Use::WaitsWithout(other) => match instruction {
                Instruction::Wait { condition, mutex } => *condition == number && *mutex != other,
                _ => false,
            },
            Use::Signals => match instruction {
                Instruction::Signal(it) | Instruction::Broadcast(it) => *it == number,
                _ => false,
            },
            Use::Acquires => match instruction {
                Instruction::Acquire(semaphore) => *semaphore == number,
                _ => false,
            },
            Use::Releases => match instruction {
                Instruction::Release(semaphore) => *semaphore == number,
                _ => false,
            },
        }
    }

    /// Whether some instruction of a code makes this use of the local or the object of this number.
    pub fn is_made_in(self, number: usize, code: &[Instruction]) -> bool
        ensures { result ≡ list_any (does self number) code.now }
    {
        code.iter()
            .any(|instruction| self.is_made(number, instruction))
    }
}
