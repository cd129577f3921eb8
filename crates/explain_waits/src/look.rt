//! What a thread that waits for a condition would look at, if it were woken as things are.

ghost use Rattle.std.specs.Prelude.{◌≡◌, ◌≤◌, ◌<◌, pos, IfOk, IfSome, length, slice_get, slice_index_or, slice_set};
ghost use Rattle.guest_code.specs.Program.{Program, IsValidCode};
ghost use Rattle.explain_waits.specs.Looks.{IsLook, IsLookOf, is_wait, load_of, resumed_at};
ghost use Rattle.explain_waits.specs.Endings.{writes_one};

use crate::ending::Blocked;
use crate::fate::end_locals;
use check_lint::uses::Use;
use explain_run::{Explanation, Reason};
use guest_code::limits::LOCALS;
use guest_code::program::{Instruction, Program};
use semantics::run_local;
use semantics::state::Status;
use std::alloc::{AllocError, Global};

/// What a thread looks at that is woken from the queue of a condition and goes on alone: what it
/// does up to the first statement that is no `load`.
#[derive(Drop)]
pub struct Look {
    /// The variables that the thread loads, one after the other.
    pub variables: Vec<usize>,
    /// Whether it comes then to a `wait` for the same condition: it was woken in vain.
    pub sleeps: bool,
}

// A thread that is woken from the queue of a condition, and the number of the instruction at which
// it goes on.
#[derive(Clone, Copy)]
struct Woken {
    condition: usize,
    from: usize,
}

impl Look {
    // What a thread with this code looks at that is woken, with these values of its locals and of
    // all variables.
    fn after(
        alloc: Global,
        code: &[Instruction],
        values: &[i64],
        mut locals: [i64; LOCALS],
        woken: Woken,
    ) -> Result<Look, AllocError>
        requires valid { (p : Program) × IsValidCode p code.now }
        requires from { woken.from ≤ length code.now }
        ensures { IfOk result (IsLook code.now values.now locals woken.from woken.condition) }
    {
        let mut variables = Vec::new(alloc);
        let mut at = run_on(code, &mut locals, woken.from);
        'loads: while let Some((local, variable)) = load_of(instruction_at(code, at)) {
            set_local(&mut locals, local, value_of(values, variable));
            variables.push(variable)?;
            at = run_on(code, &mut locals, at + 1);
        }
        Ok(Look {
            variables,
            sleeps: is_wait(woken.condition, instruction_at(code, at)),
        })
    }

    /// What a blocked thread would look at, if it were woken as things are at the end of an
    /// explained schedule; nothing where it waits for no condition.
    pub fn of(
        alloc: Global,
        program: &Program,
        told: &Explanation,
        blocked: Blocked,
    ) -> Result<Look, AllocError>
        requires { blocked.thread < length program.now.threads }
        ensures { IfOk result (IsLookOf program.now told.now blocked) }
    {
        let Reason::Signal(condition) = blocked.reason else {
            return Ok(Look {
                variables: Vec::new(alloc),
                sleeps: false,
            });
        };
        program.keeps_limits();
        let code = program.code(blocked.thread);
        let from = blocked.next_instruction(code);
        let locals = end_locals(told, blocked.thread);
        Look::after(
            alloc,
            code,
            told.variables(),
            locals,
            Woken { condition, from },
        )
    }

    /// Whether an instruction writes one of the variables.
    pub fn is_changed_by(&self, instruction: &Instruction) -> bool
        ensures { result ≡ writes_one self.now.variables.items instruction.now }
    {
        self.variables
            .iter()
            .any(|variable| Use::Stores.is_made(*variable, instruction))
    }
}

// Takes a thread's local run from the instruction of number `from` on, and answers to which
// instruction the thread comes.
fn run_on(code: &[Instruction], locals: &mut [i64; LOCALS], from: usize) -> usize
    requires valid { (p : Program) × IsValidCode p code.now }
    requires from { from ≤ length code.now }
    ensures place { result ≡ (resumed_at code.now from locals.old).pc }
    ensures locals { locals.new ≡ (resumed_at code.now from locals.old).locals }
    ensures further { from ≤ result }
    ensures inside { result ≤ length code.now }
{
    run_local(code, locals, from, Status::Running).pc
}

// Gives a local this value.
fn set_local(locals: &mut [i64; LOCALS], local: usize, value: i64)
    requires { local < LOCALS }
    ensures { locals.new ≡ slice_set locals.old local value }
{
    locals[local] = value;
}

// The instruction of this number in a code; `None` where there is none.
fn instruction_at(code: &[Instruction], number: usize) -> Option<Instruction>
    requires { (p : Program) × IsValidCode p code.now }
    ensures instruction { result ≡ slice_get code.now number }
    ensures locals { IfSome (load_of result) (λ load. load.0 < LOCALS) }
{
    code.get(number).copied()
}

// The local and the variable of an instruction, if it is a `load`.
fn load_of(instruction: Option<Instruction>) -> Option<(usize, usize)>
    ensures { result ≡ load_of instruction }
{
    match instruction {
        Some(Instruction::Load { local, variable }) => Some((local, variable)),
        _ => None,
    }
}

// Whether an instruction is a `wait` for this condition.
fn is_wait(condition: usize, instruction: Option<Instruction>) -> bool
    ensures { result ≡ is_wait condition instruction }
{
    match instruction {
        Some(instruction) => Use::Waits.is_made(condition, &instruction),
        None => false,
    }
}

// The value of a variable among the values of all; 0 where there is no such variable.
fn value_of(values: &[i64], variable: usize) -> i64
    ensures { result ≡ slice_index_or values.now variable (pos 0) }
{
    match values.get(variable) {
        Some(value) => *value,
        None => 0,
    }
}
