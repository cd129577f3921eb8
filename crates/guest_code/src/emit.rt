//! The code of statements and blocks.

ghost use Rattle.std.specs.Prelude.{◌≡◌, ◌+◌, ◌*◌, ◌<◌, ◌≤◌, ◌^◌, [], ◌∷◌};
ghost use Rattle.guest_syntax.specs.Tree.{if_then, if_else, name_view, operand_view, expr_view, stmt_view, block_view};
ghost use Rattle.guest_code.specs.Code.{variable_number, mutex_number, condition_number, local_number, value_of, expression_of};
ghost use Rattle.guest_code.specs.{Sizes.size, declared.program.Instruction.Instruction};
ghost use Rattle.guest_code.specs.inner.Emission.{names_of, size_of, Adds, stmt_code_in, block_code_in, copies_of};

use crate::lengths::{size_of_block, size_of_statement};
use crate::limits::INSTRUCTIONS;
use crate::names::Names;
use crate::program::Instruction;
use guest_syntax::tree::{Expr, Name, Operand, Placed, Statement};
use std::alloc::AllocError;

/// Where code is put: what names stand for there, and how far a `leave` there has to skip.
#[derive(Clone, Copy)]
pub struct Context<'a> {
    pub names: Names<'a>,
    /// How many instructions come after the code, up to the end of the last copy of the nearest
    /// `repeat`; where there is no `repeat`, up to the end of the thread.
    pub distance_to_exit: usize,
}

// The instruction that loads a variable into a local.
fn load(names: Names<'_>, local: &Name, variable: &Name) -> Instruction
    ensures { result ≡ Instruction.Load (local_number (names_of names.entry) (name_view local.now))
        (variable_number (names_of names.entry) (name_view variable.now)) }
{
    Instruction::Load {
        local: names.local(local),
        variable: names.variable(variable),
    }
}

// The instruction that stores a value in a variable.
fn store(names: Names<'_>, variable: &Name, value: &Operand) -> Instruction
    ensures { result ≡ Instruction.Store
        (variable_number (names_of names.entry) (name_view variable.now))
        (value_of (names_of names.entry) (operand_view value.now)) }
{
    Instruction::Store {
        variable: names.variable(variable),
        value: names.value(value),
    }
}

// The instruction that adds a value to a variable, and sets a local to the variable's old value.
fn add(names: Names<'_>, local: &Name, variable: &Name, value: &Operand) -> Instruction
    ensures { result ≡ Instruction.Add
        (local_number (names_of names.entry) (name_view local.now))
        (variable_number (names_of names.entry) (name_view variable.now))
        (value_of (names_of names.entry) (operand_view value.now)) }
{
    Instruction::Add {
        local: names.local(local),
        variable: names.variable(variable),
        value: names.value(value),
    }
}

// The compare-and-swap of a variable from `expected` to `new`: a local gets 1 if it hits, else 0.
fn cas(
    names: Names<'_>,
    local: &Name,
    variable: &Name,
    expected: &Operand,
    new: &Operand,
) -> Instruction
    ensures { result ≡ Instruction.Cas
        (local_number (names_of names.entry) (name_view local.now))
        (variable_number (names_of names.entry) (name_view variable.now))
        (value_of (names_of names.entry) (operand_view expected.now))
        (value_of (names_of names.entry) (operand_view new.now)) }
{
    Instruction::Cas {
        local: names.local(local),
        variable: names.variable(variable),
        expected: names.value(expected),
        new: names.value(new),
    }
}

// The instruction that gives up a mutex and waits for a condition.
fn wait(names: Names<'_>, condition: &Name, mutex: &Name) -> Instruction
    ensures { result ≡ Instruction.Wait
        (condition_number (names_of names.entry) (name_view condition.now))
        (mutex_number (names_of names.entry) (name_view mutex.now)) }
{
    Instruction::Wait {
        condition: names.condition(condition),
        mutex: names.mutex(mutex),
    }
}

// The instruction that sets a local to the value of an expression.
fn set(names: Names<'_>, local: &Name, value: &Expr) -> Instruction
    ensures { result ≡ Instruction.Set (local_number (names_of names.entry) (name_view local.now))
        (expression_of (names_of names.entry) (expr_view value.now)) }
{
    Instruction::Set {
        local: names.local(local),
        value: names.expression(value),
    }
}

// Adds an instruction at the end of `code`.
fn push(code: &mut Vec<Instruction>, instruction: Instruction) -> Result<(), AllocError>
    ensures { Adds result code.old code.new (instruction ∷ []) }
{
    code.push(instruction)?;
    Ok(())
}

// Adds a statement's code, at most `INSTRUCTIONS` long; a `leave` skips to its `repeat`'s exit.
#[cycle(emit)]
fn emit_statement(
    code: &mut Vec<Instruction>,
    context: Context<'_>,
    statement: &Statement,
) -> Result<(), AllocError>
    requires small { size (stmt_view statement.now) ≤ INSTRUCTIONS }
    requires near { context.distance_to_exit + size (stmt_view statement.now) < 2 ^ 32 }
    ensures { Adds result code.old code.new (stmt_code_in context.entry (stmt_view statement.now)) }
{
    let names = context.names;
    match statement {
        Statement::Load { local, variable } => push(code, load(names, local, variable)),
        Statement::Store { variable, value } => push(code, store(names, variable, value)),
        Statement::Add {
            local,
            variable,
            value,
        } => push(code, add(names, local, variable, value)),
        Statement::Cas {
            local,
            variable,
            expected,
            new,
        } => push(code, cas(names, local, variable, expected, new)),
        Statement::Lock(name) => push(code, Instruction::Lock(names.mutex(name))),
        Statement::Unlock(name) => push(code, Instruction::Unlock(names.mutex(name))),
        Statement::Wait { condition, mutex } => push(code, wait(names, condition, mutex)),
        Statement::Signal(name) => push(code, Instruction::Signal(names.condition(name))),
        Statement::Broadcast(name) => push(code, Instruction::Broadcast(names.condition(name))),
        Statement::Acquire(name) => push(code, Instruction::Acquire(names.semaphore(name))),
        Statement::Release(name) => push(code, Instruction::Release(names.semaphore(name))),
        Statement::Set { local, value } => push(code, set(names, local, value)),
        Statement::Assert(test) => push(code, Instruction::Assert(names.expression(test))),
        Statement::If {
            test,
            then,
            otherwise,
        } => match otherwise {
            None => emit_if(code, context, test, then),
            Some(other) => emit_if_else(code, context, test, then, other),
        },
        Statement::Repeat { times, body } => emit_copies(code, names, body, *times),
        Statement::Leave => push(code, Instruction::Skip(context.distance_to_exit)),
    }
}

// Adds the code of an `if` with no `else`: a skip over the block if the test is 0, and the block.
#[cycle(emit)]
fn emit_if(
    code: &mut Vec<Instruction>,
    context: Context<'_>,
    test: &Expr,
    then: &[Placed],
) -> Result<(), AllocError>
    requires small { 1 + size_of then.now ≤ INSTRUCTIONS }
    requires near { context.distance_to_exit + (1 + size_of then.now) < 2 ^ 32 }
    ensures { Adds result code.old code.new
        (stmt_code_in context.entry (if_then (expr_view test.now) (block_view then.now))) }
{
    let over = size_of_block(then);
    push(
        code,
        Instruction::SkipIfZero(context.names.expression(test), over),
    )?;
    emit_block(code, context, then)
}

// Adds the code of an `if` with an `else`: test, first block, a skip over the second, the second.
#[cycle(emit)]
fn emit_if_else(
    code: &mut Vec<Instruction>,
    context: Context<'_>,
    test: &Expr,
    then: &[Placed],
    other: &[Placed],
) -> Result<(), AllocError>
    requires small { 2 + size_of then.now + size_of other.now ≤ INSTRUCTIONS }
    requires near { context.distance_to_exit + (2 + size_of then.now + size_of other.now) < 2 ^ 32 }
    ensures { Adds result code.old code.new
        (stmt_code_in context.entry (if_else (expr_view test.now) (block_view then.now)
        (block_view other.now))) }
{
    // The test passes over the skip too.
    let over = size_of_block(then) + 1;
    let len = size_of_block(other);
    push(
        code,
        Instruction::SkipIfZero(context.names.expression(test), over),
    )?;
    let farther = Context {
        names: context.names,
        distance_to_exit: context.distance_to_exit + 1 + len,
    };
    emit_block(code, farther, then)?;
    push(code, Instruction::Skip(len))?;
    emit_block(code, context, other)
}

// Adds `times` copies of a block's code; a `leave` in one skips the later ones. Returns at once if
// that is no code: blocks without any, nested in `repeat`s, would else take too long.
#[cycle(emit)]
fn emit_copies(
    code: &mut Vec<Instruction>,
    names: Names<'_>,
    body: &[Placed],
    times: u8,
) -> Result<(), AllocError>
    requires { times * size_of body.now ≤ INSTRUCTIONS }
    ensures { Adds result code.old code.new (copies_of names.entry body.now times) }
{
    let len = size_of_block(body);
    if times == 0 || len == 0 {
        return Ok(());
    }
    let mut left = times as usize;
    while left > 0 {
        left -= 1;
        let context = Context {
            names,
            distance_to_exit: left * len,
        };
        emit_block(code, context, body)?;
    }
    Ok(())
}

/// Adds the code of a block, which has at most `INSTRUCTIONS` instructions.
#[cycle(emit)]
pub fn emit_block(
    code: &mut Vec<Instruction>,
    context: Context<'_>,
    block: &[Placed],
) -> Result<(), AllocError>
    requires small { size_of block.now ≤ INSTRUCTIONS }
    requires near { context.distance_to_exit + size_of block.now < 2 ^ 32 }
    ensures { Adds result code.old code.new (block_code_in context.entry (block_view block.now)) }
{
    let mut left = size_of_block(block);
    for placed in block {
        left -= size_of_statement(&placed.statement);
        let farther = Context {
            names: context.names,
            distance_to_exit: context.distance_to_exit + left,
        };
        emit_statement(code, farther, &placed.statement)?;
    }
    Ok(())
}
