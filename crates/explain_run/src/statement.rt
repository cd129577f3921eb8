//! Statements of a program's code, written as a guest's text spells them.

use crate::object::Object;
use crate::source::Source;
use guest_code::program::{Expression, Instruction, Value};
use guest_syntax::tree::Op;
use std::fmt;
use std::str::from_utf8;

/// A name, or other bytes, as text; `?` where they aren't UTF-8.
pub fn name_text(name: &[u8]) -> &str {
    from_utf8(name).unwrap_or("?")
}

/// The spelling of an operator in a guest's text.
pub fn op_text(op: Op) -> &'static str {
    match op {
        Op::Add => "+",
        Op::Subtract => "-",
        Op::Multiply => "*",
        Op::Equal => "==",
        Op::NotEqual => "!=",
        Op::Less => "<",
        Op::LessOrEqual => "<=",
        Op::Greater => ">",
        Op::GreaterOrEqual => ">=",
    }
}

// A local or a number in a thread's statement, to be written as its name or in decimal digits.
#[derive(Clone, Copy)]
struct Operand<'a> {
    source: &'a Source<'a>,
    thread: u8,
    value: Value,
}

impl fmt::Display for Operand<'_> {
    // Writes the name of a local, `?` where the thread has no such local, or a number.
    fn fmt<W: fmt::Write>(&self, f: &mut fmt::Formatter<W>) -> fmt::Result {
        match self.value {
            Value::Local(r) => f.write_str(name_text(self.source.local_name(self.thread, r))),
            Value::Literal(n) => write!(f, "{n}"),
        }
    }
}

/// A statement of a thread, to be written as a text spells it; nothing at the end of its code.
#[derive(Clone, Copy)]
pub struct Statement<'a> {
    /// The guest file and its program, which have the names.
    pub source: &'a Source<'a>,
    /// The thread, by its number.
    pub thread: u8,
    /// The number of the instruction.
    pub instruction: usize,
}

// An expression in a thread's statement, to be written as a text spells it.
#[derive(Clone, Copy)]
struct ExpressionText<'a> {
    statement: Statement<'a>,
    expression: Expression,
}

impl fmt::Display for ExpressionText<'_> {
    // Writes one operand, or two with the operator between them.
    fn fmt<W: fmt::Write>(&self, f: &mut fmt::Formatter<W>) -> fmt::Result {
        let statement = &self.statement;
        match self.expression {
            Expression::Single(a) => write!(f, "{}", statement.operand(a)),
            Expression::Both(a, op, b) => {
                let (a, b) = (statement.operand(a), statement.operand(b));
                write!(f, "{a} {} {b}", op_text(op))
            }
        }
    }
}

impl<'a> Statement<'a> {
    // The name of a local of the statement's thread, as text; `?` where it has no such local.
    fn local_name(&self, local: usize) -> &str {
        name_text(self.source.local_name(self.thread, local))
    }

    // The name of an object of the program, as text; `?` where there is no such object.
    fn object_name(&self, object: Object) -> &str {
        name_text(self.source.object_name(object))
    }

    // An operand of the statement, to be written: a local as its name, or a number.
    fn operand(&self, value: Value) -> Operand<'_> {
        Operand {
            source: self.source,
            thread: self.thread,
            value,
        }
    }

    // An expression of the statement, to be written as a guest's text spells it.
    fn expression(&self, expression: Expression) -> ExpressionText<'a> {
        ExpressionText {
            statement: *self,
            expression,
        }
    }

    // Writes a statement that names no mutex, condition or semaphore: one on a variable, a `set`,
    // an `assert`, or an `if` without its blocks; for any other one, which is a jump, `leave`.
    fn write_value_statement<W: fmt::Write>(
        &self,
        f: &mut fmt::Formatter<W>,
        instruction: Instruction,
    ) -> fmt::Result {
        match instruction {
            Instruction::Load { local, variable } => {
                write!(
                    f,
                    "load {} {}",
                    self.local_name(local),
                    self.object_name(Object::Variable(variable))
                )
            }
            Instruction::Store { variable, value } => {
                write!(
                    f,
                    "store {} {}",
                    self.object_name(Object::Variable(variable)),
                    self.operand(value)
                )
            }
            Instruction::Add {
                local,
                variable,
                value,
            } => {
                let x = self.object_name(Object::Variable(variable));
                write!(
                    f,
                    "add {} {x} {}",
                    self.local_name(local),
                    self.operand(value)
                )
            }
            Instruction::Cas {
                local,
                variable,
                expected,
                new,
            } => {
                let x = self.object_name(Object::Variable(variable));
                let (expected, new) = (self.operand(expected), self.operand(new));
                write!(f, "cas {} {x} {expected} {new}", self.local_name(local))
            }
            Instruction::Set { local, value } => {
                write!(
                    f,
                    "set {} {}",
                    self.local_name(local),
                    self.expression(value)
                )
            }
            Instruction::Assert(value) => write!(f, "assert {}", self.expression(value)),
            Instruction::SkipIfZero(value, _) => write!(f, "if {}", self.expression(value)),
            _ => f.write_str("leave"),
        }
    }
}

impl fmt::Display for Statement<'_> {
    // Writes the statement; nothing where there is no such instruction, as at the end of the code.
    fn fmt<W: fmt::Write>(&self, f: &mut fmt::Formatter<W>) -> fmt::Result {
        let Some(instruction) = self.source.instruction(self.thread, self.instruction) else {
            return Ok(());
        };
        match instruction {
            Instruction::Lock(m) => write!(f, "lock {}", self.object_name(Object::Mutex(m))),
            Instruction::Unlock(m) => write!(f, "unlock {}", self.object_name(Object::Mutex(m))),
            Instruction::Wait { condition, mutex } => {
                let c = self.object_name(Object::Condition(condition));
                write!(f, "wait {c} {}", self.object_name(Object::Mutex(mutex)))
            }
            Instruction::Signal(c) => write!(
                f,
                "signal {}",
                self.object_name(Object::Condition(c))
            ),
            Instruction::Broadcast(c) => {
                write!(f, "broadcast {}", self.object_name(Object::Condition(c)))
            }
            Instruction::Acquire(k) => write!(
                f,
                "acquire {}",
                self.object_name(Object::Semaphore(k))
            ),
            Instruction::Release(k) => write!(
                f,
                "release {}",
                self.object_name(Object::Semaphore(k))
            ),
            _ => self.write_value_statement(f, instruction),
        }
    }
}
