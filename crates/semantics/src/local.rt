//! Local runs, and what instructions read and write of a thread's locals.

ghost use Rattle.std.specs.Prelude.{◌≡◌, ◌<◌, ◌≤◌, ◌+◌, length, drop, All, IsTrue};
ghost use Rattle.guest_code.specs.Program.{Program, IsValidCode, IsValueBelow, IsExpressionBelow, LocalsBelow};
ghost use Rattle.semantics.specs.Machine.{value_of_operand, of_both, value_of_expression, is_zero, run_from, resumed, var_after, reader_after, is_expected};
ghost use Rattle.semantics.specs.Turns.{own_thread, IsAccessBelow, IsFree, IsFurther, turn_of, locals_after, passed};

use crate::state::{Status, Stop, Thread, VariableAction};
use guest_code::program::{Expression, Instruction, Value};
use guest_syntax::tree::Op;

/// What came of the instruction that a thread is at: a local one was run, a visible one wasn't.
#[derive(Clone, Copy, PartialEq, Eq)]
pub enum Turn {
    /// The instruction is local and was run. The next one has this number, or this is the code's
    /// length, and the end follows.
    Runs(usize),
    /// The instruction is an assertion, which fails.
    Fails,
    /// The instruction is a `lock` or an `acquire`, whose step may have to wait.
    Takes,
    /// The instruction is another visible one: a running thread can take its step at once.
    Visible,
    /// There is no instruction: the thread is at the end of its code.
    Ends,
}

/// Where a thread is after its local run, and its status.
#[derive(Clone, Copy)]
pub struct Landing {
    /// The number of the instruction; the length of the code where the thread ended.
    pub pc: usize,
    pub status: Status,
    /// True only where the next step is possible, takes no mutex and acquires no semaphore; false
    /// also where that isn't known.
    pub free: bool,
}

/// The value of an operand, a local of a thread or a literal, where the thread's locals have the
/// values `locals`.
pub fn operand_value(locals: &[i64], value: Value) -> i64
    requires { IsValueBelow (length locals.now) value }
    ensures { result ≡ value_of_operand locals.now value }
{
    match value {
        Value::Local(r) => locals[r],
        Value::Literal(n) => n,
    }
}

// Whether `variable`, the value of a variable, equals the operand that a `cas` expects, where the
// thread's locals have the values `locals`.
fn equals_expected(locals: &[i64], expected: Value, variable: i64) -> bool
    requires { IsValueBelow (length locals.now) expected }
    ensures { result ≡ is_expected locals.now expected variable }
{
    variable == operand_value(locals, expected)
}

/// Does a thread's action on a variable. `cell` has the variable's value, `locals` those of the
/// thread's locals. The sum of an `add` wraps at 64 bits.
#[inline(always)]
pub fn access(cell: &mut i64, locals: &mut [i64], action: VariableAction)
    requires { IsAccessBelow (length locals.old) action }
    ensures cell { cell.new ≡ var_after action locals.old cell.old }
    ensures locals { (at : Landing) → own_thread at locals.new
        ≡ reader_after action (own_thread at locals.old) cell.old }
{
    match action {
        VariableAction::Load(local) => locals[local] = *cell,
        VariableAction::Store(value) => *cell = operand_value(locals, value),
        VariableAction::Add(local, value) => {
            let old = *cell;
            *cell = old.wrapping_add(operand_value(locals, value));
            locals[local] = old;
        }
        VariableAction::Cas(local, expected, new) => {
            let hit = equals_expected(locals, expected, *cell);
            if hit {
                *cell = operand_value(locals, new);
            }
            locals[local] = i64::from(hit);
        }
    }
}

/// What an operator makes of two values. Sums, differences and products wrap at 64 bits, and a
/// comparison gives 1 or 0.
pub fn operation_value(op: Op, a: i64, b: i64) -> i64
    ensures { result ≡ of_both op a b }
{
    match op {
        Op::Add => a.wrapping_add(b),
        Op::Subtract => a.wrapping_sub(b),
        Op::Multiply => a.wrapping_mul(b),
        Op::Equal => i64::from(a == b),
        Op::NotEqual => i64::from(a != b),
        Op::Less => i64::from(a < b),
        Op::LessOrEqual => i64::from(a <= b),
        Op::Greater => i64::from(a > b),
        Op::GreaterOrEqual => i64::from(a >= b),
    }
}

/// The value of an expression, where the thread's locals have the values `locals`.
#[inline(always)]
pub fn expression_value(locals: &[i64], expression: &Expression) -> i64
    requires { IsExpressionBelow (length locals.now) expression.now }
    ensures { result ≡ value_of_expression locals.now expression.now }
{
    match expression {
        Expression::Single(a) => operand_value(locals, *a),
        Expression::Both(a, op, b) => {
            operation_value(*op, operand_value(locals, *a), operand_value(locals, *b))
        }
    }
}

// Whether an expression is 0, where the thread's locals have the values `locals`.
fn is_zero(locals: &[i64], expression: &Expression) -> bool
    requires { IsExpressionBelow (length locals.now) expression.now }
    ensures { result ≡ is_zero (value_of_expression locals.now expression.now) }
{
    expression_value(locals, expression) == 0
}

// The number of the instruction that comes next once the one of number `at` is done and `skip` more
// are passed over; the code's length where fewer are left.
fn pc_after_skip(code: &[Instruction], at: usize, skip: usize) -> usize
    requires { at < length code.now }
    ensures { result ≡ passed at skip (drop (at + 1) code.now) }
{
    let next = at + 1;
    next + skip.min(code.len() - next)
}

/// Runs the instruction of number `at` if it is a local one, on the values `locals` of the thread's
/// locals, and answers what came of it. A visible one isn't run; at the code's end there is none.
#[inline(always)]
pub fn run_if_local(code: &[Instruction], locals: &mut [i64], at: usize) -> Turn
    requires { All (LocalsBelow (length locals.old)) code.now }
    ensures turn { result ≡ turn_of at locals.old (drop at code.now) }
    ensures locals { locals.new ≡ locals_after locals.old (drop at code.now) }
    ensures further { IsFurther at (length code.now) result }
{
    if at >= code.len() {
        return Turn::Ends;
    }
    match &code[at] {
        Instruction::Set { local, value } => {
            locals[*local] = expression_value(locals, value);
            Turn::Runs(at + 1)
        }
        Instruction::Assert(e) => {
            if is_zero(locals, e) {
                return Turn::Fails;
            }
            Turn::Runs(at + 1)
        }
        Instruction::SkipIfZero(e, n) => {
            let skip = if is_zero(locals, e) { *n } else { 0 };
            Turn::Runs(pc_after_skip(code, at, skip))
        }
        Instruction::Skip(n) => Turn::Runs(pc_after_skip(code, at, *n)),
        Instruction::Lock(_) | Instruction::Acquire(_) => Turn::Takes,
        _ => Turn::Visible,
    }
}

/// Takes a thread's local run: runs local instructions from number `from` on, up to a visible one,
/// the end or a failed assertion, and answers where the thread is then, and its status, which at a
/// visible instruction is `status`.
#[inline(always)]
pub fn run_local(code: &[Instruction], locals: &mut [i64], from: usize, status: Status) -> Landing
    requires below { All (LocalsBelow (length locals.old)) code.now }
    requires pc { from ≤ length code.now }
    ensures pc { result.pc ≤ length code.now }
    ensures free { IsTrue result.free → IsFree code.now result status }
    ensures value { own_thread result locals.new ≡ run_from code.now
        (record { pc = from; locals = locals.old; status = status }) }
{
    let mut at = from;
    loop {
        match run_if_local(code, locals, at) {
            Turn::Runs(next) => at = next,
            Turn::Fails => {
                return Landing {
                    pc: at,
                    status: Status::Stopped(Stop::Assert),
                    free: false,
                };
            }
            Turn::Takes => return Landing {
                pc: at,
                status,
                free: false,
            },
            Turn::Visible => return Landing {
                pc: at,
                status,
                free: true,
            },
            Turn::Ends => return Landing {
                pc: at,
                status: Status::Ended,
                free: false,
            },
        }
    }
}

/// Takes a thread's local run: runs local instructions from where the thread is, up to a visible
/// one, the end or a failed assertion, and sets its place and status.
pub fn take_local_run(code: &[Instruction], thread: &mut Thread)
    requires fine { (p : Program) × IsValidCode p code.now }
    requires pc { thread.old.pc ≤ length code.now }
    ensures { thread.new ≡ run_from code.now thread.old }
{
    let at = run_local(code, &mut thread.locals, thread.pc, thread.status);
    thread.pc = at.pc;
    thread.status = at.status;
}

/// Moves a thread past the visible instruction that it is at, sets it running, and takes its local
/// run from there.
pub fn resume(code: &[Instruction], thread: &mut Thread)
    requires fine { (p : Program) × IsValidCode p code.now }
    requires pc { thread.old.pc < length code.now }
    ensures { thread.new ≡ resumed code.now thread.old }
{
    thread.pc += 1;
    thread.status = Status::Running;
    take_local_run(code, thread);
}
