//! The values that a thread gives its locals in a step and in the local run after it.

ghost use Rattle.std.specs.Prelude.{IfOk, ◌≡◌, ◌<◌, ◌++◌, length, drop, OnOk, IfSome};
ghost use Rattle.guest_code.specs.Program.{Program, IsValidCode, IsValid};
ghost use Rattle.explain_run.specs.Settings.{settings_in, setting_by, listed, locals_with, settings_by};
ghost use Rattle.explain_run.specs.inner.Runs.{set_at};

use guest_code::limits::LOCALS;
use guest_code::program::Instruction;
use replay::Act;
use semantics::{Turn, run_if_local};
use std::alloc::{AllocError, Global};

/// An assignment to a local, by an instruction that a thread carries out.
#[derive(Clone, Copy, PartialEq, Eq)]
pub struct Assignment {
    /// The number of the instruction that sets the local.
    pub instruction: usize,
    /// The local, by its number.
    pub local: usize,
    /// The value that the local gets.
    pub value: i64,
}

/// Where a thread was before a step, with the values of its locals, and where it was after the step
/// and the local run after it.
#[derive(Clone, Copy)]
pub struct Passage {
    /// The number of the instruction of the step.
    pub from: usize,
    /// The number of the instruction that the thread was at afterwards; `from` where no local run
    /// followed, since the thread stopped at the step or began to wait.
    pub to: usize,
    /// The values of the thread's locals before the step.
    pub locals: [i64; LOCALS],
}

/// The assignments to a thread's locals in a step that did `act`, and in the local run after it, in
/// order. `code` is the thread's; `passage` says where the thread was before the step and after the
/// local run, and has the values of its locals before the step. Fails where memory runs out.
pub fn assignments_of(
    alloc: Global,
    code: &[Instruction],
    passage: Passage,
    act: Act,
) -> Result<Vec<Assignment>, AllocError>
    requires valid { (p : Program) × IsValidCode p code.now }
    requires inside { passage.from < length code.now }
    ensures { IfOk result (λ v. v.items
        ≡ settings_by code.now passage.from passage.to passage.locals act) }
{
    let first = assignment_of(passage.from, &code[passage.from], act);
    let mut assignments = vec_from_option(alloc, first)?;
    let mut locals = passage.locals;
    apply_assignment(&mut locals, first);
    if passage.to == passage.from {
        return Ok(assignments);
    }
    run_and_push_assignments(&mut assignments, code, &mut locals, passage.from + 1)?;
    Ok(assignments)
}

// The assignment to a local by a visible statement, whose step did `act`; `None` where it sets no
// local. `instruction` is the number of the statement's instruction.
fn assignment_of(instruction: usize, statement: &Instruction, act: Act) -> Option<Assignment>
    requires { (p : Program) × IsValid p statement.now }
    ensures value { result ≡ setting_by instruction statement.now act }
    ensures local { IfSome result (λ assignment. assignment.local < LOCALS) }
{
    match (statement, act) {
        (Instruction::Load { local, .. }, Act::Load { value, .. }) => Some(Assignment {
            instruction,
            local: *local,
            value,
        }),
        (Instruction::Add { local, .. }, Act::Add { old, .. }) => Some(Assignment {
            instruction,
            local: *local,
            value: old,
        }),
        (Instruction::Cas { local, .. }, Act::Cas { hit, .. }) => Some(Assignment {
            instruction,
            local: *local,
            value: i64::from(hit.is_some()),
        }),
        _ => None,
    }
}

// A list with the assignment, if there is one; empty for `None`.
fn vec_from_option(
    alloc: Global,
    assignment: Option<Assignment>,
) -> Result<Vec<Assignment>, AllocError>
    ensures { IfOk result (λ v. v.items ≡ listed assignment) }
{
    let mut assignments = Vec::new(alloc);
    if let Some(assignment) = assignment {
        assignments.push(assignment)?;
    }
    Ok(assignments)
}

// Gives a thread's local the value that the assignment says; for `None`, changes nothing.
fn apply_assignment(locals: &mut [i64; LOCALS], assignment: Option<Assignment>)
    requires { IfSome assignment (λ assignment. assignment.local < LOCALS) }
    ensures { locals.new ≡ locals_with locals.old assignment }
{
    if let Some(assignment) = assignment {
        locals[assignment.local] = assignment.value;
    }
}

/// Carries out a local run from instruction `from` on in `locals`, which are the thread's locals
/// before it, and adds the assignments of the run to `assignments`, in order. Fails where memory
/// runs out.
pub fn run_and_push_assignments(
    assignments: &mut Vec<Assignment>,
    code: &[Instruction],
    locals: &mut [i64; LOCALS],
    from: usize,
) -> Result<(), AllocError>
    requires { (p : Program) × IsValidCode p code.now }
    ensures { OnOk result (assignments.new.items
        ≡ assignments.old.items ++ settings_in (drop from code.now) from 0 locals.old) }
{
    let mut at = from;
    while let Turn::Runs(next) = run_if_local(code, locals, at) {
        push_if_set(assignments, at, &code[at], locals)?;
        at = next;
    }
    Ok(())
}

// If `instruction`, which has number `at`, is a `set`, adds its assignment; else adds nothing. A
// local run has just carried it out: `locals` are the thread's locals after it.
fn push_if_set(
    assignments: &mut Vec<Assignment>,
    at: usize,
    instruction: &Instruction,
    locals: &[i64; LOCALS],
) -> Result<(), AllocError>
    requires { (p : Program) × IsValid p instruction.now }
    ensures { OnOk result (assignments.new.items
        ≡ assignments.old.items ++ set_at at instruction.now locals.now) }
{
    if let Instruction::Set { local, .. } = instruction {
        assignments.push(Assignment {
            instruction: at,
            local: *local,
            value: locals[*local],
        })?;
    }
    Ok(())
}
