//! Which step a thread takes next, by its status and its instruction.

ghost use Rattle.std.specs.Prelude.{◌≡◌, Some};
ghost use Rattle.semantics.specs.Machine.{action_of, retake_of, action_at, owns};

use crate::state::{Action, ConditionAction, MutexAction, SemaphoreAction, Status, VariableAction};
use guest_code::program::Instruction;

/// What a running thread's step at this instruction does; `None` where the instruction is local.
pub fn action_of(instruction: &Instruction) -> Option<Action>
    ensures { result ≡ action_of instruction.now }
{
    match instruction {
        Instruction::Load { local, variable } => Some(Action::OnVariable(
            *variable,
            VariableAction::Load(*local),
        )),
        Instruction::Store { variable, value } => Some(Action::OnVariable(
            *variable,
            VariableAction::Store(*value),
        )),
        Instruction::Add {
            local,
            variable,
            value,
        } => Some(Action::OnVariable(*variable, VariableAction::Add(*local, *value))),
        Instruction::Cas {
            local,
            variable,
            expected,
            new,
        } => Some(Action::OnVariable(*variable, VariableAction::Cas(*local, *expected, *new))),
        Instruction::Lock(m) => Some(Action::OnMutex(*m, MutexAction::Lock)),
        Instruction::Unlock(m) => Some(Action::OnMutex(*m, MutexAction::Unlock)),
        Instruction::Wait { condition, mutex } => Some(Action::Wait(*condition, *mutex)),
        Instruction::Signal(c) => Some(Action::OnCondition(*c, ConditionAction::Signal)),
        Instruction::Broadcast(c) => Some(Action::OnCondition(*c, ConditionAction::Broadcast)),
        Instruction::Acquire(k) => Some(Action::OnSemaphore(*k, SemaphoreAction::Acquire)),
        Instruction::Release(k) => Some(Action::OnSemaphore(*k, SemaphoreAction::Release)),
        Instruction::Set { .. }
        | Instruction::Assert(_)
        | Instruction::SkipIfZero(_, _)
        | Instruction::Skip(_) => None,
    }
}

/// What the step of a woken thread at its `wait` does: it takes the mutex again. `None` for any
/// other instruction.
pub fn retake_of(instruction: &Instruction) -> Option<Action>
    ensures { result ≡ retake_of instruction.now }
{
    match instruction {
        Instruction::Wait { mutex, .. } => Some(Action::OnMutex(*mutex, MutexAction::Retake)),
        _ => None,
    }
}

/// What the next step of a thread with this status, at this instruction, does; `None` where the
/// thread has no next step.
pub fn action_at(status: Status, instruction: &Instruction) -> Option<Action>
    ensures { result ≡ action_at status (Some instruction.now) }
{
    match status {
        Status::Running => action_of(instruction),
        Status::Woken => retake_of(instruction),
        Status::Waiting(_) | Status::Ended | Status::Stopped(_) => None,
    }
}

/// Whether a thread owns a mutex whose owner is `owner`; that of a free mutex is `None`.
pub fn owns(thread: u8, owner: Option<u8>) -> bool
    ensures { result ≡ owns thread owner }
{
    match owner {
        Some(other) => thread == other,
        None => false,
    }
}
