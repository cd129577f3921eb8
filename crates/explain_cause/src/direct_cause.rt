//! Which events are direct causes of the end of a run, for what they do to the object of that end.

ghost use Rattle.std.specs.Prelude.{◌≡◌};
ghost use Rattle.std.specs.List.{list_any};
ghost use Rattle.explain_run.specs.Blocked.{could_end};
ghost use Rattle.explain_cause.specs.Asked.{asks_for, is_asked_of_owner, is_by_owner, is_not_before, took_mutex, passes_by, shares_object};
ghost use Rattle.explain_cause.specs.inner.Wanting.{IsValidEvent};

use crate::event::{Deed, Event};
use check_lint::uses::{Use, is_some_of};
use explain_run::{Holder, Reason};
use guest_code::program::{Instruction, Program};

/// Whether an earlier event is a direct cause of `end`, by which a thread stopped or is blocked at
/// the end of the run:
///
/// - where it stopped at a mutex or a semaphore: each statement that names that object
/// - where it waits for a mutex: the step by which the owner took the mutex, and each jump of the
///   owner since then over an `unlock` of it or a `wait` with it
/// - where it waits for a condition: each statement that names the condition, and each jump of
///   another thread over a `signal` or a `broadcast` of it
/// - where it waits for a semaphore: each statement that names the semaphore, and each jump over a
///   `release` of it
///
/// An assertion that failed has no direct causes.
pub fn is_direct_cause(program: &Program, end: &Event, event: &Event) -> bool
    requires { IsValidEvent program.now event.now }
    ensures { result ≡ asks_for program.now end.now event.now }
{
    match end.deed {
        Deed::Ran(_) | Deed::Stepped(_, None) => false,
        Deed::Stepped(_, Some(_)) => shares_object(&end.statement, &event.statement),
        Deed::Blocked(Reason::Signal(c), _) => {
            Use::OfCondition.is_made(c, &event.statement)
                || event.thread != end.thread && skips_unblocking(program, event, Reason::Signal(c))
        }
        Deed::Blocked(Reason::Acquire(k), _) => {
            Use::OfSemaphore.is_made(k, &event.statement)
                || skips_unblocking(program, event, Reason::Acquire(k))
        }
        Deed::Blocked(reason, holder) => is_direct_cause_by_owner(program, reason, holder, event),
    }
}

// Whether an event is a direct cause of a wait for a mutex that `holder` owns: the step by which
// the owner took the mutex, or a jump of the owner since then over what gives it back. Without an
// owner there is none. `reason` is the reason of the wait.
fn is_direct_cause_by_owner(
    program: &Program,
    reason: Reason,
    holder: Option<Holder>,
    event: &Event,
) -> bool
    requires { IsValidEvent program.now event.now }
    ensures { result ≡ is_asked_of_owner program.now reason holder event.now }
{
    match holder {
        None => false,
        Some(holder) => {
            took_mutex(holder, event)
                || is_by_owner_since(holder, event) && skips_unblocking(program, event, reason)
        }
    }
}

// Whether `statement` names the mutex or the semaphore of `stopped`, the statement at which a
// thread stopped: an `unlock` or a `wait` of a mutex that it didn't own, or a `release` of a full
// semaphore. False for any other `stopped`.
fn shares_object(stopped: &Instruction, statement: &Instruction) -> bool
    ensures { result ≡ shares_object stopped.now statement.now }
{
    match stopped {
        Instruction::Unlock(m) => Use::OfMutex.is_made(*m, statement),
        Instruction::Wait { mutex, .. } => Use::OfMutex.is_made(*mutex, statement),
        Instruction::Release(k) => Use::OfSemaphore.is_made(*k, statement),
        _ => false,
    }
}

// Whether an event is the step by which `holder`, the owner of a mutex, took the mutex.
fn took_mutex(holder: Holder, event: &Event) -> bool
    ensures { result ≡ took_mutex holder event.now }
{
    event.is_step() && is_some_of(holder.since, event.step)
}

// Whether an event is one of the thread that owns a mutex, `holder`, in the step by which it took
// the mutex or in a later one, or in the local run after such a step.
fn is_by_owner_since(holder: Holder, event: &Event) -> bool
    ensures { result ≡ is_by_owner holder event.now }
{
    event.thread == holder.thread && is_not_before(holder.since, event.step)
}

// Whether an event's step, at place `step`, is at place `since` or later; false where it has none.
fn is_not_before(since: usize, step: Option<usize>) -> bool
    ensures { result ≡ is_not_before since step }
{
    match step {
        Some(step) => since <= step,
        None => false,
    }
}

// Whether an event is a jump of its thread over a statement that could end a wait for this reason.
fn skips_unblocking(program: &Program, event: &Event, reason: Reason) -> bool
    requires { IsValidEvent program.now event.now }
    ensures { result ≡ passes_by program.now event.now reason }
{
    let rest = &program.code(event.thread)[event.instruction + 1..];
    any_could_end_wait(reason, &rest[..event.jump_length().min(rest.len())])
}

// Whether one of these statements could end a wait for this reason.
fn any_could_end_wait(reason: Reason, statements: &[Instruction]) -> bool
    ensures { result ≡ list_any (could_end reason) statements.now }
{
    statements
        .iter()
        .any(|statement| reason.could_be_ended_by(statement))
}
