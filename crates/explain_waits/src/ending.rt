//! Blocked threads, and the statements that could end their waits.

ghost use Rattle.std.specs.Prelude.{◌≡◌, ◌↔◌, ◌++◌, IsTrue, IfOk, OnOk, length};
ghost use Rattle.explain_run.specs.Blocked.{mutex_of};
ghost use Rattle.explain_waits.specs.Endings.{blocked_of, owner_told, could_end, is_placed, statements_in, statements_to};
ghost use Rattle.explain_waits.specs.Looks.{after_wait};
ghost use Rattle.explain_waits.specs.inner.Rows.{lists, Fits, FindsAhead, FindsEdge};

use crate::fate::{Fate, end_pc};
use crate::look::Look;
use explain_run::{Explanation, Reason};
use guest_code::program::{Instruction, Program};
use semantics::owns;
use std::alloc::{AllocError, Global};

/// A statement that could end the wait of a blocked thread, and what came of the statement.
#[derive(Clone, Copy, PartialEq, Eq)]
pub struct Statement {
    /// The thread in whose code the statement is.
    pub thread: u8,
    /// The number of the instruction.
    pub instruction: usize,
    /// What came of the statement.
    pub fate: Fate,
}

/// A thread that is blocked at the end of a schedule.
#[derive(Clone, Copy)]
pub struct Blocked {
    /// The number of the thread.
    pub thread: u8,
    /// What the thread waits for.
    pub reason: Reason,
    /// The number of the instruction at which the thread waits.
    pub instruction: usize,
    /// The owner of the mutex that the thread waits for, if it waits for one.
    pub owner: Option<u8>,
}

impl Blocked {
    /// The thread of this number, as it is blocked at the end of an explained schedule; `None`
    /// where it isn't blocked.
    pub fn of(told: &Explanation, thread: u8) -> Option<Blocked>
        ensures { result ≡ blocked_of told.now thread }
    {
        let reason = told.reason(thread)?;
        Some(Blocked {
            thread,
            reason,
            instruction: end_pc(told, thread),
            owner: owner_of(told, reason),
        })
    }

    /// Whether the instruction of number `at` of thread `other` could end the wait, or could have
    /// ended it in another schedule: it could end a wait for this reason, and it is, for a mutex,
    /// its owner's. In the waiting thread itself, a `signal`, `broadcast` or `release` counts only
    /// before the instruction at which the thread waits: the thread can't come to a later one before
    /// the wait ends.
    pub fn could_be_unblocked_by(self, other: u8, at: usize, instruction: &Instruction) -> bool
        ensures { result ≡ could_end self other at instruction.now }
    {
        self.may_be_ended_at(other, at) & self.reason.could_be_ended_by(instruction)
    }

    /// The number of the instruction at which the thread goes on once its wait ends, where this is
    /// its code.
    pub fn next_instruction(self, code: &[Instruction]) -> usize
        ensures { result ≡ after_wait code.now self }
    {
        if self.instruction < code.len() {
            self.instruction + 1
        } else {
            code.len()
        }
    }

    // Whether the instruction of number `at` of thread `other` is one that may end the wait by its
    // thread and place: one of the mutex's owner; else one of another thread, or before the wait.
    fn may_be_ended_at(self, other: u8, at: usize) -> bool
        ensures { result ≡ is_placed self other at }
    {
        match self.reason {
            Reason::Lock(_) | Reason::Retake(_) => owns(other, self.owner),
            Reason::Signal(_) | Reason::Acquire(_) => {
                other != self.thread || at < self.instruction
            }
        }
    }
}

// The owner, at the end of an explained schedule, of the mutex that a thread waits for by this
// reason. `None` where it waits for no mutex, or nobody owns the mutex.
fn owner_of(told: &Explanation, reason: Reason) -> Option<u8>
    ensures { result ≡ owner_told told.now (mutex_of reason) }
{
    let holder = told.holder(reason.mutex()?)?;
    Some(holder.thread)
}

// Adds to `list`, in the order of the code, the statements of thread `other` that could end the
// wait of a blocked thread, each with what came of it. `code` and `fates` are those of `other`.
fn put_unblocking_statements(
    list: &mut Vec<Statement>,
    code: &[Instruction],
    fates: &[Fate],
    blocked: Blocked,
    other: u8,
) -> Result<(), AllocError>
    requires { length fates.now ≡ length code.now }
    ensures { OnOk result (list.new.items
        ≡ list.old.items ++ statements_in blocked other code.now fates.now) }
{
    for (at, instruction) in code.iter().enumerate() {
        if blocked.could_be_unblocked_by(other, at, instruction) {
            list.push(Statement {
                thread: other,
                instruction: at,
                fate: fates[at],
            })?;
        }
    }
    Ok(())
}

/// Each statement that could end the wait of a blocked thread, with what came of it, in the order
/// of threads and instructions. `fates` has, for each thread, what came of each of its
/// instructions. Fails where memory runs out.
pub fn unblocking_statements(
    alloc: Global,
    program: &Program,
    fates: &[Vec<Fate>],
    blocked: Blocked,
) -> Result<Vec<Statement>, AllocError>
    requires { Fits program.now (lists fates.now) }
    ensures { IfOk result (λ v. v.items
        ≡ statements_to program.now (lists fates.now) blocked (length program.now.threads)) }
{
    let mut list = Vec::new(alloc);
    for u in 0..program.threads() {
        let code = program.code(u);
        put_unblocking_statements(&mut list, code, fates[u as usize].as_slice(), blocked, u)?;
    }
    Ok(list)
}

// Whether thread `other`, if it goes on, comes to a statement that could end the wait of a blocked
// thread, that it hasn't carried out, and that helps the blocked one: either that goes on as things
// are, which `look` says, or `other` may change what that looks at before it comes to the statement.
// `code` and `fates` are those of `other`.
fn comes_to_help(
    code: &[Instruction],
    fates: &[Fate],
    blocked: Blocked,
    look: &Look,
    other: u8,
) -> bool
    requires { length fates.now ≡ length code.now }
    ensures { IsTrue result ↔ FindsAhead code.now fates.now blocked look.now other }
{
    let mut helps = !look.sleeps;
    for (at, instruction) in code.iter().enumerate() {
        let ends = blocked.could_be_unblocked_by(other, at, instruction) & fates[at].is_ahead();
        if ends & helps {
            return true;
        }
        helps = helps | (fates[at].may_come() & look.is_changed_by(instruction));
    }
    false
}

/// Whether a blocked thread waits for thread `other`: whether `other` owns the mutex that the
/// blocked one waits for, or comes, if it goes on, to a statement that could end the wait and helps
/// the blocked thread, which would look so. `code` and `fates` are those of `other`.
pub fn waits_for(
    code: &[Instruction],
    fates: &[Fate],
    blocked: Blocked,
    look: &Look,
    other: u8,
) -> bool
    requires { length fates.now ≡ length code.now }
    ensures { IsTrue result ↔ FindsEdge code.now fates.now blocked look.now other }
{
    owns(other, blocked.owner) || comes_to_help(code, fates, blocked, look, other)
}
