//! The kinds of warnings: what each is about, what is said of it, and where it is so.

ghost use Rattle.std.specs.Prelude.{◌≡◌, ◌<◌, ◌↔◌, IsTrue, IfOk, length, ◌^◌, ◌≤◌};
ghost use Rattle.guest_code.specs.Program.{code_of, JumpsWithin};
ghost use Rattle.check_lint.specs.Paths.{IsReached};
ghost use Rattle.check_lint.specs.Warnings.{UsesIn, UsesAnywhere, IsSo, MissingUnlock, MissingLock, LocksAgain, IsUnseen, WaitNotLookedAtAgain, WaitsElsewhere, subject_of, count_of};

use crate::paths::{Watch, path_marks, reaches_effect_or_end};
use crate::uses::Use;
use guest_code::kinds::NameKind;
use guest_code::limits::{INSTRUCTIONS, LOCALS};
use guest_code::program::{Instruction, Program};
use std::alloc::{AllocError, Global};

/// What the warnings of a kind are about. The number of a warning says which of them is meant.
#[derive(Clone, Copy)]
pub enum Subject {
    /// The locals of the thread of this number.
    Local(u8),
    /// The instructions of the thread of this number.
    Instruction(u8),
    /// The objects of this kind.
    Object(NameKind),
}

const VARIABLE: Subject = Subject::Object(NameKind::Variable);

const MUTEX: Subject = Subject::Object(NameKind::Mutex);

const CONDITION: Subject = Subject::Object(NameKind::Condition);

const SEMAPHORE: Subject = Subject::Object(NameKind::Semaphore);

/// What is warned of, with the number of the thread where it is of one thread.
#[derive(Clone, Copy, PartialEq, Eq)]
pub enum WarningKind {
    /// A local is read, and no statement of its thread gives it a value.
    NeverSet(u8),
    /// A local gets a value by a `load` or a `set`, and no statement of its thread reads it.
    NeverRead(u8),
    /// No statement names a variable.
    UnusedVariable,
    /// A variable is loaded, and never written.
    NeverStored,
    /// A variable is written, and never loaded.
    NeverLoaded,
    /// No statement names a mutex.
    UnusedMutex,
    /// No statement names a condition.
    UnusedCondition,
    /// No statement names a semaphore.
    UnusedSemaphore,
    /// A condition is waited for, and no statement signals it.
    NeverSignalled,
    /// A condition is signalled, and no statement waits for it.
    NeverWaitedFor,
    /// A semaphore starts at 0 and is acquired, and no statement releases it.
    NeverReleased,
    /// No path through the thread's code leads to an instruction.
    Unreached(u8),
    /// An instruction locks a mutex that on some path the thread still owns at its end.
    MissingUnlock(u8),
    /// An instruction, an `unlock` or a `wait`, gives up a mutex that on some path the thread
    /// doesn't own there.
    MissingLock(u8),
    /// An instruction locks a mutex that on each path to there the thread owns already.
    LocksAgain(u8),
    /// After a `wait` no local is sure to get a value and then be tested, before the thread ends or
    /// does something that other threads may see.
    WaitNotLookedAtAgain(u8),
    /// An instruction waits for a condition that another one waits for with another mutex.
    WaitsElsewhere(u8),
}

/// A warning: its kind, and the number of the local, the object or the instruction.
#[derive(Clone, Copy)]
pub struct Warning {
    pub kind: WarningKind,
    pub number: usize,
}

// The code of a thread, empty where there is no such thread. `keeps_limits` does nothing, but proves
// the clauses on jumps and length.
fn code_of(program: &Program, thread: u8) -> &[Instruction]
    ensures code { result.now ≡ code_of program.now thread }
    ensures jumps { JumpsWithin result.now }
    ensures short { length result.now ≤ INSTRUCTIONS }
{
    program.keeps_limits();
    if thread < program.threads() {
        program.code(thread)
    } else {
        &[]
    }
}

// Whether some path from the start of a code leads to the instruction of number `at`.
fn is_reached(alloc: Global, code: &[Instruction], at: usize) -> Result<bool, AllocError>
    requires jumps { JumpsWithin code.now }
    requires short { length code.now < 2 ^ 32 }
    requires at { at < length code.now }
    ensures { IfOk result (λ b. IsTrue b ↔ IsReached code.now at) }
{
    let marks = path_marks(alloc, code, Watch::Nothing, 0, false)?;
    Ok(marks[at].may_hold || marks[at].may_not_hold)
}

// Whether the instruction of number `at` is a `lock` of a mutex that on some path to there the
// thread doesn't own yet, and that on some path from there it still owns at the end of its code.
fn lacks_unlock(alloc: Global, code: &[Instruction], at: usize) -> Result<bool, AllocError>
    requires jumps { JumpsWithin code.now }
    requires short { length code.now < 2 ^ 32 }
    requires at { at < length code.now }
    ensures { IfOk result (λ b. IsTrue b ↔ MissingUnlock code.now at) }
{
    let Instruction::Lock(mutex) = code[at] else {
        return Ok(false);
    };
    let before = path_marks(alloc, code, Watch::Owns(mutex), 0, false)?;
    let marks = path_marks(alloc, code, Watch::Owns(mutex), at + 1, true)?;
    Ok(before[at].may_not_hold && marks[code.len()].may_hold)
}

// Whether the instruction of number `at` is an `unlock` of, or a `wait` with, a mutex that the
// thread doesn't own on some path to there.
fn lacks_lock(alloc: Global, code: &[Instruction], at: usize) -> Result<bool, AllocError>
    requires jumps { JumpsWithin code.now }
    requires short { length code.now < 2 ^ 32 }
    requires at { at < length code.now }
    ensures { IfOk result (λ b. IsTrue b ↔ MissingLock code.now at) }
{
    let mutex = match code[at] {
        Instruction::Unlock(mutex) => mutex,
        Instruction::Wait { mutex, .. } => mutex,
        _ => return Ok(false),
    };
    let marks = path_marks(alloc, code, Watch::Owns(mutex), 0, false)?;
    Ok(marks[at].may_not_hold)
}

// Whether the instruction of number `at` is a `lock`, to which some path leads, of a mutex that the
// thread owns already on each path to there.
fn locks_again(alloc: Global, code: &[Instruction], at: usize) -> Result<bool, AllocError>
    requires jumps { JumpsWithin code.now }
    requires short { length code.now < 2 ^ 32 }
    requires at { at < length code.now }
    ensures { IfOk result (λ b. IsTrue b ↔ LocksAgain code.now at) }
{
    let Instruction::Lock(mutex) = code[at] else {
        return Ok(false);
    };
    let marks = path_marks(alloc, code, Watch::Owns(mutex), 0, false)?;
    Ok(marks[at].may_hold && !marks[at].may_not_hold)
}

// Whether some path that begins after the instruction of number `at`, on which the local isn't
// given a value and then tested, leads to the end, or to an instruction that is sure to do
// something that other threads may see. No path goes on after a `cas`, which tests by itself.
fn may_go_untested(
    alloc: Global,
    code: &[Instruction],
    local: usize,
    at: usize,
) -> Result<bool, AllocError>
    requires jumps { JumpsWithin code.now }
    requires short { length code.now < 2 ^ 32 }
    requires at { at < length code.now }
    ensures { IfOk result (λ b. IsTrue b ↔ IsUnseen code.now local at) }
{
    let marks = path_marks(alloc, code, Watch::Untested(local), at + 1, false)?;
    Ok(reaches_effect_or_end(&marks, code))
}

// Whether the instruction of number `at` is a `wait` after which the thread may go on without a new
// look at what it waited for: for each local, some path after the `wait` leads to the end, or to
// what other threads may see, on which the local isn't given a value and then tested.
fn waits_without_recheck(alloc: Global, code: &[Instruction], at: usize) -> Result<bool, AllocError>
    requires jumps { JumpsWithin code.now }
    requires short { length code.now < 2 ^ 32 }
    requires at { at < length code.now }
    ensures { IfOk result (λ b. IsTrue b ↔ WaitNotLookedAtAgain code.now at) }
{
    if !matches!(code[at], Instruction::Wait { .. }) {
        return Ok(false);
    }
    for local in 0..LOCALS {
        if !may_go_untested(alloc, code, local, at)? {
            return Ok(false);
        }
    }
    Ok(true)
}

// Whether an instruction is a `wait` for a condition for which some instruction of the program
// waits with another mutex.
fn waits_with_mixed_mutexes(program: &Program, instruction: &Instruction) -> bool
    ensures { IsTrue result ↔ WaitsElsewhere program.now instruction.now }
{
    match instruction {
        Instruction::Wait { condition, mutex } => {
            is_used(program, Use::WaitsWithout(*mutex), *condition)
        }
        _ => false,
    }
}

// Whether some instruction of a thread makes this use of the local of this number.
fn is_used_in(program: &Program, thread: u8, use_: Use, number: usize) -> bool
    ensures { IsTrue result ↔ UsesIn program.now thread use_ number }
{
    use_.is_made_in(number, code_of(program, thread))
}

// Whether some instruction of the program makes this use of the object of this number.
fn is_used(program: &Program, use_: Use, number: usize) -> bool
    ensures { IsTrue result ↔ UsesAnywhere program.now use_ number }
{
    for thread in 0..program.threads() {
        if use_.is_made_in(number, program.code(thread)) {
            return true;
        }
    }
    false
}

// Whether some instruction of the program makes the first of two uses of the object of this number,
// and none makes the second.
fn is_used_without(program: &Program, made: Use, missing: Use, number: usize) -> bool
    ensures { IsTrue result ↔ (UsesAnywhere program.now made number
        × (¬ UsesAnywhere program.now missing number)) }
{
    is_used(program, made, number) && !is_used(program, missing, number)
}

impl Subject {
    // How many of them a program has.
    fn count(self, program: &Program) -> usize
        ensures { result ≡ count_of program.now self }
    {
        match self {
            Subject::Local(thread) => {
                if thread < program.threads() {
                    program.locals(thread)
                } else {
                    0
                }
            }
            Subject::Instruction(thread) => code_of(program, thread).len(),
            Subject::Object(NameKind::Variable) => program.variables() as usize,
            Subject::Object(NameKind::Mutex) => program.mutexes() as usize,
            Subject::Object(NameKind::Condition) => program.conditions() as usize,
            Subject::Object(NameKind::Semaphore) => program.semaphores() as usize,
            Subject::Object(NameKind::Thread) => program.threads() as usize,
        }
    }
}

impl WarningKind {
    /// What the warnings of this kind are about, and what is said of each: its number and name, and
    /// after `: ` its message. The message of W8, W9 and W15 lacks its subject, the name of the
    /// thread, which is written before it; W1 and W2 have none, as theirs names the local.
    pub fn row(self) -> (Subject, &'static str)
        ensures { result.0 ≡ subject_of self }
    {
        match self {
            Self::NeverSet(thread) => (Subject::Local(thread), "W1 NeverSet"),
            Self::NeverRead(thread) => (Subject::Local(thread), "W2 NeverRead"),
            Self::UnusedVariable => (VARIABLE, "W3 Unused: no statement names this variable"),
            Self::UnusedMutex => (MUTEX, "W3 Unused: no statement names this mutex"),
            Self::UnusedCondition => (CONDITION, "W3 Unused: no statement names this condition"),
            Self::UnusedSemaphore => (SEMAPHORE, "W3 Unused: no statement names this semaphore"),
            Self::NeverStored => (
                VARIABLE,
                "W4 NeverStored: no statement writes this variable: it keeps its first value",
            ),
            Self::NeverLoaded => (VARIABLE, "W5 NeverLoaded: no statement reads this variable"),
            Self::Unreached(thread) => (
                Subject::Instruction(thread),
                "W7 Unreached: no run comes here: what is before it always leaves",
            ),
            Self::MissingUnlock(thread) => (
                Subject::Instruction(thread),
                "W8 MayKeep: may end with this mutex locked: on some way to its end nothing unlocks it",
            ),
            Self::MissingLock(thread) => (
                Subject::Instruction(thread),
                "W9 MayLack: may come here without this mutex: on some way to here nothing locks it, \
                 or it is unlocked again",
            ),
            Self::WaitNotLookedAtAgain(thread) => (
                Subject::Instruction(thread),
                "W14 WaitNotLookedAtAgain: on some way from here no value is loaded and tested \
                 before the thread goes on: a platform may wake it for nothing, a guest doesn't",
            ),
            Self::LocksAgain(thread) => (
                Subject::Instruction(thread),
                "W15 LocksAgain: comes here with this mutex locked by itself: it would wait for ever",
            ),
            Self::NeverSignalled => (
                CONDITION,
                "W16 NeverSignalled: no statement signals this condition: who waits for it waits for \
                 ever",
            ),
            Self::NeverWaitedFor => (
                CONDITION,
                "W17 NeverWaitedFor: no statement waits for this condition",
            ),
            Self::NeverReleased => (
                SEMAPHORE,
                "W18 NeverReleased: it starts at 0 and no statement releases it: who acquires it \
                 waits for ever",
            ),
            Self::WaitsElsewhere(thread) => (
                Subject::Instruction(thread),
                "W19 WaitsElsewhere: another statement waits for this condition with another mutex",
            ),
        }
    }

    /// How many locals, instructions or objects of a program the warnings of this kind are about.
    pub fn count(self, program: &Program) -> usize
        ensures { result ≡ count_of program.now (subject_of self) }
    {
        let (subject, _) = self.row();
        subject.count(program)
    }

    /// Whether the local, object or instruction of this number is one that this kind warns of.
    /// Fails where memory runs out.
    pub fn applies_to(
        self,
        alloc: Global,
        program: &Program,
        number: usize,
    ) -> Result<bool, AllocError>
        requires { number < count_of program.now (subject_of self) }
        ensures { IfOk result (λ b. IsTrue b ↔ IsSo program.now self number) }
    {
        match self {
            Self::NeverSet(thread) => Ok(
                is_used_in(program, thread, Use::Reads, number)
                    && !is_used_in(program, thread, Use::Sets, number),
            ),
            Self::NeverRead(thread) => Ok(
                is_used_in(program, thread, Use::OnlySets, number)
                    && !is_used_in(program, thread, Use::Reads, number),
            ),
            Self::UnusedVariable => Ok(
                !is_used(program, Use::Loads, number) && !is_used(program, Use::Stores, number),
            ),
            Self::NeverStored => Ok(is_used_without(program, Use::Loads, Use::Stores, number)),
            Self::NeverLoaded => Ok(is_used_without(program, Use::Stores, Use::Loads, number)),
            Self::UnusedMutex => Ok(!is_used(program, Use::OfMutex, number)),
            Self::UnusedCondition => Ok(!is_used(program, Use::OfCondition, number)),
            Self::UnusedSemaphore => Ok(!is_used(program, Use::OfSemaphore, number)),
            Self::NeverSignalled => Ok(is_used_without(program, Use::Waits, Use::Signals, number)),
            Self::NeverWaitedFor => Ok(is_used_without(program, Use::Signals, Use::Waits, number)),
            Self::NeverReleased => Ok(
                program.initial_count(number) == 0
                    && is_used(program, Use::Acquires, number)
                    && !is_used(program, Use::Releases, number),
            ),
            Self::Unreached(thread) => Ok(!is_reached(alloc, code_of(program, thread), number)?),
            Self::MissingUnlock(thread) => Ok(lacks_unlock(
                alloc,
                code_of(program, thread),
                number,
            )?),
            Self::MissingLock(thread) => Ok(lacks_lock(alloc, code_of(program, thread), number)?),
            Self::LocksAgain(thread) => Ok(locks_again(alloc, code_of(program, thread), number)?),
            Self::WaitNotLookedAtAgain(thread) => Ok(waits_without_recheck(
                alloc,
                code_of(program, thread),
                number,
            )?),
            Self::WaitsElsewhere(thread) => {
                let code = code_of(program, thread);
                Ok(waits_with_mixed_mutexes(program, &code[number]))
            }
        }
    }
}
