//! Paths through the code of a thread, all followed in one pass: jumps go forwards.

ghost use Rattle.std.specs.Prelude.{◌≡◌, ◌+◌, ◌<◌, ◌≤◌, ◌^◌, ◌↔◌, ℕ, Bool, IsTrue, IfOk, length};
ghost use Rattle.guest_code.specs.Program.{JumpsWithin, skip_of};
ghost use Rattle.check_lint.specs.Paths.{is_test, owned_after, acts, unseen_after, after, ActsAt, Marked, Marks};
ghost use Rattle.check_lint.specs.inner.Marking.{AddsOne, AddsNext, AddsAll};

use crate::uses::{expression_reads, sets};
use guest_code::program::Instruction;
use std::alloc::{AllocError, Global};

/// A property that is watched along a path through the code of a thread.
#[derive(Clone, Copy)]
pub enum Watch {
    /// No property: only where the path leads.
    Nothing,
    /// Whether the thread owns the mutex of this number.
    Owns(usize),
    /// Whether the local of this number has got a value on the path. A path ends where the thread
    /// tests such a value, or does something that other threads may see.
    Untested(usize),
    /// Whether the local of this number has got a value on the path.
    IsSet(usize),
}

/// Whether some path leads to an instruction so that the watched property holds there, and whether
/// some path leads there so that it doesn't.
#[derive(Clone, Copy)]
pub struct Mark {
    /// Some path leads to the instruction, and the watched property holds after the path.
    pub may_hold: bool,
    /// Some path leads to the instruction, and the watched property doesn't hold after the path.
    pub may_not_hold: bool,
}

/// How many of the next instructions an instruction may jump over; 0 where it is no jump.
pub fn skip_of(instruction: &Instruction) -> usize
    ensures { result ≡ skip_of instruction.now }
{
    match instruction {
        Instruction::SkipIfZero(_, over) | Instruction::Skip(over) => *over,
        _ => 0,
    }
}

/// Whether an instruction is a test: a jump over some instructions that is made only if a value is
/// 0, so that a thread may also go on with the next instruction.
pub fn is_test(instruction: &Instruction) -> bool
    ensures { result ≡ is_test instruction.now }
{
    matches!(instruction, Instruction::SkipIfZero(_, _))
}

// Whether a thread owns a mutex after an instruction, where `owned` says whether it did before.
// `None` for a `lock` of the mutex where it owns it already: the thread doesn't get past that.
fn owned_after(mutex: usize, instruction: &Instruction, owned: bool) -> Option<bool>
    ensures { result ≡ owned_after mutex instruction.now owned }
{
    match instruction {
        Instruction::Lock(taken) if *taken == mutex => { if owned { None } else { Some(true) } }
        Instruction::Unlock(given) if *given == mutex => Some(false),
        _ => Some(owned),
    }
}

// Whether an instruction is sure to do something that other threads may see. An `unlock` doesn't
// count, nor a `cas`, which writes only where it hits.
fn affects_others(instruction: &Instruction) -> bool
    ensures { result ≡ acts instruction.now }
{
    matches!(
        instruction,
        Instruction::Store { .. }
            | Instruction::Add { .. }
            | Instruction::Lock(_)
            | Instruction::Wait { .. }
            | Instruction::Signal(_)
            | Instruction::Broadcast(_)
            | Instruction::Acquire(_)
            | Instruction::Release(_)
    )
}

// Whether a path has given a local a value once an instruction is done; `set` says whether it had
// before. `None` where the path isn't followed any further: the instruction tests that value, is a
// `cas`, which tests by itself, or is sure to do something that other threads may see.
fn is_set_after(local: usize, instruction: &Instruction, set: bool) -> Option<bool>
    ensures { result ≡ unseen_after local instruction.now set }
{
    match instruction {
        Instruction::SkipIfZero(test, _) if set && expression_reads(local, test) => None,
        Instruction::SkipIfZero(_, _) => Some(set),
        Instruction::Cas { .. } => None,
        _ if affects_others(instruction) => None,
        _ => Some(set || sets(local, instruction)),
    }
}

// Whether the watched property holds after an instruction, where `holds` says whether it did
// before. `None` where the path isn't followed any further: see `owned_after` and `is_set_after`.
fn holds_after(watch: Watch, instruction: &Instruction, holds: bool) -> Option<bool>
    ensures { result ≡ after watch instruction.now holds }
{
    match watch {
        Watch::Nothing => Some(holds),
        Watch::Owns(mutex) => owned_after(mutex, instruction, holds),
        Watch::Untested(local) => is_set_after(local, instruction, holds),
        Watch::IsSet(local) => Some(holds || sets(local, instruction)),
    }
}

// Marks that some path leads to the instruction of number `at`, and that the watched property holds
// there, or doesn't, as `holds` says.
fn add_mark(marks: &mut [Mark], at: usize, holds: bool)
    requires { at < length marks.old }
    ensures { AddsOne marks.old marks.new at holds }
{
    if holds {
        marks[at].may_hold = true;
    } else {
        marks[at].may_not_hold = true;
    }
}

// Marks the instructions that may be next after `instruction`, which has number `at`: some path
// leads there, and the watched property holds after it or not, as `next` says. Marks nothing where
// `next` is `None`: the path isn't followed any further.
fn mark_successors(marks: &mut [Mark], at: usize, instruction: &Instruction, next: Option<bool>)
    requires { at + 1 + skip_of instruction.now < length marks.old }
    ensures { AddsNext marks.old marks.new at instruction.now next }
{
    let Some(holds) = next else {
        return;
    };
    add_mark(marks, at + 1 + skip_of(instruction), holds);
    if is_test(instruction) {
        add_mark(marks, at + 1, holds);
    }
}

// Passes the marks of `instruction`, which has number `at`, on to those that may be next after it:
// where some path leads to it with the watched property, and where some path leads to it without,
// marks them by whether the property holds after it then.
fn propagate_marks(marks: &mut [Mark], at: usize, instruction: &Instruction, watch: Watch)
    requires { at + 1 + skip_of instruction.now < length marks.old }
    ensures { AddsAll marks.old marks.new at instruction.now watch }
{
    let here = marks[at];
    if here.may_hold {
        let next = holds_after(watch, instruction, true);
        mark_successors(marks, at, instruction, next);
    }
    if here.may_not_hold {
        let next = holds_after(watch, instruction, false);
        mark_successors(marks, at, instruction, next);
    }
}

// Marks, for each instruction of a code and for its end, whether some path from the instruction of
// number `start` leads there with the watched property, and whether some path leads there without
// it. `holds` says whether the property holds before `start`. At the call nothing is marked.
fn mark_paths(marks: &mut [Mark], code: &[Instruction], watch: Watch, start: usize, holds: bool)
    requires none { (j : ℕ) (b : Bool) → ¬ Marked marks.old j b }
    requires length { length marks.old ≡ length code.now + 1 }
    requires jumps { JumpsWithin code.now }
    requires start { start ≤ length code.now }
    ensures { Marks marks.new code.now watch start holds }
{
    add_mark(marks, start, holds);
    for (at, instruction) in code.iter().enumerate() {
        propagate_marks(marks, at, instruction, watch);
    }
}

/// For each instruction of a code, and last for its end, whether some path from the instruction of
/// number `start` leads there with the watched property, and whether some path leads there without
/// it. `holds` says whether the property holds before `start`. Fails where memory runs out.
pub fn path_marks(
    alloc: Global,
    code: &[Instruction],
    watch: Watch,
    start: usize,
    holds: bool,
) -> Result<Vec<Mark>, AllocError>
    requires jumps { JumpsWithin code.now }
    requires start { start ≤ length code.now }
    requires short { length code.now < 2 ^ 32 }
    ensures marks { IfOk result (λ v. Marks v.items code.now watch start holds) }
    ensures length { IfOk result (λ v. length v.items ≡ length code.now + 1) }
{
    let none = Mark {
        may_hold: false,
        may_not_hold: false,
    };
    let mut marks = vec![in alloc; none; code.len() + 1]?;
    mark_paths(&mut marks, code, watch, start, holds);
    Ok(marks)
}

/// Whether some path leads to an instruction that is sure to do something that other threads may
/// see, or to the end of the code. `marks` has one mark of each instruction, and last of the end.
pub fn reaches_effect_or_end(marks: &[Mark], code: &[Instruction]) -> bool
    requires { length marks.now ≡ length code.now + 1 }
    ensures { IsTrue result ↔ (j : ℕ) × (b : Bool) × Marked marks.now j b × ActsAt code.now j }
{
    for (at, instruction) in code.iter().enumerate() {
        if affects_others(instruction) && (marks[at].may_hold || marks[at].may_not_hold) {
            return true;
        }
    }
    marks[code.len()].may_hold || marks[code.len()].may_not_hold
}
