//! Ways on through the code of a thread, from where it stands at the end, as its locals allow them.

ghost use Rattle.std.specs.Prelude.{◌≡◌, ◌≤◌, ◌<◌, ◌+◌, ◌^◌, ◌&&◌, ◌||◌, max, ℕ, true, false, IfOk, length, slice_index_or, if◌then◌else◌};
ghost use Rattle.guest_code.specs.Program.{Program, JumpsWithin, IsValidCode, IsValid, skip_of};
ghost use Rattle.guest_code.specs.declared.program.Instruction.TheVariants.{Skip};
ghost use Rattle.check_lint.specs.Paths.{mark_of, no_mark};
ghost use Rattle.explain_waits.specs.{Ways.{tests, decided}, inner.Settling.{AreOpen, IsSettled}};

use check_lint::paths::{Mark, Watch, path_marks, skip_of};
use check_lint::uses::expression_reads;
use guest_code::limits::LOCALS;
use guest_code::program::{Instruction, Program};
use semantics::expression_value;
use std::alloc::{AllocError, Global};

// Whether an instruction is a test that reads this local.
fn tests(local: usize, instruction: &Instruction) -> bool
    ensures { result ≡ tests local instruction.now }
{
    match instruction {
        Instruction::SkipIfZero(test, _) => expression_reads(local, test),
        _ => false,
    }
}

// The jump that a test makes where the thread's locals have these values; any other instruction as
// it is.
fn decided(locals: &[i64; LOCALS], instruction: &Instruction) -> Instruction
    requires { (p : Program) × IsValid p instruction.now }
    ensures { result ≡ decided locals.now instruction.now }
{
    match instruction {
        Instruction::SkipIfZero(test, over) => {
            let is_zero = expression_value(locals, test) == 0;
            Instruction::Skip(if is_zero { *over } else { 0 })
        }
        _ => *instruction,
    }
}

// Marks the tests of a code that read this local where some path to them sets it, as the marks of
// the paths say.
fn mark_open(are_open: &mut [bool], code: &[Instruction], marks: &[Mark], local: usize)
    requires tests { length are_open.old ≡ length code.now }
    requires marks { length marks.now ≡ length code.now + 1 }
    ensures all { length are_open.new ≡ length are_open.old }
    ensures each { (k : ℕ) → k < length code.now → slice_index_or are_open.new k false
        ≡ (slice_index_or are_open.old k false || (mark_of (slice_index_or marks.now k no_mark) true
        && tests local (slice_index_or code.now k (Skip 0)))) }
{
    for (at, instruction) in code.iter().enumerate() {
        let is_set = marks[at].may_hold;
        are_open[at] = are_open[at] | (is_set & tests(local, instruction));
    }
}

// For each instruction of a code, whether it is a test of a local that some path to it from the
// instruction of number `place` sets.
fn open_tests(alloc: Global, code: &[Instruction], place: usize) -> Result<Vec<bool>, AllocError>
    requires jumps { JumpsWithin code.now }
    requires place { place ≤ length code.now }
    requires valid { (p : Program) × IsValidCode p code.now }
    ensures { IfOk result (λ v. AreOpen code.now place v.items) }
{
    let mut are_open = vec![in alloc; false; code.len()]?;
    for local in 0..LOCALS {
        let marks = path_marks(alloc, code, Watch::IsSet(local), place, false)?;
        mark_open(&mut are_open, code, marks.as_slice(), local);
    }
    Ok(are_open)
}

// What stands for an instruction in the code that the thread's locals decide: the instruction as it
// is, or, of a test that isn't open, the jump that it will make.
fn settled_instruction(
    is_open: bool,
    locals: &[i64; LOCALS],
    instruction: &Instruction,
) -> Instruction
    requires { (p : Program) × IsValid p instruction.now }
    ensures { result ≡ (if is_open then instruction.now
        else decided locals.now instruction.now) }
{
    if is_open {
        *instruction
    } else {
        decided(locals, instruction)
    }
}

/// The code of a thread that stands at the instruction of number `place`, with these values of its
/// locals, as these decide it: instead of a test whose locals no path to it sets it has the jump
/// that the test will make. Fails where memory runs out.
pub fn settled_code(
    alloc: Global,
    code: &[Instruction],
    place: usize,
    locals: &[i64; LOCALS],
) -> Result<Vec<Instruction>, AllocError>
    requires jumps { JumpsWithin code.now }
    requires place { place ≤ length code.now }
    requires valid { (p : Program) × IsValidCode p code.now }
    ensures { IfOk result (λ v. IsSettled code.now place locals.now v.items) }
{
    let are_open = open_tests(alloc, code, place)?;
    let mut settled = Vec::new(alloc);
    for (at, instruction) in code.iter().enumerate() {
        settled.push(settled_instruction(are_open[at], locals, instruction))?;
    }
    Ok(settled)
}

/// How far ways through a code lead that have come to one of its instructions up to the one of
/// number `at`: the greatest number of an instruction that may be next after one of these, or 0.
/// `reach` is so without `instruction`, which has this number and this mark.
pub fn reach_after(reach: usize, at: usize, mark: Mark, instruction: &Instruction) -> usize
    requires { at + 1 + skip_of instruction.now < 2 ^ 64 }
    ensures { result ≡ (if mark.may_hold || mark.may_not_hold
        then max reach (at + 1 + skip_of instruction.now) else reach) }
{
    if mark.may_hold || mark.may_not_hold {
        reach.max(at + 1 + skip_of(instruction))
    } else {
        reach
    }
}
