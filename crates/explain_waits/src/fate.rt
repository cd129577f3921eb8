//! What came of each instruction of a thread in a schedule: carried out, still ahead, or neither.

ghost use Rattle.std.specs.Prelude.{◌≡◌, ◌<◌, ◌+◌, ◌^◌, ◌↔◌, nat_lt, ℕ, ℤ, List, IsTrue, length, IfOk};
ghost use Rattle.guest_code.specs.Program.{Program, JumpsWithin, IsValidCode};
ghost use Rattle.guest_code.specs.declared.program.Instruction.{Instruction};
ghost use Rattle.explain_run.specs.declared.step.Step.{Step};
ghost use Rattle.explain_waits.specs.Fates.{Fates, is_to_come, locals_of, place_of};
ghost use Rattle.explain_waits.specs.{Waiting.AllFates, inner.Rows.{lists, Fits}};
ghost use Rattle.explain_waits.specs.inner.Taking.{AreByMarks, AreFates, fate_by, taken_by, with_taken};

use crate::ways::{reach_after, settled_code};
use check_lint::paths::{Mark, Watch, path_marks};
use explain_run::{Explanation, Step};
use guest_code::limits::LOCALS;
use guest_code::program::{Instruction, Program};
use std::alloc::{AllocError, Global};

/// What came of an instruction of a thread in a schedule.
#[derive(Clone, Copy, PartialEq, Eq)]
pub enum Fate {
    /// The instruction was carried out, first in the step at this place.
    Taken(usize),
    /// The instruction wasn't carried out, and its thread comes to it if it goes on: ways lead to it
    /// from where its thread is at the end, and none past it.
    Ahead,
    /// The instruction wasn't carried out, and its thread may come to it: some way leads to it, and
    /// some way past it.
    Perhaps,
    /// The instruction wasn't carried out, and no way leads to it: its thread has passed it by, or a
    /// test ahead will.
    OutOfReach,
}

impl Fate {
    /// Whether the thread hasn't carried out the instruction, and comes to it if it goes on.
    pub fn is_ahead(self) -> bool
        ensures { IsTrue result ↔ (self ≡ Fate.Ahead) }
    {
        matches!(self, Fate::Ahead)
    }

    /// Whether the thread hasn't carried out the instruction, and comes to it or may come to it.
    pub fn may_come(self) -> bool
        ensures { result ≡ is_to_come self }
    {
        matches!(self, Fate::Ahead | Fate::Perhaps)
    }

    // What came of the instruction of number `at` if no step carried it out: whether some way leads
    // to it either flag of `mark` says, and `reach` how far ways lead from instructions before it.
    fn by_ways(mark: Mark, at: usize, reach: usize) -> Fate
        ensures { result ≡ fate_by mark (nat_lt at reach) }
    {
        if mark.may_hold || mark.may_not_hold {
            if at < reach {
                Fate::Perhaps
            } else {
                Fate::Ahead
            }
        } else {
            Fate::OutOfReach
        }
    }

    // What came of an instruction that the step at this place carries out, where `self` is what
    // came of it up to there: it stays taken in an earlier step, or else it is taken in this one.
    fn or_taken(self, place: usize) -> Fate
        ensures { result ≡ taken_by self place }
    {
        match self {
            Fate::Taken(_) => self,
            Fate::Ahead | Fate::Perhaps | Fate::OutOfReach => Fate::Taken(place),
        }
    }
}

/// The number of the instruction at which a thread is at the end of an explained schedule; 0 where
/// there is no such thread.
pub fn end_pc(told: &Explanation, thread: u8) -> usize
    ensures { result ≡ place_of told.now thread }
{
    match told.thread_state(thread) {
        Some(thread_state) => thread_state.instruction,
        None => 0,
    }
}

/// The values of a thread's locals at the end of an explained schedule; 0 where there is no such
/// thread.
pub fn end_locals(told: &Explanation, thread: u8) -> [i64; LOCALS]
    ensures { result ≡ locals_of told.now thread }
{
    match told.thread_state(thread) {
        Some(thread_state) => thread_state.locals,
        None => [0; LOCALS],
    }
}

// What came of each instruction of a code if no step carried it out. `settled` is the code as the
// thread's locals decide it, and `marks` says to which of its instructions some path leads.
fn fates_by_marks(
    alloc: Global,
    settled: &[Instruction],
    marks: &[Mark],
) -> Result<Vec<Fate>, AllocError>
    requires jumps { JumpsWithin settled.now }
    requires short { length settled.now < 2 ^ 32 }
    requires marks { length marks.now ≡ length settled.now + 1 }
    ensures { IfOk result (λ v. AreByMarks settled.now marks.now (length settled.now) v.items) }
{
    let mut fates = Vec::new(alloc);
    let mut reach = 0;
    for (at, instruction) in settled.iter().enumerate() {
        fates.push(Fate::by_ways(marks[at], at, reach))?;
        reach = reach_after(reach, at, marks[at], instruction);
    }
    Ok(fates)
}

// What came of each instruction of a code if no step carried it out, where its thread is at the
// instruction of number `place` at the end, with these values of its locals. A `place` past the code
// counts as its end.
fn fates_by_ways(
    alloc: Global,
    code: &[Instruction],
    place: usize,
    locals: &[i64; LOCALS],
) -> Result<Vec<Fate>, AllocError>
    requires jumps { JumpsWithin code.now }
    requires valid { (p : Program) × IsValidCode p code.now }
    ensures { IfOk result (λ v. (steps : List Step) (t : ℕ) →
        AreFates code.now place locals.now steps t 0 v.items) }
{
    let from = place.min(code.len());
    let decided = settled_code(alloc, code, from, locals)?;
    let settled = decided.as_slice();
    let marks = path_marks(alloc, settled, Watch::Nothing, from, false)?;
    fates_by_marks(alloc, settled, marks.as_slice())
}

// Marks an instruction as carried out in the step at this place, unless it is marked as carried out
// already, or there is no such instruction.
fn mark_taken(fates: &mut [Fate], instruction: usize, place: usize)
    ensures { fates.new ≡ with_taken fates.old instruction place }
{
    if instruction < fates.len() {
        fates[instruction] = fates[instruction].or_taken(place);
    }
}

// Marks, of a thread's instructions, all that its steps carried out, each with the place of the
// first step that did. `steps` are those of all threads.
fn mark_all_taken(fates: &mut [Fate], steps: &[Step], thread: u8)
    ensures { (code : List Instruction) (from : ℕ) (locals : List ℤ) →
        AreFates code from locals steps.now thread 0 fates.old →
        AreFates code from locals steps.now thread (length steps.now) fates.new }
{
    for (place, step) in steps.iter().enumerate() {
        if step.line.thread == thread {
            mark_taken(fates, step.instruction, place);
        }
    }
}

// What came of each instruction of a thread in an explained schedule.
fn fates_of(
    alloc: Global,
    program: &Program,
    told: &Explanation,
    thread: u8,
) -> Result<Vec<Fate>, AllocError>
    requires { thread < length program.now.threads }
    ensures { IfOk result (λ v. Fates program.now told.now thread v.items) }
{
    program.keeps_limits();
    let locals = end_locals(told, thread);
    let mut fates = fates_by_ways(alloc, program.code(thread), end_pc(told, thread), &locals)?;
    mark_all_taken(&mut fates, told.steps(), thread);
    Ok(fates)
}

/// What came of each instruction of each thread in an explained schedule. Fails where memory runs
/// out.
pub fn all_fates(
    alloc: Global,
    program: &Program,
    told: &Explanation,
) -> Result<Vec<Vec<Fate>>, AllocError>
    ensures fates { IfOk result (λ v. AllFates program.now told.now (lists v.items)) }
    ensures fits { IfOk result (λ v. Fits program.now (lists v.items)) }
{
    let mut all = Vec::new(alloc);
    for t in 0..program.threads() {
        all.push(fates_of(alloc, program, told, t)?)?;
    }
    Ok(all)
}
