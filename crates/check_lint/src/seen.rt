//! What the schedules explored so far show of a program: of its assertions, `signal`s and loops.

ghost use Rattle.guest_code.specs.Program.{Program, IsValidCode};

use crate::spin::Spin;
use guest_code::limits::LOCALS;
use guest_code::program::{Instruction, Program};
use semantics::{Turn, expression_value, run_if_local};
use std::alloc::{AllocError, Global};

/// What was seen of an instruction of a thread, over all schedules explored so far.
#[derive(Drop)]
pub struct InstructionSeen {
    /// Of an assertion: whether it was carried out in some schedule.
    pub is_run: bool,
    /// Of an assertion: whether it held in some schedule.
    pub has_held: bool,
    /// Of a `signal`: the threads of the steps up to the first time that two threads or more waited
    /// for its condition; `None` where that wasn't seen.
    pub signal_to_many: Option<Vec<u8>>,
}

/// What was seen of each instruction of each thread, by their numbers; and of each loop that a
/// `leave` may end, the threads of the steps up to the first time that its turns ran out without a
/// `leave`, or `None` where they didn't.
#[derive(Drop)]
pub struct Seen {
    alloc: Global,
    pub instructions: Vec<Vec<InstructionSeen>>,
    pub ran_out: Vec<Option<Vec<u8>>>,
}

/// A step of a schedule, or the start of a thread: where something is seen.
#[derive(Clone, Copy)]
pub struct SeenStep<'a> {
    /// The loops of the program that a `leave` may end.
    pub spins: &'a [Spin],
    /// The threads of the steps so far, in order, with that of this step last; none at the start.
    pub path: &'a [u8],
    pub thread: u8,
    /// The code of the thread.
    pub code: &'a [Instruction],
}

// Keeps the threads of these steps, if none are kept yet. Fails where memory runs out.
fn keep_first(alloc: Global, kept: &mut Option<Vec<u8>>, path: &[u8]) -> Result<(), AllocError> {
    if kept.is_none() {
        *kept = Some(Vec::from_slice(alloc, path)?);
    }
    Ok(())
}

impl Seen {
    /// What was seen of a program before any schedule is explored: nothing. `spins` is how many of
    /// its loops a `leave` may end. Fails where memory runs out.
    pub fn new(alloc: Global, program: &Program, spins: usize) -> Result<Seen, AllocError> {
        let mut instructions = Vec::new(alloc);
        for thread in 0..program.threads() {
            let unseen = (0..program.code(thread).len()).map(|_| InstructionSeen {
                is_run: false,
                has_held: false,
                signal_to_many: None,
            });
            instructions.push(unseen.collect(alloc)?)?;
        }
        Ok(Seen {
            alloc,
            instructions,
            ran_out: (0..spins).map(|_| None).collect(alloc)?,
        })
    }

    // Notes whether an assertion, the instruction of number `at`, holds with these locals. Does
    // nothing where that is no assertion.
    fn note_if_assertion(&mut self, step: SeenStep<'_>, at: usize, locals: &[i64; LOCALS])
        requires { (p : Program) × IsValidCode p step.code.now }
    {
        if let Some(Instruction::Assert(test)) = step.code.get(at) {
            let holds = expression_value(locals, test) != 0;
            if let Some(instruction) = self.instruction_mut(step.thread, at) {
                instruction.is_run = true;
                instruction.has_held = instruction.has_held || holds;
            }
        }
    }

    /// What was seen of each instruction of a thread; empty where the program has no such thread.
    pub fn instructions_of(&self, thread: u8) -> &[InstructionSeen] {
        match self.instructions.get(thread as usize) {
            Some(instructions) => instructions,
            None => &[],
        }
    }

    // What was seen of the instruction of number `at` of a thread, to be changed; `None` where
    // there is no such thread or instruction.
    fn instruction_mut(&mut self, thread: u8, at: usize) -> Option<&mut InstructionSeen> {
        self.instructions.get_mut(thread as usize)?.get_mut(at)
    }

    /// Notes that `step` is to carry out a `signal`, the instruction of number `at`, while several
    /// threads wait for its condition: keeps the threads of the steps up to this one, if none are
    /// kept for this instruction yet. Fails where memory runs out.
    pub fn note_signal_to_many(&mut self, step: SeenStep<'_>, at: usize) -> Result<(), AllocError> {
        let alloc = self.alloc;
        match self.instruction_mut(step.thread, at) {
            Some(instruction) => keep_first(alloc, &mut instruction.signal_to_many, step.path),
            None => Ok(()),
        }
    }

    // Notes each loop whose turns run out, without a `leave`, where the thread in `step` goes from
    // instruction `from` to instruction `to`: keeps the threads of the steps up to there, if none
    // are kept for this loop yet.
    fn note_exhausted_loops(
        &mut self,
        step: SeenStep<'_>,
        from: usize,
        to: usize,
    ) -> Result<(), AllocError> {
        for (i, spin) in step.spins.iter().enumerate() {
            if spin.runs_out(step.thread, from, to)
                && let Some(ran_out) = self.ran_out.get_mut(i)
            {
                keep_first(self.alloc, ran_out, step.path)?;
            }
        }
        Ok(())
    }

    /// Notes what is seen in the local run of the thread in `step` from the instruction of number
    /// `start` on, with these locals: its assertions, and the loops whose turns run out. Fails
    /// where memory runs out.
    pub fn note_local_run(
        &mut self,
        step: SeenStep<'_>,
        start: usize,
        mut locals: [i64; LOCALS],
    ) -> Result<(), AllocError>
        requires { (p : Program) × IsValidCode p step.code.now }
    {
        let mut at = start;
        for _ in 0..step.code.len() {
            self.note_if_assertion(step, at, &locals);
            let Turn::Runs(next) = run_if_local(step.code, &mut locals, at) else {
                return Ok(());
            };
            self.note_exhausted_loops(step, at, next)?;
            at = next;
        }
        Ok(())
    }

    /// Notes what is seen after a thread's step, which carried out the instruction of number `at`:
    /// in going to the next one, and in the local run from there, before which it has `locals`.
    /// Fails where memory runs out.
    pub fn note_after_step(
        &mut self,
        step: SeenStep<'_>,
        at: usize,
        locals: [i64; LOCALS],
    ) -> Result<(), AllocError>
        requires { (p : Program) × IsValidCode p step.code.now }
    {
        self.note_exhausted_loops(step, at, at.saturating_add(1))?;
        self.note_local_run(step, at.saturating_add(1), locals)
    }
}
