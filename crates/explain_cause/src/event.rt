//! One event of a run: a step, a statement of a local run, or that a thread is blocked.

ghost use Rattle.std.specs.Prelude.{◌≡◌};
ghost use Rattle.check_lint.specs.Uses.{local_set, variable_read};
ghost use Rattle.explain_cause.specs.Events.{is_end, is_blocked, is_step, jump_by, jumps_over, stop_by, value_by, written_by};

use check_lint::uses;
use explain_run::{Holder, Reason};
use guest_code::program::Instruction;
use replay::Act;
use semantics::state::Stop;

/// What happens in an event.
#[derive(Clone, Copy, PartialEq, Eq)]
pub enum Deed {
    /// The step of a visible statement: what it did, and, where the thread stopped at it, why.
    Stepped(Act, Option<Stop>),
    /// A statement that the thread carries out in a local run: the value of its expression; 0 of a
    /// jump that has none.
    Ran(i64),
    /// The thread is blocked at the end of the run, for this reason. Where it waits for a mutex:
    /// the owner of that, and since which step.
    Blocked(Reason, Option<Holder>),
}

/// One event of a run: a step, a statement of a local run, or that a thread is blocked at its end.
#[derive(Clone, Copy, PartialEq, Eq)]
pub struct Event {
    /// The thread, by its number.
    pub thread: u8,
    /// The place of the step that the event is, or to whose local run it belongs. `None` before the
    /// first step, and where the event is that a thread is blocked.
    pub step: Option<usize>,
    /// The number of the instruction.
    pub instruction: usize,
    /// The instruction.
    pub statement: Instruction,
    /// What happens.
    pub deed: Deed,
}

impl Event {
    /// The local that the event's statement sets; `None` where it sets none.
    pub fn local_set(&self) -> Option<usize>
        ensures { result ≡ local_set self.now.statement }
    {
        uses::local_set(&self.statement)
    }

    /// The value that the event's step gives a local, as 1 or 0 for a `cas` that hits or misses; in
    /// a local run the value of the statement's expression; 0 for any other event.
    pub fn value(&self) -> i64
        ensures { result ≡ value_by self.now.deed }
    {
        match self.deed {
            Deed::Stepped(Act::Load { value, .. }, _) => value,
            Deed::Stepped(Act::Add { old, .. }, _) => old,
            Deed::Stepped(Act::Cas { hit, .. }, _) => i64::from(hit.is_some()),
            Deed::Ran(value) => value,
            _ => 0,
        }
    }

    /// The variable that the event's statement reads; `None` where it reads none.
    pub fn variable_read(&self) -> Option<usize>
        ensures { result ≡ variable_read self.now.statement }
    {
        uses::variable_read(&self.statement)
    }

    /// The variable that the event writes; `None` where it writes none, as a `cas` that misses.
    pub fn variable_written(&self) -> Option<usize>
        ensures { result ≡ written_by self.now.statement self.now.deed }
    {
        match (self.statement, self.deed) {
            (Instruction::Store { variable, .. } | Instruction::Add { variable, .. }, _) => {
                Some(variable)
            }
            (Instruction::Cas { variable, .. }, Deed::Stepped(Act::Cas { hit: Some(_), .. }, _)) =>
                Some(variable),
            _ => None,
        }
    }

    /// Why the thread stops in this event in an error; `None` where it doesn't.
    pub fn stop(&self) -> Option<Stop>
        ensures { result ≡ stop_by self.now.statement self.now.deed }
    {
        match (self.statement, self.deed) {
            (_, Deed::Stepped(_, stop)) => stop,
            (Instruction::Assert(_), Deed::Ran(value)) if value == 0 => Some(Stop::Assert),
            _ => None,
        }
    }

    /// Whether the event is the step of a visible statement.
    pub fn is_step(&self) -> bool
        ensures { result ≡ is_step self.now.deed }
    {
        matches!(self.deed, Deed::Stepped(_, _))
    }

    /// Whether the event is that its thread is blocked at the end of the run.
    pub fn is_blocked(&self) -> bool
        ensures { result ≡ is_blocked self.now.deed }
    {
        matches!(self.deed, Deed::Blocked(_, _))
    }

    /// Whether the event is an end of the run: its thread stops in it in an error, or is blocked.
    pub fn is_end(&self) -> bool
        ensures { result ≡ is_end self.now }
    {
        self.stop().is_some() || self.is_blocked()
    }

    /// How many of the next instructions of its thread the event jumps over; 0 where it is no jump,
    /// or a test that holds.
    pub fn jump_length(&self) -> usize
        ensures { result ≡ jump_by self.now.statement self.now.deed }
    {
        match (self.statement, self.deed) {
            (Instruction::SkipIfZero(_, n), Deed::Ran(value)) if value == 0 => n,
            (Instruction::Skip(n), _) => n,
            _ => 0,
        }
    }
    /// Whether the event is a jump over this instruction of its thread; false where it is no jump,
    /// or a test that holds.
    pub fn jumps_over(&self, instruction: usize) -> bool
        ensures { result ≡ jumps_over self.now instruction }
    {
        self.instruction < instruction && instruction - self.instruction <= self.jump_length()
    }
}
