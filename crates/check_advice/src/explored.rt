//! Diagnostics of what a program's schedules show, of which a limit says how many are explored.

use crate::compiled::Compiled;
use check_hints::diagnostic::{Diagnostic, Severity};
use check_hints::message::Message;
use check_hints::pieces::text_of;
use check_lint::exploration::{Explored, explore};
use check_lint::seen::InstructionSeen;
use check_lint::spin::Spin;
use guest_code::program::{Expression, Instruction, Value};
use guest_syntax::place::Pos;
use replay::schedule_text;
use std::alloc::{AllocError, Global};

// A kind of warning: its number and name, and what is said.
type Row = (&'static str, &'static str);

// An assertion that no schedule comes to.
const NEVER_RUN: Row = ("W10 NeverRun", "no schedule comes to this assertion");

// A `repeat` that runs out of turns in some schedule.
const RAN_OUT: Row = (
    "W12 RanOut",
    "this `repeat` runs out of turns with no `leave` in some schedule",
);

// A `signal` of a condition for which several threads wait in some schedule.
const SIGNAL_TO_MANY: Row = (
    "W13 SignalToOneOfMany",
    "in some schedule two threads or more wait for this: a guest wakes the one that came first, \
     a platform may wake another",
);

// An assertion that holds in no schedule.
const NEVER_HOLDS: Row = (
    "W20 NeverHolds",
    "in each schedule that comes here it fails",
);

// What is warned of, the place in the text, and the threads of a schedule that shows it, where one
// schedule does.
#[derive(Clone, Copy)]
struct Shown<'a> {
    row: Row,
    at: Pos,
    path: Option<&'a [u8]>,
}

impl Shown<'_> {
    // Tells what is said of it, with a note on how to replay the schedule that shows it.
    fn tell(self, told: &mut Message) -> Result<(), AllocError> {
        told.say(self.row.1)?;
        let Some(path) = self.path else {
            return Ok(());
        };
        let schedule = schedule_text(told.allocator(), path)?;
        told.note(format_args!("replay: {}", text_of(&schedule)))
    }
}

// The remark that this limit was reached before all schedules were explored.
fn cut_short_remark(alloc: Global, limit: u64) -> Result<Diagnostic, AllocError> {
    let schedules = if limit == 1 { "schedule" } else { "schedules" };
    let headline = format!(in alloc; "remark W21 CutShort after {limit} {schedules}")?;
    let mut told = Message::new(alloc);
    told.say("assertions are told of only where all schedules were gone through")?;
    Ok(told.into_diagnostic(Severity::Remark, headline, None))
}

// Whether an instruction is an assertion, but no `assert 0;`, by which a guest says that no run is
// to come there.
fn is_assertion(instruction: &Instruction) -> bool {
    match instruction {
        Instruction::Assert(Expression::Single(Value::Literal(number))) => *number != 0,
        Instruction::Assert(_) => true,
        _ => false,
    }
}

impl Compiled<'_> {
    /// Explores schedules of the program, up to `limit` of them, and adds to `all` the diagnostics
    /// of what they show of signals, `repeat`s and assertions. Those of assertions are added only
    /// where all schedules that sleep sets leave were explored; otherwise a remark says that the
    /// limit was reached. Fails where memory runs out.
    pub fn explore_into(&self, limit: u64, all: &mut Vec<Diagnostic>) -> Result<(), AllocError> {
        let alloc = *all.allocator();
        let spins = self.spins(alloc)?;
        let explored = explore(alloc, self.program, &spins, limit)?;
        for shown in &self.shown(alloc, &explored, &spins)? {
            let mut told = Message::new(alloc);
            shown.tell(&mut told)?;
            self.add_diagnostic(all, (Severity::Warning, shown.row.0), shown.at, told)?;
        }
        if !explored.is_whole {
            all.push(cut_short_remark(alloc, limit)?)?;
        }
        Ok(())
    }

    // All that the explored schedules show, of which some runs out of turns in these loops.
    fn shown<'s>(
        &self,
        alloc: Global,
        explored: &'s Explored,
        spins: &[Spin],
    ) -> Result<Vec<Shown<'s>>, AllocError> {
        let mut found = Vec::new(alloc);
        for thread in 0..self.program.threads() {
            self.add_shown_of(thread, explored, &mut found)?;
        }
        for (spin, ran_out) in spins.iter().zip(&explored.seen.ran_out) {
            if let Some(path) = ran_out {
                found.push(Shown {
                    row: RAN_OUT,
                    at: spin.at,
                    path: Some(path.as_slice()),
                })?;
            }
        }
        Ok(found)
    }

    // Adds to `found` what the explored schedules show of the signals and assertions of a thread.
    fn add_shown_of<'s>(
        &self,
        thread: u8,
        explored: &'s Explored,
        found: &mut Vec<Shown<'s>>,
    ) -> Result<(), AllocError> {
        let seen = explored.seen.instructions_of(thread);
        for (i, instruction) in self.code(thread).iter().enumerate() {
            let at = self.place(thread, i);
            let path = seen.get(i).and_then(|seen| seen.signal_to_many.as_ref());
            let path = path.map(|path| path.as_slice());
            let row = match path {
                Some(_) => Some(SIGNAL_TO_MANY),
                None if explored.is_whole && is_assertion(instruction) => {
                    self.assertion_row(thread, seen, at)
                }
                None => None,
            };
            if let Some(row) = row {
                found.push(Shown { row, at, path })?;
            }
        }
        Ok(())
    }

    // What is warned of at the assertion of a thread at a place, if anything, by what was seen of
    // all its copies in the flat code.
    fn assertion_row(&self, thread: u8, seen: &[InstructionSeen], at: Pos) -> Option<Row> {
        let (mut is_run, mut has_held) = (false, false);
        for (i, copy) in seen.iter().enumerate() {
            if self.place(thread, i) == at {
                is_run = is_run || copy.is_run;
                has_held = has_held || copy.has_held;
            }
        }
        match (is_run, has_held) {
            (false, _) => Some(NEVER_RUN),
            (true, false) => Some(NEVER_HOLDS),
            (true, true) => None,
        }
    }
}
