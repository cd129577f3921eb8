//! What is told of the run of a schedule, and the names that it is told by.

use explain_cause::{Causes, Event, Turns, next_change, unchanged_since};
use explain_lines::{FileLine, Marks};
use explain_run::{Explanation, Holder, Object, ObjectState, Source, Statement, Step, name_text};
use explain_waits::Waits;
use std::alloc::{AllocError, Global};

/// What is told of the run of a schedule.
#[derive(Drop)]
pub struct Told<'a> {
    /// The allocator of what is made while it is told.
    pub alloc: Global,
    /// The schedule, its steps as far as it ran, and the state after the last one.
    pub explanation: &'a Explanation,
    /// The guest's text, with the names and places of its program.
    pub source: &'a Source<'a>,
    /// What happened in the run, and what of that is in the cause of how the run ended.
    pub causes: Causes,
    /// In which turns of loops the threads carried out their statements.
    pub turns: Turns,
    /// Which blocked threads there are, and which statements could end their waits.
    pub waits: Waits,
    /// From which files the lines of the text come, by the marks of a preprocessor.
    pub marks: Marks,
}

impl<'a> Told<'a> {
    /// Works out what is told of a run. Fails where memory runs out.
    pub fn new(
        alloc: Global,
        explanation: &'a Explanation,
        source: &'a Source<'a>,
    ) -> Result<Told<'a>, AllocError> {
        let causes = Causes::of(alloc, source.program, explanation)?;
        Ok(Told {
            alloc,
            explanation,
            source,
            turns: Turns::new(alloc, source, causes.events())?,
            causes,
            waits: Waits::new(alloc, source.program, explanation)?,
            marks: Marks::new(alloc, source.text)?,
        })
    }

    /// The name of the guest's file; `?` where it isn't UTF-8.
    pub fn file_name(&self) -> &'a str {
        name_text(self.source.file)
    }

    /// The name of the thread of this number; `?` where there is none.
    pub fn thread_name(&self, thread: u8) -> &'a str {
        name_text(self.source.thread_name(thread))
    }

    /// The name of an object of the guest; `?` where there is no such object.
    pub fn object_name(&self, object: Object) -> &'a str {
        name_text(self.source.object_name(object))
    }

    /// The name of a thread's local of this number; `?` where there is no such local.
    pub fn local_name(&self, thread: u8, local: usize) -> &'a str {
        name_text(self.source.local_name(thread, local))
    }

    /// The statement whose instruction is at this place in a thread's code.
    pub fn statement(&self, thread: u8, instruction: usize) -> Statement<'a> {
        Statement {
            source: self.source,
            thread,
            instruction,
        }
    }

    /// The line of an instruction, in the file that a preprocessor's marks tell; line 0 if none is.
    pub fn line(&self, thread: u8, instruction: usize) -> FileLine<'_> {
        let line = self.source.line(thread, instruction);
        self.marks.file_line(self.file_name(), line)
    }

    /// The step at a place in the schedule; `None` where no step ran there.
    pub fn step(&self, at: usize) -> Option<&'a Step> {
        self.explanation.steps().get(at)
    }

    /// The step, local statement or final block at a place of the run's events; `None` past them.
    pub fn event(&self, at: usize) -> Option<Event> {
        self.causes.events().get(at).copied()
    }

    /// Whether the step at a place, or an event of the local run after it, is in the cause.
    pub fn is_step_in_cause(&self, at: usize) -> bool {
        self.causes.step_marks().get(at).copied().unwrap_or(false)
    }

    /// Who owned a mutex before the event at a place, and since when; `None` where it was free.
    pub fn holder_before(&self, at: usize, mutex: usize) -> Option<Holder> {
        let event = self.event(self.causes.owned_since(at, mutex)?)?;
        let (thread, since) = (event.thread, event.step?);
        Some(Holder { thread, since })
    }

    /// How many preemptions the run has up to the step of an event, that of the step included.
    pub fn preemptions_up_to(&self, event: &Event) -> usize {
        let ran = event.step.map_or(0, |step| step.saturating_add(1));
        let mut preemptions = 0_usize;
        for step in self.explanation.steps().iter().take(ran) {
            preemptions = preemptions.saturating_add(usize::from(step.line.preempting));
        }
        preemptions
    }

    /// The step since which the variable that an event uses was as the event found it; `None` where
    /// it was so from the start, or the event uses none.
    pub fn unchanged_since(&self, event: &Event) -> Option<usize> {
        let (variable, step) = variable_use(event)?;
        unchanged_since(self.explanation.steps(), step, variable)
    }

    /// The first step, from that of an event on, that changed the variable which the event uses;
    /// `None` where none did, or the event uses none.
    pub fn next_change(&self, event: &Event) -> Option<usize> {
        let (variable, step) = variable_use(event)?;
        next_change(self.explanation.steps(), step, variable)
    }

    /// A variable's values before and after the step at a place; zeros where it is on no variable.
    pub fn old_and_new(&self, at: usize) -> (i64, i64) {
        match self.step(at).map(|step| (step.old, step.new)) {
            Some((ObjectState::Value(old), ObjectState::Value(new))) => (old, new),
            _ => (0, 0),
        }
    }
}

// The variable that an event reads, writes or may write, and the step of the event; `None` where it
// uses no variable.
fn variable_use(event: &Event) -> Option<(usize, usize)> {
    let variable = event.variable_read().or(event.variable_written());
    variable.zip(event.step)
}
