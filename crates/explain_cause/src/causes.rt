//! The events of a run, with marks on those that are the cause of how it ended.

ghost use Rattle.std.specs.Prelude.{◌≡◌, ◌<◌, All, IfOk, length, slice_index_or, false, None, if◌then◌else◌};
ghost use Rattle.explain_cause.specs.{Causes.{AreStepMarks, event_at}, Needs.AreMarks, Told.Tells};
ghost use Rattle.explain_cause.specs.inner.Wanting.{IsValidEvent};

use crate::backward_slice::BackwardSlice;
use crate::event::Event;
use crate::events::events_of;
use crate::failure::{Failure, failure_of};
use explain_run::Explanation;
use guest_code::program::Program;
use std::alloc::{AllocError, Global};

/// The events of a run, and which of them are in the cause of how it ended.
#[derive(Drop)]
pub struct Causes {
    events: Vec<Event>,
    marks: Vec<bool>,
    steps: Vec<bool>,
    failure: Option<Failure>,
}

impl Causes {
    /// The events of the run of `program` that `explanation` is of, which events and which steps
    /// are in the cause of how it ended, and in which event a thread first stopped in an error. An
    /// explanation of another program is told as if it were of this one: its steps are taken to be
    /// at the instructions of the same numbers here, and those that aren't here are left out. Fails
    /// where memory runs out.
    pub fn of(
        alloc: Global,
        program: &Program,
        explanation: &Explanation,
    ) -> Result<Causes, AllocError>
        ensures { IfOk result (Tells program.now explanation.now) }
    {
        program.keeps_limits();
        let events = events_of(alloc, program, explanation)?;
        let marks = marks_of(alloc, program, events.as_slice())?;
        let count = explanation.steps().len();
        let steps = step_marks_of(alloc, count, events.as_slice(), marks.as_slice())?;
        let failure = failure_of(explanation.steps(), events.as_slice());
        Ok(Causes {
            events,
            marks,
            steps,
            failure,
        })
    }

    /// The events of the run, in their order.
    pub fn events(&self) -> &[Event]
        ensures { result.now ≡ self.now.events.items }
    {
        self.events.as_slice()
    }

    /// For each event, in order, whether it is in the cause of how the run ended.
    pub fn marks(&self) -> &[bool]
        ensures { result.now ≡ self.now.marks.items }
    {
        self.marks.as_slice()
    }

    /// For each step, in order, whether an event of the step, or of the local run after it, is in
    /// the cause of how the run ended.
    pub fn step_marks(&self) -> &[bool]
        ensures { result.now ≡ self.now.steps.items }
    {
        self.steps.as_slice()
    }

    /// The first event in which a thread stopped in an error; `None` where no thread did.
    pub fn failure(&self) -> Option<Failure>
        ensures { result ≡ self.now.failure }
    {
        self.failure
    }
}

// For each event, in order, whether it is in the cause of how the run ended: whether it is an end
// of the run, or an event of the cause depends on it. The events are taken from the last to the
// first.
fn marks_of(alloc: Global, program: &Program, events: &[Event]) -> Result<Vec<bool>, AllocError>
    requires { All (IsValidEvent program.now) events.now }
    ensures { IfOk result (λ v. AreMarks program.now events.now v.items) }
{
    program.keeps_limits();
    let mut backward_slice = BackwardSlice::at_end(alloc, program, events);
    let mut marks = vec![in alloc; false; events.len()]?;
    let mut at = events.len();
    'events: while at > 0 {
        at -= 1;
        let needed = backward_slice.needs(program, &events[at]);
        backward_slice.take_event(&events[at], needed)?;
        marks[at] = needed;
    }
    Ok(marks)
}

// For each of `count` steps, in order, whether an event of the step, or of the local run after it,
// is marked. `marks` has the marks of the events.
fn step_marks_of(
    alloc: Global,
    count: usize,
    events: &[Event],
    marks: &[bool],
) -> Result<Vec<bool>, AllocError>
    ensures { IfOk result (λ v. AreStepMarks events.now marks.now (length events.now) count v.items) }
{
    let mut steps = vec![in alloc; false; count]?;
    for at in 0..events.len() {
        if let Some(step) = marked_step(events, marks, at) {
            if step < steps.len() {
                steps[step] = true;
            }
        }
    }
    Ok(steps)
}

// The place of the step to which the event at place `at` belongs; `None` where the event isn't
// marked in `marks`, or belongs to no step.
fn marked_step(events: &[Event], marks: &[bool], at: usize) -> Option<usize>
    requires { at < length events.now }
    ensures { result ≡ (if slice_index_or marks.now at false then (event_at events.now at).step
        else None) }
{
    if at < marks.len() && marks[at] {
        events[at].step
    } else {
        None
    }
}
