//! The first event of a run in which a thread stopped in an error.

ghost use Rattle.std.specs.Prelude.{◌≡◌, MatchOption, length, min};
ghost use Rattle.std.specs.List.{count_by};
ghost use Rattle.explain_cause.specs.{Causes.NoneOf, Origins.{IsFailure, steps_up_to, stops}};

use crate::event::Event;
use explain_run::Step;

/// The first event of a run in which a thread stopped in an error.
#[derive(Clone, Copy, PartialEq, Eq)]
pub struct Failure {
    /// The place of the event among the events of the run.
    pub event: usize,
    /// The thread that stopped, by its number.
    pub thread: u8,
    /// The place of the step in which, or in whose local run, the thread stopped; `None` before the
    /// first step.
    pub step: Option<usize>,
    /// How many preemptions the run has up to that step, that of the step included.
    pub preemptions: usize,
}

/// The first of these events of a run in which a thread stopped in an error; `None` where no thread
/// did. `steps` are the steps of the run.
pub fn failure_of(steps: &[Step], events: &[Event]) -> Option<Failure>
    ensures { MatchOption result (NoneOf events.now stops 0 (length events.now))
        (IsFailure steps.now events.now) }
{
    let event = events.iter().position(|event| event.stop().is_some())?;
    let step = events[event].step;
    Some(Failure {
        event,
        thread: events[event].thread,
        step,
        preemptions: count_preemptions(&steps[..count_steps_up_to(step, steps.len())]),
    })
}

// How many of a run's `all` steps are at place `step` or before it: all where the place is past
// them, 0 for `None`, which is before the first step.
fn count_steps_up_to(step: Option<usize>, all: usize) -> usize
    ensures { result ≡ min (steps_up_to step) all }
{
    match step {
        Some(step) if step < all => step + 1,
        Some(_) => all,
        None => 0,
    }
}

// How many of these steps are preemptions.
fn count_preemptions(steps: &[Step]) -> usize
    ensures { result ≡ count_by (λ s. s.line.preempting) steps.now }
{
    let mut preemptions = 0;
    for step in steps {
        if step.line.preempting {
            preemptions += 1;
        }
    }
    preemptions
}
