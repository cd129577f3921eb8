//! Runs a schedule, and writes texts of it.

ghost use Rattle.std.specs.Prelude.{IfSome};
ghost use Rattle.semantics.specs.Reachable.{IsOf};

use guest_code::program::Program;
use replay::{replay, schedule_text, trace_text};
use semantics::state::State;
use std::alloc::Global;

/// What the calls of a run answered: how many variables there are, the values of the end view, the
/// steps, and how long the texts are.
#[derive(Clone, Copy)]
pub struct RunFacts {
    pub variables: usize,
    pub viewed: usize,
    pub steps: usize,
    pub spelled: usize,
    pub traced: usize,
}

// The state after a schedule; `None` where it doesn't run, or memory is refused.
fn state_after(alloc: Global, program: &Program, schedule: &[u8]) -> Option<State>
    ensures { IfSome result (λ s. IsOf program.now s) }
{
    let mut state = State::start(alloc, program).ok()?;
    for thread in schedule {
        if !state.enabled(program).has(*thread) {
            return None;
        }
        state.step(program, *thread);
    }
    Some(state)
}

// How many steps a replay of a schedule has, and how long its trace is; `None` where memory is refused.
fn trace_lens(alloc: Global, program: &Program, schedule: &[u8]) -> Option<(usize, usize)> {
    let run = replay(alloc, program, schedule).ok()?;
    let traced = trace_text(alloc, program, &run).ok()?;
    Some((run.lines().len(), traced.len()))
}

/// What the calls to run a complete schedule and to write texts of it answer; `None` where memory is
/// refused. None of them changes a value, so that they can be made again together.
pub fn run_facts(alloc: Global, program: &Program, schedule: &[u8]) -> Option<RunFacts> {
    let state = state_after(alloc, program, schedule)?;
    let copy = state.try_clone(alloc).ok()?;
    let view = state.view(alloc, program).ok()??;
    let (steps, traced) = trace_lens(alloc, program, schedule)?;
    Some(RunFacts {
        variables: copy.variables().len(),
        viewed: view.vars().len(),
        steps,
        spelled: schedule_text(alloc, schedule).ok()?.len(),
        traced,
    })
}
