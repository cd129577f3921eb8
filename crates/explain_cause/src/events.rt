//! The list of the events of a run.

ghost use Rattle.std.specs.Prelude.{◌≡◌, ◌<◌, ◌+◌, ◌++◌, ◌∷◌, List, [], length, drop, IfOk, OnOk, slice_get, slice_set};
ghost use Rattle.std.specs.List.{list_any};
ghost use Rattle.guest_code.specs.Program.{Program, IsValid, IsValidCode};
ghost use Rattle.guest_code.specs.declared.limits.TheConstants.{THREADS, LOCALS};
ghost use Rattle.guest_code.specs.declared.program.Instruction.{Instruction};
ghost use Rattle.semantics.specs.Ends.{is_stopped};
ghost use Rattle.explain_run.specs.declared.step.Step.{Step};
ghost use Rattle.explain_cause.specs.Course.{all_after, blocked_at, blocked_from, course, events_from, events_in, listed, local_events, locals_after, locals_with, opening_from, owner_for, row, stop_in_step, visible_event};
ghost use Rattle.explain_cause.specs.{Events.value_by, inner.Running.{events_on, locals_on}};
ghost use Rattle.check_lint.specs.Uses.{local_set};

use crate::event::{Deed, Event};
use explain_run::{Explanation, Holder, Step, ThreadState};
use guest_code::limits::{LOCALS, THREADS};
use guest_code::program::{Instruction, Program};
use semantics::expression_value;
use semantics::state::Stop;
use std::alloc::{AllocError, Global};

/// The events of the run that an explanation tells, in their order: those of the local runs before
/// the first step, thread by thread; then each step, followed by the events of its local run; then,
/// where no thread stopped, one event for each thread that is blocked. Fails where memory runs out.
pub fn events_of(
    alloc: Global,
    program: &Program,
    explanation: &Explanation,
) -> Result<Vec<Event>, AllocError>
    ensures { IfOk result (λ v. v.items ≡ course program.now explanation.now) }
{
    program.keeps_limits();
    let mut log = EventLog {
        events: Vec::new(alloc),
        locals: [[0; LOCALS]; THREADS],
    };
    log.put_initial_runs(program)?;
    log.put_all_step_events(program, explanation.steps())?;
    if !any_stopped(explanation.thread_states()) {
        put_blocked_events(
            &mut log.events,
            program,
            explanation.holders(),
            explanation.thread_states(),
        )?;
    }
    Ok(log.events)
}

// The events of a run so far, with the values of each thread's locals after them.
#[derive(Drop)]
struct EventLog {
    events: Vec<Event>,
    locals: [[i64; LOCALS]; THREADS],
}

// A local run of a thread: the step that it follows, none before the first step, and the number of
// the instruction with which it begins.
#[derive(Clone, Copy)]
struct LocalRun {
    thread: u8,
    step: Option<usize>,
    from: usize,
}

impl EventLog {
    // Adds the events of each thread's local run before the first step, thread by thread.
    fn put_initial_runs(&mut self, program: &Program) -> Result<(), AllocError>
        ensures { OnOk result ((steps : List Step) →
            self.new.events.items ++ events_from program.now self.new.locals 0 steps
            ≡ self.old.events.items
            ++ opening_from program.now steps self.old.locals 0 (length program.now.threads)) }
    {
        program.keeps_limits();
        for thread in 0..program.threads() {
            let run = LocalRun {
                thread,
                step: None,
                from: 0,
            };
            self.put_local_run(program.code(thread), run)?;
        }
        Ok(())
    }

    // Adds, step by step, the event of each step and those of the local run after it; nothing for a
    // step of a thread that the program doesn't have.
    fn put_all_step_events(&mut self, program: &Program, steps: &[Step]) -> Result<(), AllocError>
        ensures { OnOk result (self.new.events.items
            ≡ self.old.events.items ++ events_from program.now self.old.locals 0 steps.now) }
    {
        program.keeps_limits();
        for (at, step) in steps.iter().enumerate() {
            let thread = step.line.thread;
            if thread < program.threads() {
                self.put_step_events(program.code(thread), at, step)?;
            }
        }
        Ok(())
    }

    // Adds the event of the step at place `at` of the schedule, and those of the local run after
    // it, which there is unless the thread stays at the step's instruction. Nothing where `code`,
    // the thread's code, doesn't have that instruction.
    fn put_step_events(
        &mut self,
        code: &[Instruction],
        at: usize,
        step: &Step,
    ) -> Result<(), AllocError>
        requires valid { (p : Program) × IsValidCode p code.now }
        requires thread { step.now.line.thread < THREADS }
        ensures events { OnOk result (self.new.events.items ≡ self.old.events.items
            ++ events_in code.now at step.now (row self.old.locals step.now.line.thread)) }
        ensures locals { OnOk result (self.new.locals ≡ all_after self.old.locals
            step.now.line.thread
            (events_in code.now at step.now (row self.old.locals step.now.line.thread))) }
    {
        let Some(statement) = instruction_at(code, step.instruction) else {
            return Ok(());
        };
        self.put_visible_event(visible_event(at, step, statement))?;
        if step.next == step.instruction {
            return Ok(());
        }
        let run = LocalRun {
            thread: step.line.thread,
            step: Some(at),
            from: step.instruction + 1,
        };
        self.put_local_run(code, run)
    }

    // Adds the event of a step, and gives the local that the step sets, if any, its new value.
    fn put_visible_event(&mut self, event: Event) -> Result<(), AllocError>
        requires valid { (p : Program) × IsValid p event.statement }
        requires thread { event.thread < THREADS }
        ensures events { OnOk result (self.new.events.items
            ≡ self.old.events.items ++ event ∷ []) }
        ensures locals { OnOk result (self.new.locals ≡ slice_set self.old.locals event.thread
            (locals_with (row self.old.locals event.thread) (local_set event.statement)
            (value_by event.deed))) }
    {
        self.events.push(event)?;
        set_local(&mut self.locals[event.thread as usize], &event);
        Ok(())
    }

    // Adds the events of a local run, and gives the locals that it sets their new values.
    fn put_local_run(&mut self, code: &[Instruction], run: LocalRun) -> Result<(), AllocError>
        requires valid { (p : Program) × IsValidCode p code.now }
        requires thread { run.thread < THREADS }
        ensures events { OnOk result (self.new.events.items ≡ self.old.events.items
            ++ local_events run.thread run.step (drop run.from code.now) run.from 0
            (row self.old.locals run.thread)) }
        ensures locals { OnOk result (self.new.locals ≡ all_after self.old.locals run.thread
            (local_events run.thread run.step (drop run.from code.now) run.from 0
            (row self.old.locals run.thread))) }
    {
        put_local_events(
            &mut self.events,
            code,
            &mut self.locals[run.thread as usize],
            run,
        )
    }
}

// The instruction of this number in a thread's code; `None` where there is none.
fn instruction_at(code: &[Instruction], number: usize) -> Option<Instruction>
    ensures { result ≡ slice_get code.now number }
{
    code.get(number).copied()
}

// Whether a thread has stopped in an error, by the states of all threads.
fn any_stopped(thread_states: &[ThreadState]) -> bool
    ensures { result ≡ list_any (λ s. is_stopped s.status) thread_states.now }
{
    thread_states
        .iter()
        .any(|thread_state| thread_state.is_stopped())
}

// The event of the step at place `at` of the schedule, which carries out `statement`.
fn visible_event(at: usize, step: &Step, statement: Instruction) -> Event
    ensures { result ≡ visible_event at step.now statement }
{
    Event {
        thread: step.line.thread,
        step: Some(at),
        instruction: step.instruction,
        statement,
        deed: Deed::Stepped(step.line.act, stop_in_step(step.line.stop)),
    }
}

// Why a thread stopped at the statement of its step, where `stop` is why it stopped in the step or
// in the local run after it. `None` where it didn't stop, or stopped at an `assert` of that run.
fn stop_in_step(stop: Option<Stop>) -> Option<Stop>
    ensures { result ≡ stop_in_step stop }
{
    match stop {
        Some(Stop::Assert) => None,
        other => other,
    }
}

// Gives the local that an event sets, if any, its new value in `locals`, those of its thread.
fn set_local(locals: &mut [i64; LOCALS], event: &Event)
    requires { (p : Program) × IsValid p event.now.statement }
    ensures { locals.new
        ≡ locals_with locals.old (local_set event.now.statement) (value_by event.now.deed) }
{
    if let Some(local) = event.local_set() {
        locals[local] = event.value();
    }
}

// Adds the events of `run`, a local run of a thread with this code, and gives the locals of the
// thread that it sets their new values.
fn put_local_events(
    events: &mut Vec<Event>,
    code: &[Instruction],
    locals: &mut [i64; LOCALS],
    run: LocalRun,
) -> Result<(), AllocError>
    requires { (p : Program) × IsValidCode p code.now }
    ensures events { OnOk result (events.new.items ≡ events.old.items
        ++ local_events run.thread run.step (drop run.from code.now) run.from 0 locals.old) }
    ensures locals { OnOk result (locals.new ≡ locals_after locals.old
        (local_events run.thread run.step (drop run.from code.now) run.from 0 locals.old)) }
{
    let mut skip = 0;
    for at in run.from..code.len() {
        if skip > 0 {
            skip -= 1;
            continue;
        }
        match put_local_event(events, &code[at], locals, run, at)? {
            Some(next) => skip = next,
            None => return Ok(()),
        }
    }
    Ok(())
}

// Adds the event of `statement`, the instruction of number `at`, as the next one of a local run,
// and sets its local, if any. The answer is how many instructions it jumps over; `None` where the
// run ends: before a visible statement, which adds nothing, or after an assertion that failed.
fn put_local_event(
    events: &mut Vec<Event>,
    statement: &Instruction,
    locals: &mut [i64; LOCALS],
    run: LocalRun,
    at: usize,
) -> Result<Option<usize>, AllocError>
    requires { (p : Program) × IsValid p statement.now }
    ensures events { IfOk result (λ next. (rest : List Instruction) → events.old.items
        ++ local_events run.thread run.step (statement.now ∷ rest) at 0 locals.old
        ≡ events.new.items ++ events_on run.thread run.step next rest (at + 1) locals.new) }
    ensures locals { IfOk result (λ next. (rest : List Instruction) → locals_after locals.old
        (local_events run.thread run.step (statement.now ∷ rest) at 0 locals.old)
        ≡ locals_on run.thread run.step next rest (at + 1) locals.new) }
{
    let value = match statement {
        Instruction::Set { value, .. }
        | Instruction::Assert(value)
        | Instruction::SkipIfZero(value, _) => expression_value(locals, value),
        Instruction::Skip(_) => 0,
        _ => return Ok(None),
    };
    let event = Event {
        thread: run.thread,
        step: run.step,
        instruction: at,
        statement: *statement,
        deed: Deed::Ran(value),
    };
    events.push(event)?;
    set_local(locals, &event);
    if event.stop().is_some() {
        return Ok(None);
    }
    Ok(Some(event.jump_length()))
}

// Adds, in the order of threads, an event for each thread that is blocked at the end of the run.
// `holders` are the owners of all mutexes there, `thread_states` the states of all threads.
fn put_blocked_events(
    events: &mut Vec<Event>,
    program: &Program,
    holders: &[Option<Holder>],
    thread_states: &[ThreadState],
) -> Result<(), AllocError>
    ensures { OnOk result (events.new.items ≡ events.old.items
        ++ blocked_from program.now holders.now thread_states.now 0 (length program.now.threads)) }
{
    for thread in 0..program.threads() {
        push_if_some(
            events,
            blocked_event(program, holders, thread_states, thread),
        )?;
    }
    Ok(())
}

// Adds an event to the end of a list; nothing for `None`.
fn push_if_some(events: &mut Vec<Event>, event: Option<Event>) -> Result<(), AllocError>
    ensures { OnOk result (events.new.items ≡ events.old.items ++ listed event) }
{
    if let Some(event) = event {
        events.push(event)?;
    }
    Ok(())
}

// The event that a thread is blocked at the end of the run. `thread_states` says whether and why it
// is, `holders` who owns the mutex if it waits for one. `None` where the thread isn't blocked, or
// its state or its instruction isn't there.
fn blocked_event(
    program: &Program,
    holders: &[Option<Holder>],
    thread_states: &[ThreadState],
    thread: u8,
) -> Option<Event>
    requires { thread < length program.now.threads }
    ensures { result ≡ blocked_at program.now holders.now thread_states.now thread }
{
    let thread_state = thread_states.get(thread as usize)?;
    let reason = thread_state.reason?;
    let statement = program.code(thread).get(thread_state.instruction).copied()?;
    Some(Event {
        thread,
        step: None,
        instruction: thread_state.instruction,
        statement,
        deed: Deed::Blocked(reason, owner_for(holders, reason.mutex())),
    })
}

// The owner of a mutex, and since which step, by `holders`, the owners of all mutexes. `None` where
// no mutex is given, or `holders` has no owner of it.
fn owner_for(holders: &[Option<Holder>], mutex: Option<usize>) -> Option<Holder>
    ensures { result ≡ owner_for holders.now mutex }
{
    match mutex {
        Some(m) => match holders.get(m) {
            Some(holder) => *holder,
            None => None,
        },
        None => None,
    }
}
