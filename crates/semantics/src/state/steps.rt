//! Steps of a state, and how they are taken back.

ghost use Rattle.std.specs.Prelude.{◌≡◌, IsTrue};
ghost use Rattle.semantics.specs.{Machine.{step, performed, is_enabled}, Reachable.{IsOf, IsReady}};
ghost use Rattle.semantics.specs.Undoing.{undone, IsRecordOf};
ghost use Rattle.semantics.specs.declared.state.Action.TheVariants.{OnVariable, OnMutex, Wait as Waits, OnCondition, OnSemaphore};

use crate::action::owns;
use crate::local::{access, resume};
use crate::signals::signal_or_broadcast;
use crate::state::objects::Objects;
use crate::state::{
    Action, ConditionAction, MutexAction, SemaphoreAction, State, Status, Stop, VariableAction,
};
use crate::undo::Undo;
use guest_code::limits::COUNT;
use guest_code::program::Program;

impl State {
    /// Takes one step of an enabled thread, and answers the record for `undo`. Allocates nothing.
    pub fn step(&mut self, program: &Program, thread: u8) -> Undo
        requires of { IsOf program.now self.old }
        requires enabled { IsTrue (is_enabled program.now self.old thread) }
        ensures value { self.new ≡ step program.now self.old thread }
        ensures of { IsOf program.now self.new }
        ensures record { IsRecordOf result self.new }
        ensures back { undone result self.new ≡ self.old }
    {
        program.keeps_limits();
        let Some(action) = self.next_action(program, thread) else {
            unreachable!()
        };
        let before = self.threads[thread as usize];
        let objects = Objects::before(self, action);
        self.perform(program, thread, action);
        Undo {
            thread,
            before,
            objects,
        }
    }

    /// Takes back the last step, of which `undo` is the record. Nothing is allocated.
    pub fn undo(&mut self, undo: &Undo)
        requires { IsRecordOf undo.now self.old }
        ensures { self.new ≡ undone undo.now self.old }
    {
        self.threads[undo.thread as usize] = undo.before;
        undo.objects.put_back(self);
    }

    // Takes the next step of a thread, which does this action.
    fn perform(&mut self, program: &Program, thread: u8, action: Action)
        requires { IsReady program.now self.old thread action }
        ensures { self.new ≡ performed program.now self.old thread action }
    {
        match action {
            Action::OnVariable(x, action) => self.step_variable(program, thread, x, action),
            Action::OnMutex(m, action) => self.step_mutex(program, thread, m, action),
            Action::Wait(c, m) => self.begin_wait(program, thread, c, m),
            Action::OnCondition(c, action) => self.step_condition(program, thread, c, action),
            Action::OnSemaphore(k, action) => self.step_semaphore(program, thread, k, action),
        }
    }

    // Takes a thread's step that reads or writes variable x, and the local run after it.
    fn step_variable(&mut self, program: &Program, thread: u8, x: usize, action: VariableAction)
        requires { IsReady program.now self.old thread (OnVariable x action) }
        ensures { self.new ≡ performed program.now self.old thread (OnVariable x action) }
    {
        let runner = &mut self.threads[thread as usize];
        access(&mut self.variables[x], &mut runner.locals, action);
        resume(program.code(thread), runner);
    }

    // Takes a thread's step that locks, unlocks or retakes mutex m, and the local run after it. An
    // `unlock` by a thread that isn't the owner stops that thread instead, and frees nothing.
    fn step_mutex(&mut self, program: &Program, thread: u8, m: usize, action: MutexAction)
        requires { IsReady program.now self.old thread (OnMutex m action) }
        ensures { self.new ≡ performed program.now self.old thread (OnMutex m action) }
    {
        let runner = &mut self.threads[thread as usize];
        match action {
            MutexAction::Lock | MutexAction::Retake => self.owners[m] = Some(thread),
            MutexAction::Unlock => {
                if !owns(thread, self.owners[m]) {
                    runner.status = Status::Stopped(Stop::NotHeld);
                    return;
                }
                self.owners[m] = None;
            }
        }
        resume(program.code(thread), runner);
    }

    // Takes the first step of a `wait`: the thread frees mutex m and joins the queue of condition
    // c. A thread that isn't the mutex's owner stops instead.
    fn begin_wait(&mut self, program: &Program, thread: u8, c: usize, m: usize)
        requires { IsReady program.now self.old thread (Waits c m) }
        ensures { self.new ≡ performed program.now self.old thread (Waits c m) }
    {
        program.keeps_limits();
        let runner = &mut self.threads[thread as usize];
        if owns(thread, self.owners[m]) {
            self.owners[m] = None;
            self.queues[c].push(thread);
            runner.status = Status::Waiting(c as u8);
        } else {
            runner.status = Status::Stopped(Stop::NotHeld);
        }
    }

    // Takes a thread's step that signals condition c, or broadcasts it: the first thread in its
    // queue is woken, or all are. The thread that took the step then takes its local run.
    fn step_condition(&mut self, program: &Program, thread: u8, c: usize, action: ConditionAction)
        requires { IsReady program.now self.old thread (OnCondition c action) }
        ensures { self.new ≡ performed program.now self.old thread (OnCondition c action) }
    {
        program.keeps_limits();
        signal_or_broadcast(
            &mut self.queues[c],
            self.threads.as_mut_slice(),
            c as u8,
            action,
        );
        let runner = &mut self.threads[thread as usize];
        resume(program.code(thread), runner);
    }

    // Takes a thread's step that acquires or releases semaphore k, and the local run after it. A
    // `release` at the greatest count, `COUNT`, stops the thread instead, and the count stays.
    fn step_semaphore(&mut self, program: &Program, thread: u8, k: usize, action: SemaphoreAction)
        requires { IsReady program.now self.old thread (OnSemaphore k action) }
        ensures { self.new ≡ performed program.now self.old thread (OnSemaphore k action) }
    {
        let runner = &mut self.threads[thread as usize];
        match action {
            SemaphoreAction::Acquire => self.counts[k] -= 1,
            SemaphoreAction::Release => {
                if self.counts[k] == COUNT {
                    runner.status = Status::Stopped(Stop::SemFull);
                    return;
                }
                self.counts[k] += 1;
            }
        }
        resume(program.code(thread), runner);
    }
}
