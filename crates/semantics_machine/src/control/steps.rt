//! Steps and runs of a thread, on the control, the values of the variables, and its own locals.

ghost use Rattle.std.specs.Prelude.{◌≡◌, ◌<◌, ◌≤◌, ◌^◌, ◌*◌, ℕ, ℤ, ◌+◌, List, take, true, false, length, slice_get, slice_index_or, slice_set, replicate, drop, pos, Some, All, IsTrue};
ghost use Rattle.guest_code.specs.Program.{Program, IsValid, IsValidCode, IsWellFormed, LocalsBelow, code_of};
ghost use Rattle.guest_code.specs.declared.limits.TheConstants.{INSTRUCTIONS};
ghost use Rattle.guest_code.specs.declared.program.Instruction.{Instruction};
ghost use Rattle.guest_code.specs.declared.program.Instruction.TheVariants.{Unlock, Wait, Signal, Broadcast, Release};
ghost use Rattle.semantics.specs.Machine.{Snapshot, thread_at, action_of, can_do, is_enabled, next_of, retake_of};
ghost use Rattle.semantics.specs.{Mask.HasEnabled, Reachable.IsOf};
ghost use Rattle.semantics.specs.Turns.{IsAccessBelow, own_thread, turn_of};
ghost use Rattle.semantics.specs.declared.state.Action.TheVariants.{OnVariable};
ghost use Rattle.semantics.specs.declared.state.Status.TheVariants.{Running};
ghost use Rattle.semantics.specs.declared.state.VariableAction.{VariableAction};
ghost use Rattle.semantics_machine.specs.Refinement.{IsControl, IsState, HasObjects};
ghost use Rattle.semantics_machine.specs.{declared.control.Control.Control, inner.Parts.IsFreeIn};
ghost use Rattle.semantics_machine.specs.inner.Runs.{IsGoing, IsRunTo, RunsAmong};
ghost use Rattle.semantics_machine.specs.inner.Steps.{HasShared, IsPoised, IsPerformed, IsReadyIn, Faces, place_after, going_on};
ghost use Rattle.semantics_schedules.specs.Schedules.{state_after};

use crate::control::{Control, FREE};
use crate::machine::{Reach, Run, Shape};
use guest_code::limits::{COUNT, OBJECTS, THREADS};
use guest_code::program::{Instruction, Program};
use semantics::mask::Mask;
use semantics::state::VariableAction::{Add as Adds, Cas as Swaps, Load as Loads, Store as Stores};
use semantics::state::{Status, Stop, VariableAction};
use semantics::{Landing, Turn, access, run_if_local, run_local};

// A thread in the midst of a run: where it is, with which status, after how many steps, the threads
// that were enabled after the first of them with itself, and whether it heeds no change of these.
#[derive(Clone, Copy)]
pub(crate) struct MovingThread {
    thread: u8,
    place: usize,
    status: Status,
    steps: u32,
    among: Mask,
    heedless: bool,
}

// The place of a thread that has this status after its step at the instruction number `place`: the
// next instruction where it runs, else, where it waits or has stopped, the same one.
fn place_after(status: Status, place: usize) -> usize
    requires { place < 2 ^ 16 }
    ensures { result ≡ place_after status place }
{
    match status {
        Status::Running => place + 1,
        _ => place,
    }
}

// The index of a condition's queue among a machine's values, where queues come after the variables.
fn queue_index(program: &Program, condition: usize) -> usize
    requires { condition < OBJECTS }
    ensures { result ≡ length program.now.variables + condition }
{
    program.variables() as usize + condition
}

// Does a thread's action on a variable. `shared` has the variables' values, `own` those of the
// thread's locals. Answers the thread's status after that: it runs on. With `inline(always)` a run
// would be too large to be inlined itself.
#[inline]
fn access_variable(
    shared: &mut [i64],
    own: &mut [i64],
    variable: usize,
    action: VariableAction,
) -> Status
    requires variable { variable < length shared.old }
    requires below { IsAccessBelow (length own.old) action }
    ensures { (p : Program) → (s : Snapshot) → (t : ℕ) → (i : Instruction) → (c : Control)
        → IsPoised p s t i c shared.old own.old → variable < length s.vars
        → action_of i ≡ Some (OnVariable variable action)
        → IsPerformed p s t c shared.new own.new result }
{
    access(&mut shared[variable], own, action);
    Status::Running
}

// Where a thread is that went on at `place` with this `status`: where it runs, after the local run
// that it takes from there, on its locals `own`; else there.
#[inline(always)]
fn land(code: &[Instruction], own: &mut [i64], place: usize, status: Status) -> Landing
    requires place { place ≤ length code.now }
    requires below { All (LocalsBelow (length own.old)) code.now }
    ensures place { result.pc ≤ length code.now }
    ensures free { IsFreeIn code.now result }
    ensures thread { own_thread result own.new ≡ going_on code.now status place own.old }
{
    match status {
        Status::Running => run_local(code, own, place, Status::Running),
        _ => Landing {
            pc: place,
            status,
            free: false,
        },
    }
}

impl Control {
    // Takes the first step of a `wait`: the thread frees the mutex and joins the condition's
    // `queue`, or stops if it isn't the mutex's owner. Answers its status after that.
    fn begin_wait(&mut self, queue: &mut i64, thread: u8, condition: usize, mutex: usize) -> Status
        requires thread { thread < THREADS }
        requires ready { (p : Program) × (s : Snapshot) × (cells : List ℤ) × (mine : List ℤ)
            × IsWellFormed p × IsPoised p s thread (Wait condition mutex) self.old cells mine }
        ensures { (p : Program) → (s : Snapshot) → (cells : List ℤ) → (mine : List ℤ)
            → IsPoised p s thread (Wait condition mutex) self.old cells mine
            → queue.old ≡ slice_index_or cells (length s.vars + condition) (pos 0)
            → IsPerformed p s thread self.new
            (slice_set cells (length s.vars + condition) queue.new) mine result }
    {
        if self.owners[mutex] != thread {
            return Status::Stopped(Stop::NotHeld);
        }
        self.enqueue(queue, thread, condition);
        self.free_mutex(mutex);
        Status::Waiting(condition as u8)
    }

    // Takes the step of an `unlock`: the thread frees the mutex, or stops if it isn't the mutex's
    // owner. Answers the thread's status after that.
    fn unlock(&mut self, thread: u8, mutex: usize) -> Status
        requires thread { thread < THREADS }
        requires ready { (p : Program) × (s : Snapshot) × (cells : List ℤ) × (mine : List ℤ)
            × IsWellFormed p × IsPoised p s thread (Unlock mutex) self.old cells mine }
        ensures { (p : Program) → (s : Snapshot) → (cells : List ℤ) → (mine : List ℤ)
            → IsPoised p s thread (Unlock mutex) self.old cells mine
            → IsPerformed p s thread self.new cells mine result }
    {
        if self.owners[mutex] != thread {
            return Status::Stopped(Stop::NotHeld);
        }
        self.free_mutex(mutex);
        Status::Running
    }

    // Takes the step of a `release`: the semaphore's count rises by 1, or the thread stops if the
    // count is the greatest already. Answers the thread's status after that.
    fn release_or_stop(&mut self, _thread: u8, semaphore: usize) -> Status
        requires ready { (p : Program) × (s : Snapshot) × (cells : List ℤ) × (mine : List ℤ)
            × IsWellFormed p × IsPoised p s _thread (Release semaphore) self.old cells mine }
        ensures { (p : Program) → (s : Snapshot) → (cells : List ℤ) → (mine : List ℤ)
            → IsPoised p s _thread (Release semaphore) self.old cells mine
            → IsPerformed p s _thread self.new cells mine result }
    {
        if self.counts[semaphore] == COUNT {
            return Status::Stopped(Stop::SemFull);
        }
        self.release(semaphore);
        Status::Running
    }

    // Takes the step of a `signal`: takes the first thread, if any, out of the `queue` of the
    // condition `c`, and wakes it. Answers the status of the thread that signals: it runs on.
    #[inline(never)]
    fn signal(&mut self, program: &Program, queue: i64, thread: u8, c: usize) -> Status
        requires thread { thread < length program.now.threads }
        requires ready { (s : Snapshot) × (cells : List ℤ) × (mine : List ℤ)
            × IsPoised program.now s thread (Signal c) self.old cells mine
            × (queue ≡ slice_index_or cells (length s.vars + c) (pos 0)) }
        ensures { (s : Snapshot) → (cells : List ℤ) → (mine : List ℤ)
            → IsPoised program.now s thread (Signal c) self.old cells mine
            → queue ≡ slice_index_or cells (length s.vars + c) (pos 0)
            → IsPerformed program.now s thread self.new cells mine result }
    {
        program.keeps_limits();
        if self.lengths[c] > 0 {
            let first = self.dequeue(queue, c);
            self.wake(program, first);
        }
        Status::Running
    }

    // Takes the step of a `broadcast`: takes all threads out of the `queue` of the condition `c`,
    // and wakes them. Answers the status of the thread that broadcasts: it runs on.
    #[inline(never)]
    fn broadcast(&mut self, program: &Program, queue: i64, thread: u8, c: usize) -> Status
        requires thread { thread < length program.now.threads }
        requires ready { (s : Snapshot) × (cells : List ℤ) × (mine : List ℤ)
            × IsPoised program.now s thread (Broadcast c) self.old cells mine
            × (queue ≡ slice_index_or cells (length s.vars + c) (pos 0)) }
        ensures { (s : Snapshot) → (cells : List ℤ) → (mine : List ℤ)
            → IsPoised program.now s thread (Broadcast c) self.old cells mine
            → queue ≡ slice_index_or cells (length s.vars + c) (pos 0)
            → IsPerformed program.now s thread self.new cells mine result }
    {
        program.keeps_limits();
        while self.lengths[c] > 0 {
            let first = self.dequeue(queue, c);
            self.wake(program, first);
        }
        Status::Running
    }

    // Takes the step of a running thread at this visible instruction, without the local run after
    // it. `own` are the thread's locals, `shared` the values of the variables and the queues.
    // Answers the thread's status after the step. For a local instruction does nothing.
    #[inline(always)]
    fn perform(
        &mut self,
        program: &Program,
        shared: &mut [i64],
        own: &mut [i64],
        thread: u8,
        instruction: &Instruction,
    ) -> Status
        requires thread { thread < length program.now.threads }
        requires ready { (s : Snapshot)
            × IsPoised program.now s thread instruction.now self.old shared.old own.old }
        ensures { (s : Snapshot)
            → IsPoised program.now s thread instruction.now self.old shared.old own.old
            → IsPerformed program.now s thread self.new shared.new own.new result }
    {
        program.keeps_limits();
        match instruction {
            Instruction::Load { local, variable } => {
                access_variable(shared, own, *variable, Loads(*local))
            }
            Instruction::Store { variable, value } => {
                access_variable(shared, own, *variable, Stores(*value))
            }
            Instruction::Add {
                local,
                variable,
                value,
            } => access_variable(shared, own, *variable, Adds(*local, *value)),
            Instruction::Cas {
                local,
                variable,
                expected,
                new,
            } => access_variable(shared, own, *variable, Swaps(*local, *expected, *new)),
            Instruction::Lock(m) => {
                self.take_mutex(thread, *m);
                Status::Running
            }
            Instruction::Unlock(m) => self.unlock(thread, *m),
            Instruction::Acquire(k) => {
                self.acquire(thread, *k);
                Status::Running
            }
            Instruction::Release(k) => self.release_or_stop(thread, *k),
            Instruction::Wait { condition, mutex } => {
                let index = queue_index(program, *condition);
                self.begin_wait(&mut shared[index], thread, *condition, *mutex)
            }
            Instruction::Signal(c) => {
                self.signal(program, shared[queue_index(program, *c)], thread, *c)
            }
            Instruction::Broadcast(c) => {
                self.broadcast(program, shared[queue_index(program, *c)], thread, *c)
            }
            _ => Status::Running,
        }
    }

    // Takes the step of a woken thread, without the local run after it: the thread takes the mutex
    // of its `wait`, the instruction where it is, again.
    fn retake(&mut self, thread: u8, instruction: &Instruction)
        requires thread { thread < THREADS }
        requires ready { (p : Program) × IsWellFormed p × IsValid p instruction.now }
        ensures { (p : Program) → (s : Snapshot) → (cells : List ℤ) → (mine : List ℤ)
            → IsControl p self.old s → HasShared self.old cells s
            → mine ≡ take (length mine) (thread_at s thread).locals → IsOf p s
            → IsValid p instruction.now → next_of p s thread ≡ retake_of instruction.now
            → is_enabled p s thread ≡ true
            → IsPerformed p s thread self.new cells mine Running }
    {
        if let Instruction::Wait { mutex, .. } = instruction {
            self.take_mutex(thread, *mutex);
        }
    }

    // Takes the step of an enabled thread, which is at this instruction, without the local run
    // after it: a woken one takes its mutex again. `own` are the thread's locals, `shared` the
    // values of the variables and the queues. Answers the thread's status after the step.
    #[inline(always)]
    fn take_step(
        &mut self,
        program: &Program,
        shared: &mut [i64],
        own: &mut [i64],
        thread: u8,
        instruction: &Instruction,
    ) -> Status
        requires place { instruction.now ≡ slice_index_or (code_of program.now thread)
            (slice_index_or self.old.places thread 0) instruction.now }
        requires ready { (s : Snapshot)
            × IsReadyIn program.now s thread self.old shared.old own.old }
        ensures { (s : Snapshot) → IsReadyIn program.now s thread self.old shared.old own.old
            → IsPerformed program.now s thread self.new shared.new own.new result }
    {
        program.keeps_limits();
        if self.woken.has(thread) {
            self.retake(thread, instruction);
            return Status::Running;
        }
        self.perform(program, shared, own, thread, instruction)
    }

    // Whether a running thread can take the step of this instruction: the mutex that it locks is
    // free, the count that it lowers is above 0. False for a local instruction, else true.
    fn can_perform(&self, instruction: &Instruction) -> bool
        requires { (p : Program) × IsValid p instruction.now × IsWellFormed p }
        ensures { (s : Snapshot) → HasObjects self.now s
            → result ≡ can_do s (action_of instruction.now) }
    {
        match instruction {
            Instruction::Lock(m) => self.owners[*m] == FREE,
            Instruction::Acquire(k) => self.counts[*k] > 0,
            Instruction::Set { .. }
            | Instruction::Assert(_)
            | Instruction::SkipIfZero(_, _)
            | Instruction::Skip(_) => false,
            _ => true,
        }
    }

    // Whether a running thread can take a step at the instruction number `place`, where its local
    // run came to this `turn`: not where it goes on by itself, fails or is at the code's end.
    fn can_step(&self, code: &[Instruction], place: usize, turn: Turn) -> bool
        requires valid { (p : Program) × IsValidCode p code.now × IsWellFormed p }
        requires turn { (own : List ℤ) × (turn ≡ turn_of place own (drop place code.now)) }
        ensures there { IsTrue result → place < length code.now }
        ensures faces { IsTrue result → Faces self.now (slice_get code.now place) }
    {
        match turn {
            Turn::Takes => self.can_perform(&code[place]),
            Turn::Visible => true,
            Turn::Runs(_) | Turn::Fails | Turn::Ends => false,
        }
    }

    // Takes a further step of a run, whose thread is at a visible instruction that it can perform.
    // False where that is the last: where the thread waits, has stopped or, unless it is heedless,
    // others are enabled then. `own` are its locals, `shared` the variables' values and the queues.
    #[inline(always)]
    fn try_further_step(
        &mut self,
        program: &Program,
        code: &[Instruction],
        shared: &mut [i64],
        own: &mut [i64],
        moving: &mut MovingThread,
    ) -> bool
        requires running { moving.old.status ≡ Running }
        requires place { moving.old.place < length code.now }
        requires faces { Faces self.old (slice_get code.now moving.old.place) }
        requires valid { IsValidCode program.now code.now }
        requires among { RunsAmong moving.old self.old.enabled }
        requires going { (s : Snapshot) × (code.now ≡ code_of program.now moving.old.thread)
            × IsGoing program.now s moving.old.thread self.old shared.old own.old moving.old }
        ensures thread { moving.new.thread ≡ moving.old.thread }
        ensures place { moving.old.place ≤ moving.new.place }
        ensures further { IsTrue result → moving.old.place < moving.new.place }
        ensures running { IsTrue result → moving.new.status ≡ Running }
        ensures among { IsTrue result → RunsAmong moving.new self.new.enabled }
        ensures heedless { moving.new.heedless ≡ moving.old.heedless }
        ensures going { (s : Snapshot)
            → IsGoing program.now s moving.old.thread self.old shared.old own.old moving.old
            → IsGoing program.now s moving.old.thread self.new shared.new own.new moving.new }
    {
        program.keeps_limits();
        let place = moving.place;
        let status = self.perform(program, shared, own, moving.thread, &code[place]);
        moving.place = place_after(status, place);
        moving.status = status;
        moving.steps += 1;
        let enabled = self.enabled.with(moving.thread, true);
        (status == Status::Running) & (moving.heedless | (enabled == moving.among))
    }

    // Runs the next instruction of a run after its first step, be it local or visible. False where
    // the run is over. `own` are its locals, `shared` the variables' values and the queues.
    #[inline(always)]
    fn try_instruction(
        &mut self,
        program: &Program,
        code: &[Instruction],
        shared: &mut [i64],
        own: &mut [i64],
        moving: &mut MovingThread,
    ) -> bool
        requires running { moving.old.status ≡ Running }
        requires valid { IsValidCode program.now code.now }
        requires among { RunsAmong moving.old self.old.enabled }
        requires going { (s : Snapshot) × (code.now ≡ code_of program.now moving.old.thread)
            × IsGoing program.now s moving.old.thread self.old shared.old own.old moving.old }
        ensures thread { moving.new.thread ≡ moving.old.thread }
        ensures place { moving.old.place ≤ moving.new.place }
        ensures further { IsTrue result → moving.old.place < moving.new.place }
        ensures running { IsTrue result → moving.new.status ≡ Running }
        ensures among { IsTrue result → RunsAmong moving.new self.new.enabled }
        ensures heedless { moving.new.heedless ≡ moving.old.heedless }
        ensures going { (s : Snapshot)
            → IsGoing program.now s moving.old.thread self.old shared.old own.old moving.old
            → IsGoing program.now s moving.old.thread self.new shared.new own.new moving.new }
    {
        program.keeps_limits();
        match run_if_local(code, own, moving.place) {
            Turn::Runs(next) => {
                moving.place = next;
                true
            }
            turn => {
                if !self.can_step(code, moving.place, turn) {
                    return false;
                }
                self.try_further_step(program, code, shared, own, moving)
            }
        }
    }

    // Takes a step of an enabled thread and, as far as `reach` says, further ones. `own` are its
    // locals, `shared` the values of the variables and the queues.
    #[inline(always)]
    fn run(
        &mut self,
        program: &Program,
        shared: &mut [i64],
        own: &mut [i64],
        thread: u8,
        reach: Reach,
    ) -> Run
        requires { (s : Snapshot)
            × IsReadyIn program.now s thread self.old shared.old own.old }
        ensures some { 1 ≤ result.steps }
        ensures few { result.steps ≤ 2 * INSTRUCTIONS }
        ensures one { reach.further ≡ false → result.steps ≡ 1 }
        ensures runs { (s : Snapshot) → IsReadyIn program.now s thread self.old shared.old own.old
            → IsRunTo program.now s thread reach.heedless result self.new shared.new own.new }
    {
        program.keeps_limits();
        let code = program.code(thread);
        let place = self.places[thread as usize] as usize;
        let status = self.take_step(program, shared, own, thread, &code[place]);
        let mut moving = MovingThread {
            thread,
            place: place_after(status, place),
            status,
            steps: 1,
            among: self.enabled.with(thread, true),
            heedless: reach.heedless,
        };
        let mut going = reach.further & (status == Status::Running);
        while going {
            going = self.try_instruction(program, code, shared, own, &mut moving);
        }
        self.place_thread(code, thread, land(code, own, moving.place, moving.status));
        Run {
            steps: moving.steps,
            among: moving.among,
        }
    }

    /// Runs a thread as [`Machine::run`](crate::Machine::run) does. `values` are all of a machine:
    /// those of the variables, the queues, and then `shape.width` locals for each thread.
    #[inline(always)]
    pub(crate) fn run_on_values(
        &mut self,
        values: &mut [i64],
        program: &Program,
        thread: u8,
        reach: Reach,
        shape: &Shape,
    ) -> Run
        requires { (s : Snapshot)
            × IsState program.now shape.now.fixed shape.now.width self.old values.old s
            × (is_enabled program.now s thread ≡ true) }
        ensures shows { (s : Snapshot)
            → IsState program.now shape.now.fixed shape.now.width self.old values.old s
            → is_enabled program.now s thread ≡ true
            → IsState program.now shape.now.fixed shape.now.width self.new values.new
            (state_after program.now s (replicate result.steps thread)) }
        ensures some { 1 ≤ result.steps }
        ensures few { result.steps ≤ 2 * INSTRUCTIONS }
        ensures one { reach.further ≡ false → result.steps ≡ 1 }
        ensures enabled { (s : Snapshot)
            → IsState program.now shape.now.fixed shape.now.width self.old values.old s
            → is_enabled program.now s thread ≡ true → (k : ℕ) → k < result.steps → is_enabled
            program.now (state_after program.now s (replicate k thread)) thread ≡ true }
        ensures among { (s : Snapshot)
            → IsState program.now shape.now.fixed shape.now.width self.old values.old s
            → is_enabled program.now s thread ≡ true → reach.heedless ≡ false
            → (k : ℕ) → 1 ≤ k → k < result.steps → HasEnabled result.among program.now
            (state_after program.now s (replicate k thread)) }
        ensures size { length values.new ≡ length values.old }
    {
        let (shared, locals) = values.split_at_mut(shape.fixed + program.conditions() as usize);
        let from = thread as usize * shape.width;
        self.run(
            program,
            shared,
            &mut locals[from..from + shape.width],
            thread,
            reach,
        )
    }
}
