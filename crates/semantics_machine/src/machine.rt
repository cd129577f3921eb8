//! A state of a program with all that stepping, copying and restoring it takes.

ghost use Rattle.std.specs.Prelude.{◌≡◌, ◌<◌, ◌≤◌, ◌+◌, ◌*◌, ◌&&◌, ◌||◌, ◌≢◌, nat_lt, ℕ, replicate, true, false, length, All, IfOk, OnOk, IsTrue, IsFalse};
ghost use Rattle.guest_code.specs.Program.{Program, LocalsBelow};
ghost use Rattle.guest_code.specs.declared.limits.TheConstants.{THREADS, INSTRUCTIONS};
ghost use Rattle.semantics.specs.Ends.{final_kind};
ghost use Rattle.semantics.specs.Machine.{Snapshot, start, step, is_enabled, next_of};
ghost use Rattle.semantics.specs.{Mask.{HasEnabled, has, mask_of}, Reachable.IsOf};
ghost use Rattle.semantics_schedules.specs.{Schedules.state_after, Sleep.next_sleep_set};
ghost use Rattle.semantics_machine.specs.{Refinement.Shows, Touches.{touch_of, AreBefore}};
ghost use Rattle.semantics_machine.specs.declared.machine.Machine.{Machine};
ghost use Rattle.semantics_machine.specs.inner.Opening.{IsOpening};

use crate::control::Control;
use crate::equal::{same_code, with_some};
use crate::touch::{Touch, Touches};
use guest_code::limits::{LOCALS, OBJECTS, THREADS, VARIABLES};
use guest_code::program::Program;
use semantics::Landing;
use semantics::mask::Mask;
use semantics::state::State;
use semantics::view::Kind;
use std::alloc::{AllocError, Global};

// For how many values a machine has room: the most that there are, and more than a cache line, so
// that no two machines' values are in one.
const VALUES_ROOM: usize = VARIABLES + OBJECTS + THREADS * LOCALS + 16;

/// A state of a program, in a form that is fast to step and to copy.
#[derive(Drop)]
pub struct Machine {
    /// All of the state but its values.
    pub control: Control,
    /// The values of the variables, a queue for each condition, and `width` locals for each thread.
    pub values: Vec<i64>,
    /// What no step changes.
    pub(crate) shape: Shape,
}

/// What of a machine no step changes.
#[derive(Drop)]
pub struct Shape {
    /// How many variables there are.
    pub(crate) fixed: usize,
    /// How many locals are kept for each thread: the most that one has.
    pub(crate) width: usize,
    /// What each step touches.
    pub(crate) touches: Touches,
    /// For each thread the threads of lower numbers that have the same code.
    pub(crate) same_code: [Mask; THREADS],
    /// The threads for which there are some.
    pub(crate) with_equal: Mask,
}

/// How far a run of a thread may go.
#[derive(Clone, Copy)]
pub struct Reach {
    /// Whether steps may follow the first one, as where no other thread may step while this can.
    pub further: bool,
    /// Whether they may, too, where other threads are enabled than after the first step.
    pub heedless: bool,
}

/// What a run of a thread came to.
#[derive(Clone, Copy)]
pub struct Run {
    /// How many steps were taken, at least one.
    pub steps: u32,
    /// The threads that were enabled after each step but the last, unless the run is heedless.
    pub among: Mask,
}

// The most locals that a thread of a program has.
fn most_locals(program: &Program) -> usize
    ensures few { result ≤ LOCALS }
    ensures wide { All (λ th. All (LocalsBelow result) th.code) program.now.threads }
{
    program.keeps_limits();
    let mut width = 0;
    for t in 0..program.threads() {
        width = width.max(program.locals(t));
    }
    width
}

// Whether a set of threads is empty.
fn is_empty(mask: Mask) -> bool
    ensures none { IsTrue result → (t : ℕ) → has mask t ≡ false }
    ensures some { IsFalse result → (t : ℕ) × (has mask t ≡ true) }
{
    mask.first_from(0).is_none()
}

impl Machine {
    // Adds a thread, as it is in `state`, the program's initial state, to a machine that has just
    // the threads with smaller numbers: appends its locals, and enters it in the control.
    fn add_thread(&mut self, program: &Program, state: &State, thread: u8) -> Result<(), AllocError>
        requires state { state.now ≡ start program.now }
        requires of { IsOf program.now state.now }
        requires thread { thread < length program.now.threads }
        requires width { self.old.shape.width ≤ LOCALS }
        requires opening { IsOpening program.now state.now thread self.old }
        ensures shape { OnOk result (self.new.shape ≡ self.old.shape) }
        ensures opening { OnOk result (IsOpening program.now state.now (thread + 1) self.new) }
    {
        program.keeps_limits();
        self.values
            .extend_from_slice(&state.locals(thread)[..self.shape.width])?;
        let at = Landing {
            pc: state.pc(thread),
            status: state.status(thread),
            free: false,
        };
        self.control.place_thread(program.code(thread), thread, at);
        Ok(())
    }

    /// A machine that shows the initial state of a program: each thread has taken its first local
    /// run, and each condition's queue is empty. No other call on a machine takes memory. Fails
    /// where memory runs out.
    pub fn start(alloc: Global, program: &Program) -> Result<Machine, AllocError>
        ensures { IfOk result (λ m. Shows program.now m (start program.now)) }
    {
        program.keeps_limits();
        let state = State::start(alloc, program)?;
        let mut values = Vec::with_capacity(alloc, VALUES_ROOM)?;
        values.extend_from_slice(state.variables())?;
        values.extend_from_slice(&[0; OBJECTS][..program.conditions() as usize])?;
        let touches = Touches::of(alloc, program)?;
        let same_code = same_code(program);
        let mut machine = Machine {
            control: Control::without_threads(program),
            values,
            shape: Shape {
                fixed: program.variables() as usize,
                width: most_locals(program),
                touches,
                with_equal: with_some(&same_code),
                same_code,
            },
        };
        for t in 0..program.threads() {
            machine.add_thread(program, &state, t)?;
        }
        Ok(machine)
    }

    /// Takes a step of an enabled thread and, as far as `reach` says, further steps of it, while it
    /// is enabled and the same threads are enabled as after its first step, or any. Answers how
    /// many steps were taken, and which threads were enabled. Takes no memory.
    #[inline(always)]
    pub fn run(&mut self, program: &Program, thread: u8, reach: Reach) -> Run
        requires { (s : Snapshot) × Shows program.now self.old s
            × (is_enabled program.now s thread ≡ true) }
        ensures shows { (s : Snapshot) → Shows program.now self.old s
            → is_enabled program.now s thread ≡ true
            → Shows program.now self.new
            (state_after program.now s (replicate result.steps thread)) }
        ensures some { 1 ≤ result.steps }
        ensures few { result.steps ≤ 2 * INSTRUCTIONS }
        ensures one { reach.further ≡ false → result.steps ≡ 1 }
        ensures enabled { (s : Snapshot) → Shows program.now self.old s
            → is_enabled program.now s thread ≡ true → (k : ℕ) → k < result.steps → is_enabled
            program.now (state_after program.now s (replicate k thread)) thread ≡ true }
        ensures among { (s : Snapshot) → Shows program.now self.old s
            → is_enabled program.now s thread ≡ true → reach.heedless ≡ false
            → (k : ℕ) → 1 ≤ k → k < result.steps → HasEnabled result.among program.now
            (state_after program.now s (replicate k thread)) }
        ensures size { length self.new.values.items ≡ length self.old.values.items }
        ensures shape { self.new.shape ≡ self.old.shape }
    {
        let values = self.values.as_mut_slice();
        self.control
            .run_on_values(values, program, thread, reach, &self.shape)
    }

    /// The set of the enabled threads.
    pub fn enabled(&self) -> Mask
        ensures { (p : Program) → (s : Snapshot) → Shows p self.now s → HasEnabled result p s }
    {
        self.control.enabled()
    }

    /// How the complete schedule that led to this state ends: failed where a thread stopped, done
    /// where all have ended, else stuck. That no thread is enabled isn't checked.
    pub fn kind(&self) -> Kind
        ensures { (p : Program) → (s : Snapshot) → Shows p self.now s
            → result ≡ final_kind s.threads }
    {
        if !is_empty(self.control.stopped) {
            Kind::Failed
        } else if is_empty(self.control.unended) {
            Kind::Done
        } else {
            Kind::Stuck
        }
    }

    /// The values of the variables.
    pub fn variables(&self) -> &[i64]
        requires { (p : Program) × (s : Snapshot) × Shows p self.now s }
        ensures { (p : Program) → (s : Snapshot) → Shows p self.now s → result.now ≡ s.vars }
    {
        &self.values.as_slice()[..self.shape.fixed]
    }

    // What the next step of an enabled thread touches.
    fn touch(&self, thread: u8) -> Touch
        requires { (p : Program) × (s : Snapshot) × Shows p self.now s
            × (is_enabled p s thread ≡ true) }
        ensures { (p : Program) → (s : Snapshot) → Shows p self.now s
            → is_enabled p s thread ≡ true → result ≡ touch_of (next_of p s thread) }
    {
        let place = self.control.places[thread as usize] as usize;
        let woken = self.control.woken.has(thread);
        self.shape.touches.threads[thread as usize][place][woken as usize]
    }

    // The threads that may sleep after a step of `thread`: the other enabled ones that are `asleep`
    // before it or have smaller numbers. The two differences make the intersection.
    fn sleep_candidates(&self, asleep: Mask, thread: u8) -> Mask
        requires thread { thread < THREADS }
        requires before { AreBefore self.now.shape.touches.before }
        ensures itself { has result thread ≡ false }
        ensures others { (v : ℕ) → v ≢ thread → has result v
            ≡ (has self.now.control.enabled v && (has asleep v || nat_lt v thread)) }
    {
        let others = self.control.enabled.with(thread, false);
        let before = self.shape.touches.before[thread as usize];
        others.difference(others.difference(asleep.union(before)))
    }

    /// The sleep set after a step of an enabled thread, where `asleep` is the one before it: the
    /// other enabled threads that are asleep before it or have smaller numbers, and whose next
    /// steps are independent of the step.
    pub fn sleep_set_after(&self, _program: &Program, asleep: Mask, thread: u8) -> Mask
        requires { (s : Snapshot) × Shows _program.now self.now s
            × (is_enabled _program.now s thread ≡ true) }
        ensures { (s : Snapshot) → Shows _program.now self.now s
            → is_enabled _program.now s thread ≡ true
            → result ≡ mask_of (next_sleep_set _program.now s (has asleep) thread) }
    {
        let mut sleepers = self.sleep_candidates(asleep, thread);
        if is_empty(sleepers) {
            return sleepers;
        }
        let step = self.touch(thread);
        let mut left = sleepers;
        while let Some(other) = left.first_from(0) {
            if !step.is_independent_of(self.touch(other)) {
                sleepers = sleepers.with(other, false);
            }
            left = left.with(other, false);
        }
        sleepers
    }

    /// A copy of all of the state but its values.
    pub fn control(&self) -> Control
        ensures { result ≡ self.now.control }
    {
        self.control
    }

    /// How many values the state has: how many words [`Machine::copy_into`] writes.
    pub fn size(&self) -> usize
        ensures { result ≡ length self.now.values.items }
    {
        self.values.len()
    }

    /// Copies the state's values into `words`, whose length must be [`Machine::size`].
    pub fn copy_into(&self, words: &mut [i64])
        requires { length words.old ≡ length self.now.values.items }
        ensures { words.new ≡ self.now.values.items }
    {
        words.copy_from_slice(self.values.as_slice());
    }

    /// Goes back to the state of which `control` and `words` are copies: the machine shows what it
    /// showed when they were made.
    pub fn restore(&mut self, control: &Control, words: &[i64])
        requires { length words.now ≡ length self.old.values.items }
        ensures shows { (p : Program) → (s : Snapshot) → (m : Machine) → Shows p m s
            → control.now ≡ m.control → words.now ≡ m.values.items
            → self.old.shape ≡ m.shape → Shows p self.new s }
        ensures control { self.new.control ≡ control.now }
        ensures values { self.new.values.items ≡ words.now }
        ensures shape { self.new.shape ≡ self.old.shape }
    {
        self.control = *control;
        self.values.as_mut_slice().copy_from_slice(words);
    }
}
