//! The path of a walk: the steps from the start of a program to a node, and a stack of frames that
//! copy the states of nodes on the way.

ghost use Rattle.std.specs.Prelude.{◌≡◌, ◌+◌, ◌*◌, ◌-◌, ◌<◌, ◌≤◌, ◌^◌, ◌++◌, ℕ, true, false, None, IfOk, OnOk, length, take, replicate, vec_len, vec_capacity};
ghost use Rattle.semantics.specs.{Machine.{start, is_enabled}, Mask.one_if};
ghost use Rattle.semantics_schedules.specs.Schedules.{runs};
ghost use Rattle.walk.specs.inner.Paths.{IsPath, used_frames, frame_at, is_preempting, state_at};
ghost use Rattle.walk.specs.inner.WalkerInvariant.{IsPushed, IsExtended, IsSought, left_above, still_open, at_bound, runs_on};
ghost use Rattle.walk_items.specs.declared.mode.Mode.{Mode};

use guest_code::laws::programs_are_well_formed;
use guest_code::limits::INSTRUCTIONS;
use guest_code::program::Program;
use semantics::mask::Mask;
use semantics_machine::{Control, Machine, Reach, Run};
use std::alloc::{AllocError, Global};
use walk_items::mode::Mode;
use walk_prefixes::shared_len;
use walk_summary::EndMemory;

/// From how many steps on a run is filled in at once.
const LONG_RUN: u32 = 8;

/// A node of the tree of schedules.
#[derive(Clone, Copy)]
pub struct Node {
    /// The threads whose steps are still to be tried.
    pub todo: Mask,
    /// The threads that sleep at the node.
    pub asleep: Mask,
    /// The thread of the last step.
    pub last: Option<u8>,
    /// The preemptions so far.
    pub used: u32,
}

/// A node on the way to the path's node, to which a walk can backtrack.
#[derive(Clone, Copy)]
pub struct Frame {
    pub node: Node,
    /// How many steps lead to the node.
    pub steps: usize,
    /// The state at the node, but for its values, which stand in the path's `words`.
    pub control: Control,
}

/// The steps from the start of a program, the state and the node that they lead to, and a stack of
/// frames, whose states' values are in `words`, `size` for each.
#[derive(Drop)]
pub struct Path {
    pub machine: Machine,
    pub steps: Vec<u8>,
    pub node: Node,
    /// The first `depth` are in use; those after them are written over as the stack grows.
    pub frames: Vec<Frame>,
    /// How many frames are in use.
    pub depth: usize,
    pub words: Vec<i64>,
    pub size: usize,
    /// How many frames a walk of an item began with; it doesn't backtrack to these.
    pub base: usize,
    /// Memory for the end views of schedules that are tried.
    pub ends: EndMemory,
}

impl Node {
    // The node at the start of a program, to which no step leads. Whose steps from there are to be
    // tried (`todo`) isn't set yet.
    fn root() -> Node
        ensures last { result.last ≡ None }
        ensures used { result.used ≡ 0 }
    {
        Node {
            todo: Mask::empty(),
            asleep: Mask::empty(),
            last: None,
            used: 0,
        }
    }

    // Becomes the node after a step of a thread, where `enabled` were enabled before the step and
    // `asleep` sleep after it. Counts a preemption if the thread of the step before is another and
    // was enabled. Whose steps from there are to be tried (`todo`) isn't set yet.
    pub(crate) fn step(&mut self, enabled: Mask, thread: u8, asleep: Mask)
        requires { self.old.used + 1 < 2 ^ 32 }
        ensures asleep { self.new.asleep ≡ asleep }
        ensures last { self.new.last ≡ Some thread }
        ensures used { self.new.used
            ≡ self.old.used + one_if (is_preempting enabled self.old thread) }
    {
        self.todo = Mask::empty();
        self.asleep = asleep;
        match self.last {
            Some(last) => {
                if last != thread {
                    self.used += u32::from(enabled.has(last));
                    self.last = Some(thread);
                }
            }
            None => self.last = Some(thread),
        }
    }

    // Whether the node has as many preemptions as the bound; false in the mode without a bound.
    pub(crate) fn is_at_bound(&self, mode: Mode) -> bool
        ensures { result ≡ at_bound mode self.now }
    {
        match mode {
            Mode::Bounded(bound) => self.used == bound,
            Mode::BoundedOnce(bound) => self.used == bound,
            Mode::Reduced => false,
            Mode::ReducedOnce => false,
        }
    }

    // Whether further steps of a run may follow as long as the same threads are enabled: at the
    // bound, unless equal threads are tried once. There each step is a run, so that which threads
    // are hidden is only asked of the state that the path is in.
    pub(crate) fn runs_on(&self, mode: Mode) -> bool
        ensures { result ≡ runs_on mode self.now }
    {
        match mode {
            Mode::Bounded(bound) => self.used == bound,
            Mode::Reduced => false,
            Mode::BoundedOnce(_) => false,
            Mode::ReducedOnce => false,
        }
    }
}

// Appends zeros to `words`, the values of the frames' states, until it has at least `count`.
fn grow_words(words: &mut Vec<i64>, count: usize) -> Result<(), AllocError>
    ensures there { OnOk result (count ≤ length words.new.items) }
    ensures room { length words.old.items ≤ length words.new.items }
    ensures same { (n : ℕ) → n ≤ length words.old.items
        → take n words.new.items ≡ take n words.old.items }
{
    if words.len() < count {
        words.resize(count, 0)?;
    }
    Ok(())
}

// Appends a run to a path's steps, which have room for it: `count` steps of one thread, one unless
// it may go `further`. A long run is filled in at once, which a short one doesn't repay.
#[inline(always)]
fn push_run(steps: &mut Vec<u8>, thread: u8, further: bool, count: u32)
    requires one { further ≡ false → count ≡ 1 }
    requires room { vec_len steps.old + count ≤ vec_capacity steps.old }
    ensures { steps.new.items ≡ steps.old.items ++ replicate count thread }
{
    if !further {
        steps.push_reserved(thread);
        return;
    }
    if count >= LONG_RUN {
        let _ = steps.resize(steps.len() + count as usize, thread);
        return;
    }
    for _ in 0..count {
        steps.push_reserved(thread);
    }
}

// Where the stack has no frame at the index `depth`, appends one, which the caller writes over.
#[inline(always)]
fn ensure_frame(frames: &mut Vec<Frame>, depth: usize, machine: &Machine) -> Result<(), AllocError>
    requires { depth ≤ length frames.old.items }
    ensures there { OnOk result (depth < length frames.new.items) }
    ensures room { depth ≤ length frames.new.items }
    ensures same { take depth frames.new.items ≡ take depth frames.old.items }
{
    if frames.len() <= depth {
        frames.push(Frame {
            node: Node::root(),
            steps: 0,
            control: machine.control(),
        })?;
    }
    Ok(())
}

impl Path {
    /// The path without steps, at the initial state of a program. It has no frame. Fails where
    /// memory runs out.
    pub fn start(alloc: Global, program: &Program) -> Result<Path, AllocError>
        ensures { IfOk result (IsPath program.now) }
    {
        programs_are_well_formed(program);
        let machine = Machine::start(alloc, program)?;
        let size = machine.size();
        Ok(Path {
            machine,
            steps: Vec::new(alloc),
            node: Node::root(),
            frames: Vec::new(alloc),
            depth: 0,
            words: Vec::new(alloc),
            size,
            base: 0,
            ends: EndMemory::new(alloc),
        })
    }

    /// Pushes a frame of the path's node and state, to which the walk can backtrack. It is written
    /// over an unused one, if there is one. Fails where memory runs out.
    #[inline(always)]
    pub fn push_frame(&mut self, _program: &Program) -> Result<(), AllocError>
        requires { IsPath _program.now self.old }
        ensures path { IsPath _program.now self.new }
        ensures pushed { OnOk result (IsPushed _program.now self.old self.new) }
    {
        let depth = self.depth;
        let at = depth * self.size;
        let end = at + self.size;
        grow_words(&mut self.words, end)?;
        ensure_frame(&mut self.frames, depth, &self.machine)?;
        let frame = &mut self.frames[depth];
        frame.node = self.node;
        frame.steps = self.steps.len();
        frame.control = self.machine.control();
        self.machine
            .copy_into(&mut self.words.as_mut_slice()[at..end]);
        self.depth = depth + 1;
        Ok(())
    }

    /// Pops the frames from the index `depth` on, and goes back to the node of the frame at that
    /// index: to its state and its steps. A caller may keep that frame by raising the depth by 1.
    #[inline(always)]
    pub fn pop_to(&mut self, _program: &Program, depth: usize)
        requires path { IsPath _program.now self.old }
        requires frame { depth < self.old.depth }
        ensures path { IsPath _program.now self.new }
        ensures again { IsPath _program.now (record self.new { depth = depth + 1 }) }
        ensures steps { self.new.steps.items
            ≡ take (length self.new.steps.items) self.old.steps.items }
        ensures few { length self.new.steps.items ≤ (frame_at self.old.frames.items depth).steps }
        ensures depth { self.new.depth ≡ depth }
        ensures base { self.new.base ≡ self.old.base }
        ensures left { (mode : Mode) → self.old.base ≤ depth
            → self.old.depth ≡ depth + 1
            → still_open mode _program.now self.new ≡ left_above mode _program.now self.old }
    {
        let at = depth * self.size;
        let frame = &self.frames[depth];
        self.machine
            .restore(&frame.control, &self.words[at..at + self.size]);
        self.steps.truncate(frame.steps);
        self.node = frame.node;
        self.depth = depth;
    }

    /// Extends the path by a run of an enabled thread, and returns the run. It is one step, after
    /// which the threads `asleep` sleep. Where the node after it is at the mode's bound, further
    /// steps of the thread follow, `2 * INSTRUCTIONS` in all at most, as long as it is enabled if the
    /// run is `heedless`, or else, where all threads are tried, as long as the same others are, too:
    /// a step of another would pass the bound. Fails where memory runs out; no step is taken then.
    #[inline(always)]
    pub fn extend(
        &mut self,
        program: &Program,
        mode: Mode,
        thread: u8,
        asleep: Mask,
        heedless: bool,
    ) -> Result<Run, AllocError>
        requires path { IsPath program.now self.old }
        requires frames { 0 < length (used_frames self.old) }
        requires enabled { is_enabled program.now
            (state_at program.now self.old.steps.items) thread ≡ true }
        ensures path { IsPath program.now self.new }
        ensures extended { IfOk result
            (IsExtended program.now mode self.old self.new thread asleep heedless) }
    {
        self.steps.reserve(2 * INSTRUCTIONS)?;
        let enabled = self.machine.enabled();
        self.node.step(enabled, thread, asleep);
        let heedless = heedless & self.node.is_at_bound(mode);
        let further = heedless | self.node.runs_on(mode);
        let reach = Reach { further, heedless };
        let run = self.machine.run(program, thread, reach);
        push_run(&mut self.steps, thread, further, run.steps);
        Ok(run)
    }

    // Where the path has more than `count` steps, goes back to the node of the last frame that has
    // at most `count`, and keeps that frame.
    fn rewind(&mut self, program: &Program, count: usize)
        requires path { IsPath program.now self.old }
        requires frames { 0 < self.old.depth }
        ensures path { IsPath program.now self.new }
        ensures frames { 0 < self.new.depth }
        ensures few { length self.new.steps.items ≤ count }
        ensures steps { self.new.steps.items
            ≡ take (length self.new.steps.items) self.old.steps.items }
    {
        if self.steps.len() <= count {
            return;
        }
        let mut depth = self.depth - 1;
        while self.frames[depth].steps > count {
            depth -= 1;
        }
        self.pop_to(program, depth);
        self.depth = depth + 1;
    }

    // Takes the step of a schedule at the index `place`, where the path has the steps before it:
    // a run, which is one step in the mode `Reduced`. Pushes a frame of the last node, from which
    // walks often begin one after another, and of every second one before it: that saves half the
    // copies of states, and costs a later replay a step or two.
    fn replay_step(
        &mut self,
        program: &Program,
        schedule: &[u8],
        place: usize,
    ) -> Result<(), AllocError>
        requires path { IsPath program.now self.old }
        requires frames { 0 < self.old.depth }
        requires place { place < length schedule.now }
        requires steps { self.old.steps.items ≡ take place schedule.now }
        requires runs { runs program.now (start program.now) schedule.now ≡ true }
        ensures path { IsPath program.now self.new }
        ensures frames { OnOk result (0 < self.new.depth) }
        ensures steps { OnOk result (self.new.steps.items ≡ take (place + 1) schedule.now) }
    {
        self.extend(
            program,
            Mode::Reduced,
            schedule[place],
            Mask::empty(),
            false,
        )?;
        if place + 1 == schedule.len() || place % 2 == 1 {
            self.push_frame(program)
        } else {
            Ok(())
        }
    }

    /// Makes the steps of a schedule the path's: goes back to steps with which the schedule begins,
    /// and takes the others. Where the path has no frame, pushes one of its node first. A walk can
    /// begin there, and won't backtrack to the frames that there are. Fails where memory runs out.
    pub fn replay(&mut self, program: &Program, schedule: &[u8]) -> Result<(), AllocError>
        requires path { IsPath program.now self.old }
        requires runs { runs program.now (start program.now) schedule.now ≡ true }
        ensures path { IsPath program.now self.new }
        ensures sought { OnOk result (IsSought program.now schedule.now self.new) }
    {
        if self.depth == 0 {
            self.push_frame(program)?;
        }
        let shared = shared_len(self.steps.as_slice(), schedule);
        self.rewind(program, shared);
        for place in self.steps.len()..schedule.len() {
            self.replay_step(program, schedule, place)?;
        }
        self.base = self.depth;
        Ok(())
    }
}
