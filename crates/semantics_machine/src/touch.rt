//! What each step of a program touches.

ghost use Rattle.std.specs.Prelude.{◌≡◌, ◌<◌, ◌^◌, length, map, IfOk, IfSome, Some};
ghost use Rattle.std.specs.Int.Bits.{bit_or};
ghost use Rattle.guest_code.specs.Program.{Program, IsWellFormed, IsValid, code_of};
ghost use Rattle.guest_code.specs.declared.limits.TheConstants.{VARIABLES};
ghost use Rattle.semantics.specs.{Reachable.IsValidAction, declared.state.Action.Action};
ghost use Rattle.semantics.specs.declared.state.Action.TheVariants.{OnVariable};
ghost use Rattle.semantics_schedules.specs.Sleep.{apart};
ghost use Rattle.semantics_machine.specs.Touches.{touch_of, touches_at, AreBefore, AreTouches};

use crate::control::threads_below;
use guest_code::limits::THREADS;
use guest_code::program::{Instruction, Program};
use semantics::action_at;
use semantics::mask::Mask;
use semantics::state::{Action, Status, VariableAction};
use std::alloc::{AllocError, Global};

/// The objects that a step touches, a bit for each. The number of an object's bit is four times its
/// own, plus 0 for a variable, 1 for a mutex, 2 for a condition and 3 for a semaphore.
#[derive(Clone, Copy)]
pub(crate) struct Touch {
    /// All objects that the step touches.
    pub(crate) all: u64,
    /// The objects that the step writes.
    pub(crate) written: u64,
}

/// What each step of a program touches, made once.
#[derive(Drop)]
pub(crate) struct Touches {
    /// For each thread number, the set of the threads with smaller numbers.
    pub(crate) before: [Mask; THREADS],
    /// For each thread and each place of its code, what a step touches there: that of a thread that
    /// runs, and that of one that was woken.
    pub(crate) threads: Vec<Vec<[Touch; 2]>>,
}

impl Touch {
    // The touch of a step that touches one object and writes it; `bit` is the number of its bit.
    fn writing(bit: usize) -> Touch
        requires { bit < 64 }
        ensures all { result.all ≡ 2 ^ bit }
        ensures written { result.written ≡ 2 ^ bit }
    {
        Touch {
            all: 1 << bit,
            written: 1 << bit,
        }
    }

    // The touch of two steps together: the objects that either touches, and those that either
    // writes.
    fn union(self, other: Touch) -> Touch
        ensures all { result.all ≡ bit_or self.all other.all }
        ensures written { result.written ≡ bit_or self.written other.written }
    {
        Touch {
            all: self.all | other.all,
            written: self.written | other.written,
        }
    }

    // What a step with this action on a variable touches: the variable, whose bit has the number
    // `4 * variable`. A load only reads it; each other action writes it.
    fn of_variable(variable: usize, action: VariableAction) -> Touch
        requires { variable < VARIABLES }
        ensures { result ≡ touch_of (Some (OnVariable variable action)) }
    {
        let touch = Touch::writing(4 * variable);
        match action {
            VariableAction::Load(_) => Touch {
                all: touch.all,
                written: 0,
            },
            VariableAction::Store(_) => touch,
            VariableAction::Add(_, _) => touch,
            VariableAction::Cas(_, _, _) => touch,
        }
    }

    // What a step with this action touches. The bit of an object has four times its number, plus 0
    // for a variable, 1 for a mutex, 2 for a condition and 3 for a semaphore.
    fn of_action(action: Action) -> Touch
        requires { (p : Program) × IsWellFormed p × IsValidAction p action }
        ensures { result ≡ touch_of (Some action) }
    {
        match action {
            Action::OnVariable(x, action) => Touch::of_variable(x, action),
            Action::OnMutex(m, _) => Touch::writing(4 * m + 1),
            Action::Wait(c, m) => Touch::writing(4 * c + 2).union(Touch::writing(4 * m + 1)),
            Action::OnCondition(c, _) => Touch::writing(4 * c + 2),
            Action::OnSemaphore(k, _) => Touch::writing(4 * k + 3),
        }
    }

    // What a step with this action touches; where there is no action, the touch of no object.
    fn of(action: Option<Action>) -> Touch
        requires { (p : Program) × IsWellFormed p × IfSome action (IsValidAction p) }
        ensures { result ≡ touch_of action }
    {
        match action {
            Some(action) => Touch::of_action(action),
            None => Touch { all: 0, written: 0 },
        }
    }

    /// Whether two steps with these touches are independent: no object is touched by both and
    /// written by one of them.
    #[inline(always)]
    pub(crate) fn is_independent_of(self, other: Touch) -> bool
        ensures { (a : Action) → (b : Action) → self ≡ touch_of (Some a)
            → other ≡ touch_of (Some b) → result ≡ apart (Some a) (Some b) }
    {
        (self.written & other.all) | (self.all & other.written) == 0
    }
}

// What a step at an instruction touches: first that of a running thread, then that of a woken one.
// Where such a thread takes no step at the instruction, the touch has no object.
fn touches_at(instruction: &Instruction) -> [Touch; 2]
    requires { (p : Program) × IsWellFormed p × IsValid p instruction.now }
    ensures { result ≡ touches_at instruction.now }
{
    [
        Touch::of(action_at(Status::Running, instruction)),
        Touch::of(action_at(Status::Woken, instruction)),
    ]
}

// For each thread number, the set of the threads with smaller numbers.
fn threads_before() -> [Mask; THREADS]
    ensures { AreBefore result }
{
    let mut before = [Mask::empty(); THREADS];
    for t in 0..THREADS {
        before[t] = threads_below(t as u8);
    }
    before
}

// For each instruction of a thread's code, what a step there touches, by `touches_at`.
fn thread_touches(
    alloc: Global,
    program: &Program,
    thread: u8,
) -> Result<Vec<[Touch; 2]>, AllocError>
    requires { thread < length program.now.threads }
    ensures { IfOk result (λ v. v.items ≡ map touches_at (code_of program.now thread)) }
{
    program.keeps_limits();
    let code = program.code(thread);
    let mut places = Vec::with_capacity(alloc, code.len())?;
    for k in 0..code.len() {
        places.push(touches_at(&code[k]))?;
    }
    Ok(places)
}

impl Touches {
    /// What a step touches at each instruction of each thread of a program. Fails where memory runs
    /// out.
    pub(crate) fn of(alloc: Global, program: &Program) -> Result<Touches, AllocError>
        ensures { IfOk result (AreTouches program.now) }
    {
        let mut threads = Vec::new(alloc);
        for t in 0..program.threads() {
            threads.push(thread_touches(alloc, program, t)?)?;
        }
        Ok(Touches {
            before: threads_before(),
            threads,
        })
    }
}
