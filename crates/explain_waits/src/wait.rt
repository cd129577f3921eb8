//! The waits of all threads that are blocked at the end of a schedule.

ghost use Rattle.std.specs.Prelude.{◌≡◌, ◌<◌, ◌↔◌, ℕ, [], length, IsTrue, IfOk, IfSome, IfNone, All, Contains, ◌≢◌, slice_index_or};
ghost use Rattle.guest_code.specs.Program.{code_of};
ghost use Rattle.semantics.specs.Mask.{has, no_threads};
ghost use Rattle.explain_waits.specs.Graph.{WaitsFor, IsIn};
ghost use Rattle.explain_waits.specs.Waiting.{AllFates, IsLastStep, TellsWaits, circles_in, is_first_of};
ghost use Rattle.explain_waits.specs.inner.Rows.{lists, Fits, FindsEdge};

use crate::ending::{Blocked, Statement, unblocking_statements, waits_for};
use crate::fate::{Fate, all_fates};
use crate::graph::{Rows, circle_of, transitive_closure};
use crate::look::Look;
use explain_run::{Explanation, Reason, Step};
use guest_code::limits::THREADS;
use guest_code::program::Program;
use semantics::mask::Mask;
use std::alloc::{AllocError, Global};

/// A thread that is blocked at the end of a schedule, and who could end its wait.
#[derive(Drop)]
pub struct Wait {
    /// The number of the thread.
    pub thread: u8,
    /// What the thread waits for.
    pub reason: Reason,
    /// The place of the thread's last step, after which it came to this wait; at a `wait`, the
    /// first step of that statement. `None` where the thread took no step.
    pub since: Option<usize>,
    /// What the thread would look at, if it waits for a condition and were woken as things are.
    pub look: Look,
    /// Each statement that could end the wait, in the order of threads and instructions: for a
    /// mutex those of its owner that release it; for a condition or a semaphore each `signal`,
    /// `broadcast` or `release` of it, of the thread's own code those before the wait.
    pub statements: Vec<Statement>,
    /// The threads that the thread waits for: the owner of the mutex, and each thread that comes,
    /// if it goes on, to a statement that could end the wait and helps the thread: woken as things
    /// are, it goes on, or the other may have changed what it looks at.
    pub on: Mask,
    /// The threads of the thread's circle: those for which it waits, directly or through others,
    /// and that wait so for it. Empty where it is in no circle.
    pub circle: Mask,
}

impl Wait {
    /// Whether the thread is in no circle: no thread for which it waits, directly or through
    /// others, waits for it, directly or through others.
    pub fn is_in_no_circle(&self) -> bool
        ensures { IsTrue result ↔ (self.now.circle ≡ no_threads) }
    {
        self.circle == Mask::empty()
    }
}

/// All threads that are blocked at the end of a schedule, and their circles.
#[derive(Drop)]
pub struct Waits {
    waits: Vec<Wait>,
    circles: Vec<Mask>,
}

impl Waits {
    /// The waits of all threads that are blocked at the end of an explained schedule, also where a
    /// thread stopped in an error, and the circles of these threads. Of an explanation that isn't
    /// one of this program, all is told as if the told threads stood in its code: a thread without
    /// code has no statements, and one that stands past its code has nothing ahead. Fails where
    /// memory runs out.
    pub fn new(alloc: Global, program: &Program, told: &Explanation) -> Result<Waits, AllocError>
        ensures { IfOk result (TellsWaits program.now told.now) }
    {
        let fates = all_fates(alloc, program, told)?;
        let edges = wait_for_graph(alloc, program, told, fates.as_slice())?;
        let leads = transitive_closure(edges);
        let mut waits = Vec::new(alloc);
        for t in 0..program.threads() {
            if let Some(blocked) = Blocked::of(told, t) {
                waits.push(Wait {
                    thread: t,
                    reason: blocked.reason,
                    since: last_step(told.steps(), t),
                    look: Look::of(alloc, program, told, blocked)?,
                    statements: unblocking_statements(alloc, program, fates.as_slice(), blocked)?,
                    on: edges[t as usize],
                    circle: circle_of(&leads, t),
                })?;
            }
        }
        let circles = circles_of(alloc, waits.as_slice())?;
        Ok(Waits { waits, circles })
    }

    /// The wait of each thread that is blocked, in the order of the threads.
    pub fn all(&self) -> &[Wait]
        ensures { result.now ≡ self.now.waits.items }
    {
        self.waits.as_slice()
    }

    /// The wait of a thread; `None` where the thread isn't blocked.
    pub fn get(&self, thread: u8) -> Option<&Wait>
        ensures thread { IfSome result (λ wait. wait.now.thread ≡ thread) }
        ensures one { IfSome result (λ wait. Contains self.now.waits.items wait.now) }
        ensures none { IfNone result (All (λ wait. wait.thread ≢ thread) self.now.waits.items) }
    {
        self.waits.iter().find(|wait| wait.thread == thread)
    }

    /// The circles: sets of threads each of which waits, directly or through others, for each of
    /// them. In the order of the first thread of each; no thread is in two.
    pub fn circles(&self) -> &[Mask]
        ensures { result.now ≡ self.now.circles.items }
    {
        self.circles.as_slice()
    }
}

// The place of a thread's last step among these steps; `None` where none is a step of the thread.
fn last_step(steps: &[Step], thread: u8) -> Option<usize>
    ensures { IsLastStep steps.now thread (length steps.now) result }
{
    let mut last = None;
    for (place, step) in steps.iter().enumerate() {
        if step.line.thread == thread {
            last = Some(place);
        }
    }
    last
}

// The threads that a blocked thread waits for, which would look so if it were woken. `fates` has,
// for each thread, what came of each of its instructions.
fn waited_for(program: &Program, fates: &[Vec<Fate>], blocked: Blocked, look: &Look) -> Mask
    requires { Fits program.now (lists fates.now) }
    ensures { (u : ℕ) → IsTrue (has result u) ↔ ((u < length program.now.threads)
        × FindsEdge (code_of program.now u) (slice_index_or (lists fates.now) u []) blocked
        look.now u) }
{
    let mut on = Mask::empty();
    for u in 0..program.threads() {
        let theirs = fates[u as usize].as_slice();
        on = on.with(u, waits_for(program.code(u), theirs, blocked, look, u));
    }
    on
}

// The wait-for graph at the end of an explained schedule: for each thread the threads that it waits
// for, none for one that isn't blocked. `fates` has, for each thread, what came of each of its
// instructions.
fn wait_for_graph(
    alloc: Global,
    program: &Program,
    told: &Explanation,
    fates: &[Vec<Fate>],
) -> Result<Rows, AllocError>
    requires fates { AllFates program.now told.now (lists fates.now) }
    requires fits { Fits program.now (lists fates.now) }
    ensures { IfOk result (λ rows. (t u : ℕ) →
        IsIn rows t u ↔ WaitsFor program.now told.now t u) }
{
    let mut edges = [Mask::empty(); THREADS];
    for t in 0..program.threads() {
        if let Some(blocked) = Blocked::of(told, t) {
            let look = Look::of(alloc, program, told, blocked)?;
            edges[t as usize] = waited_for(program, fates, blocked, &look);
        }
    }
    Ok(edges)
}

// Whether a thread is the first of a set: whether it is in the set, and no thread with a lesser
// number is.
fn is_first_of(set: Mask, thread: u8) -> bool
    ensures { result ≡ is_first_of set thread }
{
    for u in 0..thread {
        if set.has(u) {
            return false;
        }
    }
    set.has(thread)
}

// The circles of the threads of these waits, each once, in the order of the first thread of each.
fn circles_of(alloc: Global, waits: &[Wait]) -> Result<Vec<Mask>, AllocError>
    ensures { IfOk result (λ v. v.items ≡ circles_in waits.now) }
{
    waits
        .iter()
        .filter(|wait| is_first_of(wait.circle, wait.thread))
        .map(|wait| wait.circle)
        .collect(alloc)
}
