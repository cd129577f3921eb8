//! The cause of how a run ended, as a backward slice: which earlier events those in it depend on.

ghost use Rattle.std.specs.Prelude.{◌≡◌, ℕ, ◌<◌, ◌+◌, ◌-◌, ◌^◌, ◌||◌, ◌&&◌, not, false, [], All, IfSome, OnOk, Option, None, slice_index_or, if◌then◌else◌};
ghost use Rattle.std.specs.List.{list_any};
ghost use Rattle.guest_code.specs.Program.{Program};
ghost use Rattle.guest_code.specs.declared.limits.TheConstants.{THREADS, LOCALS, VARIABLES};
ghost use Rattle.check_lint.specs.Paths.{is_test};
ghost use Rattle.check_lint.specs.Uses.{is, local_set, reads as uses_value, variable_used};
ghost use Rattle.explain_cause.specs.Asked.{asks_for};
ghost use Rattle.explain_cause.specs.Causes.{any_below, ends_with, least_with, lesser};
ghost use Rattle.explain_cause.specs.{Events.{reads, writes}, Tests.merge_point};
ghost use Rattle.explain_cause.specs.inner.Keeping.{IsMovedBefore, decides_by, found, is_missed_by_in, is_missed_in, needs, passes_in, passes_read_in};
ghost use Rattle.explain_cause.specs.inner.Wanting.{IsValidEvent, IsWanted};

use crate::decisions::{merge_point, passes_write};
use crate::direct_cause::is_direct_cause;
use crate::event::Event;
use check_lint::paths::is_test;
use check_lint::uses::{is_some_of, reads, variable_used};
use guest_code::limits::{LOCALS, THREADS, VARIABLES};
use guest_code::program::Program;
use std::alloc::{AllocError, Global};

/// A backward slice of a run, whose events are taken from the last to the first: what the events of
/// the cause, of those taken so far, depend on.
#[derive(Drop)]
pub struct BackwardSlice {
    /// For each variable whether an event of the cause reads the value that it has before the
    /// events taken.
    pub read: [bool; VARIABLES],
    /// For each thread and local whether an event of the cause uses the value that the local has
    /// before the events taken.
    pub used: [[bool; LOCALS]; THREADS],
    /// For each thread and variable whether the thread's first use of it in the events taken is in
    /// the cause.
    pub next: [[bool; VARIABLES]; THREADS],
    /// For each thread and variable how often the thread uses it before the events taken.
    pub uses: [[usize; VARIABLES]; THREADS],
    /// For each thread the least number of an instruction in the cause, of the events taken.
    pub least: [Option<usize>; THREADS],
    /// The ends of the run in the events taken, the last one first.
    pub ends: Vec<Event>,
}

impl BackwardSlice {
    /// The slice of a run with these events where it has taken none of them yet, and is to take the
    /// last one next. For each thread and variable it counts all uses in the run.
    pub fn at_end(alloc: Global, program: &Program, events: &[Event]) -> BackwardSlice
        requires { All (IsValidEvent program.now) events.now }
        ensures { IsWanted events.now [] result }
    {
        program.keeps_limits();
        let mut uses = [[0; VARIABLES]; THREADS];
        for event in events {
            count_use(
                &mut uses[event.thread as usize],
                variable_used(&event.statement),
            );
        }
        BackwardSlice {
            read: [false; VARIABLES],
            used: [[false; LOCALS]; THREADS],
            next: [[false; VARIABLES]; THREADS],
            uses,
            least: [None; THREADS],
            ends: Vec::new(alloc),
        }
    }

    /// Whether an event, the next one going back, is in the cause: whether it is an end of the run,
    /// or a later event of the cause depends on it, for its value, as a test, as a write between
    /// two uses of the variable by another thread, as a test that passed by a write of what is read,
    /// or as a direct cause of an end.
    pub fn needs(&self, program: &Program, event: &Event) -> bool
        requires { IsValidEvent program.now event.now }
        ensures { result ≡ needs program.now self.now event.now }
    {
        program.keeps_limits();
        event.is_end()
            || self.is_write_read(event.variable_written())
            || self.is_assignment_used(event.thread, event.local_set())
            || self.is_deciding_test(program, event)
            || self.interferes(event.thread, event.variable_written())
            || self.passes_read(program, event)
            || self.is_direct_cause_of_end(program, event)
    }

    // Whether an event of the cause reads the value that the next event, going back, wrote to the
    // variable `written`; false where it wrote no variable.
    fn is_write_read(&self, written: Option<usize>) -> bool
        requires { IfSome written (λ x. x < VARIABLES) }
        ensures { result ≡ found self.now.read written }
    {
        match written {
            Some(x) => self.read[x],
            None => false,
        }
    }

    // Whether an event of the cause uses the value that the next event, going back, gave the local
    // `set` of this thread; false where it set no local.
    fn is_assignment_used(&self, thread: u8, set: Option<usize>) -> bool
        requires thread { thread < THREADS }
        requires local { IfSome set (λ r. r < LOCALS) }
        ensures { result ≡ found (slice_index_or self.now.used thread []) set }
    {
        match set {
            Some(r) => self.used[thread as usize][r],
            None => false,
        }
    }

    // Whether an event, the next one going back, is a test on which the cause may depend: whether
    // some later event of its thread is in the cause, at an instruction before the one at which the
    // branches of the test merge.
    fn is_deciding_test(&self, program: &Program, event: &Event) -> bool
        requires { IsValidEvent program.now event.now }
        ensures { result ≡ decides_by program.now event.now
            (slice_index_or self.now.least event.now.thread None) }
    {
        program.keeps_limits();
        if !is_test(&event.statement) {
            return false;
        }
        match self.least[event.thread as usize] {
            Some(least) => least < merge_point(program.code(event.thread), event.instruction),
            None => false,
        }
    }

    // Whether the next event, going back, by which this thread writes the variable `written`, is
    // between two successive uses of the variable by another thread, the later of which is in the
    // cause. False where the event writes no variable.
    fn interferes(&self, thread: u8, written: Option<usize>) -> bool
        requires { IfSome written (λ x. x < VARIABLES) }
        ensures { result ≡ is_missed_in self.now thread written }
    {
        match written {
            Some(x) => self.interferes_with_some(thread as usize, x),
            None => false,
        }
    }

    // Whether a write of a variable by a thread, as the next event going back, is between two
    // successive uses of the variable by some other thread, the later of which is in the cause.
    fn interferes_with_some(&self, thread: usize, variable: usize) -> bool
        requires { variable < VARIABLES }
        ensures { result ≡ any_below (is_missed_by_in self.now thread variable) THREADS }
    {
        for other in 0..THREADS {
            if self.interferes_with(thread, variable, other) {
                return true;
            }
        }
        false
    }

    // Whether a write of a variable by a thread, as the next event going back, is between two
    // successive uses of the variable by thread `other`, the later of which is in the cause. False
    // where `other` is the thread that writes.
    fn interferes_with(&self, thread: usize, variable: usize, other: usize) -> bool
        requires variable { variable < VARIABLES }
        requires other { other < THREADS }
        ensures { result ≡ is_missed_by_in self.now thread variable other }
    {
        other != thread && self.next[other][variable] && self.uses[other][variable] > 0
    }

    // Whether an event, the next one going back, is a test by which its thread passed by a statement
    // that writes a variable whose value then an event of the cause reads.
    fn passes_read(&self, program: &Program, event: &Event) -> bool
        requires { IsValidEvent program.now event.now }
        ensures { result ≡ passes_read_in program.now self.now event.now }
    {
        for variable in 0..VARIABLES {
            if self.passes_read_of(program, event, variable) {
                return true;
            }
        }
        false
    }

    // Whether an event, the next one going back, is such a test for this variable.
    fn passes_read_of(&self, program: &Program, event: &Event, variable: usize) -> bool
        requires event { IsValidEvent program.now event.now }
        requires variable { variable < VARIABLES }
        ensures { result ≡ passes_in program.now self.now event.now variable }
    {
        let passes = passes_write(program, event, variable);
        self.read[variable] && passes
    }

    // Whether an event, the next one going back, is a direct cause of a later end of the run: of
    // an event by which a thread stopped at a mutex or a semaphore, or is blocked.
    fn is_direct_cause_of_end(&self, program: &Program, event: &Event) -> bool
        requires { IsValidEvent program.now event.now }
        ensures { result ≡ list_any (λ end. asks_for program.now end event.now)
            self.now.ends.items }
    {
        self.ends
            .iter()
            .any(|end| is_direct_cause(program, end, event))
    }

    /// Takes an event into the slice, the next one going back. `needed` says whether it is in the
    /// cause: then what it reads and uses is needed, too. In any case its use of a variable is no
    /// more before the events taken, and it is noted if it is an end.
    pub fn take_event(&mut self, event: &Event, needed: bool) -> Result<(), AllocError>
        requires thread { event.now.thread < THREADS }
        requires inside { IfSome (variable_used event.now.statement) (λ x. x < VARIABLES) }
        requires used { IfSome (variable_used event.now.statement)
            (λ x. 0 < slice_index_or (slice_index_or self.old.uses event.now.thread []) x 0) }
        ensures { OnOk result (IsMovedBefore event.now needed self.old self.new) }
    {
        let thread = event.thread as usize;
        let used = variable_used(&event.statement);
        update_read(&mut self.read, event, needed);
        update_used(&mut self.used[thread], event, needed);
        update_next(&mut self.next[thread], used, needed);
        uncount_use(&mut self.uses[thread], used);
        self.least[thread] = least_with(self.least[thread], event.instruction, needed);
        push_if_end(&mut self.ends, event)
    }
}

// Updates `read`, which says for each variable whether an event of the cause reads the value that
// the variable has at a point of the run: from the point after `event` to the one before it.
// `needed` says whether `event` is in the cause.
fn update_read(read: &mut [bool; VARIABLES], event: &Event, needed: bool)
    ensures { (x : ℕ) → x < VARIABLES → slice_index_or read.new x false
        ≡ ((needed && reads x event.now)
        || (not (writes x event.now) && slice_index_or read.old x false)) }
{
    let reads = event.variable_read();
    let writes = event.variable_written();
    for x in 0..VARIABLES {
        read[x] = needed && is_some_of(x, reads) || !is_some_of(x, writes) && read[x];
    }
}

// Updates `used`, which says for each local of the event's thread whether an event of the cause
// uses the value that the local has at a point of the run: from the point after `event` to the one
// before it. `needed` says whether `event` is in the cause.
fn update_used(used: &mut [bool; LOCALS], event: &Event, needed: bool)
    ensures { (r : ℕ) → r < LOCALS → slice_index_or used.new r false
        ≡ ((needed && uses_value r event.now.statement)
        || (not (is r (local_set event.now.statement)) && slice_index_or used.old r false)) }
{
    let set = event.local_set();
    for r in 0..LOCALS {
        used[r] = needed && reads(r, &event.statement) || !is_some_of(r, set) && used[r];
    }
}

// Updates `next`, which says of each variable whether a thread's next use of it is in the cause, by
// going back over an event of the thread: `used` is the variable that the event uses, if any, and
// `needed` says whether the event is in the cause.
fn update_next(next: &mut [bool; VARIABLES], used: Option<usize>, needed: bool)
    requires { IfSome used (λ x. x < VARIABLES) }
    ensures { (x : ℕ) → x < VARIABLES → slice_index_or next.new x false
        ≡ (if is x used then needed else slice_index_or next.old x false) }
{
    if let Some(x) = used {
        next[x] = needed;
    }
}

// Adds one to the number of uses of the variable `used` in `uses`; changes nothing for `None`.
fn count_use(uses: &mut [usize; VARIABLES], used: Option<usize>)
    requires inside { IfSome used (λ x. x < VARIABLES) }
    requires few { IfSome used (λ x. slice_index_or uses.old x 0 + 1 < 2 ^ 64) }
    ensures { (x : ℕ) → x < VARIABLES → slice_index_or uses.new x 0
        ≡ (if is x used then slice_index_or uses.old x 0 + 1 else slice_index_or uses.old x 0) }
{
    if let Some(x) = used {
        uses[x] += 1;
    }
}

// Takes one from the number of uses of the variable `used` in `uses`; changes nothing for `None`.
fn uncount_use(uses: &mut [usize; VARIABLES], used: Option<usize>)
    requires inside { IfSome used (λ x. x < VARIABLES) }
    requires some { IfSome used (λ x. 0 < slice_index_or uses.old x 0) }
    ensures { (x : ℕ) → x < VARIABLES → slice_index_or uses.new x 0
        ≡ (if is x used then slice_index_or uses.old x 0 - 1 else slice_index_or uses.old x 0) }
{
    if let Some(x) = used {
        uses[x] -= 1;
    }
}

// The least number of a thread's instructions in the cause: `least` is the least one without
// `instruction`, and `needed` says whether that is in the cause. `None` where none is.
fn least_with(least: Option<usize>, instruction: usize, needed: bool) -> Option<usize>
    ensures { result ≡ least_with least instruction needed }
{
    if needed {
        Some(min_or(least, instruction))
    } else {
        least
    }
}

// Adds an event to the ends of a run, if the event is one: if its thread stops in it in an error,
// or is blocked at the end of the run.
fn push_if_end(ends: &mut Vec<Event>, event: &Event) -> Result<(), AllocError>
    ensures { OnOk result (ends.new.items ≡ ends_with ends.old.items event.now) }
{
    if event.is_end() {
        ends.push(*event)?;
    }
    Ok(())
}

// The lesser of the numbers of two instructions; `instruction` where `least` is `None`.
fn min_or(least: Option<usize>, instruction: usize) -> usize
    ensures { result ≡ lesser least instruction }
{
    match least {
        Some(least) if least < instruction => least,
        _ => instruction,
    }
}
