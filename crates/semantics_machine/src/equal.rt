//! Which threads are hidden: for which one of a lower number stands, that is equal to them.

ghost use Rattle.std.specs.Prelude.{◌≡◌, ◌≢◌, ◌<◌, ◌&&◌, ◌↔◌, ℕ, true, not, length, take, IsTrue, Some, slice_index_or};
ghost use Rattle.guest_code.specs.Program.{Program, code_of};
ghost use Rattle.guest_code.specs.declared.limits.TheConstants.{THREADS};
ghost use Rattle.semantics.specs.Machine.{Snapshot, thread_at, owner_of};
ghost use Rattle.semantics.specs.Mask.{HasEnabled, has};
ghost use Rattle.semantics_schedules.specs.EqualThreads.{is_hidden, is_last};
ghost use Rattle.semantics_schedules.specs.Renaming.{swapped, Renamed};
ghost use Rattle.semantics_machine.specs.{Refinement.{Shows, HasSameCode, HaveSameCode, HasEachWithSome}, inner.Alike.IsAbout};

use crate::machine::Machine;
use guest_code::limits::THREADS;
use guest_code::program::Program;
use semantics::mask::Mask;

// The threads of lower numbers that have the code of a thread.
fn lower_with_code_of(program: &Program, thread: u8) -> Mask
    requires thread { thread < length program.now.threads }
    requires few { thread < THREADS }
    ensures { HasSameCode program.now thread result }
{
    let mut alike = Mask::empty();
    for lower in 0..thread {
        let same = program.code(lower) == program.code(thread);
        alike = alike.with(lower, same);
    }
    alike
}

/// For each thread of a program the threads of lower numbers that have the same code.
pub(crate) fn same_code(program: &Program) -> [Mask; THREADS]
    ensures { HaveSameCode program.now result }
{
    let mut lower = [Mask::empty(); THREADS];
    for thread in 0..program.threads() {
        lower[thread as usize] = lower_with_code_of(program, thread);
    }
    lower
}

/// The threads whose own one of these sets isn't empty.
pub(crate) fn with_some(sets: &[Mask; THREADS]) -> Mask
    ensures { HasEachWithSome result sets.now }
{
    let mut some = Mask::empty();
    for thread in 0..THREADS as u8 {
        let first = sets[thread as usize].first_from(0);
        some = some.with(thread, first.is_some());
    }
    some
}

// A set of threads without one of them, if there is one.
fn without(mask: Mask, thread: Option<u8>) -> Mask
    ensures { (t : ℕ) → has result t ≡ (has mask t && not (is_last thread t)) }
{
    match thread {
        Some(one) if (one as usize) < THREADS => mask.with(one, false),
        _ => mask,
    }
}

// The threads that are in both sets.
fn common(first: Mask, second: Mask) -> Mask
    ensures { (t : ℕ) → has result t ≡ (has first t && has second t) }
{
    first.difference(first.difference(second))
}

// Whether two lists of values are equal. With `==` a search would compare end views more slowly:
// that comparison would be compiled once for both, and not in line.
fn same_values(first: &[i64], second: &[i64]) -> bool
    ensures { IsTrue result ↔ (first.now ≡ second.now) }
{
    if first.len() != second.len() {
        return false;
    }
    for place in 0..first.len() {
        if first[place] != second[place] {
            return false;
        }
    }
    true
}

impl Machine {
    // The locals of a thread, as many as are kept.
    fn locals(&self, program: &Program, thread: u8) -> &[i64]
        requires { (s : Snapshot) × Shows program.now self.now s × (thread < length s.threads) }
        ensures { (s : Snapshot) → Shows program.now self.now s → thread < length s.threads
            → result.now ≡ take self.now.shape.width (thread_at s thread).locals }
    {
        let width = self.shape.width;
        let first = self.shape.fixed + program.conditions() as usize;
        let from = first + thread as usize * width;
        &self.values.as_slice()[from..from + width]
    }

    // Whether a thread owns a mutex.
    fn owns_some(&self, thread: u8) -> bool
        requires { thread < THREADS }
        ensures { (p : Program) → (s : Snapshot) → Shows p self.now s
            → (IsTrue result ↔ ((m : ℕ) × (owner_of s m ≡ Some thread))) }
    {
        self.control.owners.contains(&thread)
    }

    // Whether two threads that are about to do something can be swapped, and nothing changes but
    // which code they run: they are at one place, with the same locals, and own no mutex.
    #[inline(always)]
    fn are_alike(&self, program: &Program, first: u8, second: u8) -> bool
        requires about { (s : Snapshot) × Shows program.now self.now s
            × IsAbout program.now s first × IsAbout program.now s second }
        requires two { first ≢ second }
        ensures { (s : Snapshot) → Shows program.now self.now s
            → IsAbout program.now s first → IsAbout program.now s second
            → (IsTrue result ↔ Renamed (swapped first second) s s) }
    {
        if self.control.places[first as usize] != self.control.places[second as usize] {
            return false;
        }
        self.are_alike_here(program, first, second)
    }

    // Whether they can, where they are at one place.
    #[inline(never)]
    fn are_alike_here(&self, program: &Program, first: u8, second: u8) -> bool
        requires about { (s : Snapshot) × Shows program.now self.now s
            × IsAbout program.now s first × IsAbout program.now s second }
        requires two { first ≢ second }
        requires here { slice_index_or self.now.control.places first 0
            ≡ slice_index_or self.now.control.places second 0 }
        ensures { (s : Snapshot) → Shows program.now self.now s
            → IsAbout program.now s first → IsAbout program.now s second
            → (IsTrue result ↔ Renamed (swapped first second) s s) }
    {
        if self.control.woken.has(first) != self.control.woken.has(second) {
            return false;
        }
        if self.owns_some(first) {
            return false;
        }
        if self.owns_some(second) {
            return false;
        }
        same_values(self.locals(program, first), self.locals(program, second))
    }

    // Whether a thread can be swapped so with one of these.
    #[inline(always)]
    fn is_alike_to_one(&self, program: &Program, among: Mask, thread: u8) -> bool
        requires { (s : Snapshot) × Shows program.now self.now s × IsAbout program.now s thread
            × ((u : ℕ) → has among u ≡ true → (u ≢ thread) × IsAbout program.now s u) }
        ensures { (s : Snapshot) → Shows program.now self.now s → IsAbout program.now s thread
            → ((u : ℕ) → has among u ≡ true → (u ≢ thread) × IsAbout program.now s u)
            → (IsTrue result ↔ ((u : ℕ) × (has among u ≡ true) × Renamed (swapped u thread) s s)) }
    {
        let mut left = among;
        while let Some(other) = left.first_from(0) {
            if self.are_alike(program, other, thread) {
                return true;
            }
            left = left.with(other, false);
        }
        false
    }

    /// The threads of `asked` that aren't hidden where these are enabled, after a step of the thread
    /// `last` or of none: no enabled one of a lower number stands for them, that is equal to them.
    #[inline(always)]
    pub fn seen(&self, program: &Program, enabled: Mask, asked: Mask, last: Option<u8>) -> Mask
        requires { (s : Snapshot) × Shows program.now self.now s × HasEnabled enabled program.now s }
        ensures { (s : Snapshot) → Shows program.now self.now s → HasEnabled enabled program.now s
            → (t : ℕ) → has result t ≡ (has asked t && not (is_hidden program.now s last t)) }
    {
        let others = without(enabled, last);
        let mut seen = asked;
        let asked_others = common(others, asked);
        let mut left = common(asked_others, self.shape.with_equal);
        while let Some(thread) = left.first_from(0) {
            let lower = common(others, self.shape.same_code[thread as usize]);
            let is_hidden = self.is_alike_to_one(program, lower, thread);
            seen = seen.with(thread, !is_hidden);
            left = left.with(thread, false);
        }
        seen
    }
}
