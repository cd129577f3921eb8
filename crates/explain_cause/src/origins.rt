//! Where the value of a local or a variable comes from, who took a mutex, and how an instruction was
//! jumped over.

ghost use Rattle.std.specs.Prelude.{◌≡◌, ℕ, MatchOption, length};
ghost use Rattle.explain_cause.specs.{Causes.NoneOf, Events.{is_jump_over, sets_local, writes}};
ghost use Rattle.explain_cause.specs.Origins.{IsLastBefore, IsTakenAt, gives_by, has_role, moves, takes_by};

use crate::causes::Causes;
use crate::event::{Deed, Event};
use check_lint::uses::is_some_of;
use replay::Act;

impl Causes {
    /// The place of the last event before place `at` by which a thread set a local; `None` where
    /// the local is still 0 there, as at the start.
    pub fn last_assignment(&self, at: usize, thread: u8, local: usize) -> Option<usize>
        ensures { MatchOption result (NoneOf self.now.events.items (sets_local thread local) 0 at)
            (IsLastBefore self.now.events.items (sets_local thread local) at) }
    {
        last_before(self.events(), at, EventRole::Setter(thread, local))
    }

    /// The place of the last event before place `at` that wrote a variable; `None` where the
    /// variable still has its initial value there.
    pub fn last_write(&self, at: usize, variable: usize) -> Option<usize>
        ensures { MatchOption result (NoneOf self.now.events.items (writes variable) 0 at)
            (IsLastBefore self.now.events.items (writes variable) at) }
    {
        last_before(self.events(), at, EventRole::Writer(variable))
    }

    /// The place of the last event before place `at` by which a thread took a mutex or gave it back;
    /// `None` where nobody had taken it there.
    pub fn last_owner_change(&self, at: usize, mutex: usize) -> Option<usize>
        ensures { MatchOption result (NoneOf self.now.events.items (moves mutex) 0 at)
            (IsLastBefore self.now.events.items (moves mutex) at) }
    {
        last_before(self.events(), at, EventRole::OwnerChanger(mutex))
    }

    /// The place of the event by which a thread jumped over an instruction of its code; `None` where
    /// it didn't.
    pub fn jump_over(&self, thread: u8, instruction: usize) -> Option<usize>
        ensures { MatchOption result
            (NoneOf self.now.events.items (is_jump_over thread instruction) 0
            (length self.now.events.items))
            (IsLastBefore self.now.events.items (is_jump_over thread instruction)
            (length self.now.events.items)) }
    {
        let events = self.events();
        last_before(events, events.len(), EventRole::Jumper(thread, instruction))
    }

    /// The place of the event since which a mutex is owned, right before place `at`: the event by
    /// which its owner took it. `None` where nobody owns the mutex there.
    pub fn owned_since(&self, at: usize, mutex: usize) -> Option<usize>
        ensures { MatchOption result
            ((k : ℕ) → ¬ IsTakenAt self.now.events.items mutex at k)
            (IsTakenAt self.now.events.items mutex at) }
    {
        let last = self.last_owner_change(at, mutex)?;
        if takes_mutex(self.events()[last].deed, mutex) {
            Some(last)
        } else {
            None
        }
    }
}

/// What an event does to a local, a variable, an instruction or a mutex, to search the events of a
/// run for it.
#[derive(Clone, Copy)]
pub enum EventRole {
    /// The event sets this local of this thread.
    Setter(u8, usize),
    /// The event writes this variable.
    Writer(usize),
    /// The event is a jump of this thread over its instruction of this number.
    Jumper(u8, usize),
    /// The event takes this mutex or releases it.
    OwnerChanger(usize),
}

impl EventRole {
    // Whether an event does this: sets the local, writes the variable, jumps over the instruction,
    // takes or releases the mutex.
    fn matches(self, event: &Event) -> bool
        ensures { result ≡ has_role self event.now }
    {
        match self {
            EventRole::Setter(thread, local) => {
                event.thread == thread && is_some_of(local, event.local_set())
            }
            EventRole::Writer(variable) => is_some_of(variable, event.variable_written()),
            EventRole::Jumper(thread, instruction) => {
                event.thread == thread && event.jumps_over(instruction)
            }
            EventRole::OwnerChanger(mutex) => takes_mutex(event.deed, mutex)
                || releases_mutex(event.deed, mutex),
        }
    }
}

// The place of the last event before place `at` that has the role `sought`; `None` where there is
// none.
fn last_before(events: &[Event], at: usize, sought: EventRole) -> Option<usize>
    ensures { MatchOption result (NoneOf events.now (has_role sought) 0 at)
        (IsLastBefore events.now (has_role sought) at) }
{
    let earlier = &events[..at.min(events.len())];
    earlier.iter().rposition(|event| sought.matches(event))
}

// Whether a thread takes this mutex by what happens in an event: by a `lock`, or by the second step
// of a `wait`.
fn takes_mutex(deed: Deed, mutex: usize) -> bool
    ensures { result ≡ takes_by mutex deed }
{
    match deed {
        Deed::Stepped(Act::Lock(m) | Act::Retake(m), _) => m == mutex,
        _ => false,
    }
}

// Whether a thread releases this mutex by what happens in an event: by an `unlock`, or by the first
// step of a `wait`. False where the thread stops there, since it doesn't own the mutex.
fn releases_mutex(deed: Deed, mutex: usize) -> bool
    ensures { result ≡ gives_by mutex deed }
{
    match deed {
        Deed::Stepped(Act::Unlock(m) | Act::Wait { mutex: m, .. }, None) => m == mutex,
        _ => false,
    }
}
