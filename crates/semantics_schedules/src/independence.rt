//! Which next steps are independent, and the sleep set after a step.

ghost use Rattle.std.specs.Prelude.{◌≡◌, ◌<◌, ◌||◌, nat_lt, length, not, Some, IsTrue};
ghost use Rattle.semantics.specs.{Accesses.access_of, Mask.{has, mask_of, HasEnabled}};
ghost use Rattle.semantics.specs.Reachable.{IsOf};
ghost use Rattle.semantics_schedules.specs.Sleep.{conflict, apart, independent, next_sleep_set, CommutesWith};

use guest_code::program::Program;
use semantics::mask::Mask;
use semantics::state::{Action, State, VariableAction};

/// Whether the next steps of two different threads are independent: no object is touched by both
/// with one of them writing it. Where both are enabled, each then leaves the other enabled, and
/// both orders lead to one state. False where a thread has no next step, and for one thread twice.
pub fn independent(program: &Program, state: &State, thread: u8, other: u8) -> bool
    requires of { IsOf program.now state.now }
    requires thread { thread < length program.now.threads }
    requires other { other < length program.now.threads }
    ensures value { result ≡ independent program.now state.now thread other }
    ensures commute { IsTrue result → CommutesWith program.now state.now thread other }
{
    if thread == other {
        return false;
    }
    are_next_steps_independent(
        state.next_action(program, thread),
        state.next_action(program, other),
    )
}

/// Whether the next steps of two threads are independent: no object is touched by both with one of
/// them writing it. False where one is `None`: its thread has no next step.
pub fn are_next_steps_independent(first: Option<Action>, second: Option<Action>) -> bool
    ensures { result ≡ apart first second }
{
    match (first, second) {
        (Some(first), Some(second)) => are_actions_independent(first, second),
        (None, _) | (_, None) => false,
    }
}

// Whether two actions are independent: no object is touched by both with one of them writing it.
fn are_actions_independent(first: Action, second: Action) -> bool
    ensures { result ≡ apart (Some first) (Some second) }
{
    match (first, second) {
        (Action::OnVariable(x, a), Action::OnVariable(y, b)) => are_variable_steps_independent(
            (x, a),
            (y, b),
        ),
        (Action::OnMutex(m, _), Action::OnMutex(n, _) | Action::Wait(_, n))
        | (Action::Wait(_, m), Action::OnMutex(n, _)) => m != n,
        (Action::Wait(c, m), Action::Wait(d, n)) => c != d && m != n,
        (Action::OnCondition(c, _), Action::OnCondition(d, _) | Action::Wait(d, _))
        | (Action::Wait(c, _), Action::OnCondition(d, _)) => c != d,
        (Action::OnSemaphore(k, _), Action::OnSemaphore(l, _)) => k != l,
        _ => true,
    }
}

// Whether two steps on variables are independent: they are on different variables, or both load.
// Each step is its variable's number and what it does.
fn are_variable_steps_independent(
    first: (usize, VariableAction),
    second: (usize, VariableAction),
) -> bool
    ensures { result ≡ not (conflict (access_of first.1 first.0) (access_of second.1 second.0)) }
{
    match (first.1, second.1) {
        (VariableAction::Load(_), VariableAction::Load(_)) => true,
        _ => first.0 != second.0,
    }
}

// Whether a search tries a step of `other` before one of `thread`: `other` is among those `asleep`,
// which were tried earlier, or has the smaller number.
fn is_tried_before(asleep: Mask, thread: u8, other: u8) -> bool
    ensures { result ≡ (has asleep other || nat_lt other thread) }
{
    asleep.has(other) || other < thread
}

/// The sleep set after a step of `thread`, threads that need not step next, since an earlier
/// schedule leads to the same: of the threads `enabled` before the step, those that are `asleep`
/// then or have smaller numbers, and whose next steps are independent of it. Nothing is allocated.
pub fn sleep_set_after(
    program: &Program,
    state: &State,
    enabled: Mask,
    asleep: Mask,
    thread: u8,
) -> Mask
    requires of { IsOf program.now state.now }
    requires thread { thread < length program.now.threads }
    requires enabled { HasEnabled enabled program.now state.now }
    ensures { result ≡ mask_of (next_sleep_set program.now state.now (has asleep) thread) }
{
    let step = state.next_action(program, thread);
    let mut sleepers = Mask::empty();
    let mut from = 0;
    while let Some(other) = enabled.first_from(from) {
        let tried = is_tried_before(asleep, thread, other) && thread != other;
        let sleeps = tried && are_next_steps_independent(step, state.next_action(program, other));
        sleepers = sleepers.with(other, sleeps);
        from = other + 1;
    }
    sleepers
}
