//! Which steps of a run changed a variable. A step that writes the value that is there changes
//! nothing.

ghost use Rattle.std.specs.Prelude.{◌≡◌, MatchOption, length};
ghost use Rattle.explain_cause.specs.Changes.{IsChangedBefore, IsChangedFrom, IsUnchanged, changes};

use explain_run::{Object, ObjectState, Step};

/// The place of the step since which a variable has the value that it has right before place `at`
/// of these steps: of the last one before that changed it. `None` where it still has its initial
/// value there.
pub fn unchanged_since(steps: &[Step], at: usize, variable: usize) -> Option<usize>
    ensures { MatchOption result (IsUnchanged steps.now variable 0 at)
        (IsChangedBefore steps.now variable at) }
{
    let mut place = at.min(steps.len());
    'places: while place > 0 {
        place -= 1;
        if is_change(&steps[place], variable) {
            return Some(place);
        }
    }
    None
}

/// The place of the first of these steps, from place `from` on, that changed a variable; `None`
/// where none did.
pub fn next_change(steps: &[Step], from: usize, variable: usize) -> Option<usize>
    ensures { MatchOption result (IsUnchanged steps.now variable from (length steps.now))
        (IsChangedFrom steps.now variable from) }
{
    for place in from..steps.len() {
        if is_change(&steps[place], variable) {
            return Some(place);
        }
    }
    None
}

// Whether a step changed a variable: left it with another value than it had.
fn is_change(step: &Step, variable: usize) -> bool
    ensures { result ≡ changes variable step.now }
{
    match (step.object, step.old, step.new) {
        (Object::Variable(x), ObjectState::Value(old), ObjectState::Value(new)) => {
            x == variable && old != new
        }
        _ => false,
    }
}
