//! All warnings of a program.

ghost use Rattle.std.specs.Prelude.{◌≡◌, IfOk};
ghost use Rattle.check_lint.specs.Warnings.{Chosen, Listed, kinds_of, subject_of, count_of};

use crate::warning::{Warning, WarningKind};
use guest_code::program::Program;
use std::alloc::{AllocError, Global};

// The kinds of warnings that are of an object of the program, and of no thread.
const OF_OBJECTS: [WarningKind; 9] = [
    WarningKind::UnusedVariable,
    WarningKind::NeverStored,
    WarningKind::NeverLoaded,
    WarningKind::UnusedMutex,
    WarningKind::UnusedCondition,
    WarningKind::UnusedSemaphore,
    WarningKind::NeverSignalled,
    WarningKind::NeverWaitedFor,
    WarningKind::NeverReleased,
];

// All kinds of warnings that a program may have: those of objects, then those of each thread.
fn kinds(alloc: Global, program: &Program) -> Result<Vec<WarningKind>, AllocError>
    ensures { IfOk result (λ v. v.items ≡ kinds_of program.now) }
{
    let mut all = Vec::from_slice(alloc, &OF_OBJECTS)?;
    for thread in 0..program.threads() {
        let kinds = [
            WarningKind::NeverSet(thread),
            WarningKind::NeverRead(thread),
            WarningKind::Unreached(thread),
            WarningKind::MissingUnlock(thread),
            WarningKind::MissingLock(thread),
            WarningKind::LocksAgain(thread),
            WarningKind::WaitNotLookedAtAgain(thread),
            WarningKind::WaitsElsewhere(thread),
        ];
        all.extend_from_slice(&kinds)?;
    }
    Ok(all)
}

// The warnings of one kind: one for each local, object or instruction that the kind applies to, in
// the order of their numbers.
fn warnings_of(
    alloc: Global,
    program: &Program,
    kind: WarningKind,
) -> Result<Vec<Warning>, AllocError>
    ensures { IfOk result (λ v. Chosen program.now kind
        (count_of program.now (subject_of kind)) v.items) }
{
    let mut all = Vec::new(alloc);
    for number in 0..kind.count(program) {
        if kind.applies_to(alloc, program, number)? {
            all.push(Warning { kind, number })?;
        }
    }
    Ok(all)
}

/// All warnings of a program, one kind after the other: of each kind exactly one for each local,
/// object or instruction that the kind applies to, in the order of their numbers. Fails where
/// memory runs out.
pub fn all_warnings(alloc: Global, program: &Program) -> Result<Vec<Warning>, AllocError>
    ensures { IfOk result (λ v. Listed program.now (kinds_of program.now) v.items) }
{
    let mut all = Vec::new(alloc);
    let kinds = kinds(alloc, program)?;
    for kind in &kinds {
        let some = warnings_of(alloc, program, *kind)?;
        all.extend_from_slice(&some)?;
    }
    Ok(all)
}
