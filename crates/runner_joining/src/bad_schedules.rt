//! Whether the schedules that parts name are bad, and under the parts' prefixes and bounds.

ghost use Rattle.std.specs.Prelude.{◌≡◌, true, false, All, IfOk, IfErr, OnOk};
ghost use Rattle.std.specs.Bool.{Decides};
ghost use Rattle.runner_report.specs.declared.options.Search.{Search};
ghost use Rattle.runner_joining.specs.Parts.{IsTrue, JoinErrorMeans};
ghost use Rattle.runner_joining.specs.inner.Runs.{is_bad_run, is_within_bound};
ghost use Rattle.runner_joining.specs.declared.error.JoinError.TheVariants.{OutOfMemory};

use crate::error::{JoinError, PartPlace};
use guest_code::program::Program;
use replay::{ReplayError, Run, replay};
use runner_parts::Part;
use std::alloc::Global;

/// Refuses the parts where one names a schedule that isn't a bad one of the program, doesn't begin
/// with the part's prefix, or isn't within its bound.
///
/// # Errors
///
/// `Untrue` with the prefix and the bound of the first part whose schedule is wrong, `OutOfMemory`
/// where memory runs out.
pub fn check_schedules(alloc: Global, program: &Program, parts: &[Part]) -> Result<(), JoinError>
    ensures all { OnOk result (All (IsTrue program.now) parts.now) }
    ensures error { (search : Search) →
        IfErr result (JoinErrorMeans program.now search parts.now) }
{
    for part in parts {
        if !is_truthful(alloc, program, part)? {
            return Err(JoinError::Untrue(PartPlace {
                under: part.under.as_slice().to_vec(alloc)?,
                bound: part.level.bound,
            }));
        }
    }
    Ok(())
}

// Whether the schedule that a part names is a bad one of the program, begins with the part's prefix
// and is within its bound; true where it names none. The only error is `OutOfMemory`.
fn is_truthful(alloc: Global, program: &Program, part: &Part) -> Result<bool, JoinError>
    ensures value { IfOk result (λ b. Decides b (IsTrue program.now part.now)) }
    ensures error { IfErr result (λ e. e ≡ OutOfMemory) }
{
    let Some(schedule) = part.level.summary.first_bad() else {
        return Ok(true);
    };
    if !schedule.starts_with(part.under.as_slice()) {
        return Ok(false);
    }
    match replay(alloc, program, schedule) {
        Ok(run) => Ok(is_bad_within(&run, part.level.bound)),
        Err(ReplayError::NoSuchThread(_)) => Ok(false),
        Err(ReplayError::NotEnabled(_)) => Ok(false),
        Err(ReplayError::OutOfMemory) => Err(JoinError::OutOfMemory),
    }
}

// Whether a run is complete and ends badly, and its schedule is within the bound, if there is one.
fn is_bad_within(run: &Run, bound: Option<u32>) -> bool
    ensures { result ≡ is_bad_run run.now bound }
{
    match run.kind() {
        Some(kind) => kind.is_bad() && is_within_bound(bound, run.preemptions()),
        None => false,
    }
}

// Whether a schedule with this number of preemptions is within the bound; true without a bound.
fn is_within_bound(bound: Option<u32>, preemptions: usize) -> bool
    ensures { result ≡ is_within_bound bound preemptions }
{
    match bound {
        Some(bound) => preemptions <= bound as usize,
        None => true,
    }
}
