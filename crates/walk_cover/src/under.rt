//! The item of the schedules that begin with a prefix, with sleep sets or without.

ghost use Rattle.std.specs.Prelude.{◌≡◌, true, IfOk, IfErr, MatchOption};
ghost use Rattle.std.specs.Arc.{arc_value};
ghost use Rattle.semantics.specs.{Machine.start, Mask.no_threads};
ghost use Rattle.semantics_schedules.specs.Schedules.{runs};
ghost use Rattle.replay.specs.Run.{ReplayErrorMeans};
ghost use Rattle.walk_items.specs.declared.mode.Mode.TheVariants.{Reduced};
ghost use Rattle.walk_cover.specs.Under.{IsUnder, HasNoneUnder, IsAsleepAfter};

use guest_code::laws::programs_are_well_formed;
use guest_code::program::Program;
use replay::ReplayError;
use semantics::mask::Mask;
use semantics::state::State;
use semantics_schedules::independence::sleep_set_after;
use std::alloc::{AllocError, Global};
use std::sync::Arc;
use walk_items::item::Item;
use walk_items::mode::Mode;

/// The item of a program's schedules that begin with a prefix; with sleep sets (`Reduced`) it has
/// the threads that sleep after the prefix. `None` where, with sleep sets, the prefix takes a step
/// of a thread that sleeps: none of the schedules that they leave begins with it. A mode with equal
/// threads once counts as the one with all.
///
/// # Errors
///
/// `NoSuchThread` or `NotEnabled` with the first place of the prefix at which no step can be taken,
/// `OutOfMemory` where memory runs out.
pub fn item_under(
    alloc: Global,
    program: Arc<Program>,
    mode: Mode,
    prefix: &[u8],
) -> Result<Option<Item>, ReplayError>
    ensures value { IfOk result (λ found. MatchOption found
        (HasNoneUnder mode (arc_value program) prefix.now)
        (IsUnder mode (arc_value program) prefix.now)) }
    ensures error { IfErr result (ReplayErrorMeans (arc_value program) prefix.now) }
{
    let item = Item::at(alloc, program, prefix)?;
    match mode {
        Mode::Bounded(_) => Ok(Some(item)),
        Mode::Reduced => Ok(with_sleepers(alloc, item)?),
        Mode::BoundedOnce(_) => Ok(Some(item)),
        Mode::ReducedOnce => Ok(with_sleepers(alloc, item)?),
    }
}

// The item with its mask set to the threads that sleep after its prefix; `None` where a step of the
// prefix is one of a thread that sleeps then.
fn with_sleepers(alloc: Global, item: Item) -> Result<Option<Item>, AllocError>
    requires { item.mask ≡ no_threads }
    ensures { IfOk result (λ found. MatchOption found
        (HasNoneUnder Reduced item.program item.prefix)
        (IsUnder Reduced item.program item.prefix)) }
{
    let Some(asleep) = asleep_after(alloc, item.program(), item.prefix())? else {
        return Ok(None);
    };
    match item.prefix().split_last() {
        Some((last, steps)) => Ok(Some(item.with_prefix(alloc, steps, *last, asleep)?)),
        None => Ok(Some(item)),
    }
}

// The threads that sleep after a prefix that runs; `None` where a step of the prefix is one of a
// thread that sleeps then.
fn asleep_after(alloc: Global, program: &Program, prefix: &[u8]) -> Result<Option<Mask>, AllocError>
    requires { runs program.now (start program.now) prefix.now ≡ true }
    ensures { IfOk result (λ found. MatchOption found
        (HasNoneUnder Reduced program.now prefix.now)
        (IsAsleepAfter program.now prefix.now)) }
{
    programs_are_well_formed(program);
    let mut state = State::start(alloc, program)?;
    let mut asleep = Mask::empty();
    for thread in prefix {
        if asleep.has(*thread) {
            return Ok(None);
        }
        let enabled = state.enabled(program);
        asleep = sleep_set_after(program, &state, enabled, asleep, *thread);
        state.step(program, *thread);
    }
    Ok(Some(asleep))
}
