//! The command `prefixes`.

ghost use Rattle.std.specs.Prelude.{◌≡◌, None, IfOk, IfErr};
ghost use Rattle.ctxbound_answers.specs.Answer.{FaultMeans};
ghost use Rattle.ctxbound.specs.Prefixes.{listing_mode, IsListingOf};

use ctxbound_answers::{Fault, PrefixesRequest, Printed};
use runner::program_of;
use std::alloc::Global;
use walk_cover::{prefix_lines, prefixes};
use walk_items::limits::BOUND;
use walk_items::mode::Mode;

/// A line for each prefix of the schedules of the program that a text spells, of the least length
/// at which there are as many prefixes as are asked for, or more; a shorter complete schedule counts
/// as a prefix, too. Where no length has that many, a line for each complete schedule. Only the
/// prefixes that a search with sleep sets enters, if that is asked for.
///
/// # Errors
///
/// What is wrong first with the text, or `Memory`.
pub fn list_prefixes(
    alloc: Global,
    text: &[u8],
    request: &PrefixesRequest,
) -> Result<Printed, Fault>
    ensures lines { IfOk result (IsListingOf text.now request.now) }
    ensures error { IfErr result (FaultMeans text.now None) }
{
    let program = program_of(alloc, text)?;
    let mode = listing_mode(request.is_pruned);
    let items = prefixes(alloc, program, mode, request.at_least as usize)?;
    Ok(Printed {
        output: prefix_lines(alloc, items.as_slice())?,
        status: 0,
    })
}

// The mode in which prefixes are listed: with sleep sets if `is_pruned`, else with a bound, whose
// number makes no difference to the prefixes.
fn listing_mode(is_pruned: bool) -> Mode
    ensures { result ≡ listing_mode is_pruned }
{
    if is_pruned {
        Mode::Reduced
    } else {
        Mode::Bounded(BOUND)
    }
}
