//! The commands `explore` and `unbounded` with `--under`: searches under a prefix.

ghost use Rattle.std.specs.Prelude.{◌≡◌, ℕ, List, Some, IfOk, IfErr, string_bytes};
ghost use Rattle.std.specs.{Arc.arc_value, List.flat_map};
ghost use Rattle.ctxbound_answers.specs.Answer.{FaultMeans};
ghost use Rattle.runner_joining.specs.Found.{AreLevelsUnder};
ghost use Rattle.ctxbound.specs.Under.{level_line, last_status, IsSearchUnder};
ghost use Rattle.replay.specs.Spelling.{Spells};
ghost use Rattle.runner_report.specs.Texts.{IsProgramOf};

use ctxbound_answers::{Exploration, Fault, Host, Printed, ProgressGate, UnderRequest};
use guest_code::program::Program;
use replay::schedule_from;
use runner::{explore_under, program_of};
use runner_joining::last_mode;
use runner_parts::{GuestDigest, Part, part_line};
use runner_report::Level;
use std::alloc::{AllocError, Global};
use std::sync::Arc;
use walk_cover::item_under;
use walk_summary::Summary;

/// What is printed of a search under a prefix of the schedules of the program that a text spells: a
/// part, which is a line, for each bound. Nothing is printed before the search has ended, so that a
/// search that is killed has printed none of its parts.
///
/// # Errors
///
/// What is wrong first: with the text, with the program that it spells, with the prefix's text, or
/// with a step of the prefix; `Memory` where memory runs out.
pub fn search_under<H: Host>(rt: &H, text: &[u8], request: &UnderRequest) -> Result<Printed, Fault>
    ensures printed { IfOk result (IsSearchUnder text.now request.now) }
    ensures fault { IfErr result (FaultMeans text.now (Some (string_bytes request.now.prefix))) }
{
    let alloc = rt.alloc();
    let program = program_of(alloc, text)?;
    let prefix = schedule_from(alloc, request.prefix.as_bytes())?;
    let levels = levels_under(rt, program, prefix.as_slice(), request.search)?;
    let status = last_status(levels.as_slice());
    let guest = GuestDigest::of_text(text);
    let output = level_lines(alloc, guest, prefix.as_slice(), levels)?;
    Ok(Printed { output, status })
}

// Searches under a prefix: what was found, a level for each bound; or why the prefix doesn't run.
// Where sleep sets leave no schedule under the prefix, nothing is searched, and there is one empty
// level.
fn levels_under<H: Host>(
    rt: &H,
    program: Arc<Program>,
    prefix: &[u8],
    search: Exploration,
) -> Result<Vec<Level>, Fault>
    ensures levels { IfOk result (λ v.
        AreLevelsUnder (arc_value program) search.options prefix.now v.items) }
    ensures fault { IfErr result (λ fault. (text schedule : List ℕ)
        → IsProgramOf text (arc_value program) → Spells schedule prefix.now
        → FaultMeans text (Some schedule) fault) }
{
    let alloc = rt.alloc();
    let mode = last_mode(search.options.search);
    let Some(item) = item_under(alloc, program, mode, prefix)? else {
        return Ok(vec![in alloc;
            Level {
                bound: None,
                summary: Summary::empty(alloc),
                cause: None
            },
        ]?);
    };
    let gate = ProgressGate::new(rt, search.progress);
    Ok(explore_under(rt, alloc, item, search.options, search.workers, &gate)?)
}

// The status after a search under a prefix: 3 where the last of its levels was cut short, 1 where that
// has a bad schedule, else 0.
fn last_status(levels: &[Level]) -> u8
    ensures { result ≡ last_status levels.now }
{
    let Some(level) = levels.last() else {
        return 0;
    };
    match (level.cause, level.summary.first_bad()) {
        (Some(_), _) => 3,
        (None, Some(_)) => 1,
        (None, None) => 0,
    }
}

// The parts of a search of this guest under this prefix, a line each: one for each of the levels.
fn level_lines(
    alloc: Global,
    guest: GuestDigest,
    prefix: &[u8],
    levels: Vec<Level>,
) -> Result<Vec<u8>, AllocError>
    ensures { IfOk result (λ text.
        text.items ≡ flat_map (level_line guest prefix.now) levels.items) }
{
    let mut text = Vec::new(alloc);
    for level in levels {
        let part = Part {
            under: prefix.to_vec(alloc)?,
            level,
            guest,
        };
        text.extend_from_slice(part_line(alloc, &part)?.as_slice())?;
        text.push(b'\n')?;
    }
    Ok(text)
}
