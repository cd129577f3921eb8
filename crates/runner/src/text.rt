//! Searches of the program that a text spells.

ghost use Rattle.std.specs.Prelude.{◌≤◌, false, IfOk, IfErr};
ghost use Rattle.std.specs.Arc.{arc_value};
ghost use Rattle.runner_workers.specs.declared.limits.TheConstants.{WORKERS};
ghost use Rattle.runner_report.specs.Promises.{IsSearch};
ghost use Rattle.runner_report.specs.Texts.{IsProgramOf, ExploreErrorMeans, ExploreMeans};

use crate::alone::explore_alone;
use crate::together::explore;
use guest_code::lowering::lower;
use guest_code::program::Program;
use guest_syntax::parse;
use runner_report::{ExploreError, Options, Report};
use runner_workers::Gate;
use std::alloc::Global;
use std::sync::{Arc, Wait};
use std::thread::Threads;

/// The program that a text spells.
///
/// # Errors
///
/// `Syntax` where the text doesn't parse, `Check` with the first fault of a text that parses but is
/// no program, `OutOfMemory` where memory runs out.
pub fn program_of(alloc: Global, text: &[u8]) -> Result<Arc<Program>, ExploreError>
    ensures program { IfOk result (λ p. IsProgramOf text.now (arc_value p)) }
    ensures error { IfErr result (ExploreErrorMeans text.now) }
{
    let tree = parse(alloc, text)?;
    Ok(Arc::new(alloc, lower(alloc, &tree)?)?)
}

/// The report of a search, by one thread, of the program that a text spells.
///
/// # Errors
///
/// As those of [`program_of`].
pub fn explore_text_alone(
    alloc: Global,
    text: &[u8],
    options: Options,
) -> Result<Report, ExploreError>
    requires search { IsSearch options.search }
    requires quota { 1 ≤ options.quota }
    ensures { ExploreMeans false text.now options result }
{
    let program = program_of(alloc, text)?;
    explore_alone(alloc, &program, options)
}

/// The report of a search of the program that a text spells, by several workers, from 1 to
/// [`WORKERS`](crate::WORKERS); see [`explore`].
///
/// # Errors
///
/// As those of [`program_of`].
pub fn explore_text<G: Gate, R: Threads + Wait + Sync>(
    rt: &R,
    alloc: Global,
    text: &[u8],
    options: Options,
    workers: u32,
    gate: &G,
) -> Result<Report, ExploreError>
    requires search { IsSearch options.search }
    requires quota { 1 ≤ options.quota }
    requires workers { (1 ≤ workers) × (workers ≤ WORKERS) }
    ensures { ExploreMeans (G.stops gate.now) text.now options result }
{
    let program = program_of(alloc, text)?;
    explore(rt, alloc, &program, options, workers, gate)
}
