//! Parts joined to a report.

ghost use Rattle.std.specs.Prelude.{◌≡◌, false, IfOk, IfErr, IfSome, IfNone, All, Contains, map};
ghost use Rattle.std.specs.Arc.{arc_value};
ghost use Rattle.walk_cover.specs.CoverBy.{IsCoverBy};
ghost use Rattle.runner_report.specs.{Promises.IsReport, declared.options.Search.Search};
ghost use Rattle.runner.specs.Levels.{IsModeOf, IsLast};
ghost use Rattle.guest_code.specs.Program.{Program};
ghost use Rattle.runner_joining.specs.Parts.{AreHonest, AreTested, IsTrue, IsLacking, JoinErrorMeans, AreTold, GoesOnAt, ComesTo, Tells, prefixes_for, last_mode, mode_at, options_of};

use crate::bad_schedules::check_schedules;
use crate::by_prefix::{PartsByPrefix, any_cut_short};
use crate::error::{JoinError, PartPlace};
use guest_code::program::Program;
use runner::report_of;
use runner_parts::Part;
use runner_report::{Options, Report, Search};
use std::alloc::{AllocError, Global};
use std::sync::Arc;
use walk_cover::cover_by;
use walk_items::item::Item;
use walk_items::mode::Mode;
use walk_summary::Summary;

// What `join` works on: a search of a program, the parts of it, and the items of their prefixes,
// which cover the program.
#[derive(Clone, Copy)]
struct Joining<'a, 'p> {
    program: &'a Program,
    search: Search,
    parts: &'a PartsByPrefix<'p>,
    items: &'a [Item],
}

/// The report of a search of the program, from parts of the search: where each part of a bound that
/// the search comes to, if it wasn't cut short, has the summary of all that is under its prefix at
/// its bound, the report is one that a search of the whole program may give. That the parts are of
/// this program isn't tested: the guests that they name aren't looked at. A part where nothing is
/// beyond its bound and nothing is bad stands for each greater bound, too; the summary of a part
/// that was cut short isn't joined.
///
/// All parts are tested, also those that the report doesn't need: each schedule that one names has
/// to be bad, to begin with the part's prefix and to be within its bound, and where two of one
/// prefix and bound weren't cut short their summaries have to be equal.
///
/// # Errors
///
/// What is missing, or what is wrong with the parts; `OutOfMemory` where memory runs out.
pub fn join(
    alloc: Global,
    program: &Arc<Program>,
    search: Search,
    parts: &[Part],
) -> Result<Report, JoinError>
    ensures report { IfOk result (λ r. AreHonest (arc_value program.now) search parts.now →
        IsReport false (arc_value program.now) (options_of search) r) }
    ensures tested { IfOk result (λ _. AreTested (arc_value program.now) search parts.now) }
    ensures error { IfErr result (JoinErrorMeans (arc_value program.now) search parts.now) }
{
    check_schedules(alloc, program, parts)?;
    let by_prefix = PartsByPrefix::new(alloc, parts)?;
    by_prefix.check_agreement(alloc)?;
    let prefixes = prefixes_for(alloc, search, parts)?;
    let items = cover_by(
        alloc,
        Arc::try_clone(program)?,
        last_mode(search),
        prefixes.as_slice(),
    )?;
    let joining = Joining {
        program,
        search,
        parts: &by_prefix,
        items: items.as_slice(),
    };
    joining.report(alloc)
}

// The prefixes of the parts that a search can use, in the parts' order: those with a bound where
// the search has one, else those without. A prefix is listed once for each part that has it.
fn prefixes_for<'a>(
    alloc: Global,
    search: Search,
    parts: &'a [Part],
) -> Result<Vec<&'a [u8]>, AllocError>
    ensures { IfOk result (λ v. map (λ x. x.now) v.items ≡ prefixes_for search parts.now) }
{
    let mut prefixes = Vec::new(alloc);
    for part in parts {
        if part.level.bound.is_some() == matches!(search, Search::UpTo(_)) {
            prefixes.push(part.under.as_slice())?;
        }
    }
    Ok(prefixes)
}

impl Joining<'_, '_> {
    // The report of the search. An error where it comes to a bound at which no part says what is
    // under an item's prefix.
    fn report(&self, alloc: Global) -> Result<Report, JoinError>
        requires schedules { All (IsTrue self.now.program.now) self.now.parts.now.parts.now }
        requires items { IsCoverBy (last_mode self.now.search) self.now.program.now
            (prefixes_for self.now.search self.now.parts.now.parts.now) self.now.items.now }
        ensures report { IfOk result (λ r.
            AreHonest self.now.program.now self.now.search self.now.parts.now.parts.now →
            IsReport false self.now.program.now (options_of self.now.search) r) }
        ensures error { IfErr result
            (JoinErrorMeans self.now.program.now self.now.search self.now.parts.now.parts.now) }
    {
        let last = last_bound(self.search);
        if let Some(last) = last {
            for bound in 0..last {
                if let Some(report) = self.report_at(alloc, Some(bound))? {
                    return Ok(report);
                }
            }
        }
        // A search goes on to no bound after its last, and one without a bound to none at all.
        match self.report_at(alloc, last)? {
            Some(report) => Ok(report),
            None => unreachable!(),
        }
    }

    // The report of the search, if it ends at this bound, to which it comes: the bound is its last,
    // or a schedule is bad, or none is beyond the bound. `None` where the search goes on to the next
    // bound. An error where no part says what is under an item's prefix at this bound.
    fn report_at(&self, alloc: Global, bound: Option<u32>) -> Result<Option<Report>, JoinError>
        requires comes { ComesTo self.now.program.now self.now.search
            self.now.parts.now.parts.now bound }
        requires schedules { All (IsTrue self.now.program.now) self.now.parts.now.parts.now }
        requires items { IsCoverBy (last_mode self.now.search) self.now.program.now
            (prefixes_for self.now.search self.now.parts.now.parts.now) self.now.items.now }
        ensures some { IfOk result (λ o. IfSome o (λ r.
            AreHonest self.now.program.now self.now.search self.now.parts.now.parts.now →
            IsReport false self.now.program.now (options_of self.now.search) r)) }
        ensures none { IfOk result (λ o. IfNone o (GoesOnAt self.now.program.now self.now.search
            self.now.parts.now.parts.now bound)) }
        ensures error { IfErr result
            (JoinErrorMeans self.now.program.now self.now.search self.now.parts.now.parts.now) }
    {
        let sum = self.sum_at(alloc, bound)?;
        let options = Options::new(self.search);
        match report_of(alloc, self.program, options, mode_of(bound), &sum) {
            Ok(report) => Ok(report),
            Err(_) => Err(JoinError::OutOfMemory),
        }
    }

    // The summary of the whole program at a bound to which the search comes: the summaries of the
    // parts for the items' prefixes, joined. An error where no part says what is under one of the
    // prefixes.
    fn sum_at(&self, alloc: Global, bound: Option<u32>) -> Result<Summary, JoinError>
        requires comes { ComesTo self.now.program.now self.now.search
            self.now.parts.now.parts.now bound }
        requires listed { All (λ i. Contains
            (prefixes_for self.now.search self.now.parts.now.parts.now) i.prefix)
            self.now.items.now }
        ensures told { IfOk result
            (AreTold self.now.parts.now.parts.now bound self.now.items.now) }
        ensures error { IfErr result
            (JoinErrorMeans self.now.program.now self.now.search self.now.parts.now.parts.now) }
    {
        let mut sum = Summary::empty(alloc);
        for item in self.items {
            let part = self.part_for(alloc, item, bound)?;
            sum = sum.join(alloc, &part.level.summary)?;
        }
        Ok(sum)
    }

    // The first part that says what is under an item's prefix at a bound to which the search comes,
    // and wasn't cut short. Where there is none, the error `Cut` if a part of this prefix and bound
    // was cut short, else `Lacks`.
    fn part_for(&self, alloc: Global, item: &Item, bound: Option<u32>) -> Result<&Part, JoinError>
        requires comes { ComesTo self.now.program.now self.now.search
            self.now.parts.now.parts.now bound }
        requires listed { Contains (prefixes_for self.now.search self.now.parts.now.parts.now)
            item.now.prefix }
        ensures part { IfOk result (λ x.
            Contains self.now.parts.now.parts.now x.now × Tells item.now.prefix bound x.now) }
        ensures error { IfErr result
            (JoinErrorMeans self.now.program.now self.now.search self.now.parts.now.parts.now) }
    {
        let Some(part) = self.parts.part_at(item.prefix(), bound) else {
            return Err(no_part_error(alloc, self.parts.parts, item.prefix(), bound)?);
        };
        Ok(part)
    }
}

// The error where only parts that were cut short, or none, say what is under a prefix at a bound:
// `Cut` where a part of this prefix and bound was cut short, else `Lacks`.
fn no_part_error(
    alloc: Global,
    parts: &[Part],
    prefix: &[u8],
    bound: Option<u32>,
) -> Result<JoinError, AllocError>
    ensures { (p : Program) (search : Search) → IsLacking p search parts.now prefix.now bound →
        IfOk result (JoinErrorMeans p search parts.now) }
{
    let place = PartPlace {
        under: prefix.to_vec(alloc)?,
        bound,
    };
    if any_cut_short(parts, &place) {
        Ok(JoinError::Cut(place))
    } else {
        Ok(JoinError::Lacks(place))
    }
}

// The mode in which a search walks at a bound; without a bound the one with sleep sets.
fn mode_of(bound: Option<u32>) -> Mode
    ensures { result ≡ mode_at bound }
{
    match bound {
        Some(bound) => Mode::Bounded(bound),
        None => Mode::Reduced,
    }
}

// The last bound of a search; `None` where it is unbounded.
fn last_bound(search: Search) -> Option<u32>
    ensures mode { mode_at result ≡ last_mode search }
    ensures of { IsModeOf false search (mode_at result) }
    ensures last { IsLast search (mode_at result) }
{
    match search {
        Search::UpTo(last) => Some(last),
        Search::Unbounded => None,
    }
}

/// The last mode of a search: that of its bound, or the one with sleep sets where it has none.
pub fn last_mode(search: Search) -> Mode
    ensures { result ≡ last_mode search }
{
    mode_of(last_bound(search))
}
