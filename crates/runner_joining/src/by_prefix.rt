//! The parts of each prefix: which of them answers for a bound, and whether they agree.

ghost use Rattle.std.specs.Prelude.{◌≡◌, ◌≢◌, None, true, All, Contains, IfSome, IfNone, IfOk, IfErr, OnOk};
ghost use Rattle.std.specs.Bool.{Decides};
ghost use Rattle.guest_code.specs.Program.{Program};
ghost use Rattle.runner_report.specs.declared.options.Search.{Search};
ghost use Rattle.runner_joining.specs.Parts.{IsSettled, Tells, IsOfPlace, Differ, AreApart, JoinErrorMeans};
ghost use Rattle.runner_joining.specs.inner.Lines.{AreByPrefix};

use crate::error::{JoinError, PartPlace};
use runner_parts::Part;
use runner_report::Level;
use semantics::view::EndView;
use std::alloc::{AllocError, Global};
use std::collections::BTreeMap;
use walk_summary::Summary;

/// Parts of a search, and a map from each prefix to the parts that have it.
#[derive(Drop)]
pub struct PartsByPrefix<'a> {
    /// All the parts.
    pub parts: &'a [Part],
    // The parts of each prefix, in the order of `parts`.
    by_prefix: BTreeMap<&'a [u8], Vec<&'a Part>>,
    ghost valid: { AreByPrefix parts.now by_prefix },
}

impl<'a> PartsByPrefix<'a> {
    /// Maps the prefixes of these parts to the parts. Fails where memory runs out.
    pub fn new(alloc: Global, parts: &'a [Part]) -> Result<PartsByPrefix<'a>, AllocError>
        ensures { IfOk result (λ x. x.parts.now ≡ parts.now) }
    {
        let mut by_prefix: BTreeMap<&[u8], Vec<&Part>> = BTreeMap::new(alloc);
        for part in parts {
            by_prefix
                .entry(part.under.as_slice())?
                .or_default()
                .push(part)?;
        }
        Ok(PartsByPrefix { parts, by_prefix })
    }

    /// The first part that says what is under a prefix at a bound, and wasn't cut short: one of
    /// this bound, or of a lesser one if what it found holds at this bound, too. `None` where there
    /// is none.
    pub fn part_at(&self, under: &[u8], bound: Option<u32>) -> Option<&'a Part>
        ensures some { IfSome result (λ x.
            Contains self.now.parts.now x.now × Tells under.now bound x.now) }
        ensures none { IfNone result (All (λ x. Tells under.now bound x → ⊥) self.now.parts.now) }
    {
        let Some(parts) = self.by_prefix.get(under) else {
            return None;
        };
        for part in parts {
            if answers_for(part, under, bound) {
                return Some(part);
            }
        }
        None
    }

    /// Refuses the parts where two of the same prefix and bound, neither of them cut short, have
    /// different summaries.
    ///
    /// # Errors
    ///
    /// `Disagree` with the prefix and the bound of the first part with which another disagrees,
    /// `OutOfMemory` where memory runs out.
    pub fn check_agreement(&self, alloc: Global) -> Result<(), JoinError>
        ensures agree { OnOk result ((place : PartPlace) → AreApart self.now.parts.now place → ⊥) }
        ensures error { (p : Program) (search : Search) →
            IfErr result (JoinErrorMeans p search self.now.parts.now) }
    {
        for part in self.parts {
            if self.is_disputed(part) {
                return Err(JoinError::Disagree(PartPlace {
                    under: part.under.as_slice().to_vec(alloc)?,
                    bound: part.level.bound,
                }));
            }
        }
        Ok(())
    }

    // Whether some part disagrees with `part`: it has the same prefix and bound, but another
    // summary, and neither was cut short.
    fn is_disputed(&self, part: &Part) -> bool
        ensures { Decides result
            ((x : Part) × Contains self.now.parts.now x × Differ part.now x) }
    {
        let Some(parts) = self.by_prefix.get(part.under.as_slice()) else {
            return false;
        };
        for other in parts {
            if disagree(part, other) {
                return true;
            }
        }
        false
    }
}

// Whether a part says what is under a prefix at a bound: it has the prefix, wasn't cut short, and
// has the bound, or found at a lesser one what holds at the bound, too.
fn answers_for(part: &Part, under: &[u8], bound: Option<u32>) -> bool
    ensures { Decides result (Tells under.now bound part.now) }
{
    part.level.cause.is_none()
        && part.under.as_slice() == under
        && (part.level.bound == bound || holds_at(&part.level, bound))
}

// Whether what a level found at its bound is all that there is at `bound`, too: the level's bound
// is no greater, no schedule was beyond it, and none was bad, which would have ended the search
// there. False where either bound is `None`.
fn holds_at(level: &Level, bound: Option<u32>) -> bool
    ensures { Decides result (IsSettled bound level.now) }
{
    let (Some(at), Some(later)) = (level.bound, bound) else {
        return false;
    };
    at <= later && !level.summary.beyond() && level.summary.first_bad().is_none()
}

/// Whether some part of this place, a prefix and a bound, was cut short.
pub fn any_cut_short(parts: &[Part], place: &PartPlace) -> bool
    ensures { result ≡ true → (x : Part) × Contains parts.now x × IsOfPlace place.now x
        × (x.level.cause ≢ None) }
{
    for part in parts {
        if is_of_place(part, place) && part.level.cause.is_some() {
            return true;
        }
    }
    false
}

// Whether two parts disagree: they have the same prefix and bound, neither was cut short, and their
// summaries differ.
fn disagree(one: &Part, other: &Part) -> bool
    ensures { Decides result (Differ one.now other.now) }
{
    one.level.cause.is_none()
        && other.level.cause.is_none()
        && one.level.bound == other.level.bound
        && one.under.as_slice() == other.under.as_slice()
        && !same_summaries(&one.level.summary, &other.level.summary)
}

// Whether a part has the prefix and the bound of a place.
fn is_of_place(part: &Part, place: &PartPlace) -> bool
    ensures { result ≡ true → IsOfPlace place.now part.now }
{
    part.under.as_slice() == place.under.as_slice() && part.level.bound == place.bound
}

// Whether two summaries are equal.
fn same_summaries(first: &Summary, second: &Summary) -> bool
    ensures { Decides result (first.now ≡ second.now) }
{
    first.tried() == second.tried()
        && first.failed() == second.failed()
        && first.stuck() == second.stuck()
        && first.beyond() == second.beyond()
        && first.first_bad() == second.first_bad()
        && same_ends(first.ends(), second.ends())
}

// Whether two lists have equal end views in the same order.
fn same_ends(first: &[EndView], second: &[EndView]) -> bool
    ensures { Decides result (first.now ≡ second.now) }
{
    if first.len() != second.len() {
        return false;
    }
    for at in 0..first.len() {
        if !same_end(&first[at], &second[at]) {
            return false;
        }
    }
    true
}

// Whether two end views are equal.
fn same_end(first: &EndView, second: &EndView) -> bool
    ensures { Decides result (first.now ≡ second.now) }
{
    first.compare(second).is_eq()
}
