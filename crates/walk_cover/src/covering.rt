//! Whether a list of prefixes covers a program, and what is wrong with it where it doesn't.

ghost use Rattle.std.specs.Prelude.{◌≡◌, IfOk, IfErr, IfSome, IfNone, MatchResult, map, All, Contains};
ghost use Rattle.std.specs.{Arc.arc_value, BTreeSet.IsFromIterResult, Cmp.Lexicographic.slice_cmp};
ghost use Rattle.std.specs.{List.{list_any, find}, Ordering.nat_cmp};
ghost use Rattle.guest_code.specs.Program.{Program, IsWellFormed};
ghost use Rattle.semantics_schedules.specs.Schedules.{begins_with};
ghost use Rattle.walk_items.specs.{Items.root_of, declared.mode.Mode.Mode};
ghost use Rattle.walk_cover.specs.CoverBy.{IsCoverBy, CoverErrorMeans};
ghost use Rattle.walk_cover.specs.inner.Reached.{IsReached, IsBare, IsOther};

use crate::children::push_children_or_self;
use guest_code::laws::programs_are_well_formed;
use guest_code::program::Program;
use std::alloc::{AllocError, Global};
use std::collections::BTreeSet;
use std::sync::Arc;
use walk_items::item::Item;
use walk_items::mode::Mode;

/// Why prefixes are no cover of a program.
#[derive(Drop)]
pub enum CoverError {
    /// None of the prefixes begins with this one, and a schedule of the program begins with this
    /// one and with none of the prefixes.
    Missing(Vec<u8>),
    /// Two of the prefixes: the second begins with the first.
    Nested(Vec<u8>, Vec<u8>),
    /// None of the program's schedules begins with this prefix.
    Unused(Vec<u8>),
    /// Memory ran out.
    OutOfMemory,
}

impl From<AllocError> for CoverError {
    ghost use Rattle.walk_cover.specs.declared.covering.CoverError.TheVariants.{OutOfMemory};

    ghost from_gives = { λ _ e. e ≡ OutOfMemory };

    fn from(_e: AllocError) -> CoverError {
        CoverError::OutOfMemory
    }
}

/// The items of these prefixes, in any order, where the prefixes cover the program: each complete
/// schedule of the program begins with exactly one of them, and each of them runs. With sleep sets
/// (`Reduced`) only the schedules that these leave count, and a prefix after which all threads sleep
/// may begin none of them. A prefix that is given twice counts once. A mode with equal threads once
/// counts as the one with all.
///
/// # Errors
///
/// `Missing`, `Nested` or `Unused` where the prefixes don't cover the program, `OutOfMemory` where
/// memory runs out.
pub fn cover_by(
    alloc: Global,
    program: Arc<Program>,
    mode: Mode,
    prefixes: &[&[u8]],
) -> Result<Vec<Item>, CoverError>
    ensures value { IfOk result (λ v.
        IsCoverBy mode (arc_value program) (map (λ x. x.now) prefixes.now) v.items) }
    ensures error { IfErr result
        (CoverErrorMeans mode (arc_value program) (map (λ x. x.now) prefixes.now)) }
{
    programs_are_well_formed(&program);
    let root = Item::root(alloc, program)?;
    match covering_items(alloc, mode, root, prefixes)? {
        Ok(items) => match unreached_error(alloc, items.as_slice(), prefixes)? {
            Some(error) => Err(error),
            None => Ok(items),
        },
        Err(bare) => Err(uncovered_error(alloc, &bare, prefixes)?),
    }
}

// Goes through the tree of schedules from `root` down to `prefixes`: `Ok` with the items of the
// prefixes that it reached, where each schedule begins with one of them; `Err` with the item of a
// complete schedule, where it met one that begins with none of `prefixes`.
fn covering_items(
    alloc: Global,
    mode: Mode,
    root: Item,
    prefixes: &[&[u8]],
) -> Result<Result<Vec<Item>, Item>, AllocError>
    requires fine { IsWellFormed root.program }
    requires root { root ≡ root_of root.program }
    ensures { IfOk result (λ r. MatchResult r
        (λ v. IsReached mode root.program (map (λ x. x.now) prefixes.now) v.items)
        (IsBare mode root.program (map (λ x. x.now) prefixes.now))) }
{
    let listed = prefix_set(alloc, prefixes)?;
    let mut items = Vec::new(alloc);
    let mut left = Vec::new(alloc);
    left.push(root)?;
    while let Some(item) = left.pop() {
        if listed.contains(item.prefix()) {
            items.push(item)?;
        } else if push_children_or_self(&mut left, alloc, mode, &item)? {
            return Ok(Err(item));
        }
    }
    Ok(Ok(items))
}

// A set of these prefixes, to look them up in.
fn prefix_set<'a>(alloc: Global, prefixes: &[&'a [u8]]) -> Result<BTreeSet<&'a [u8]>, AllocError>
    ensures { IfOk result (IsFromIterResult (λ x y. slice_cmp nat_cmp x.now y.now) prefixes.now) }
{
    prefixes.iter().copied().collect(alloc)
}

// The error for the first of the prefixes that none of the items has, `Nested` or `Unused`; `None`
// where each prefix is that of an item.
fn unreached_error(
    alloc: Global,
    items: &[Item],
    prefixes: &[&[u8]],
) -> Result<Option<CoverError>, AllocError>
    ensures none { IfOk result (λ o. IfNone o
        (All (λ x. Contains (map (λ i. i.prefix) items.now) x.now) prefixes.now)) }
    ensures some { (p : Program) (mode : Mode) →
        IsReached mode p (map (λ x. x.now) prefixes.now) items.now →
        IfOk result (λ o. IfSome o (CoverErrorMeans mode p (map (λ x. x.now) prefixes.now))) }
{
    let own = prefixes_of(alloc, items)?;
    let reached = prefix_set(alloc, own.as_slice())?;
    for prefix in prefixes {
        if !reached.contains(*prefix) {
            return Ok(Some(nested_or_unused(alloc, items, prefix)?));
        }
    }
    Ok(None)
}

// The prefixes of these items, in the items' order.
fn prefixes_of(alloc: Global, items: &[Item]) -> Result<Vec<&[u8]>, AllocError>
    ensures { IfOk result (λ v.
        map (λ x. x.now) v.items ≡ map (λ i. i.prefix) items.now) }
{
    let mut prefixes = Vec::new(alloc);
    for item in items {
        prefixes.push(item.prefix())?;
    }
    Ok(prefixes)
}

// The error for a prefix that none of the items has: `Nested` where it begins with an item's
// prefix, else `Unused`.
fn nested_or_unused(alloc: Global, items: &[Item], prefix: &[u8]) -> Result<CoverError, AllocError>
    ensures { IfOk result (IsOther items.now prefix.now) }
{
    let inner = prefix.to_vec(alloc)?;
    for item in items {
        if is_prefix_of(item.prefix(), prefix) {
            return Ok(CoverError::Nested(item.prefix().to_vec(alloc)?, inner));
        }
    }
    Ok(CoverError::Unused(inner))
}

// The error where the prefix of `item` is a complete schedule that begins with none of `prefixes`:
// `Missing` with the shortest beginning of the schedule with which none of `prefixes` begins; where
// one is longer than the schedule and begins with it, `Unused` with that one.
fn uncovered_error(alloc: Global, item: &Item, prefixes: &[&[u8]]) -> Result<CoverError, AllocError>
    ensures { (p : Program) (mode : Mode) →
        IsBare mode p (map (λ x. x.now) prefixes.now) item.now →
        IfOk result (CoverErrorMeans mode p (map (λ x. x.now) prefixes.now)) }
{
    let schedule = item.prefix();
    for steps in 0..schedule.len() {
        if !any_begins_with(prefixes, &schedule[..steps]) {
            return Ok(CoverError::Missing(schedule[..steps].to_vec(alloc)?));
        }
    }
    match first_that_begins_with(prefixes, schedule) {
        Some(longer) => Ok(CoverError::Unused(longer.to_vec(alloc)?)),
        None => Ok(CoverError::Missing(schedule.to_vec(alloc)?)),
    }
}

// Whether one of `prefixes` begins with `prefix`.
fn any_begins_with(prefixes: &[&[u8]], prefix: &[u8]) -> bool
    ensures { result ≡ list_any (λ x. begins_with prefix.now x.now) prefixes.now }
{
    prefixes.iter().any(|listed| is_prefix_of(prefix, listed))
}

// The first of `prefixes` that begins with `prefix`; `None` where none does.
fn first_that_begins_with<'a>(prefixes: &[&'a [u8]], prefix: &[u8]) -> Option<&'a [u8]>
    ensures { result ≡ find (λ x. begins_with prefix.now x.now) prefixes.now }
{
    prefixes
        .iter()
        .copied()
        .find(|listed| is_prefix_of(prefix, listed))
}

// Whether the second list of steps begins with the first.
#[tactic(auto, using(crate::proofs::Listed::starts))]
fn is_prefix_of(first: &[u8], second: &[u8]) -> bool
    ensures { result ≡ begins_with first.now second.now }
{
    second.starts_with(first)
}
