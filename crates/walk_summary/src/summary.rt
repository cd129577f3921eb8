//! Summaries of schedules: how many were tried, how they ended, and the first bad one.

ghost use Rattle.std.specs.Prelude.{◌≡◌, ◌+◌, ◌<◌, ◌≤◌, IfOk, OnErr, IsOk, IsTrue, MatchOption, Some, None, true, false, ◌++◌, ◌⊎◌, [], length, is_ok, ◌↔◌, if◌then◌else◌, vec_len, vec_capacity};
ghost use Rattle.std.specs.{List.Sorted.IsStrictlySortedBy, Option.option_or};
ghost use Rattle.semantics_schedules.specs.Order.{precedes, lesser};
ghost use Rattle.semantics.specs.View.{is_bad, view_cmp};
ghost use Rattle.walk_summary.specs.Summaries.{SummaryView, IsSummary, summary_of, schedule_view, cut, nothing, is_failed, is_stuck, with_view, sorted_views, join, with_beyond, added, counted_if, first_bad_with, end_with};
ghost use Rattle.walk_summary.specs.inner.EndPlaces.{IsPlaceOf};

use crate::end_memory::{EndHints, EndMemory};
use semantics::view::{EndView, Kind};
use std::alloc::{AllocError, Global};
use std::cmp::Ordering;
use std::marker::Model;

// How many end views a summary has room for at first: that of a small item has one to three.
const INITIAL_CAPACITY: usize = 3;

/// What is known of a list of complete schedules. Counts stop at the greatest `u64`.
#[derive(Drop)]
pub struct Summary {
    tried: u64,
    failed: u64,
    stuck: u64,
    beyond: bool,
    first_bad: Option<Vec<u8>>,
    ends: Vec<EndView>,
}

/// The counts of a summary.
#[derive(Clone, Copy, PartialEq, Eq)]
pub struct Counts {
    /// How many were tried.
    pub tried: u64,
    /// How many of the tried ones failed.
    pub failed: u64,
    /// How many of the tried ones got stuck.
    pub stuck: u64,
}

impl Model for Summary {
    ghost use Rattle.walk_summary.specs.Summaries.{SummaryView, IsSummary, summary_view};

    ghost Value = { SummaryView };

    ghost view = { λ s. summary_view s.tried s.failed s.stuck s.beyond s.first_bad s.ends };

    ghost invariant = { λ s. IsSummary
        (summary_view s.tried s.failed s.stuck s.beyond s.first_bad s.ends) };
}

impl Summary {
    /// The summary of no schedule.
    pub fn empty(alloc: Global) -> Summary
        ensures { result ≡ nothing }
    {
        Summary {
            tried: 0,
            failed: 0,
            stuck: 0,
            beyond: false,
            first_bad: None,
            ends: Vec::new(alloc),
        }
    }

    /// The summary that has these parts. `None` where a summary may not have them: the end views
    /// aren't strictly sorted, or there is a first bad schedule though none failed or got stuck, or
    /// there is none though some did.
    pub fn from_parts(
        counts: Counts,
        beyond: bool,
        first_bad: Option<Vec<u8>>,
        ends: Vec<EndView>,
    ) -> Option<Summary>
        ensures { MatchOption result
            (¬ (IsSummary (summary_of counts beyond first_bad ends)))
            (λ s. s ≡ summary_of counts beyond first_bad ends) }
    {
        let bad = counts.failed > 0 || counts.stuck > 0;
        if first_bad.is_some() != bad || !are_sorted(ends.as_slice()) {
            return None;
        }
        Some(Summary {
            tried: counts.tried,
            failed: counts.failed,
            stuck: counts.stuck,
            beyond,
            first_bad,
            ends,
        })
    }

    /// Makes this the summary of no schedule, and gives the end views to `memory`, to be used
    /// again.
    pub fn clear(&mut self, memory: &mut EndMemory)
        ensures { self.new ≡ nothing }
    {
        self.forget_beyond();
        memory.recycle(&mut self.ends);
        reset_count(&mut self.tried);
        reset_count(&mut self.failed);
        reset_count(&mut self.stuck);
        self.first_bad = None;
    }

    /// How many schedules were tried.
    pub fn tried(&self) -> u64
        ensures { result ≡ self.now.tried }
    {
        self.tried
    }

    /// How many of the schedules failed.
    pub fn failed(&self) -> u64
        ensures { result ≡ self.now.failed }
    {
        self.failed
    }

    /// How many of the schedules got stuck.
    pub fn stuck(&self) -> u64
        ensures { result ≡ self.now.stuck }
    {
        self.stuck
    }

    /// Whether it was noted that some schedule has more preemptions than the bound.
    pub fn beyond(&self) -> bool
        ensures { result ≡ self.now.beyond }
    {
        self.beyond
    }

    /// The least, in lexicographic order, of the schedules that failed or got stuck, if any.
    pub fn first_bad(&self) -> Option<&[u8]>
        ensures { MatchOption result
            (self.now.first_bad ≡ None) (λ w. self.now.first_bad ≡ Some w.now) }
    {
        match &self.first_bad {
            None => None,
            Some(schedule) => Some(schedule.as_slice()),
        }
    }

    /// The end views of the schedules, sorted by kind, then by the variables' values, each once.
    pub fn ends(&self) -> &[EndView]
        ensures ends { result.now ≡ self.now.ends }
        ensures kept { IsSummary self.now }
    {
        self.ends.as_slice()
    }

    /// An equal summary, in memory of its own. Fails where memory runs out.
    pub fn try_clone(&self, alloc: Global) -> Result<Summary, AllocError>
        ensures { IfOk result (λ s. s ≡ self.now) }
    {
        Ok(Summary {
            tried: self.tried,
            failed: self.failed,
            stuck: self.stuck,
            beyond: self.beyond,
            first_bad: copy_schedule(alloc, &self.first_bad)?,
            ends: copy_views(alloc, self.ends.as_slice())?,
        })
    }

    /// This summary and another as one: the counts added up to the greatest `u64`, the lesser first
    /// bad schedule, the end views of both; beyond the bound where one of them is. Fails where
    /// memory runs out.
    #[tactic(auto, using(crate::proofs::SumsJoin::join_kept), unfolding(crate::specs::Summaries::join))]
    pub fn join(&self, alloc: Global, other: &Summary) -> Result<Summary, AllocError>
        ensures { IfOk result (λ s. s ≡ join self.now other.now) }
    {
        Ok(Summary {
            tried: self.tried.saturating_add(other.tried),
            failed: self.failed.saturating_add(other.failed),
            stuck: self.stuck.saturating_add(other.stuck),
            beyond: self.beyond || other.beyond,
            first_bad: copy_lesser(alloc, &self.first_bad, &other.first_bad)?,
            ends: merged_views(alloc, self.ends.as_slice(), other.ends.as_slice())?,
        })
    }

    /// Makes this summary what [`Summary::join`] answers for it and another. No view is copied, and
    /// no memory is taken where the other has no end view that is new. Hints tell at which index an
    /// end view was found in earlier joins, and may be wrong. Parts are moved out of the other: it
    /// stays a summary, but it isn't said of what. Fails where memory runs out; both summaries are
    /// then as before.
    #[tactic(auto, unfolding(crate::specs::Summaries::join))]
    pub fn join_in(&mut self, hints: &mut EndHints, other: &mut Summary) -> Result<(), AllocError>
        ensures joined { self.new ≡ (if is_ok result then join self.old other.old else self.old) }
        ensures other { OnErr result (other.new ≡ other.old) }
    {
        merge_views(&mut self.ends, hints, &mut other.ends)?;
        replace_if_lesser(&mut self.first_bad, other.first_bad.take());
        raise_count(&mut self.tried, other.tried);
        raise_count(&mut self.failed, other.failed);
        raise_count(&mut self.stuck, other.stuck);
        self.beyond = self.beyond || other.beyond;
        reset_count(&mut other.failed);
        reset_count(&mut other.stuck);
        Ok(())
    }

    /// Forgets that some schedule has more preemptions than the bound, as when the bound is raised.
    pub fn forget_beyond(&mut self)
        ensures { self.new ≡ with_beyond self.old false }
    {
        self.beyond = false;
    }

    /// Adds a complete schedule, which ends with this kind and these values of the variables:
    /// counts it, and keeps it if it is the first bad one, and its end view if that is new. Tests
    /// the usual case first: the schedule isn't bad, and its end view stands where a hint says.
    /// Fails where memory runs out; the summary is then as before.
    #[inline(always)]
    #[tactic(auto, unfolding(crate::specs::Summaries::added))]
    pub fn add(
        &mut self,
        alloc: Global,
        memory: &mut EndMemory,
        schedule: &[u8],
        kind: Kind,
        values: &[i64],
    ) -> Result<(), AllocError>
        ensures { self.new ≡ (if is_ok result
            then added self.old schedule.now (end_with kind values.now) else self.old) }
    {
        let hint = memory.hints.hint_for(self.ends.len(), kind, values);
        if !kind.is_bad() && is_view_at(self.ends.as_slice(), hint, kind, values) {
            raise_count(&mut self.tried, 1);
            return Ok(());
        }
        self.add_cold(alloc, memory, schedule, kind, values)
    }

    // Adds a complete schedule as [`Summary::add`] does, without its test of the usual case. It is
    // a function of its own, so that `add` is short where it is inlined.
    #[inline(never)]
    #[tactic(auto, unfolding(crate::specs::Summaries::added))]
    fn add_cold(
        &mut self,
        alloc: Global,
        memory: &mut EndMemory,
        schedule: &[u8],
        kind: Kind,
        values: &[i64],
    ) -> Result<(), AllocError>
        ensures { self.new ≡ (if is_ok result
            then added self.old schedule.now (end_with kind values.now) else self.old) }
    {
        let better = new_first_bad(alloc, &self.first_bad, schedule, kind)?;
        add_view(alloc, &mut self.ends, memory, kind, values)?;
        replace_if_some(&mut self.first_bad, better);
        raise_count(&mut self.tried, 1);
        count_if(is_failed(kind), &mut self.failed);
        count_if(is_stuck(kind), &mut self.stuck);
        Ok(())
    }

    /// Notes that some schedule has more preemptions than the bound.
    pub fn set_beyond(&mut self)
        ensures { self.new ≡ with_beyond self.old true }
    {
        self.beyond = true;
    }
}

// Whether a schedule that ends with this kind failed.
fn is_failed(kind: Kind) -> bool
    ensures { result ≡ is_failed kind }
{
    matches!(kind, Kind::Failed)
}

// Whether a schedule that ends with this kind got stuck.
fn is_stuck(kind: Kind) -> bool
    ensures { result ≡ is_stuck kind }
{
    matches!(kind, Kind::Stuck)
}

// Whether end views are strictly sorted: in order, each once.
fn are_sorted(ends: &[EndView]) -> bool
    ensures { IsTrue result ↔ IsStrictlySortedBy view_cmp ends.now }
{
    ends.is_sorted_by(|end, next| end.compare(next).is_lt())
}

// Raises a count by `more`, up to the greatest `u64`.
fn raise_count(count: &mut u64, more: u64)
    ensures { count.new ≡ cut (count.old + more) }
{
    *count = count.saturating_add(more);
}

// Sets a count to 0.
fn reset_count(count: &mut u64)
    ensures { count.new ≡ 0 }
{
    *count = 0;
}

// Raises a count by 1, up to the greatest `u64`, where `counted` is true.
fn count_if(counted: bool, count: &mut u64)
    ensures { count.new ≡ counted_if counted count.old }
{
    if counted {
        raise_count(count, 1);
    }
}

// A copy of a schedule that ends with this kind, where it is the new first bad one: it is bad, and
// `first`, the first bad one so far, is `None` or comes after it. Else `None`.
fn new_first_bad(
    alloc: Global,
    first: &Option<Vec<u8>>,
    schedule: &[u8],
    kind: Kind,
) -> Result<Option<Vec<u8>>, AllocError>
    ensures { IfOk result (λ better. option_or (schedule_view better) (schedule_view first.now)
        ≡ first_bad_with (is_bad kind) (schedule_view first.now) schedule.now) }
{
    if kind.is_bad() && precedes_first(schedule, first) {
        Ok(Some(schedule.to_vec(alloc)?))
    } else {
        Ok(None)
    }
}

// Whether a schedule comes before the `first` one, or there is no first one yet.
fn precedes_first(schedule: &[u8], first: &Option<Vec<u8>>) -> bool
    ensures { lesser (schedule_view first.now) (Some schedule.now)
        ≡ (if result then Some schedule.now else schedule_view first.now) }
{
    match first {
        None => true,
        Some(there) => precedes(schedule, there.as_slice()),
    }
}

// Replaces the `first` schedule by the `better` one, where there is a better one.
fn replace_if_some(first: &mut Option<Vec<u8>>, better: Option<Vec<u8>>)
    ensures { schedule_view first.new ≡ option_or (schedule_view better) (schedule_view first.old) }
{
    match better {
        None => {}
        Some(schedule) => {
            *first = Some(schedule);
        }
    }
}

// Replaces the `first` schedule by the `other`, where that comes before it or there is no first.
fn replace_if_lesser(first: &mut Option<Vec<u8>>, other: Option<Vec<u8>>)
    ensures { schedule_view first.new ≡ lesser (schedule_view first.old) (schedule_view other) }
{
    match other {
        None => {}
        Some(schedule) => {
            if precedes_first(schedule.as_slice(), first) {
                *first = Some(schedule);
            }
        }
    }
}

// Whether the `first` schedule comes before the `second` in lexicographic order.
#[tactic(auto, using(semantics_schedules::proofs::LeastSchedule::slices_order))]
fn precedes(first: &[u8], second: &[u8]) -> bool
    ensures { result ≡ precedes first.now second.now }
{
    first.cmp(&second) == Ordering::Less
}

// The lesser of two schedules, or the only one: the `first` itself, or a copy of the `other`.
fn keep_or_copy_lesser(
    alloc: Global,
    first: Option<Vec<u8>>,
    other: &[u8],
) -> Result<Option<Vec<u8>>, AllocError>
    ensures { IfOk result (λ v. schedule_view v ≡ lesser (schedule_view first) (Some other.now)) }
{
    match first {
        None => Ok(Some(other.to_vec(alloc)?)),
        Some(schedule) => {
            if precedes(other, schedule.as_slice()) {
                Ok(Some(other.to_vec(alloc)?))
            } else {
                Ok(Some(schedule))
            }
        }
    }
}

// A copy of a schedule, where there is one.
fn copy_schedule(alloc: Global, schedule: &Option<Vec<u8>>) -> Result<Option<Vec<u8>>, AllocError>
    ensures { IfOk result (λ v. schedule_view v ≡ schedule_view schedule.now) }
{
    match schedule {
        None => Ok(None),
        Some(there) => Ok(Some(there.as_slice().to_vec(alloc)?)),
    }
}

// A copy of the lesser of two schedules, or of the only one; `None` where there is none.
fn copy_lesser(
    alloc: Global,
    first: &Option<Vec<u8>>,
    second: &Option<Vec<u8>>,
) -> Result<Option<Vec<u8>>, AllocError>
    ensures { IfOk result (λ v.
        schedule_view v ≡ lesser (schedule_view first.now) (schedule_view second.now)) }
{
    let copy = copy_schedule(alloc, first)?;
    match second {
        None => Ok(copy),
        Some(other) => keep_or_copy_lesser(alloc, copy, other.as_slice()),
    }
}

// Searches a sorted list for the end view of a kind and values: `Ok` with the index at which it
// stands, or `Err` with the one at which it belongs.
fn search_view(ends: &[EndView], kind: Kind, values: &[i64]) -> Result<usize, usize>
    requires { IsStrictlySortedBy view_cmp ends.now }
    ensures { IsPlaceOf (end_with kind values.now) ends.now result }
{
    ends.binary_search_by(|end| EndView::compare_parts(kind, values, end).reverse())
}

// Where the end view of a kind and values stands (`Ok`) or belongs (`Err`) in a sorted list: at the
// hinted index if it stands there, else by a search, which sets the hint to what it finds.
fn find_view(
    ends: &[EndView],
    hints: &mut EndHints,
    kind: Kind,
    values: &[i64],
) -> Result<usize, usize>
    requires { IsStrictlySortedBy view_cmp ends.now }
    ensures { IsPlaceOf (end_with kind values.now) ends.now result }
{
    let hint = hints.hint_for(ends.len(), kind, values);
    if is_view_at(ends, hint, kind, values) {
        return Ok(hint);
    }
    let found = search_view(ends, kind, values);
    match found {
        Ok(index) | Err(index) => hints.set_hint(EndHints::place_of(kind, values), index),
    }
    found
}

// Whether the end view of a kind and values stands at an index of a list; false after its end.
#[inline(always)]
fn is_view_at(ends: &[EndView], index: usize, kind: Kind, values: &[i64]) -> bool
    requires { IsStrictlySortedBy view_cmp ends.now }
    ensures { IsTrue result → (index < length ends.now)
        × (with_view (end_with kind values.now) ends.now ≡ ends.now) }
{
    match ends.get(index) {
        Some(end) => end.kind() == kind && end.vars() == values,
        None => false,
    }
}

// Inserts the end view of a kind and values where it belongs in a sorted list, unless it is there.
// `memory` says where it may stand, and makes it. An empty list first gets room for three.
fn add_view(
    alloc: Global,
    ends: &mut Vec<EndView>,
    memory: &mut EndMemory,
    kind: Kind,
    values: &[i64],
) -> Result<(), AllocError>
    requires { IsStrictlySortedBy view_cmp ends.old.items }
    ensures { ends.new.items ≡ (if is_ok result
        then with_view (end_with kind values.now) ends.old.items else ends.old.items) }
{
    if ends.is_empty() {
        ends.reserve_exact(INITIAL_CAPACITY)?;
        ends.push(memory.make_view(alloc, kind, values)?)?;
        return Ok(());
    }
    match find_view(ends.as_slice(), &mut memory.hints, kind, values) {
        Ok(_) => Ok(()),
        Err(index) => {
            ends.insert(index, memory.make_view(alloc, kind, values)?)?;
            Ok(())
        }
    }
}

// Inserts an end view where it belongs in a sorted list; drops it if an equal one is there.
fn insert_view(ends: &mut Vec<EndView>, view: EndView) -> Result<(), AllocError>
    requires { IsStrictlySortedBy view_cmp ends.old.items }
    ensures items { ends.new.items ≡ (if is_ok result
        then with_view view ends.old.items else ends.old.items) }
    ensures length { vec_len ends.new ≤ vec_len ends.old + 1 }
    ensures capacity { vec_capacity ends.old ≤ vec_capacity ends.new }
    ensures room { vec_len ends.old < vec_capacity ends.old → IsOk result }
{
    match search_view(ends.as_slice(), view.kind(), view.vars()) {
        Ok(_) => Ok(()),
        Err(index) => {
            ends.insert(index, view)?;
            Ok(())
        }
    }
}

// Whether each of `views` is in the sorted list `ends`; `hints` say at which index it may stand.
fn has_all(ends: &[EndView], hints: &mut EndHints, views: &[EndView]) -> bool
    requires { IsStrictlySortedBy view_cmp ends.now }
    ensures { IsTrue result → sorted_views (ends.now ++ views.now) ≡ ends.now }
{
    for view in views {
        match find_view(ends, hints, view.kind(), view.vars()) {
            Ok(_) => {}
            Err(_) => return false,
        }
    }
    true
}

// Moves each of `views` to where it belongs in the sorted list `ends`, unless it is there. Room for
// all is reserved first, so that no insertion fails. `views` is empty then, or as before where all
// of them were in the list or there is no room.
fn merge_views(
    ends: &mut Vec<EndView>,
    hints: &mut EndHints,
    views: &mut Vec<EndView>,
) -> Result<(), AllocError>
    requires { IsStrictlySortedBy view_cmp ends.old.items }
    ensures joined { ends.new.items ≡ (if is_ok result
        then sorted_views (ends.old.items ++ views.old.items) else ends.old.items) }
    ensures left { (views.new.items ≡ []) ⊎ (views.new.items ≡ views.old.items) }
    ensures kept { OnErr result (views.new.items ≡ views.old.items) }
{
    if has_all(ends.as_slice(), hints, views.as_slice()) {
        return Ok(());
    }
    ends.reserve(views.len())?;
    while let Some(view) = views.pop() {
        let _ = insert_view(ends, view);
    }
    Ok(())
}

// A copy of a list of end views.
fn copy_views(alloc: Global, views: &[EndView]) -> Result<Vec<EndView>, AllocError>
    ensures { IfOk result (λ v. v.items ≡ views.now) }
{
    let mut copies = Vec::new(alloc);
    for view in views {
        copies.push(view.try_clone(alloc)?)?;
    }
    Ok(copies)
}

// The end views of two lists, of which the first is sorted, as one sorted list that has each once.
fn merged_views(
    alloc: Global,
    first: &[EndView],
    second: &[EndView],
) -> Result<Vec<EndView>, AllocError>
    requires { IsStrictlySortedBy view_cmp first.now }
    ensures { IfOk result (λ v. v.items ≡ sorted_views (first.now ++ second.now)) }
{
    let mut views = copy_views(alloc, first)?;
    for view in second {
        insert_view(&mut views, view.try_clone(alloc)?)?;
    }
    Ok(views)
}
