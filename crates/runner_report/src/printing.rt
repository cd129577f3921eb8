//! Printing of a report as JSON.

ghost use Rattle.std.specs.Prelude.{◌≡◌, IfOk, OnOk};
ghost use Rattle.serde_json.specs.View.{view, members_view};
ghost use Rattle.runner_report.specs.ReportText.{kind_data, cause_data, bound_data, values_data, end_data, ends_data, schedule_data};
ghost use Rattle.runner_report.specs.ReportText.{first_bad_data, with_members, common_members, clean_members, bad_members};
ghost use Rattle.runner_report.specs.ReportText.{incomplete_members, verdict_members, report_data, report_text};

use crate::report::{Cause, Report, Verdict};
use replay::schedule_text;
use semantics::view::{EndView, Kind};
use serde_json::{Map, Value, put};
use std::alloc::{AllocError, Global};
use walk_summary::Summary;

/// The text of a report: compact JSON of one object, its keys in the order of their bytes, with no
/// line feed.
///
/// Every report has `bound` (the last that was searched, or null without a bound), `ends` (a list
/// of the end views, each with its `kind` and the values of the variables, `vars`), the counts
/// `failed`, `stuck` and `tried`, and `verdict`; a quick one has `"quick":true`, one that tried equal
/// threads once `"symmetry":true`. A clean one has
/// `all`; a bad one `kind`, `preemptions` and `schedule`; an incomplete one `cause`, `finished` (a
/// bound or null) and `schedule` (the summary's first bad one, or null). Schedules are in their
/// printed spelling. Fails where memory runs out.
#[tactic(auto, using(crate::proofs::ReportTexts::report_whole))]
pub fn report_text(alloc: Global, report: &Report) -> Result<Vec<u8>, AllocError>
    ensures { IfOk result (λ text. text.items ≡ report_text report.now) }
{
    report_value(alloc, report)?.to_vec(alloc)
}

/// The JSON object of a report; [`report_text`] prints it. Fails where memory runs out.
pub fn report_value(alloc: Global, report: &Report) -> Result<Value, AllocError>
    ensures { IfOk result (λ v. view v ≡ report_data report.now) }
{
    let mut members = Map::new(alloc);
    put_common_members(&mut members, alloc, report)?;
    if report.quick {
        put(&mut members, alloc, "quick", Value::Bool(true))?;
    }
    if report.symmetry {
        put(&mut members, alloc, "symmetry", Value::Bool(true))?;
    }
    put_verdict_members(&mut members, alloc, report)?;
    Ok(Value::Object(members))
}

// Puts into `members` those that every report has: `bound`, `ends`, `failed`, `stuck` and `tried`.
fn put_common_members(
    members: &mut Map<String, Value>,
    alloc: Global,
    report: &Report,
) -> Result<(), AllocError>
    ensures { OnOk result (members_view members.new.entries
        ≡ with_members (common_members report.now) (members_view members.old.entries)) }
{
    let summary = &report.summary;
    put(members, alloc, "bound", bound_value(report.bound))?;
    put(members, alloc, "ends", ends_value(alloc, summary)?)?;
    put(members, alloc, "failed", Value::from(summary.failed()))?;
    put(members, alloc, "stuck", Value::from(summary.stuck()))?;
    put(members, alloc, "tried", Value::from(summary.tried()))?;
    Ok(())
}

// Puts into `members` the member `verdict`, and those that depend on what the verdict is.
fn put_verdict_members(
    members: &mut Map<String, Value>,
    alloc: Global,
    report: &Report,
) -> Result<(), AllocError>
    ensures { OnOk result (members_view members.new.entries
        ≡ with_members (verdict_members report.now.summary.first_bad report.now.verdict)
        (members_view members.old.entries)) }
{
    match &report.verdict {
        Verdict::Clean { all } => put_clean_members(members, alloc, *all),
        Verdict::Bad {
            preemptions,
            schedule,
            kind,
        } => put_bad_members(members, alloc, *preemptions, schedule.as_slice(), *kind),
        Verdict::Incomplete { cause, finished } => {
            put_incomplete_members(members, alloc, *cause, *finished, &report.summary)
        }
    }
}

// Puts into `members` those of a clean verdict: `verdict` and `all`.
fn put_clean_members(
    members: &mut Map<String, Value>,
    alloc: Global,
    all: bool,
) -> Result<(), AllocError>
    ensures { OnOk result (members_view members.new.entries
        ≡ with_members (clean_members all) (members_view members.old.entries)) }
{
    put(
        members,
        alloc,
        "verdict",
        Value::try_from_str(alloc, "clean")?,
    )?;
    put(members, alloc, "all", Value::Bool(all))?;
    Ok(())
}

// Puts into `members` those of a bad verdict: `verdict`, `kind`, `preemptions` and `schedule`.
fn put_bad_members(
    members: &mut Map<String, Value>,
    alloc: Global,
    preemptions: u32,
    schedule: &[u8],
    kind: Kind,
) -> Result<(), AllocError>
    ensures { OnOk result (members_view members.new.entries ≡ with_members
        (bad_members preemptions schedule.now kind) (members_view members.old.entries)) }
{
    put(
        members,
        alloc,
        "verdict",
        Value::try_from_str(alloc, "bad")?,
    )?;
    put(members, alloc, "kind", kind_value(alloc, kind)?)?;
    put(members, alloc, "preemptions", Value::from(preemptions))?;
    put(members, alloc, "schedule", schedule_value(alloc, schedule)?)?;
    Ok(())
}

// Puts into `members` those of an incomplete verdict: `verdict`, `cause`, `finished`, and as
// `schedule` the first bad one of the summary.
fn put_incomplete_members(
    members: &mut Map<String, Value>,
    alloc: Global,
    cause: Cause,
    finished: Option<u32>,
    summary: &Summary,
) -> Result<(), AllocError>
    ensures { OnOk result (members_view members.new.entries ≡ with_members
        (incomplete_members cause finished summary.now.first_bad)
        (members_view members.old.entries)) }
{
    put(
        members,
        alloc,
        "verdict",
        Value::try_from_str(alloc, "incomplete")?,
    )?;
    put(members, alloc, "cause", cause_value(alloc, cause)?)?;
    put(members, alloc, "finished", bound_value(finished))?;
    put(members, alloc, "schedule", first_bad_value(alloc, summary)?)?;
    Ok(())
}

/// A bound as JSON: a number, or null where there is none.
pub fn bound_value(bound: Option<u32>) -> Value
    ensures { view result ≡ bound_data bound }
{
    match bound {
        Some(bound) => Value::from(bound),
        None => Value::Null,
    }
}

// How a schedule ends, as JSON: the word `done`, `failed` or `stuck`.
fn kind_value(alloc: Global, kind: Kind) -> Result<Value, AllocError>
    ensures { IfOk result (λ v. view v ≡ kind_data kind) }
{
    match kind {
        Kind::Done => Value::try_from_str(alloc, "done"),
        Kind::Failed => Value::try_from_str(alloc, "failed"),
        Kind::Stuck => Value::try_from_str(alloc, "stuck"),
    }
}

/// Why a search was cut short, as JSON: the word `limit` or `stopped`. Fails where memory runs out.
pub fn cause_value(alloc: Global, cause: Cause) -> Result<Value, AllocError>
    ensures { IfOk result (λ v. view v ≡ cause_data cause) }
{
    match cause {
        Cause::Limit => Value::try_from_str(alloc, "limit"),
        Cause::Stopped => Value::try_from_str(alloc, "stopped"),
    }
}

/// A schedule as JSON: a string of its printed spelling. Fails where memory runs out.
#[tactic(auto, using(crate::proofs::PrintedSchedules::spelling_utf8))]
pub fn schedule_value(alloc: Global, schedule: &[u8]) -> Result<Value, AllocError>
    ensures { IfOk result (λ v. view v ≡ schedule_data schedule.now) }
{
    match String::from_utf8(schedule_text(alloc, schedule)?) {
        Ok(text) => Ok(Value::String(text)),
        Err(_) => unreachable!(),
    }
}

/// The first bad schedule of a summary as JSON: a string of its printed spelling, or null where
/// there is none. Fails where memory runs out.
pub fn first_bad_value(alloc: Global, summary: &Summary) -> Result<Value, AllocError>
    ensures { IfOk result (λ v. view v ≡ first_bad_data summary.now.first_bad) }
{
    match summary.first_bad() {
        Some(schedule) => schedule_value(alloc, schedule),
        None => Ok(Value::Null),
    }
}

/// The end views of a summary as JSON: an array of objects, each with `kind` and `vars`. Fails
/// where memory runs out.
pub fn ends_value(alloc: Global, summary: &Summary) -> Result<Value, AllocError>
    ensures { IfOk result (λ v. view v ≡ ends_data summary.now.ends) }
{
    let mut ends = Vec::new(alloc);
    for end in summary.ends() {
        ends.push(end_value(alloc, end)?)?;
    }
    Ok(Value::Array(ends))
}

// An end view as JSON: an object with `kind`, how the schedule ends, and `vars`, the values of the
// variables.
fn end_value(alloc: Global, end: &EndView) -> Result<Value, AllocError>
    ensures { IfOk result (λ v. view v ≡ end_data end.now) }
{
    let mut members = Map::new(alloc);
    put(&mut members, alloc, "kind", kind_value(alloc, end.kind())?)?;
    put(&mut members, alloc, "vars", vars_value(alloc, end.vars())?)?;
    Ok(Value::Object(members))
}

// The values of the variables as JSON: an array of numbers.
fn vars_value(alloc: Global, values: &[i64]) -> Result<Value, AllocError>
    ensures { IfOk result (λ v. view v ≡ values_data values.now) }
{
    let mut items = Vec::new(alloc);
    for value in values {
        items.push(Value::from(*value))?;
    }
    Ok(Value::Array(items))
}
