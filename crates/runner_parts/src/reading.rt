//! Reading of a part from its line of JSON.

ghost use Rattle.std.specs.Prelude.{◌≡◌, ◌≤◌, ◌<◌, ◌^◌, ℕ, ℤ, FitsSigned, Bool, List, Option, All, Some, MatchResult, IfSome, IfOk, IfErr, OnOk, IsUtf8, option_map};
ghost use Rattle.std.specs.Int.{w64};
ghost use Rattle.semantics.specs.{View.View, declared.view.Kind.Kind};
ghost use Rattle.runner_report.specs.ReportText.{kind_data, cause_data, count_data, bound_data, values_data, end_data, ends_data, schedule_data, first_bad_data};
ghost use Rattle.runner_report.specs.declared.{level.Level.Level, report.Cause.Cause};
ghost use Rattle.walk_summary.specs.Summaries.{schedule_view};
ghost use Rattle.serde_json.specs.{Data.{Data, boolean, depth}, Find.get, Read.{read, max_depth}};
ghost use Rattle.serde_json.specs.View.{view};
ghost use Rattle.runner_parts.specs.PartText.{PartView, IsPart, IsLevel, IsGuest, IsSchedule, IsLineOf, guest_data, part_data, part_view};
ghost use Rattle.runner_parts.specs.declared.error.PartError.TheVariants.{OutOfMemory};
ghost use Rattle.runner_parts.specs.{declared.guest.GuestDigest.GuestDigest, inner.Keys.HasLevel};

use crate::error::PartError;
use crate::guest::GuestDigest;
use crate::part::{Part, VERSION};
use crate::printing::part_line;
use hex::FromHex;
use replay::laws::{a_refused_text_spells_nothing_short, the_printed_spelling_is_read_back};
use replay::{ScheduleError, schedule_from};
use runner_report::{Cause, Level};
use semantics::view::{EndView, Kind};
use serde_json::Value;
use std::alloc::Global;
use walk_summary::{Counts, Summary};

/// The part that a line spells: the line is JSON of the same value as what [`part_line`] prints of
/// the part. Blanks, escapes in strings and the order of keys make no difference.
///
/// # Errors
///
/// Why the line is that of no part; `OutOfMemory` where memory runs out.
pub fn part_from(alloc: Global, line: &[u8]) -> Result<Part, PartError>
    ensures is_line { IfOk result (λ x. IsLineOf line.now (part_view x)) }
    ensures reads { (x : PartView) → IsPart x → IsLineOf line.now x →
        MatchResult result (λ y. part_view y ≡ x) (λ e. e ≡ OutOfMemory) }
{
    let value = parse_json(alloc, line)?;
    check_version(field(&value, "version")?)?;
    let part = Part {
        under: schedule_of(alloc, field(&value, "under")?, "under")?,
        level: level_of(alloc, &value)?,
        guest: guest_of(field(&value, "guest")?)?,
    };
    check_printed(alloc, &value, &part)?;
    Ok(part)
}

// The JSON value that a line spells; `NotJson` where it spells none, `OutOfMemory` where memory
// runs out.
fn parse_json(alloc: Global, line: &[u8]) -> Result<Value, PartError>
    ensures value { IfOk result (λ v. IsUtf8 line.now × (read line.now ≡ Some (view v))) }
    ensures nests { IfOk result (λ v. depth (view v) ≤ max_depth) }
    ensures refused { (d : Data) → IsUtf8 line.now → read line.now ≡ Some d →
        IfErr result (λ e. e ≡ OutOfMemory) }
{
    match Value::from_slice(alloc, line) {
        Ok(value) => Ok(value),
        Err(error) => Err(if error.is_memory() {
            PartError::OutOfMemory
        } else {
            PartError::NotJson
        }),
    }
}

// The value of a key of `object`; `Missing` where it has no such key or is no JSON object.
fn field<'v>(object: &'v Value, key: &'static str) -> Result<&'v Value, PartError>
    ensures { (d : Data) → get key.now (view object.now) ≡ Some d →
        MatchResult result (λ v. view v.now ≡ d) (λ _. ⊥) }
{
    match object.get(key) {
        Some(value) => Ok(value),
        None => Err(PartError::Missing(key)),
    }
}

// Checks the value of the key `version`; `OtherVersion` where it is another count than `VERSION`.
fn check_version(value: &Value) -> Result<(), PartError>
    ensures { view value.now ≡ count_data VERSION → MatchResult result (λ _. Unit {0}) (λ _. ⊥) }
{
    let version = count_of(value, "version")?;
    if version == VERSION {
        Ok(())
    } else {
        Err(PartError::OtherVersion(version))
    }
}

// The level that the JSON object of a part has: the bound, what was found at it, and why the search
// was cut short there, if it was. An error where a key is missing, a value is wrong, or the values
// don't fit together.
fn level_of(alloc: Global, object: &Value) -> Result<Level, PartError>
    ensures { (l : Level) → IsLevel l → HasLevel l (view object.now) →
        MatchResult result (λ found. found ≡ l) (λ e. e ≡ OutOfMemory) }
{
    Ok(Level {
        bound: bound_of(field(object, "bound")?)?,
        summary: summary_of(alloc, object)?,
        cause: cause_of(object.get("cause"))?,
    })
}

// The summary that the JSON object of a part has. An error where a key is missing or its value is
// wrong, `Inconsistent` where counts, end views and first bad schedule don't fit together.
fn summary_of(alloc: Global, object: &Value) -> Result<Summary, PartError>
    ensures { (l : Level) → IsLevel l → HasLevel l (view object.now) →
        MatchResult result (λ s. s ≡ l.summary) (λ e. e ≡ OutOfMemory) }
{
    let counts = Counts {
        tried: count_of(field(object, "tried")?, "tried")?,
        failed: count_of(field(object, "failed")?, "failed")?,
        stuck: count_of(field(object, "stuck")?, "stuck")?,
    };
    let beyond = bool_of(field(object, "beyond")?, "beyond")?;
    let first_bad = first_bad_of(alloc, field(object, "schedule")?)?;
    let ends = ends_of(alloc, field(object, "ends")?)?;
    match Summary::from_parts(counts, beyond, first_bad, ends) {
        Some(summary) => Ok(summary),
        None => Err(PartError::Inconsistent),
    }
}

// The value of this key as a count; `Wrong` where it is no number from 0 that 64 bits hold.
fn count_of(value: &Value, key: &'static str) -> Result<u64, PartError>
    ensures { (n : ℕ) → view value.now ≡ count_data n →
        MatchResult result (λ m. m ≡ n) (λ _. ⊥) }
{
    match value.as_u64() {
        Some(count) => Ok(count),
        None => Err(PartError::Wrong {
            key,
            wanted: "a count",
        }),
    }
}

// The value of this key as a `bool`; `Wrong` where it is neither true nor false.
fn bool_of(value: &Value, key: &'static str) -> Result<bool, PartError>
    ensures { (b : Bool) → view value.now ≡ boolean b →
        MatchResult result (λ c. c ≡ b) (λ _. ⊥) }
{
    match value.as_bool() {
        Some(truth) => Ok(truth),
        None => Err(PartError::Wrong {
            key,
            wanted: "true or false",
        }),
    }
}

// The value of the key `bound` as a bound, `None` where it is null; `Wrong` where it is neither
// null nor a number from 0 that 32 bits hold.
fn bound_of(value: &Value) -> Result<Option<u32>, PartError>
    ensures { (b : Option ℕ) → IfSome b (λ n. n < 2 ^ 32) → view value.now ≡ bound_data b →
        MatchResult result (λ c. c ≡ b) (λ _. ⊥) }
{
    if value.is_null() {
        return Ok(None);
    }
    match u32::try_from(count_of(value, "bound")?) {
        Ok(bound) => Ok(Some(bound)),
        Err(_) => Err(PartError::Wrong {
            key: "bound",
            wanted: "a bound",
        }),
    }
}

// The value of the key `cause`, as why a search was cut short; `None` where the key is missing,
// `Wrong` where the value is neither the word `limit` nor the word `stopped`.
fn cause_of(value: Option<&Value>) -> Result<Option<Cause>, PartError>
    ensures { (cause : Option Cause) →
        option_map (λ v. view v.now) value.entry ≡ option_map cause_data cause →
        MatchResult result (λ found. found ≡ cause) (λ _. ⊥) }
{
    let Some(value) = value else {
        return Ok(None);
    };
    match value.as_str() {
        Some("limit") => Ok(Some(Cause::Limit)),
        Some("stopped") => Ok(Some(Cause::Stopped)),
        _ => Err(PartError::Wrong {
            key: "cause",
            wanted: "limit or stopped",
        }),
    }
}

// The value of the key `schedule` as the first bad schedule, `None` where it is null; `Wrong` where
// it is neither null nor a schedule.
fn first_bad_of(alloc: Global, value: &Value) -> Result<Option<Vec<u8>>, PartError>
    ensures { (w : Option (List ℕ)) → IfSome w IsSchedule → view value.now ≡ first_bad_data w →
        MatchResult result (λ v. schedule_view v ≡ w) (λ e. e ≡ OutOfMemory) }
{
    if value.is_null() {
        return Ok(None);
    }
    Ok(Some(schedule_of(alloc, value, "schedule")?))
}

// The schedule that the value of this key spells, in any spelling; `Wrong` where it spells none, or
// one that is too long.
fn schedule_of(alloc: Global, value: &Value, key: &'static str) -> Result<Vec<u8>, PartError>
    ensures { (w : List ℕ) → IsSchedule w → view value.now ≡ schedule_data w →
        MatchResult result (λ v. v.items ≡ w) (λ e. e ≡ OutOfMemory) }
{
    let wrong = PartError::Wrong {
        key,
        wanted: "a schedule",
    };
    let Some(text) = value.as_str() else {
        return Err(wrong);
    };
    the_printed_spelling_is_read_back();
    a_refused_text_spells_nothing_short();
    match schedule_from(alloc, text.as_bytes()) {
        Ok(schedule) => Ok(schedule),
        Err(error) => Err(match error {
            ScheduleError::BadSchedule(_) | ScheduleError::TooLong(_) => wrong,
            ScheduleError::OutOfMemory => PartError::OutOfMemory,
        }),
    }
}

// The value of the key `ends` as a list of end views; `Wrong` where it is no list, and an error
// where an element is no end view.
fn ends_of(alloc: Global, value: &Value) -> Result<Vec<EndView>, PartError>
    ensures { (views : List View) → All (λ v. All (FitsSigned w64) v.vars) views →
        view value.now ≡ ends_data views →
        MatchResult result (λ ends. ends.items ≡ views) (λ e. e ≡ OutOfMemory) }
{
    let Some(values) = value.as_array() else {
        return Err(PartError::Wrong {
            key: "ends",
            wanted: "a list",
        });
    };
    let mut ends = Vec::new(alloc);
    for value in values {
        ends.push(end_of(alloc, value)?)?;
    }
    Ok(ends)
}

// An element of the list of ends as an end view: its `kind` and its `vars`. An error where either
// is missing or wrong.
fn end_of(alloc: Global, value: &Value) -> Result<EndView, PartError>
    ensures { (v : View) → All (FitsSigned w64) v.vars → view value.now ≡ end_data v →
        MatchResult result (λ end. end ≡ v) (λ e. e ≡ OutOfMemory) }
{
    let kind = kind_of(field(value, "kind")?)?;
    let vars = values_of(alloc, field(value, "vars")?)?;
    Ok(EndView::new(kind, vars))
}

// The value of the key `kind` of an end view, as how a schedule ends; `Wrong` where it is none of
// the words `done`, `failed` and `stuck`.
fn kind_of(value: &Value) -> Result<Kind, PartError>
    ensures { (kind : Kind) → view value.now ≡ kind_data kind →
        MatchResult result (λ found. found ≡ kind) (λ _. ⊥) }
{
    match value.as_str() {
        Some("done") => Ok(Kind::Done),
        Some("failed") => Ok(Kind::Failed),
        Some("stuck") => Ok(Kind::Stuck),
        _ => Err(PartError::Wrong {
            key: "kind",
            wanted: "done, failed or stuck",
        }),
    }
}

// The value of the key `vars` of an end view, as the values of the variables; `Wrong` where it is
// no list of numbers that signed 64 bits hold.
fn values_of(alloc: Global, value: &Value) -> Result<Vec<i64>, PartError>
    ensures { (zs : List ℤ) → All (FitsSigned w64) zs → view value.now ≡ values_data zs →
        MatchResult result (λ values. values.items ≡ zs) (λ e. e ≡ OutOfMemory) }
{
    let wrong = PartError::Wrong {
        key: "vars",
        wanted: "a list of values",
    };
    let Some(items) = value.as_array() else {
        return Err(wrong);
    };
    let mut values = Vec::new(alloc);
    for item in items {
        let Some(number) = item.as_i64() else {
            return Err(wrong);
        };
        values.push(number)?;
    }
    Ok(values)
}

// The value of the key `guest` as the length and the digest of a guest's text; an error where a key
// is missing or its value is wrong.
fn guest_of(value: &Value) -> Result<GuestDigest, PartError>
    ensures { (g : GuestDigest) → IsGuest g → view value.now ≡ guest_data g →
        MatchResult result (λ found. found ≡ g) (λ _. ⊥) }
{
    let bytes = count_of(field(value, "bytes")?, "bytes")?;
    let digits = field(value, "sha256")?.as_str().unwrap_or("");
    match <[u8; 32] as FromHex>::from_hex(digits) {
        Ok(sha256) => Ok(GuestDigest { bytes, sha256 }),
        Err(_) => Err(PartError::Wrong {
            key: "sha256",
            wanted: "64 hex digits",
        }),
    }
}

// Checks that a part that was read from this JSON value is printed as the same value again;
// `NotPrinted` where it isn't: the value has a key more, or spells a schedule or the digest in
// another way.
fn check_printed(alloc: Global, value: &Value, part: &Part) -> Result<(), PartError>
    requires { depth (view value.now) ≤ max_depth }
    ensures same { OnOk result (view value.now ≡ part_data (part_view part.now)) }
    ensures refused { view value.now ≡ part_data (part_view part.now) →
        IfErr result (λ e. e ≡ OutOfMemory) }
{
    let found = value.to_vec(alloc)?;
    let printed = part_line(alloc, part)?;
    if found.as_slice() == printed.as_slice() {
        Ok(())
    } else {
        Err(PartError::NotPrinted)
    }
}
