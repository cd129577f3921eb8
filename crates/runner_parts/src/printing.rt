//! Printing of a part as a line of JSON.

ghost use Rattle.std.specs.Prelude.{◌≡◌, IfOk};
ghost use Rattle.serde_json.specs.View.{view};
ghost use Rattle.runner_parts.specs.PartText.{IsLineOf, guest_data, part_data, part_text, part_view};

use crate::guest::GuestDigest;
use crate::part::{Part, VERSION};
use runner_report::{bound_value, cause_value, ends_value, first_bad_value, schedule_value};
use serde_json::{Map, Value, put};
use std::alloc::{AllocError, Global};

/// The line of a part: compact JSON of one object, its keys in the order of their bytes, with no
/// line feed. Schedules are in their printed spelling, and the digest is in lower case. Fails where
/// memory runs out.
pub fn part_line(alloc: Global, part: &Part) -> Result<Vec<u8>, AllocError>
    ensures text { IfOk result (λ line. line.items ≡ part_text (part_view part.now)) }
    ensures reads { IfOk result (λ line. IsLineOf line.items (part_view part.now)) }
{
    part_value(alloc, part)?.to_vec(alloc)
}

// The JSON object of a part, its keys in the order of their bytes; it has the key `cause` only if
// the search was cut short.
fn part_value(alloc: Global, part: &Part) -> Result<Value, AllocError>
    ensures { IfOk result (λ v. view v ≡ part_data (part_view part.now)) }
{
    let level = &part.level;
    let summary = &level.summary;
    let mut members = Map::new(alloc);
    put(&mut members, alloc, "beyond", Value::Bool(summary.beyond()))?;
    put(&mut members, alloc, "bound", bound_value(level.bound))?;
    if let Some(cause) = level.cause {
        put(&mut members, alloc, "cause", cause_value(alloc, cause)?)?;
    }
    put(&mut members, alloc, "ends", ends_value(alloc, summary)?)?;
    put(&mut members, alloc, "failed", Value::from(summary.failed()))?;
    put(
        &mut members,
        alloc,
        "guest",
        guest_value(alloc, part.guest)?,
    )?;
    put(
        &mut members,
        alloc,
        "schedule",
        first_bad_value(alloc, summary)?,
    )?;
    put(&mut members, alloc, "stuck", Value::from(summary.stuck()))?;
    put(&mut members, alloc, "tried", Value::from(summary.tried()))?;
    put(
        &mut members,
        alloc,
        "under",
        schedule_value(alloc, part.under.as_slice())?,
    )?;
    put(&mut members, alloc, "version", Value::from(VERSION))?;
    Ok(Value::Object(members))
}

// The JSON object of a guest: `bytes`, the length of its text, and `sha256`, the digest in hex.
fn guest_value(alloc: Global, guest: GuestDigest) -> Result<Value, AllocError>
    ensures { IfOk result (λ v. view v ≡ guest_data guest) }
{
    let mut members = Map::new(alloc);
    put(&mut members, alloc, "bytes", Value::from(guest.bytes))?;
    let digest = hex::encode(alloc, guest.sha256)?;
    put(&mut members, alloc, "sha256", Value::String(digest))?;
    Ok(Value::Object(members))
}
