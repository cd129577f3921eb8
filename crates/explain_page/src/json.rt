//! The explanation as JSON.

use crate::facts::Facts;
use explain_told::Told;
use serde_json::{Value, json};
use std::alloc::{AllocError, Global};

/// The explanation as compact JSON of one object, its keys in the order of their bytes, with a line
/// feed. `docs/FORMATS.md` says what each key has. `search` is the report of the search that found
/// the schedule, if one did. Fails where memory runs out.
pub fn explanation_json(told: &Told<'_>, search: Option<Value>) -> Result<Vec<u8>, AllocError> {
    let mut data = facts_json(&Facts::new(&*told, search, None)?)?;
    data.push(b'\n')?;
    Ok(data)
}

/// What is told as JSON where a search found no bad schedule: an object with the file, `null` as
/// the schedule, and the report of the search; and a line feed. Fails where memory runs out.
pub fn no_schedule_json(alloc: Global, file: &str, search: Value) -> Result<Vec<u8>, AllocError> {
    let told = json!(in alloc; {"file": file, "schedule": null, "search": search})?;
    let mut data = told.to_vec(alloc)?;
    data.push(b'\n')?;
    Ok(data)
}

/// These facts as JSON. The serializer fails only where memory runs out, so its error becomes
/// `AllocError`.
pub fn facts_json(facts: &Facts<'_>) -> Result<Vec<u8>, AllocError> {
    serde_json::to_vec(facts.told.alloc, facts).map_err(|_| AllocError)
}
