//! What a check tells, for editors: a line or a JSON object for each refusal, warning and remark.

use check_advice::{Checked, Diagnostic, Span};
use explain_lines::Marks;
use serde_json::{Map, Value, json, put};
use std::alloc::{AllocError, Global};
use std::fmt::Write;

/// A line for each refusal, warning and remark on a text that was read from this file: a JSON
/// object if `is_json`, else `FILE:LINE:COLUMN: warning W5 NeverLoaded: MESSAGE`, where a refusal
/// is an `error`, and what has no place is at line 1, column 1. Where a preprocessor's mark comes
/// before the place, file and line are those that the mark says, and the latter has no column. Fails where memory runs out.
pub fn diagnostics_text(
    alloc: Global,
    text: &[u8],
    file: &str,
    checked: &Checked,
    is_json: bool,
) -> Result<Vec<u8>, AllocError> {
    let marks = Marks::new(alloc, text)?;
    let mut lines = String::new(alloc);
    let all = match checked {
        Checked::Sound(all) => all.as_slice(),
        Checked::Refused(diagnostic) => std::slice::from_ref(diagnostic),
    };
    for diagnostic in all {
        let line = if is_json {
            Value::Object(diagnostic_members(alloc, &marks, file, diagnostic)?).to_string(alloc)?
        } else {
            short_line(alloc, &marks, file, diagnostic)?
        };
        writeln!(lines, "{line}")?;
    }
    Ok(lines.into_bytes())
}

// The line `FILE:LINE:COLUMN: warning W5 NeverLoaded: MESSAGE` of a diagnostic; a diagnostic that
// has no place is at line 1, column 1. Where a preprocessor's mark comes before the place, file and
// line are those that the mark says, without a column: it would be one of another text.
fn short_line(
    alloc: Global,
    marks: &Marks,
    file: &str,
    diagnostic: &Diagnostic,
) -> Result<String, AllocError> {
    let (line, column) = match diagnostic.span {
        Some(span) => (span.at.line, span.at.col),
        None => (1, 1),
    };
    let place = marks.file_line(file, line).with_name();
    let column = match marks.origin(line) {
        Some(_) => String::new(alloc),
        None => format!(in alloc; ":{column}")?,
    };
    let severity = diagnostic.severity;
    let (number, name) = diagnostic.code();
    let message = ascii_text(alloc, diagnostic.message.as_slice())?;
    format!(in alloc; "{place}{column}: {severity} {number} {name}: {message}")
}

// The members of the JSON object of a diagnostic on the file of this name: those of its message,
// and `code`, `notes`, objects with the members of messages too, and `severity`. `marks` are the
// preprocessor's marks in the text.
fn diagnostic_members(
    alloc: Global,
    marks: &Marks,
    file: &str,
    diagnostic: &Diagnostic,
) -> Result<Map<String, Value>, AllocError> {
    let mut notes = Vec::new(alloc);
    for note in &diagnostic.notes {
        let members = message_members(alloc, marks, None, note.span, note.text.as_slice())?;
        notes.push(Value::Object(members))?;
    }
    let file = Some(file.as_bytes());
    let (span, said) = (diagnostic.span, diagnostic.message.as_slice());
    let mut members = message_members(alloc, marks, file, span, said)?;
    let (number, name) = diagnostic.code();
    let code = format!(in alloc; "{number} {name}")?;
    let severity = diagnostic.severity.to_string(alloc)?;
    put(&mut members, alloc, "code", Value::String(code))?;
    put(&mut members, alloc, "notes", Value::Array(notes))?;
    put(&mut members, alloc, "severity", Value::String(severity))?;
    Ok(members)
}

// The members of a message at a span: the text `said`, the line and the column where the span
// begins, and as `end` the place after its last byte; these places are null without a span. Lines
// and the member `file` are what a preprocessor's mark before the span says, else those in the text
// and `file`; without either name `file` is left out.
fn message_members(
    alloc: Global,
    marks: &Marks,
    file: Option<&[u8]>,
    span: Option<Span>,
    said: &[u8],
) -> Result<Map<String, Value>, AllocError> {
    let (line, column, end) = match span {
        Some(span) => {
            let line = marks.file_line("", span.at.line).line;
            let column = u64::from(span.at.col);
            let past = column.saturating_add(span.length as u64);
            let end = json!(in alloc; {"column": past, "line": line})?;
            (Value::from(line), Value::from(column), end)
        }
        None => (Value::Null, Value::Null, Value::Null),
    };
    let origin = span.and_then(|span| marks.origin(span.at.line));
    let message = Value::String(ascii_text(alloc, said)?);
    let mut members = Map::new(alloc);
    put(&mut members, alloc, "column", column)?;
    put(&mut members, alloc, "end", end)?;
    if let Some(file) = origin.map_or(file, |origin| Some(origin.file())) {
        let file = Value::String(ascii_text(alloc, file)?);
        put(&mut members, alloc, "file", file)?;
    }
    put(&mut members, alloc, "line", line)?;
    put(&mut members, alloc, "message", message)?;
    Ok(members)
}

// Bytes as text, with a question mark for each byte that isn't printable ASCII.
fn ascii_text(alloc: Global, bytes: &[u8]) -> Result<String, AllocError> {
    let shown = bytes.iter().map(|byte| match byte {
        b' '..=b'~' => *byte as char,
        _ => '?',
    });
    shown.collect(alloc)
}
