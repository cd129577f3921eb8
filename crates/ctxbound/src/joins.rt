//! The command `join`.

ghost use Rattle.std.specs.Prelude.{◌≡◌, IfOk, IfErr};
ghost use Rattle.std.specs.Arc.{arc_value};
ghost use Rattle.runner_joining.specs.Parts.{JoinErrorMeans};
ghost use Rattle.ctxbound.specs.Joins.{IsJoined, error_status};

use ctxbound_answers::{CommandFault, Fault, JoinRequest, Printed, REFUSED, read_file};
use guest_code::program::Program;
use replay::schedule_text;
use runner::program_of;
use runner_joining::{JoinError, join};
use runner_parts::{Part, PartError, first_of_another, parts_from};
use runner_report::Search;
use std::alloc::{Alloc, Global};
use std::fs::Files;
use std::io::Input;
use std::sync::Arc;

/// Reads the parts in the files of a request, joins them to the report on the guest program that
/// `text` spells, and answers what is printed of the report.
///
/// # Errors
///
/// What is wrong first: with the text, with the program that it spells, with a file of parts, or
/// with the parts, as where one is missing. No report is printed then.
pub fn join_files<'a, H: Files + Input + Alloc<A = Global>>(
    rt: &H,
    text: &[u8],
    request: &'a JoinRequest,
) -> Result<Printed, CommandFault<'a>> {
    let alloc = rt.alloc();
    let program = program_of(alloc, text)?;
    let mut parts = Vec::new(alloc);
    for file in &request.parts {
        push_parts(rt, &mut parts, text, file.as_str())?;
    }
    match printed_report(alloc, &program, request.search, parts.as_slice()) {
        Ok(printed) => Ok(printed),
        Err(JoinError::OutOfMemory) => Err(Fault::Memory.into()),
        Err(error) => {
            let text = error.text(alloc)?;
            let text = String::from_utf8_lossy(alloc, text.as_slice())?;
            let line = format!(in alloc; "ctxbound: parts: {text}\n")?;
            Err(CommandFault::Line(line.into_bytes(), error_status(&error)))
        }
    }
}

// Reads the parts in a file and pushes them to `parts`. An error where the file can't be read, a
// line spells no part, a part is of another guest than that with this text, or memory runs out;
// then none is pushed.
fn push_parts<'a, H: Files + Input + Alloc<A = Global>>(
    rt: &H,
    parts: &mut Vec<Part>,
    text: &[u8],
    file: &'a str,
) -> Result<(), CommandFault<'a>> {
    let alloc = rt.alloc();
    let lines = read_file(rt, file, u64::MAX).map_err(|error| CommandFault::Device(file, error))?;
    let line = match parts_from(alloc, lines.as_slice()) {
        Ok(found) => match first_of_another(found.as_slice(), text) {
            None => return Ok(parts.extend(found)?),
            Some(other) => {
                let under = schedule_text(alloc, other.under.as_slice())?;
                let under = String::from_utf8_lossy(alloc, under.as_slice())?;
                format!(in alloc; "ctxbound: {file}: another guest under {under}\n")?
            }
        },
        Err(fault) if fault.error == PartError::OutOfMemory => return Err(Fault::Memory.into()),
        Err(fault) => format!(in alloc; "ctxbound: {file}:{fault}\n")?,
    };
    Err(CommandFault::Line(line.into_bytes(), REFUSED))
}

// The status where parts don't join to a report: 3 where more parts would help, else 2.
fn error_status(error: &JoinError) -> u8
    ensures { result ≡ error_status error.now }
{
    if error.needs_more_parts() { 3 } else { REFUSED }
}

// The report, as it is printed, that parts of a search of a program join to, and the status of its
// verdict; or why they don't join to one.
fn printed_report(
    alloc: Global,
    program: &Arc<Program>,
    search: Search,
    parts: &[Part],
) -> Result<Printed, JoinError>
    ensures printed { IfOk result (IsJoined (arc_value program.now) search parts.now) }
    ensures error { IfErr result (JoinErrorMeans (arc_value program.now) search parts.now) }
{
    let report = join(alloc, program, search, parts)?;
    Ok(Printed::of_report(alloc, &report)?)
}
