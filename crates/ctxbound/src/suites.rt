//! The command `suite`.

use crate::files::{GuestFile, guest_files};
use ctxbound_answers::{CommandFault, Host, STANDARD_OUTPUT, SuiteRequest, write_out};
use ctxbound_suite::{Entry, Outcome, Table, Tally, json_line};
use explain_lines::Marks;
use runner::ExploreError;
use std::fs::Files;
use std::io;
use std::io::{ErrorKind, Input, Write};

/// Searches each file of a suite, and writes what became of it to `out` as soon as that is known.
/// Answers the greatest of the files' statuses; where `out` can't be written or memory runs out,
/// the status of that fault, whose line goes to `err`.
pub fn serve_suite<H: Host + Files + Input + Clone + Drop, W: Write, E: Write>(
    rt: &H,
    request: &SuiteRequest,
    out: &mut W,
    err: &mut E,
) -> u8 {
    match run_suite(rt, request, out, err) {
        Ok(tally) => tally.worst(),
        Err(error) => CommandFault::Device(STANDARD_OUTPUT, error).report(err),
    }
}

// Searches the files of a suite one after the other, and writes what becomes of each to `out`, as
// JSON or as a row of a table, which ends with the tally of their statuses. Answers the tally. An
// error where `out` can't be written, or memory runs out.
fn run_suite<H: Host + Files + Input + Clone + Drop, W: Write, E: Write>(
    rt: &H,
    request: &SuiteRequest,
    out: &mut W,
    err: &mut E,
) -> io::Result<Tally> {
    let alloc = rt.alloc();
    let mut table = Table::new(alloc);
    let mut files = Vec::new(alloc);
    for name in &request.files {
        for file in guest_files(rt, name.as_str())? {
            table.make_room(file.name.as_str())?;
            files.push(file)?;
        }
    }
    if !request.json {
        write_out(out, table.head()?.as_slice())?;
    }
    let mut tally = Tally::new(alloc);
    for file in &files {
        let (status, line) = tell_file(rt, file, request, &table, err)?;
        tally.push(status)?;
        write_out(out, line.as_slice())?;
    }
    if !request.json {
        writeln!(out, "{tally}")?;
        out.flush()?;
    }
    Ok(tally)
}

// Reads and searches a file of a suite: its status, and what is printed of it, as JSON or as a row of
// the table. An error only where memory runs out.
fn tell_file<H: Host + Files + Input, E: Write>(
    rt: &H,
    guest: &GuestFile,
    request: &SuiteRequest,
    table: &Table,
    err: &mut E,
) -> io::Result<(u8, Vec<u8>)> {
    let (entry, marks) = search_file(rt, guest, request, err)?;
    let line = if request.json {
        json_line(rt.alloc(), &entry, &marks)?
    } else {
        table.row(&entry, &marks)?
    };
    Ok((entry.status(), line))
}

// Reads and searches a file of a suite: its entry, and the preprocessor's marks in its text, which
// say where its lines come from. If progress is asked for, the file's name is written to `err`
// before the search. A file that can't be read has an entry that says why, and no marks. An error
// only where memory runs out.
fn search_file<H: Host + Files + Input, E: Write>(
    rt: &H,
    guest: &GuestFile,
    request: &SuiteRequest,
    err: &mut E,
) -> io::Result<(Entry, Marks)> {
    let alloc = rt.alloc();
    let file = String::from_str(alloc, guest.name.as_str())?;
    let outcome = match guest.read(rt) {
        Ok(text) => {
            if request.limits.progress {
                let _ = writeln!(err, "{file}:");
            }
            let marks = Marks::new(alloc, text.as_slice())?;
            let entry = Entry::of_text(rt, file, text.as_slice(), request.limits);
            return Ok((entry, marks));
        }
        Err(error) if error.kind() == ErrorKind::OutOfMemory => {
            Outcome::Refused(ExploreError::OutOfMemory)
        }
        Err(error) => Outcome::Unread(format!(in alloc; "{error}")?),
    };
    Ok((Entry::unsearched(file, outcome), Marks::new(alloc, b"")?))
}
