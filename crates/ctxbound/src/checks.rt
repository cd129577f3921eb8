//! The command `check`.

use crate::diagnostics::diagnostics_text;
use crate::files::{GuestFile, guest_files};
use check_advice::{Checked, advice_text, check};
use ctxbound_answers::{
    CheckForm, CheckRequest, CommandFault, Fault, MOST_READ, Printed, REFUSED, read_file,
    write_printed,
};
use std::alloc::{Alloc, Global};
use std::fs;
use std::fs::Files;
use std::io::{Input, Write};

/// Checks each file that a request names, and the guest programs in each folder, and tells what is
/// wrong or odd: lines for people on `err`, other forms on `out`. Faults go to `err`, as where a
/// file can't be read. Answers the greatest of the files' statuses.
pub fn serve_check<H: Files + Input + Alloc<A = Global> + Clone + Drop, W: Write, E: Write>(
    rt: &H,
    request: &CheckRequest,
    out: &mut W,
    err: &mut E,
) -> u8 {
    let mut worst = 0;
    for name in &request.files {
        let files = match guest_files(rt, name.as_str()) {
            Ok(files) => files,
            Err(error) => {
                worst = worst.max(Fault::from(error).report(err));
                continue;
            }
        };
        let several = request.files.len() > 1 || files.len() > 1;
        for file in &files {
            let status = match (request.form, check_file(rt, file, request)) {
                (CheckForm::Lines, Ok(printed)) => write_lines(err, file, several, &printed),
                (_, printed) => write_printed(printed, out, err),
            };
            worst = worst.max(status);
        }
    }
    worst
}

// What a check prints of the text of a file; or that the file can't be read or memory runs out. The
// status is 2 where the text is refused, 1 where it has a warning and the check is strict, else 0.
fn check_file<'a, H: Files + Input + Alloc<A = Global>>(
    rt: &H,
    file: &'a GuestFile,
    request: &CheckRequest,
) -> Result<Printed, CommandFault<'a>> {
    let (alloc, name) = (rt.alloc(), file.name.as_str());
    let text = file
        .read(rt)
        .map_err(|error| CommandFault::Device(name, error))?;
    let text = text.as_slice();
    let checked = check(alloc, text, request.depth)?;
    let status = match &checked {
        Checked::Refused(_) => REFUSED,
        Checked::Sound(_) if request.strict && checked.is_warned() => 1,
        Checked::Sound(_) => 0,
    };
    let output = match request.form {
        CheckForm::Lines => advice_text(alloc, text, &checked),
        CheckForm::Short => diagnostics_text(alloc, text, name, &checked, false),
        CheckForm::Json => diagnostics_text(alloc, text, name, &checked, true),
    }?;
    Ok(Printed { output, status })
}

// Writes the lines for people on a file that was checked to `err`, and answers its status. If
// `several` files are checked, the name of the file stands above its lines, where it has any.
fn write_lines<E: Write>(err: &mut E, file: &GuestFile, several: bool, printed: &Printed) -> u8 {
    let lines = printed.output.as_slice();
    // a failing stream changes no status
    if several && !lines.is_empty() {
        let _ = writeln!(err, "{}:", file.name);
    }
    let _ = err.write_all(lines);
    printed.status
}

/// Whether `file` is the name of a plain file whose text is refused; false where it can't be read,
/// or memory runs out. Standard input and pipes aren't read: they may have been read before, and
/// can't be read twice.
pub fn is_refused<H: Files + Input + Alloc<A = Global>>(rt: &H, file: &str) -> bool {
    if !fs::metadata(rt, file).is_ok_and(|metadata| metadata.is_file()) {
        return false;
    }
    let text = read_file(rt, file, MOST_READ);
    let checked = text.map(|text| check(rt.alloc(), text.as_slice(), None));
    matches!(checked, Ok(Ok(Checked::Refused(_))))
}
