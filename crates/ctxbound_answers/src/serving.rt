//! Reading of a guest's text or a file, and writing of what is answered to it.

ghost use Rattle.std.specs.Prelude.{◌≡◌, IfSome, IfOk, IfErr, MatchResult};
ghost use Rattle.ctxbound_answers.specs.Status.{fault_status, IsOfDevice};
ghost use Rattle.ctxbound_answers.specs.Serve.{IsPartRead, IsServed, IsWritten};

use crate::answer::{Printed, answer_to};
use crate::exploration::GuestRequest;
use crate::fault::{CommandFault, Fault};
use crate::host::Host;
use guest_syntax::TEXT_BYTES;
use std::alloc::{Alloc, Global};
use std::fs::Files;
use std::io::{Input, Read, Write};
use std::{fs, io};

/// The name of standard output in a fault's line.
pub const STANDARD_OUTPUT: &str = "standard output";

/// How much is read of a guest program: one byte more than a program may have, which is enough to
/// see that a text is too long.
pub const MOST_READ: u64 = TEXT_BYTES as u64 + 1;

// Reads the text of a guest program from `input`, up to `MOST_READ` bytes.
fn read_text<R: Read>(alloc: Global, input: &mut R) -> io::Result<Vec<u8>>
    ensures { IfOk result (λ text. IfSome (R.remaining input.old) (IsPartRead text.items)) }
{
    let mut text = Vec::new(alloc);
    input.take(MOST_READ).read_to_end(&mut text)?;
    Ok(text)
}

/// Writes all of `output` to `out`, and flushes it, so that it is seen at once. Where `output` is
/// empty, `out` isn't touched.
///
/// # Errors
///
/// The error of `out`, where it can't be written.
pub fn write_out<W: Write>(out: &mut W, output: &[u8]) -> io::Result<()>
    ensures { IsWritten result (W.contents out.old) (W.contents out.new) output.now }
{
    if output.is_empty() {
        return Ok(());
    }
    out.write_all(output)?;
    out.flush()
}

/// Does what `request` asks of the guest program whose text `input` gives. What is printed is
/// written to `out`, the line of what is wrong with the request or the text to `err`. Answers the
/// status, also where `err` can't be written.
///
/// # Errors
///
/// `File` where input can't be read or output can't be written, `Memory` where memory runs out.
pub fn serve<H: Host, R: Read, W: Write, E: Write>(
    rt: &H,
    request: &GuestRequest,
    input: &mut R,
    out: &mut W,
    err: &mut E,
) -> Result<u8, Fault>
    ensures served { IfOk result (λ status. IfSome (R.remaining input.old) (λ text.
        IsServed request.now text (W.contents out.old) (W.contents out.new) status)) }
    ensures fault { IfErr result IsOfDevice }
{
    let text = read_text(rt.alloc(), input)?;
    match answer_to(rt, request, text.as_slice()) {
        Ok(printed) => {
            write_out(out, printed.output.as_slice())?;
            Ok(printed.status)
        }
        Err(fault) => Ok(fault.report(err)),
    }
}

/// The status that the program ends with: the one that [`serve`] answered, or that of a fault,
/// whose line is then written to `err`.
pub fn exit_status<E: Write>(served: Result<u8, Fault>, err: &mut E) -> u8
    ensures { MatchResult served (λ status. result ≡ status)
        (λ fault. result ≡ fault_status fault) }
{
    match served {
        Ok(status) => status,
        Err(fault) => fault.report(err),
    }
}

/// Whether the name of a file is `-`, which stands for standard input.
pub fn is_standard_input(file: &str) -> bool {
    file == "-"
}

/// Does what `request` asks of the guest program in a file, or on standard input where `file` is
/// `-`: writes what is printed to `out`, a fault's line to `err`. Answers the status that the
/// program ends with.
pub fn serve_file<H: Host + Files + Input, W: Write, E: Write>(
    rt: &H,
    file: &str,
    request: &GuestRequest,
    out: &mut W,
    err: &mut E,
) -> u8 {
    let served = if is_standard_input(file) {
        serve(rt, request, &mut rt.reader(), out, err)
    } else {
        match fs::open(rt, file) {
            Ok(mut input) => serve(rt, request, &mut input, out, err),
            Err(error) => Err(Fault::from(error)),
        }
    };
    exit_status(served, err)
}

/// The first bytes of a file, or of standard input where `file` is `-`, at most `most` of them:
/// [`MOST_READ`] of a guest program.
///
/// # Errors
///
/// The error of the file or of standard input, where it can't be read.
pub fn read_file<H>(rt: &H, file: &str, most: u64) -> io::Result<Vec<u8>>
where
    H: Files + Input + Alloc<A = Global>,
{
    let mut bytes = Vec::new(rt.alloc());
    if is_standard_input(file) {
        rt.reader().take(most).read_to_end(&mut bytes)?;
    } else {
        fs::open(rt, file)?.take(most).read_to_end(&mut bytes)?;
    }
    Ok(bytes)
}

/// Writes to `out` what a command prints, or, where it prints nothing or `out` can't be written, to
/// `err` the line that says why. Answers the status that the program ends with.
pub fn write_printed<W: Write, E: Write>(
    printed: Result<Printed, CommandFault<'_>>,
    out: &mut W,
    err: &mut E,
) -> u8 {
    match printed {
        Ok(printed) => match write_out(out, printed.output.as_slice()) {
            Ok(()) => printed.status,
            Err(error) => CommandFault::Device(STANDARD_OUTPUT, error).report(err),
        },
        Err(fault) => fault.report(err),
    }
}
