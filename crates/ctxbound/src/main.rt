//! The program `ctxbound`: what the command words ask for, done on a guest program.
//!
//! The crate `ctxbound_words` reads the words, `commands` does what they ask for, and `main` joins
//! both to the system. What is answered to a replay, a search or the question why is in the crate
//! `ctxbound_answers`; `forms` has the formats of explanations beside text.
//! The other commands are in `checks`, `suites`, `verified`, `prefixes` and `joins`; `under` has
//! searches under a prefix.
#![tactic(auto)]

mod checks;
mod commands;
mod diagnostics;
mod files;
mod forms;
mod joins;
mod prefixes;
mod suites;
mod under;
mod verified;

use crate::checks::is_refused;
use crate::commands::serve_request;
use ctxbound_answers::REFUSED;
use ctxbound_words::read_request;
use std::io::{IsTerminal, Write};
use std::process::ExitCode;

// Does what the command line asks for, or tells why it asks for nothing, and ends with the status.
// Where a guest's text is refused, and a person reads standard error, the person is also told which
// command says more.
fn main(rt: HostRuntime) -> ExitCode {
    let mut out = rt.stdout();
    let mut err = rt.stderr();
    let request = match read_request(&rt) {
        Ok(request) => request,
        Err(fault) => return ExitCode::from(fault.report(&mut err)),
    };
    let status = serve_request(&rt, &request, &mut out, &mut err);
    if status == REFUSED
        && err.is_terminal()
        && let Some(file) = request.file_to_check()
        && is_refused(&rt, file)
    {
        let _ = writeln!(err, "(ctxbound check {file} says more)");
    }
    ExitCode::from(status)
}
