//! The tool `rounds`, for `tests/rounds.py`: searches a guest program by several workers, and
//! prints what a gate heard of it: who was asked about which item, and when each round ended.
//!
//! Its words are `rounds`, a file, a bound or `unbounded`, `quick` or `whole`, the numbers of
//! workers and of schedules a walk, the limit or 0, and the gate's policy: a word and a number. A
//! line for each event is a word and two numbers: `go`, `stop`, `walked` or `late` (held too long)
//! with worker and item, `round` with schedules tried and items open, at most 65,535. Then comes
//! the report.

use crate::gate::{LoggingGate, NeverStopping, Policy};
use crate::requests::{Request, parse_request};
use runner::{Gate, explore_text, report_text};
use std::alloc::{Alloc, Global};
use std::fs::Files;
use std::io::Print;
use std::process::ExitCode;
use std::sync::Wait;
use std::thread::Threads;
use std::{fs, io};

/// Searches the file of a request with this gate, and answers the text of the report. `None` where
/// the file can't be read or spells no program, or memory runs out.
fn search_report<G: Gate>(
    rt: &(impl Threads + Wait + Sync + Files + Alloc<A = Global>),
    request: &Request,
    gate: &G,
) -> Option<Vec<u8>> {
    let alloc = rt.alloc();
    let text = fs::read(rt, request.file.as_str()).ok()?;
    let search = request.search;
    let report = explore_text(
        rt,
        alloc,
        text.as_slice(),
        search.options,
        search.workers,
        gate,
    );
    report_text(alloc, &report.ok()?).ok()
}

/// Prints the log of a gate, a line for each event, and then the text of a report, if it is UTF-8.
fn print_log_and_report<H: Print>(rt: &H, gate: &LoggingGate, report: &[u8]) -> io::Result<()> {
    for place in 0..gate.log_len() {
        println!(rt; "{}", gate.entry(place))?;
    }
    let Ok(report) = std::str::from_utf8(report) else {
        return Ok(());
    };
    println!(rt; "{report}")
}

/// Makes the search that a command line's words ask for, and prints the gate's log and the report.
/// Answers the status: failure where one of that fails; `None` where the words ask for no search.
pub fn run<H>(rt: &H, words: &[String]) -> Option<ExitCode>
where
    H: Threads + Wait + Sync + Files + Print + Alloc<A = Global>,
{
    let request = parse_request(rt.alloc(), words)?;
    let Some(gate) = LoggingGate::new(rt.alloc(), request.policy) else {
        return Some(ExitCode::FAILURE);
    };
    let report = match request.policy {
        Policy::NeverStop => search_report(rt, &request, &NeverStopping(&gate)),
        _ => search_report(rt, &request, &gate),
    };
    let Some(report) = report else {
        return Some(ExitCode::FAILURE);
    };
    match print_log_and_report(rt, &gate, report.as_slice()) {
        Ok(()) => Some(ExitCode::SUCCESS),
        Err(_) => Some(ExitCode::FAILURE),
    }
}
