//! Three tools for the scripts, no part of the product, of which the first word of the command line
//! chooses one: `rounds` prints what a gate hears of a search, `again` makes calls again that were
//! refused memory, `walk` counts schedules.
#![tactic(auto)]

// What a call answers, made once more where it answers nothing, since memory is refused.
macro_rules! again {
    ($call:expr) => {
        match $call {
            Some(made) => Some(made),
            None => $call,
        }
    };
}

mod again;
mod books;
mod gate;
mod requests;
mod rounds;
mod runs;
mod walks;

use std::alloc::{Alloc, Global};
use std::fs::Files;
use std::io::Print;
use std::process::ExitCode;
use std::sync::Wait;
use std::thread::Threads;

/// The status where the command line asks for no tool, or memory for it is refused.
const REFUSED: u8 = 2;

/// The command line's words after the program's own name; `None` where they can't be read.
fn command_words(rt: &HostRuntime) -> Option<Vec<String>> {
    std::env::args(rt).ok()?.skip(1).collect(rt.alloc()).ok()
}

/// Runs the tool that `words[0]` names, and answers its status. `None` where it names none, or
/// the tool can't do what the other words ask for.
fn run<H>(rt: &H, words: &[String]) -> Option<ExitCode>
where
    H: Threads + Wait + Sync + Files + Print + Alloc<A = Global>,
{
    match words.first()?.as_str() {
        "rounds" => rounds::run(rt, words),
        "again" => again::run(rt, words),
        "walk" => walks::run(rt, words),
        _ => None,
    }
}

// Does what the command line asks for, and ends the program with the status.
fn main(rt: HostRuntime) -> ExitCode {
    let status = match command_words(&rt) {
        Some(words) => run(&rt, words.as_slice()),
        None => None,
    };
    status.unwrap_or(ExitCode::from(REFUSED))
}
