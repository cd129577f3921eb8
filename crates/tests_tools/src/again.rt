//! The tool `again FILE SCHEDULE`, for `tests/allocations.py`: makes each call of the libraries
//! that takes memory, once more where it is refused. So it prints the same where one request for
//! memory is refused. The status is 1 where a call fails twice or a refused one changed something,
//! 2 where memory for the command line, the file or the program is refused.

use crate::books::{BookFacts, book_facts};
use crate::runs::{RunFacts, run_facts};
use guest_code::lowering::lower;
use guest_code::program::Program;
use guest_syntax::parse;
use replay::schedule_from;
use std::alloc::{Alloc, Global};
use std::fs::Files;
use std::io::Print;
use std::process::ExitCode;
use std::sync::Arc;
use std::{fs, io};

/// The program that a text spells; `None` where memory is refused.
fn program_of(alloc: Global, text: &[u8]) -> Option<Program> {
    lower(alloc, &parse(alloc, text).ok()?).ok()
}

/// Prints what the calls on a run and on a book answered, in three lines of words and numbers.
fn print_facts<H: Print>(rt: &H, run: RunFacts, book: BookFacts) -> io::Result<()> {
    let RunFacts {
        variables,
        viewed,
        steps,
        spelled,
        traced,
    } = run;
    let BookFacts {
        settled,
        tried,
        joined,
        ends,
        copied,
        next,
        seats,
    } = book;
    println!(rt;
        "variables {variables} viewed {viewed} steps {steps} spelled {spelled} traced {traced}"
    )?;
    println!(rt; "settled {settled} tried {tried} joined {joined} ends {ends}")?;
    println!(rt; "copied {copied} next {next} seats {seats}")
}

/// What all calls answer on a program and the text of its schedule; `None` where one fails twice.
fn facts_of(
    alloc: Global,
    program: &Arc<Program>,
    schedule: &str,
) -> Option<(RunFacts, BookFacts)> {
    let schedule = again!(schedule_from(alloc, schedule.as_bytes()).ok())?;
    let run = again!(run_facts(alloc, program, schedule.as_slice()))?;
    let book = book_facts(alloc, program, schedule.as_slice())?;
    Some((run, book))
}

/// Makes all calls on the file `words[1]` and the complete schedule `words[2]`, and prints what
/// they answer. Answers the status: failure where a call fails twice or nothing can be printed;
/// `None` where a word is missing, the file can't be read or memory for an `Arc` is refused.
pub fn run<H: Files + Print + Alloc<A = Global>>(rt: &H, words: &[String]) -> Option<ExitCode> {
    let text = fs::read(rt, words.get(1)?.as_str()).ok()?;
    let schedule = words.get(2)?.as_str();
    let Some(program) = again!(program_of(rt.alloc(), text.as_slice())) else {
        return Some(ExitCode::FAILURE);
    };
    let program = Arc::new(rt.alloc(), program).ok()?;
    let Some((run, book)) = facts_of(rt.alloc(), &program, schedule) else {
        return Some(ExitCode::FAILURE);
    };
    match print_facts(rt, run, book) {
        Ok(()) => Some(ExitCode::SUCCESS),
        Err(_) => Some(ExitCode::FAILURE),
    }
}
