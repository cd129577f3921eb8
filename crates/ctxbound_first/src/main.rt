//! Answers three commands as `ctxbound` does, byte for byte: `explain FILE [SCHEDULE]`,
//! `explore FILE --trace` and `replay FILE SCHEDULE`. It takes no other words, and so has only what
//! these need: `make run` and `make try` compile it sooner than the whole program.
#![tactic(auto)]

use ctxbound_answers::{
    CommandFault, DEFAULT_LIMIT, DEFAULT_STEPS, DEFAULT_WIDTH, ExplainRequest, Exploration,
    GuestRequest, Host, MOST_READ, Printed, REFUSED, TextFormat, explain_text, read_file,
    serve_file, write_printed,
};
use runner::{BOUND, Options, Search};
use std::fs::Files;
use std::io::{Input, Write};
use std::process::ExitCode;

// What is said where the command line is none of the three commands.
const USAGE: &str = "usage: ctxbound_first explain FILE [SCHEDULE], ctxbound_first explore FILE \
                     --trace, or ctxbound_first replay FILE SCHEDULE";

// What a command line asks for: to replay or search a guest program, or to explain a schedule.
#[derive(Drop)]
enum Request {
    Guest { file: String, request: GuestRequest },
    Explain(ExplainRequest),
}

// What the command line asks for: `explain`, `explore` with `--trace`, or `replay`. `None` where it
// is none of these commands with its words, or can't be read.
fn read_request(rt: &HostRuntime) -> Option<Request> {
    let words: Vec<String> = std::env::args(rt).ok()?.collect(rt.alloc()).ok()?;
    let file = words.get(2)?.as_str().to_string(rt.alloc()).ok()?;
    let last = match words.get(3) {
        Some(word) => Some(word.as_str().to_string(rt.alloc()).ok()?),
        None => None,
    };
    if words.len() > 4 {
        return None;
    }
    let request = match (words.get(1)?.as_str(), last) {
        ("explain", schedule) => {
            return Some(Request::Explain(ExplainRequest {
                file,
                schedule,
                search: far_search(),
            }));
        }
        ("explore", Some(word)) if word.as_str() == "--trace" => {
            GuestRequest::Trace(Exploration::default())
        }
        ("replay", Some(schedule)) => GuestRequest::Replay { schedule },
        _ => return None,
    };
    Some(Request::Guest { file, request })
}

// The search for a schedule to explain: as `ctxbound explain` makes it where it is given no bound.
fn far_search() -> Exploration {
    Exploration {
        options: Options {
            limit: Some(DEFAULT_LIMIT),
            ..Options::new(Search::UpTo(BOUND))
        },
        workers: 1,
        progress: false,
    }
}

// What is printed of the schedule of the guest program in a file that is asked for, or that a search
// finds; or why nothing is.
fn explain_file<'a, H: Host + Files + Input>(
    rt: &H,
    request: &'a ExplainRequest,
) -> Result<Printed, CommandFault<'a>> {
    let file = request.file.as_str();
    let text = read_file(rt, file, MOST_READ).map_err(|error| CommandFault::Device(file, error))?;
    let form = TextFormat {
        width: DEFAULT_WIDTH as usize,
        steps: DEFAULT_STEPS as usize,
    };
    Ok(explain_text(rt, text.as_slice(), request, &form)?)
}

// Does what the command line asks for, or prints `USAGE`, and ends the program with the status.
fn main(rt: HostRuntime) -> ExitCode {
    let mut out = rt.stdout();
    let mut err = rt.stderr();
    let status = match read_request(&rt) {
        Some(Request::Guest { file, request }) => {
            serve_file(&rt, file.as_str(), &request, &mut out, &mut err)
        }
        Some(Request::Explain(request)) => {
            write_printed(explain_file(&rt, &request), &mut out, &mut err)
        }
        None => {
            let _ = writeln!(err, "{USAGE}");
            REFUSED
        }
    };
    ExitCode::from(status)
}
