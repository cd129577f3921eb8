//! Answers to a replay and to searches, over a reader and writers that fail. What is printed where
//! none fails is in `tests/rows.txt` and `tests/commands.py`.

mod devices;

ghost use Rattle.std.specs.Prelude.{◌≤◌};
ghost use Rattle.runner_report.specs.Promises.{IsSearch};

use crate::answers::devices::{FailingReader, FailingWriter};
use ctxbound_answers::{Exploration, Fault, GuestRequest, exit_status, serve};
use runner::{Options, Search};
use std::alloc::{Alloc, Global};
use std::io::Eprint;
use std::process::Abort;
use std::sync::Wait;
use std::test::*;
use std::thread::Threads;

/// Thread B fails where it reads between the two stores of thread A, as in the schedule `0,1,0`.
const RACE: &str =
    "var x; thread A { store x 1; store x 0; } thread B { load r x; assert r == 0; }";

/// The line of a fault where input can't be read or output can't be written.
const FILE_FAULT: &[u8] = b"ctxbound: file\n";

// A request for a replay of this schedule.
fn replay_request(alloc: Global, schedule: &str) -> Result<GuestRequest, Fail> {
    Ok(GuestRequest::Replay {
        schedule: String::from_str(alloc, schedule)?,
    })
}

// A request for a search with these options by one worker, which tells no progress.
fn search_request(options: Options) -> GuestRequest
    requires search { IsSearch options.search }
    requires quota { 1 ≤ options.quota }
{
    GuestRequest::Explore(Exploration {
        options,
        workers: 1,
        progress: false,
    })
}

// Serves a request over a reader of `text` that fails at the call `fails_at`, counted from 0.
// Checks that `line` is written as the error; answers the status, how many bytes are output, and
// the calls of the reader.
fn serve_failing_reader(
    rt: &(impl Abort + Threads + Wait + Sync + Eprint + Alloc<A = Global>),
    request: &GuestRequest,
    text: &[u8],
    fails_at: usize,
    line: &[u8],
) -> (u8, usize, usize) {
    let alloc = rt.alloc();
    let mut input = FailingReader {
        text,
        fails_at,
        calls: 0,
    };
    let mut out = Vec::new(alloc);
    let mut err = Vec::new(alloc);
    let status = exit_status(serve(rt, request, &mut input, &mut out, &mut err), &mut err);
    assert_eq!(rt; err.as_slice(), line);
    (status, out.len(), input.calls)
}

// Serves a request on `RACE` over a writer that fails at the call `fails_at`, counted from 0.
// Checks that `line` is written as the error; answers the status and the calls of the writer.
fn serve_failing_writer(
    rt: &(impl Abort + Threads + Wait + Sync + Eprint + Alloc<A = Global>),
    request: &GuestRequest,
    fails_at: usize,
    line: &[u8],
) -> (u8, usize) {
    let alloc = rt.alloc();
    let mut input = RACE.as_bytes();
    let mut out = FailingWriter::at(fails_at);
    let mut err = Vec::new(alloc);
    let status = exit_status(serve(rt, request, &mut input, &mut out, &mut err), &mut err);
    assert_eq!(rt; err.as_slice(), line);
    (status, out.calls)
}

// The output of a request on `RACE` where no device fails. Checks that there is some, and that
// nothing is written to the error stream.
fn checked_output(
    rt: &(impl Abort + Threads + Wait + Sync + Eprint + Alloc<A = Global>),
    request: &GuestRequest,
) -> Vec<u8> {
    let alloc = rt.alloc();
    let mut input = RACE.as_bytes();
    let mut out = Vec::new(alloc);
    let mut err = Vec::new(alloc);
    let _ = serve(rt, request, &mut input, &mut out, &mut err);
    assert!(rt; !out.is_empty() && err.is_empty());
    out
}

// Lets each call of a reader of `RACE` fail in turn. Checks that the error is `FILE_FAULT` and the
// status 4, that there is no output, and that the reader isn't called again.
fn check_failing_readers(
    rt: &(impl Abort + Threads + Wait + Sync + Eprint + Alloc<A = Global>),
    request: &GuestRequest,
) {
    let text = RACE.as_bytes();
    for fails_at in 0..=text.len() {
        let counts = serve_failing_reader(rt, request, text, fails_at, FILE_FAULT);
        assert_eq!(rt; counts, (4, 0, fails_at + 1));
    }
}

// Lets each call of a writer fail in turn, for each byte and the flush, for a request on `RACE`.
// Checks that the error is `FILE_FAULT` and the status 4, and that the writer isn't called again.
fn check_failing_writers(
    rt: &(impl Abort + Threads + Wait + Sync + Eprint + Alloc<A = Global>),
    request: &GuestRequest,
) {
    let length = checked_output(rt, request).len();
    for fails_at in 0..=length {
        let counts = serve_failing_writer(rt, request, fails_at, FILE_FAULT);
        assert_eq!(rt; counts, (4, fails_at + 1));
    }
}

// A replay of a complete schedule of `RACE`, where each call of its reader, and then each call of
// its writer, fails in turn.
#[test]
fn says_that_a_device_failed(rt: HostRuntime) -> Result<(), Fail> {
    let request = replay_request(rt.alloc(), "0,1,0")?;
    check_failing_readers(&rt, &request);
    check_failing_writers(&rt, &request);
    Ok(())
}

// A search of `RACE` up to bound 2, and one without a bound, where each call of the reader, and
// then each call of the writer, fails in turn.
#[test]
fn says_that_a_device_failed_in_a_search(rt: HostRuntime) {
    for request in &[
        search_request(Options::new(Search::UpTo(2))),
        search_request(Options::new(Search::Unbounded)),
    ] {
        check_failing_readers(&rt, request);
        check_failing_writers(&rt, request);
    }
}

// A text of 65,537 blanks is one byte too long. It is refused with status 2 and no output, after
// one call of the reader for each byte. The next call, which would fail, isn't made.
#[test]
fn reads_no_further_than_it_must(rt: HostRuntime) -> Result<(), Fail> {
    let mut text = Vec::new(rt.alloc());
    text.resize(65_537, b' ')?;
    let request = replay_request(rt.alloc(), "0")?;
    let line = b"ctxbound: syntax S5 TooLong at 1:1\n";
    let counts = serve_failing_reader(&rt, &request, text.as_slice(), 65_537, line);
    assert_eq!(rt; counts, (2, 0, 65_537));
    Ok(())
}

// The status of a request on `RACE` where neither output nor errors can be written.
fn status_of_unwritten(
    rt: &(impl Threads + Wait + Sync + Eprint + Alloc<A = Global>),
    request: &GuestRequest,
) -> u8 {
    let mut input = RACE.as_bytes();
    let mut out = FailingWriter::at(0);
    let mut err = FailingWriter::at(0);
    exit_status(serve(rt, request, &mut input, &mut out, &mut err), &mut err)
}

// `0,` spells no schedule: the status is 2, the writer isn't called, and it is 2 also where the
// error can't be written. A fault of memory has status 4, though its line can't be written.
#[test]
fn keeps_its_status_where_a_stream_fails(rt: HostRuntime) -> Result<(), Fail> {
    let request = replay_request(rt.alloc(), "0,")?;
    let line = b"ctxbound: schedule Q1 BadSchedule at 2\n";
    assert_eq!(rt; serve_failing_writer(&rt, &request, 0, line), (2, 0));
    assert_eq!(rt; status_of_unwritten(&rt, &request), 2);
    let mut err = FailingWriter::at(0);
    assert_eq!(rt; Fault::Memory.report(&mut err), 4);
    Ok(())
}
