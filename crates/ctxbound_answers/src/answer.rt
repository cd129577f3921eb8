//! Answers to requests on one guest program: the bytes for standard output, and the status.

ghost use Rattle.std.specs.Prelude.{◌≡◌, ◌++◌, codes, IfOk, MatchResult};
ghost use Rattle.runner_report.specs.ReportText.{report_text};
ghost use Rattle.replay.specs.Run.{ReplayErrorMeans};
ghost use Rattle.ctxbound_answers.specs.Answer.{Replays, ReplayMeans, ExplorationMeans, Means};
ghost use Rattle.ctxbound_answers.specs.Status.{replay_status, verdict_status};

use crate::exploration::{Exploration, GuestRequest};
use crate::fault::Fault;
use crate::host::Host;
use guest_code::program::Program;
use replay::{ReplayError, replay, schedule_from, trace_text};
use runner::{Report, Verdict, program_of, report_text};
use semantics::view::Kind;
use std::alloc::{AllocError, Global};

/// What the program prints where it did what it was asked for, and the status that it ends with.
#[derive(Drop)]
pub struct Printed {
    /// The bytes for standard output.
    pub output: Vec<u8>,
    /// The status that the program ends with.
    pub status: u8,
}

impl Printed {
    /// What is printed of a report, its text and a line feed; and the status of its verdict. Fails
    /// where memory runs out.
    pub fn of_report(alloc: Global, report: &Report) -> Result<Printed, AllocError>
        ensures output { IfOk result (λ a. a.output.items ≡ report_text report.now ++ codes "\n") }
        ensures status { IfOk result (λ a. a.status ≡ verdict_status report.now.verdict) }
    {
        let mut output = report_text(alloc, report)?;
        output.push(b'\n')?;
        Ok(Printed {
            output,
            status: verdict_status(&report.verdict),
        })
    }

    /// What is printed of a replay of a schedule, its trace; and the status of how it ends.
    ///
    /// # Errors
    ///
    /// The first step of the schedule that can't be taken; `OutOfMemory` where memory runs out.
    pub fn of_schedule(
        alloc: Global,
        program: &Program,
        schedule: &[u8],
    ) -> Result<Printed, ReplayError>
        ensures { MatchResult result (Replays program.now schedule.now)
            (ReplayErrorMeans program.now schedule.now) }
    {
        let run = replay(alloc, program, schedule)?;
        Ok(Printed {
            output: trace_text(alloc, program, &run)?,
            status: replay_status(run.kind()),
        })
    }
}

/// The status that the program ends with after a replay: 1 where the schedule is complete and
/// failed or stuck, else 0.
pub fn replay_status(kind: Option<Kind>) -> u8
    ensures { result ≡ replay_status kind }
{
    match kind {
        Some(Kind::Failed | Kind::Stuck) => 1,
        Some(Kind::Done) | None => 0,
    }
}

/// The status that the program ends with after a search: 0 where it found no bad schedule, 1 where
/// it found one, 3 where it was cut short.
pub fn verdict_status(verdict: &Verdict) -> u8
    ensures { result ≡ verdict_status verdict.now }
{
    match verdict {
        Verdict::Clean { .. } => 0,
        Verdict::Bad { .. } => 1,
        Verdict::Incomplete { .. } => 3,
    }
}

/// Replays the schedule that `schedule` spells in the program that `text` spells: its trace, and
/// the status of how it ends.
///
/// # Errors
///
/// What is wrong first: with the text, with the schedule's text, or with a step of the schedule.
pub fn replay_text(alloc: Global, text: &[u8], schedule: &[u8]) -> Result<Printed, Fault>
    ensures { ReplayMeans text.now schedule.now result }
{
    let program = program_of(alloc, text)?;
    let schedule = schedule_from(alloc, schedule)?;
    Ok(Printed::of_schedule(alloc, &program, schedule.as_slice())?)
}

/// Searches the program that `text` spells: the report, a line feed, and, if `is_traced`, the trace
/// of the schedule that the report names, if it names one. The status is that of the verdict.
///
/// # Errors
///
/// What is wrong first with the text; `Memory` where memory runs out.
pub fn explore_text<H: Host>(
    rt: &H,
    text: &[u8],
    exploration: Exploration,
    is_traced: bool,
) -> Result<Printed, Fault>
    ensures { ExplorationMeans text.now exploration.options is_traced result }
{
    let alloc = rt.alloc();
    let program = program_of(alloc, text)?;
    let report = exploration.report(rt, &program)?;
    let mut printed = Printed::of_report(alloc, &report)?;
    if is_traced {
        if let Some(schedule) = report.schedule() {
            let traced = Printed::of_schedule(alloc, &program, schedule)?;
            printed.output.extend_from_slice(traced.output.as_slice())?;
        }
    }
    Ok(printed)
}

/// Does what a request asks of the program that `text` spells.
///
/// # Errors
///
/// As those of [`replay_text`] and [`explore_text`].
pub fn answer_to<H: Host>(rt: &H, request: &GuestRequest, text: &[u8]) -> Result<Printed, Fault>
    ensures { Means request.now text.now result }
{
    match request {
        GuestRequest::Replay { schedule } => replay_text(rt.alloc(), text, schedule.as_bytes()),
        GuestRequest::Explore(exploration) => explore_text(rt, text, *exploration, false),
        GuestRequest::Trace(exploration) => explore_text(rt, text, *exploration, true),
    }
}
