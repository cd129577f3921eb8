//! Explanations of a schedule that is asked for, or that a search finds, in some format.

ghost use Rattle.std.specs.Prelude.{◌≡◌, List, ℕ, IfOk, IfErr};
ghost use Rattle.std.specs.Arc.{arc_value};
ghost use Rattle.guest_code.specs.SourceMap.{IsMapOf};
ghost use Rattle.runner_report.specs.Texts.{IsProgramOf, ExploreErrorMeans};
ghost use Rattle.runner_report.specs.declared.error.ExploreError.TheVariants.{OutOfMemory};
ghost use Rattle.ctxbound_answers.specs.Explained.{ExplainMeans, ExplainFaultMeans, IsExplained, asked, explained_status, told_status, IsSearched, is_followed, is_open, told_report};

use crate::answer::{Printed, replay_status, verdict_status};
use crate::exploration::{Exploration, has_equal_threads, once_words};
use crate::fault::{Fault, REFUSED};
use crate::host::Host;
use crate::request::ExplainRequest;
use explain_run::{Explanation, Source};
use explain_text::{Layout, explanation_text, run_out_lines};
use explain_told::Told;
use guest_code::lowering::lower;
use guest_code::program::Program;
use guest_code::source_map::SourceMap;
use guest_syntax::parse;
use replay::schedule_from;
use runner::{BOUND, ExploreError, Options, Report, Search, Verdict};
use std::alloc::{AllocError, Global};
use std::sync::Arc;

// The line that is told after a search up to a bound found no bad schedule.
const NO_PROOF: &str = "That is no proof: others have more. Try --unbounded, or a higher --bound.";

/// The bytes of an explanation in some format, unless memory runs out.
pub type Output = Result<Vec<u8>, AllocError>;

/// A format of explanations, such as text, JSON or a page.
pub trait Render {
    /// An explanation in this format. `search` is the report of the search that found the schedule,
    /// if one did.
    fn explanation(&self, told: &Told<'_>, search: Option<&Report>) -> Output;

    /// That a search of the program in this file found no bad schedule, in this format.
    fn no_schedule(&self, alloc: Global, file: &str, report: &Report) -> Output;
}

/// The format of explanations as text, in lines of at most `width` columns. Each step has a row
/// where there are at most `steps` steps, else only those that matter.
#[derive(Clone, Copy)]
pub struct TextFormat {
    pub width: usize,
    pub steps: usize,
}

impl Render for TextFormat {
    // The explanation as text. Where a search found the schedule it also says whether that showed
    // that no bad schedule has fewer preemptions.
    fn explanation(&self, told: &Told<'_>, search: Option<&Report>) -> Output {
        let layout = Layout {
            width: self.width,
            steps: self.steps,
            is_fewest: search.map(has_fewest_preemptions),
        };
        explanation_text(told, layout)
    }

    // The sentence that a search found no bad schedule.
    fn no_schedule(&self, alloc: Global, file: &str, report: &Report) -> Output {
        Ok(no_schedule_text(alloc, file, report)?.into_bytes())
    }
}

/// Explains, in the format of `renderer`, the schedule that is asked for, as far as it runs in the
/// program that `text` spells; or, where none is asked for, the bad schedule that a search finds.
/// Where the search finds none, says so. Answers what is printed, and the status.
///
/// # Errors
///
/// The first that is wrong: with the text, with the program that the text spells, or with the
/// schedule's text; `Memory` where memory runs out.
pub fn explain_text<H: Host, T: Render>(
    rt: &H,
    text: &[u8],
    request: &ExplainRequest,
    renderer: &T,
) -> Result<Printed, Fault>
    ensures { ExplainMeans text.now request.now result }
{
    let alloc = rt.alloc();
    let (program, map) = program_and_map(alloc, text)?;
    let explained = Explained::of_request(rt, &program, request)?;
    let source = Source {
        file: request.file.as_bytes(),
        text,
        program: &program,
        map: &map,
    };
    let status = explained.status();
    let (explanation, search) = match &explained {
        Explained::Asked(explanation) => (explanation, None),
        Explained::Found(report, explanation) => (explanation, Some(report)),
        Explained::NoneFound(report) => {
            let output = renderer.no_schedule(alloc, request.file.as_str(), report)?;
            return Ok(Printed { output, status });
        }
    };
    let output = renderer.explanation(&Told::new(alloc, explanation, &source)?, search)?;
    Ok(Printed { output, status })
}

/// Which loops of the program that a text spells ran out of turns where a schedule of it failed: a
/// line for each, as `explain_text` has it. `file` is the name of the text's file.
///
/// # Errors
///
/// What is wrong first with the text, or that memory ran out.
pub fn run_out_text(
    alloc: Global,
    text: &[u8],
    file: &str,
    schedule: &[u8],
) -> Result<String, ExploreError> {
    let (program, map) = program_and_map(alloc, text)?;
    let explanation = Explanation::new(alloc, &program, schedule)?;
    let source = Source {
        file: file.as_bytes(),
        text,
        program: &program,
        map: &map,
    };
    Ok(run_out_lines(&Told::new(alloc, &explanation, &source)?)?)
}

// The program that a text spells, and where its instructions are in the text.
fn program_and_map(alloc: Global, text: &[u8]) -> Result<(Arc<Program>, SourceMap), ExploreError>
    ensures program { IfOk result (λ it. IsProgramOf text.now (arc_value it.0)) }
    ensures map { IfOk result (λ it. IsMapOf it.1 (arc_value it.0)) }
    ensures error { IfErr result (ExploreErrorMeans text.now) }
{
    let tree = parse(alloc, text)?;
    let program = Arc::new(alloc, lower(alloc, &tree)?)?;
    Ok((program, SourceMap::new(alloc, &tree)?))
}

/// The schedule that is explained.
#[derive(Drop)]
pub enum Explained {
    /// The one that was asked for.
    Asked(Explanation),
    /// The one that the report of a search names.
    Found(Report, Explanation),
    /// None, since the report of a search names none.
    NoneFound(Report),
}

impl Explained {
    // Explains the schedule that a request asks for, or, where it asks for none, searches the
    // program and explains the schedule that the search finds, if any. An error where the
    // schedule's text is refused, or memory runs out.
    fn of_request<H: Host>(
        rt: &H,
        program: &Arc<Program>,
        request: &ExplainRequest,
    ) -> Result<Explained, Fault>
        ensures explained { IfOk result (IsExplained (arc_value program.now) request.now) }
        ensures fault { IfErr result (λ fault. (text : List ℕ)
            → IsProgramOf text (arc_value program.now)
            → ExplainFaultMeans text (asked request.now.schedule) fault) }
    {
        let alloc = rt.alloc();
        let Some(schedule) = &request.schedule else {
            let report = search_report(rt, program, request.search)?;
            let Some(steps) = report.schedule() else {
                return Ok(Explained::NoneFound(report));
            };
            let explanation = Explanation::new(alloc, program, steps)?;
            return Ok(Explained::Found(report, explanation));
        };
        let steps = schedule_from(alloc, schedule.as_bytes())?;
        Ok(Explained::Asked(Explanation::new(alloc, program, steps.as_slice())?))
    }

    // The status that `ctxbound` ends with: that of the explanation, or, where the search found no
    // schedule to explain, that of the search's verdict.
    fn status(&self) -> u8
        ensures { result ≡ told_status self.now }
    {
        match self {
            Explained::Asked(explanation) | Explained::Found(_, explanation) => {
                explained_status(explanation)
            }
            Explained::NoneFound(report) => verdict_status(&report.verdict),
        }
    }
}

// The report of a search for a bad schedule, with equal threads once where there may be some. Where
// that goes up to the greatest bound and leaves it open whether a schedule is bad, the same search
// is made without a bound, and its report is the answer unless it leaves that open, too.
#[tactic(auto, using(crate::proofs::Searched::alone, crate::proofs::Searched::followed))]
fn search_report<H: Host>(
    rt: &H,
    program: &Arc<Program>,
    search: Exploration,
) -> Result<Report, ExploreError>
    ensures report { IfOk result (IsSearched (arc_value program.now) search.options) }
    ensures error { IfErr result (λ e. e ≡ OutOfMemory) }
{
    let options = Options {
        symmetry: has_equal_threads(program),
        ..search.options
    };
    let bounded = Exploration {
        options,
        workers: search.workers,
        progress: search.progress,
    };
    let near = bounded.report(rt, program)?;
    if !is_followed(options.search, &near) {
        return Ok(near);
    }
    let unbounded = Exploration {
        options: Options {
            search: Search::Unbounded,
            ..options
        },
        workers: search.workers,
        progress: search.progress,
    };
    let far = unbounded.report(rt, program)?;
    Ok(told_report(near, far))
}

// Whether a search without a bound follows this one, whose report is this.
fn is_followed(search: Search, report: &Report) -> bool
    ensures { result ≡ is_followed search report.now }
{
    match search {
        Search::UpTo(bound) => bound == BOUND && is_open(report),
        Search::Unbounded => false,
    }
}

// The report that is told, of a search up to a bound and one without a bound.
fn told_report(near: Report, far: Report) -> Report
    ensures { result ≡ told_report near far }
{
    if is_open(&far) { near } else { far }
}

// Whether a report leaves it open whether a schedule is bad: it names none, and doesn't say that
// none is.
fn is_open(report: &Report) -> bool
    ensures { result ≡ is_open report.now }
{
    match (report.schedule(), &report.verdict) {
        (Some(_), _) | (None, Verdict::Bad { .. }) => false,
        (None, Verdict::Clean { all }) => !*all,
        (None, Verdict::Incomplete { .. }) => true,
    }
}

// The status that `ctxbound` ends with after an explanation: that of a replay of the schedule, or
// that of a refusal where a step of the schedule can't be taken.
fn explained_status(explanation: &Explanation) -> u8
    ensures { result ≡ explained_status explanation.now.refused explanation.now.kind }
{
    match explanation.refused() {
        Some(_) => REFUSED,
        None => replay_status(explanation.kind()),
    }
}

/// Whether a report names a bad schedule and shows that none with fewer preemptions is bad: the
/// search had a bound. It goes on to the next one only where none is bad, cut short there or not.
pub fn has_fewest_preemptions(report: &Report) -> bool {
    report.schedule().is_some() && report.bound.is_some()
}

/// What the user is told where a search of the program in this file found no bad schedule: how far
/// the search went, and, where that was only up to a bound, that this is no proof. Fails where
/// memory runs out.
pub fn no_schedule_text(alloc: Global, file: &str, report: &Report) -> Result<String, AllocError> {
    let tried = report.summary.tried();
    let once = once_words(report);
    match (&report.verdict, report.bound) {
        (Verdict::Clean { all: false }, Some(bound)) => {
            let ending = if bound == 1 { "" } else { "s" };
            format!(in alloc;
                "{file}: no schedule with at most {bound} preemption{ending} is bad ({tried} tried{once}).\n{NO_PROOF}\n"
            )
        }
        (
            Verdict::Incomplete {
                finished: Some(bound),
                ..
            },
            _,
        ) => {
            let ending = if *bound == 1 { "" } else { "s" };
            format!(in alloc;
                "{file}: no schedule with at most {bound} preemption{ending} is bad; the search of \
                 others was cut short, and none that it tried is bad ({tried} tried{once}).\n"
            )
        }
        (Verdict::Incomplete { .. }, _) => format!(in alloc;
            "{file}: the search was cut short; no schedule that it tried is bad ({tried} tried{once}).\n"
        ),
        _ => format!(in alloc; "{file}: no schedule is bad ({tried} tried{once}).\n"),
    }
}
