//! Whether a program is right: none of its schedules fails or gets stuck.

ghost use Rattle.std.specs.Prelude.{◌≡◌, ◌≤◌, IfOk, IfErr, MatchResult};
ghost use Rattle.std.specs.Arc.{arc_value};
ghost use Rattle.walk_items.specs.declared.limits.TheConstants.{BOUND};
ghost use Rattle.runner_report.specs.{Promises.IsSearch, Texts.ExploreErrorMeans};
ghost use Rattle.runner_report.specs.declared.error.ExploreError.TheVariants.{OutOfMemory};
ghost use Rattle.runner_report.specs.declared.options.Search.TheVariants.{Unbounded};
ghost use Rattle.ctxbound_suite.specs.Answers.{AnswerMeans, IsAnswerOfText, answer_of, status_of, stop_of};
ghost use Rattle.ctxbound_suite.specs.Shown.{options_of, IsFound, IsLeft};

use crate::found::{BadSchedule, Found, run_search};
use ctxbound_answers::{Host, Limits, once_words};
use guest_code::program::Program;
use runner::{ExploreError, Search, Verdict, program_of};
use std::io::Write;
use std::sync::Arc;
use std::{fmt, io};

/// Whether a program is right, as far as searches show.
#[derive(Drop)]
pub enum Correctness {
    /// No complete schedule of the program fails or gets stuck.
    Right,
    /// Some complete schedule fails or gets stuck, as `bad` does.
    Bad {
        bad: BadSchedule,
        /// Whether it is known that no bad schedule has fewer preemptions.
        is_fewest: bool,
    },
    /// No schedule with fewer preemptions than `below` fails or gets stuck. Whether one with more
    /// does isn't known: the searches were cut short, or went as far as they were to go.
    Undecided {
        below: u32,
    },
}

impl Correctness {
    /// The status that the program ends with: 0 where the program is right, 1 where a schedule is
    /// bad, 3 where the searches left open whether one is.
    pub fn status(&self) -> u8
        ensures { result ≡ status_of self.now }
    {
        match self {
            Correctness::Right => 0,
            Correctness::Bad { .. } => 1,
            Correctness::Undecided { .. } => 3,
        }
    }
}

/// A number of preemptions, which is displayed in words: `no preemption`, `1 preemption` or
/// `2 preemptions`.
#[derive(Clone, Copy)]
pub struct Preemptions(pub u32);

impl fmt::Display for Preemptions {
    // The number of preemptions in words.
    fn fmt<W: fmt::Write>(&self, f: &mut fmt::Formatter<W>) -> fmt::Result {
        match self.0 {
            0 => write!(f, "no preemption"),
            1 => write!(f, "1 preemption"),
            count => write!(f, "{count} preemptions"),
        }
    }
}

// How many bounds are searched, from 0 on: those up to `bound`, but where a bad schedule is known
// only those that are less than its preemptions, since one with fewer is looked for.
fn bound_count(known: &Option<BadSchedule>, bound: u32) -> u32
    requires { bound ≤ BOUND }
    ensures { result ≡ stop_of known.now bound }
{
    match known {
        Some(bad) => bad.preemptions.min(bound + 1),
        None => bound + 1,
    }
}

// The answer that a program is bad or undecided, where none of its schedules with fewer preemptions
// than `clear` is bad. It is bad by the schedule `nearer` of the last search with a bound, else by
// `known`, that of the search without a bound; where there is neither, it is undecided.
fn bad_or_undecided(
    nearer: Option<BadSchedule>,
    known: Option<BadSchedule>,
    clear: u32,
) -> Correctness
    ensures { result ≡ answer_of nearer known clear }
{
    match (nearer, known) {
        (Some(bad), _) | (None, Some(bad)) => Correctness::Bad {
            is_fewest: bad.preemptions <= clear,
            bad,
        },
        (None, None) => Correctness::Undecided { below: clear },
    }
}

// Writes to `out` a line on a search as it ends: how far it was to go, and what it found, with how
// many schedules it tried.
fn write_search_line<W: Write>(out: &mut W, search: Search, found: &Found) -> io::Result<()> {
    match search {
        Search::UpTo(0) => write!(out, "{}: ", Preemptions(0))?,
        Search::UpTo(bound) => write!(out, "at most {}: ", Preemptions(bound))?,
        Search::Unbounded => write!(out, "all schedules: ")?,
    }
    let Found { report, bad } = found;
    let tried = report.summary.tried();
    let once = once_words(report);
    match (&report.verdict, bad) {
        (Verdict::Clean { .. }, _) => writeln!(out, "none is bad ({tried} tried{once})")?,
        (Verdict::Bad { preemptions, .. }, _) => {
            let count = Preemptions(*preemptions);
            writeln!(out, "one with {count} is bad ({tried} tried{once})")?;
        }
        (Verdict::Incomplete { .. }, Some(_)) => {
            writeln!(out, "cut short, and one of the {tried} tried is bad{once}")?;
        }
        (Verdict::Incomplete { .. }, None) => {
            writeln!(out, "cut short, and none of the {tried} tried is bad{once}")?;
        }
    }
    out.flush()
}

// Makes one search of a program, and writes a line on it to `out`. Where that fails the search
// counts all the same: writing the answer to the same stream at the end fails, too.
fn search_and_tell<H: Host, W: Write>(
    rt: &H,
    program: &Arc<Program>,
    search: Search,
    limits: Limits,
    out: &mut W,
) -> Result<Found, ExploreError>
    requires { IsSearch search }
    ensures found { IfOk result (IsFound (arc_value program.now) (options_of search limits.limit)) }
    ensures error { IfErr result (λ e. e ≡ OutOfMemory) }
{
    let found = run_search(rt, program, search, limits)?;
    let _ = write_search_line(out, search, &found);
    Ok(found)
}

// Whether no schedule of a program is bad, by searches up to 0, 1, 2 .. preemptions, at most the
// bound of `limits`, and fewer than the bad schedule `known` has. They end at the first that shows
// that none is bad, finds a bad one or is cut short. The search without a bound, which was made
// before, found `known`, or was cut short and found none. A line on each is written to `out`.
#[tactic(auto, using(crate::proofs::Answers::stop_low, crate::proofs::Answers::stopped_at, crate::proofs::Answers::gone_through))]
fn answer_by_bounds<H: Host, W: Write>(
    rt: &H,
    program: &Arc<Program>,
    limits: Limits,
    known: Option<BadSchedule>,
    out: &mut W,
) -> Result<Correctness, ExploreError>
    requires known { IsLeft (arc_value program.now) (options_of Unbounded limits.limit) known }
    ensures answer { IfOk result (AnswerMeans (arc_value program.now) limits) }
    ensures error { IfErr result (λ e. e ≡ OutOfMemory) }
{
    let stop = bound_count(&known, limits.bound);
    for bound in 0..stop {
        let found = search_and_tell(rt, program, Search::UpTo(bound), limits, out)?;
        if found.shows_right() {
            return Ok(Correctness::Right);
        }
        if !found.is_clean() {
            return Ok(bad_or_undecided(found.bad, known, bound));
        }
    }
    Ok(bad_or_undecided(None, known, stop))
}

/// Whether a program is right, that is, no schedule of it is bad: by a search without a bound, and
/// where that was cut short or found a bad schedule, which may not be one of fewest preemptions, by
/// searches up to 0, 1, 2 .. preemptions, at most the bound of `limits`. Each search is cut short
/// at the number of schedules in `limits`, and as it ends a line on it is written to `out`.
///
/// # Errors
///
/// `OutOfMemory` where memory runs out.
#[tactic(auto, using(crate::proofs::Answers::left_by))]
pub fn verify<H: Host, W: Write>(
    rt: &H,
    program: &Arc<Program>,
    limits: Limits,
    out: &mut W,
) -> Result<Correctness, ExploreError>
    ensures answer { IfOk result (AnswerMeans (arc_value program.now) limits) }
    ensures error { IfErr result (λ e. e ≡ OutOfMemory) }
{
    let found = search_and_tell(rt, program, Search::Unbounded, limits, out)?;
    if found.is_clean() {
        return Ok(Correctness::Right);
    }
    answer_by_bounds(rt, program, limits, found.bad, out)
}

/// Whether the program that a text spells is right. Answers what [`verify`] does, which writes a
/// line on each search to `out`.
///
/// # Errors
///
/// What is wrong with the text; `OutOfMemory` where memory runs out.
pub fn verify_text<H: Host, W: Write>(
    rt: &H,
    text: &[u8],
    limits: Limits,
    out: &mut W,
) -> Result<Correctness, ExploreError>
    ensures { MatchResult result (IsAnswerOfText text.now limits) (ExploreErrorMeans text.now) }
{
    let program = program_of(rt.alloc(), text)?;
    verify(rt, &program, limits, out)
}
