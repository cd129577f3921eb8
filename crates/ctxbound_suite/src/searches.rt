//! The searches of one text, and which of them is reported.

ghost use Rattle.std.specs.Prelude.{◌≡◌};
ghost use Rattle.ctxbound_suite.specs.Suites.{SearchMeans, needs_no_second, second_bound, told_search};

use crate::found::{BadSchedule, Found, run_search};
use ctxbound_answers::{Host, Limits};
use runner::{BOUND, ExploreError, Search, Verdict, program_of};

/// What the searches of a text show.
#[derive(Drop)]
pub struct SearchResult {
    /// The search that is reported, of one or two that were made.
    pub found: Found,
    /// No bad schedule has fewer preemptions than this.
    pub clear: u64,
}

/// Searches the guest program of a text, once or twice, and answers the search to report. Each is
/// cut short at the number of schedules in `limits`. The first has no bound. Where it comes to its
/// end and finds no bad schedule, or one without a preemption, it is reported. Else a second search
/// is made: up to as many preemptions as the bad schedule of the first has, so that one with fewest
/// is reported, or up to the limits' bound where the first found none. The second is reported,
/// unless only the first found a bad schedule.
///
/// # Errors
///
/// What is wrong with the text, or `OutOfMemory` where memory runs out.
#[tactic(auto, using(crate::proofs::OneOrTwo::one_search, crate::proofs::OneOrTwo::two_searches))]
pub fn search<H: Host>(rt: &H, text: &[u8], limits: Limits) -> Result<SearchResult, ExploreError>
    ensures { SearchMeans text.now limits result }
{
    let program = program_of(rt.alloc(), text)?;
    let first = run_search(rt, &program, Search::Unbounded, limits)?;
    if needs_no_second(&first) {
        return Ok(SearchResult {
            found: first,
            clear: 0,
        });
    }
    let bound = second_bound(limits.bound, &first.bad);
    let second = run_search(rt, &program, Search::UpTo(bound), limits)?;
    let clear = second.clean_below();
    let found = reported_search(first, second);
    Ok(SearchResult { found, clear })
}

// Whether the first search of a text, which has no bound, makes needless a second one, for a bad
// schedule with fewer preemptions: it wasn't cut short, and found none, or one without a preemption.
fn needs_no_second(first: &Found) -> bool
    ensures { result ≡ needs_no_second first.now.report.verdict first.now.bad }
{
    let needs_none = match &first.bad {
        None => true,
        Some(bad) => bad.preemptions == 0,
    };
    !matches!(&first.report.verdict, Verdict::Incomplete { .. }) && needs_none
}

// The bound of the second search of a text: as many preemptions as the bad schedule `bad` of the
// first has, at most `BOUND`; where the first found none, `bound`.
fn second_bound(bound: u32, bad: &Option<BadSchedule>) -> u32
    ensures { result ≡ second_bound bound bad.now }
{
    match bad {
        None => bound,
        Some(bad) => bad.preemptions.min(BOUND),
    }
}

// The search to report, of two of a text: the second, unless only the first found a bad schedule.
fn reported_search(first: Found, second: Found) -> Found
    ensures { result ≡ told_search first second }
{
    if second.bad.is_none() && first.bad.is_some() {
        first
    } else {
        second
    }
}
