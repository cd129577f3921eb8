//! What became of one file of a suite, and the status of the file.

ghost use Rattle.std.specs.Prelude.{◌≡◌, None};
ghost use Rattle.ctxbound_suite.specs.Suites.{OutcomeMeans};
ghost use Rattle.ctxbound_suite.specs.Statuses.{bad_status, fewest_status, one_unless, status_of, unfound_status};

use crate::expectation::{Expectation, ExpectedVerdict, expectation_lookalike_line};
use crate::found::BadSchedule;
use crate::searches::{SearchResult, search};
use ctxbound_answers::{Host, Limits};
use runner::{ExploreError, Verdict};
use semantics::view::Kind;

/// What became of a file.
#[derive(Drop)]
pub enum Outcome {
    /// The text of the file was searched.
    Searched(SearchResult),
    /// The text of the file is refused, or memory ran out.
    Refused(ExploreError),
    /// It is unclear what is expected: the line of this number, counted from 1, is an expectation
    /// that states no verdict, or isn't the first. Nothing was searched.
    Unclear(u64),
    /// The file couldn't be read, for this cause.
    Unread(String),
}

/// A file of a suite, and what became of it.
#[derive(Drop)]
pub struct Entry {
    /// The name of the file.
    pub file: String,
    /// What the text of the file expects.
    pub expected: Option<ExpectedVerdict>,
    /// The number of a line that looks like an expectation and isn't read as one, if there is one.
    pub lookalike: Option<u64>,
    /// What became of the file.
    pub outcome: Outcome,
}

impl Entry {
    /// Searches the guest program that the text of a file spells, within these limits, and answers
    /// the file's entry. Where it is unclear what the text expects, nothing is searched.
    pub fn of_text<H: Host>(rt: &H, file: String, text: &[u8], limits: Limits) -> Entry
        ensures file { result.file ≡ file }
        ensures outcome { OutcomeMeans text.now limits result.outcome }
    {
        let expected = match Expectation::of_text(text) {
            Expectation::Absent => None,
            Expectation::Stated(expected) => Some(expected),
            Expectation::Unclear(line) => return Entry::unsearched(file, Outcome::Unclear(line)),
        };
        let outcome = match search(rt, text, limits) {
            Ok(searched) => Outcome::Searched(searched),
            Err(error) => Outcome::Refused(error),
        };
        Entry {
            file,
            expected,
            lookalike: expectation_lookalike_line(text),
            outcome,
        }
    }

    /// The entry of a file that isn't searched, for the reason that `outcome` says.
    pub fn unsearched(file: String, outcome: Outcome) -> Entry
        ensures { result ≡
            record { file = file; expected = None; lookalike = None; outcome = outcome } }
    {
        Entry {
            file,
            expected: None,
            lookalike: None,
            outcome,
        }
    }

    /// The file's status: 0 where its guest is as expected, or is clean and nothing was expected; 1
    /// where the guest isn't as expected, or is bad and nothing was expected; 2 where the text or
    /// its expectation is refused; 3 where the search was cut short before it was known whether the
    /// status is 0 or 1; 4 where memory ran out or the file couldn't be read.
    pub fn status(&self) -> u8
        ensures { result ≡ status_of self.now }
    {
        match &self.outcome {
            Outcome::Searched(searched) => match &searched.found.bad {
                Some(bad) => status_with_bad(self.expected, bad, searched.clear),
                None => status_without_bad(self.expected, &searched.found.report.verdict),
            },
            Outcome::Refused(ExploreError::OutOfMemory) | Outcome::Unread(_) => 4,
            Outcome::Refused(_) | Outcome::Unclear(_) => 2,
        }
    }
}

// The status of a file where the bad schedule `bad` was found, and none with fewer preemptions than
// `clear` is bad: 0 where `bad` is as expected, 1 where it isn't or nothing was expected, 3 where a
// number of preemptions was expected, and it isn't known whether that is the fewest.
fn status_with_bad(expected: Option<ExpectedVerdict>, bad: &BadSchedule, clear: u64) -> u8
    ensures { result ≡ bad_status expected bad.now clear }
{
    match expected {
        Some(ExpectedVerdict::Bad) => 0,
        Some(ExpectedVerdict::BadAt(preemptions)) => {
            status_by_preemptions(u64::from(preemptions), u64::from(bad.preemptions), clear)
        }
        Some(ExpectedVerdict::Failed) => status_by_expectation(bad.kind == Kind::Failed),
        Some(ExpectedVerdict::Stuck) => status_by_expectation(bad.kind == Kind::Stuck),
        Some(ExpectedVerdict::Clean) | None => 1,
    }
}

// The status of a file by whether its expectation is met: 0 where it is, else 1.
fn status_by_expectation(is_met: bool) -> u8
    ensures { result ≡ one_unless is_met }
{
    if is_met { 0 } else { 1 }
}

// The status of a file where the fewest preemptions of a bad schedule were expected to be
// `expected`, a bad schedule with `preemptions` was found, and none with fewer than `clear` is bad:
// 0 where the fewest are as many as expected, 1 where they can't be, 3 where the search didn't go
// far enough to know.
fn status_by_preemptions(expected: u64, preemptions: u64, clear: u64) -> u8
    ensures { result ≡ fewest_status expected preemptions clear }
{
    if preemptions < expected || expected < clear {
        1
    } else if expected == preemptions && expected == clear {
        0
    } else {
        3
    }
}

// The status of a file where no bad schedule was found: 3 where the search was cut short, 0 where
// no bad schedule was expected, else 1.
fn status_without_bad(expected: Option<ExpectedVerdict>, verdict: &Verdict) -> u8
    ensures { result ≡ unfound_status expected verdict.now }
{
    match (expected, verdict) {
        (_, Verdict::Incomplete { .. }) => 3,
        (Some(ExpectedVerdict::Clean) | None, _) => 0,
        (Some(_), _) => 1,
    }
}
