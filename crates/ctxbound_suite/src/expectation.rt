//! What the comments of a guest's text expect of the guest.

use std::fmt;

/// What is expected of a guest.
#[derive(Clone, Copy, PartialEq, Eq)]
pub enum ExpectedVerdict {
    /// That some schedule is bad.
    Bad,
    /// That some schedule is bad, and that those of fewest preemptions have this many.
    BadAt(u32),
    /// That some schedule is bad, and that the first of those with fewest preemptions fails.
    Failed,
    /// That some schedule is bad, and that the first of those with fewest preemptions gets stuck.
    Stuck,
    /// That no schedule that is tried is bad.
    Clean,
}

impl fmt::Display for ExpectedVerdict {
    // The words after `# expect:` that state the verdict.
    fn fmt<W: fmt::Write>(&self, f: &mut fmt::Formatter<W>) -> fmt::Result {
        match self {
            ExpectedVerdict::Bad => write!(f, "bad"),
            ExpectedVerdict::BadAt(preemptions) => write!(f, "bad {preemptions}"),
            ExpectedVerdict::Failed => write!(f, "failed"),
            ExpectedVerdict::Stuck => write!(f, "stuck"),
            ExpectedVerdict::Clean => write!(f, "clean"),
        }
    }
}

/// What the comments of a text expect.
#[derive(Clone, Copy, PartialEq, Eq)]
pub enum Expectation {
    /// No line states a verdict.
    Absent,
    /// One line, `# expect: WORDS`, states this verdict.
    Stated(ExpectedVerdict),
    /// The line of this number, counted from 1, begins with `# expect:`, and states no verdict or
    /// comes after a line that begins so.
    Unclear(u64),
}

impl Expectation {
    /// What a text expects by a line `# expect: WORDS`, or `#pragma expect: WORDS`, which the C
    /// preprocessor lets through: unclear where there are two such lines, or the words state no
    /// verdict. Blanks around the `#`, around the words, and at both ends of the line make no
    /// difference.
    pub fn of_text(text: &[u8]) -> Expectation {
        let mut found = Expectation::Absent;
        for (line, number) in text.split(|b| *b == b'\n').zip(1u64..) {
            match (found, expectation_words(line)) {
                (_, None) => {}
                (Expectation::Absent, Some(words)) => {
                    found = parse_expected_verdict(words).map_or(
                        Expectation::Unclear(number),
                        Expectation::Stated,
                    );
                }
                (_, Some(_)) => return Expectation::Unclear(number),
            }
        }
        found
    }
}

// The verdict that words such as `bad 2` state; `None` where they state none.
fn parse_expected_verdict(words: &[u8]) -> Option<ExpectedVerdict> {
    match words {
        b"bad" => Some(ExpectedVerdict::Bad),
        b"failed" => Some(ExpectedVerdict::Failed),
        b"stuck" => Some(ExpectedVerdict::Stuck),
        b"clean" => Some(ExpectedVerdict::Clean),
        _ => {
            let number = words.strip_prefix(b"bad ")?.trim_ascii();
            Some(ExpectedVerdict::BadAt(parse_decimal(number)?))
        }
    }
}

// The number that these bytes spell in decimal; `None` where they are empty or not digits alone, or
// the number is too great for a `u32`.
fn parse_decimal(digits: &[u8]) -> Option<u32> {
    let text = str::from_utf8(digits).ok()?;
    if digits.iter().all(u8::is_ascii_digit) {
        text.parse().ok()
    } else {
        None
    }
}

// The words after `# expect:` in a line; `None` where the line is no such comment.
fn expectation_words(line: &[u8]) -> Option<&[u8]> {
    let comment = line.trim_ascii().strip_prefix(b"#")?;
    let words = without_pragma(comment).strip_prefix(b"expect:")?;
    Some(words.trim_ascii())
}

// What a comment says after its `#`, without the word `pragma` if it begins so, and without the
// blanks around.
fn without_pragma(comment: &[u8]) -> &[u8] {
    let words = comment.trim_ascii();
    match words.strip_prefix(b"pragma") {
        Some(rest) if rest.first().is_some_and(u8::is_ascii_whitespace) => rest.trim_ascii(),
        _ => words,
    }
}

/// The number, counted from 1, of the first line with a comment that looks like an expectation and
/// isn't read as one: the comment is misspelt, or there is code before it. `None` where no line has
/// one.
pub fn expectation_lookalike_line(text: &[u8]) -> Option<u64> {
    let mut lines = text.split(|b| *b == b'\n').zip(1u64..);
    let (_, number) = lines.find(|(line, _)| expectation_words(line).is_none()
        && is_lookalike(line))?;
    Some(number)
}

// Whether the comment of a line begins with a word like `expect`, of any case and with any ending,
// and after it comes a colon, an equals sign, or words that state a verdict. A line that is read as
// an expectation is a lookalike by this, too.
fn is_lookalike(line: &[u8]) -> bool {
    let Some(sign) = line.iter().position(|b| *b == b'#') else {
        return false;
    };
    let comment = without_pragma(trim_start_matches(
        line.split_at(sign).1,
        |b| b == b'#' || b.is_ascii_whitespace(),
    ));
    if comment.len() < EXPECT.len() {
        return false;
    }
    let (word, ending) = comment.split_at(EXPECT.len());
    let rest = trim_start_matches(ending, |b| b.is_ascii_alphabetic()).trim_ascii();
    let is_marked = rest.starts_with(b":") || rest.starts_with(b"=");
    word.eq_ignore_ascii_case(EXPECT) && (is_marked || parse_expected_verdict(rest).is_some())
}

// How a word like `expect` begins, in lower case.
const EXPECT: &[u8] = b"expect";

// A text without the bytes at its start for which `trims` is true.
fn trim_start_matches<F: Fn(u8) -> bool>(text: &[u8], trims: F) -> &[u8]
    requires { (f : _) (x : _) → F.pre f x }
{
    let start = text.iter().position(|b| !trims(*b)).unwrap_or(text.len());
    text.split_at(start).1
}
