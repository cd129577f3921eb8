//! A diagnostic as a value, and its lines.

use guest_syntax::place::Pos;
use std::alloc::AllocError;
use std::fmt;

// How many bytes of a source line are shown at most.
const SHOWN: usize = 92;

/// Consecutive bytes of a text.
#[derive(Clone, Copy, PartialEq, Eq)]
pub struct Span {
    /// The line and the column of the first byte.
    pub at: Pos,
    /// How many bytes there are.
    pub length: usize,
}

/// A note on a diagnostic: what is odd about another place of the text, or what to write instead.
#[derive(Drop)]
pub struct Note {
    /// The bytes that the note is of, if it is of a place.
    pub span: Option<Span>,
    /// What the note says.
    pub text: Vec<u8>,
}

/// How grave a diagnostic is, the gravest first.
#[derive(Clone, Copy, PartialEq, Eq)]
pub enum Severity {
    /// The text is refused.
    Refusal,
    /// Something is likely to be wrong.
    Warning,
    /// Nothing needs to be wrong, but something may be of interest.
    Remark,
}

impl fmt::Display for Severity {
    /// Writes the word for the severity, which is `error` for a refusal.
    fn fmt<W: fmt::Write>(&self, f: &mut fmt::Formatter<W>) -> fmt::Result {
        f.write_str(match self {
            Severity::Refusal => "error",
            Severity::Warning => "warning",
            Severity::Remark => "remark",
        })
    }
}

/// A refusal of a text, or a warning or a remark on it, with what a person is told of it.
#[derive(Drop)]
pub struct Diagnostic {
    /// How grave the diagnostic is.
    pub severity: Severity,
    /// The short form, in one line: of a refusal, what the commands but `check` print after
    /// `ctxbound: `.
    pub headline: String,
    /// The bytes of the text that are marked; `None` where the diagnostic has no place.
    pub span: Option<Span>,
    /// What was found at the place, or wanted there.
    pub message: Vec<u8>,
    /// What is said after the message.
    pub notes: Vec<Note>,
}

impl Diagnostic {
    /// The number and the name of the kind of diagnostic, as `S1` and `NotAscii`: the second and
    /// the third word of the headline.
    pub fn code(&self) -> (&str, &str) {
        let mut words = self.headline.as_str().split(' ').skip(1);
        (words.next().unwrap_or(""), words.next().unwrap_or(""))
    }

    /// The line and the column of the diagnostic; where it has no place, the greatest numbers,
    /// which sort after all places.
    pub fn place(&self) -> (u32, u32) {
        self.span
            .map_or((u32::MAX, u32::MAX), |span| (span.at.line, span.at.col))
    }

    /// Adds to `out` the lines of a diagnostic on a text: the headline, the source line with carets
    /// under the bytes of the span, if there is one, the message, and the notes, with dashes under
    /// the bytes of theirs. Fails where memory runs out.
    pub fn put(&self, out: &mut Vec<u8>, text: &[u8]) -> Result<(), AllocError> {
        out.extend_from_slice(b"ctxbound: ")?;
        out.extend_from_slice(self.headline.as_bytes())?;
        out.push(b'\n')?;
        put_message(out, text, self.span, b'^', &self.message)?;
        for note in &self.notes {
            put_message(out, text, note.span, b'-', &note.text)?;
        }
        Ok(())
    }
}

/// A line of a text, without its line feed; empty where there is no such line. Lines count from 1.
pub fn line_of(text: &[u8], line: u32) -> &[u8] {
    let mut lines = text.split(|byte| *byte == b'\n');
    lines.nth((line as usize).saturating_sub(1)).unwrap_or(&[])
}

/// Adds bytes of a source line to `out`, each as one printable character: a blank for a tab and a
/// carriage return, a question mark for any other byte that can't be printed. Fails where memory
/// runs out.
pub fn put_shown(out: &mut Vec<u8>, bytes: &[u8]) -> Result<(), AllocError> {
    for byte in bytes {
        out.push(match *byte {
            b'\t' | b'\r' => b' ',
            b' '..=b'~' => *byte,
            _ => b'?',
        })?;
    }
    Ok(())
}

// Adds `count` copies of a byte to `out`.
fn put_copies(out: &mut Vec<u8>, byte: u8, count: usize) -> Result<(), AllocError> {
    for _ in 0..count {
        out.push(byte)?;
    }
    Ok(())
}

// Adds to `out` the part of a span's line that is shown, and below it the byte `mark` under each of
// the span's bytes that is seen, at least once. Of a line longer than `SHOWN`, that many bytes are
// shown, with the span's first byte as near to their middle as can be.
fn put_span(out: &mut Vec<u8>, text: &[u8], span: Span, mark: u8) -> Result<(), AllocError> {
    let line = line_of(text, span.at.line);
    let column = (span.at.col as usize).saturating_sub(1);
    let hidden = line.len().saturating_sub(SHOWN);
    let from = column.saturating_sub(SHOWN / 2).min(hidden);
    let rest = line.get(from..).unwrap_or(&[]);
    let margin = format!(in *out.allocator(); "{:>5} | ", span.at.line)?;
    out.extend_from_slice(margin.as_bytes())?;
    put_shown(out, rest.get(..SHOWN).unwrap_or(rest))?;
    out.extend_from_slice(b"\n      | ")?;
    let column = column.saturating_sub(from);
    put_copies(out, b' ', column)?;
    put_copies(
        out,
        mark,
        span.length.min(SHOWN.saturating_sub(column)).max(1),
    )
}

// Adds to `out` the message `said` of a diagnostic or a note and a line feed: after the marks of
// its span, if there is one, else alone in its line; the line feed alone where `said` is empty.
fn put_message(
    out: &mut Vec<u8>,
    text: &[u8],
    span: Option<Span>,
    mark: u8,
    said: &[u8],
) -> Result<(), AllocError> {
    if let Some(span) = span {
        put_span(out, text, span, mark)?;
    }
    if !said.is_empty() {
        let lead: &[u8] = if span.is_some() { b" " } else { b"      = " };
        out.extend_from_slice(lead)?;
        out.extend_from_slice(said)?;
    }
    out.extend_from_slice(b"\n")
}
