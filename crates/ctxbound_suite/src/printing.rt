//! What is printed of the files of a suite, a line each: a table for people, or JSON for programs.

use crate::entry::{Entry, Outcome};
use crate::expectation::ExpectedVerdict;
use crate::found::Found;
use crate::searches::SearchResult;
use explain_lines::Marks;
use guest_code::error::CheckError;
use guest_syntax::{Pos, SyntaxError};
use replay::schedule_text;
use runner::{ExploreError, Verdict, report_text};
use std::alloc::{AllocError, Global};
use std::fmt;
use std::fmt::Write;

// The cell of a table where there is nothing to say.
const NOTHING: &str = "-";

/// The columns of a table whose rows are printed one by one. The schedule, of any length, is last:
/// no other column is moved by it.
#[derive(Clone, Copy)]
pub struct Table {
    alloc: Global,
    /// The width of the first column, which is as wide as the longest name.
    file_width: usize,
}

impl Table {
    /// The columns of a table that has no file yet.
    pub fn new(alloc: Global) -> Table {
        Table {
            alloc,
            file_width: "file".len(),
        }
    }

    /// Makes the first column wide enough for a file of this name. Fails where memory runs out.
    pub fn make_room(&mut self, file: &str) -> Result<(), AllocError> {
        let width = escaped(self.alloc, file)?.len();
        self.file_width = self.file_width.max(width);
        Ok(())
    }

    /// The first line of the table, which has the heads of the columns. Fails where memory runs
    /// out.
    pub fn head(&self) -> Result<Vec<u8>, AllocError> {
        let heads = ["verdict", "bound", "preemptions", "tried"];
        self.line("file", heads, "note", "schedule")
    }

    /// The line of a file, in ASCII: its verdict, the bound of the search, the preemptions of the
    /// bad schedule, how many schedules were tried, a note where the verdict isn't all that there
    /// is to say, and the bad schedule. Where the note names a line of the file, and a
    /// preprocessor's `marks` say where that line came from, it names that place. Fails where
    /// memory runs out.
    pub fn row(&self, entry: &Entry, marks: &Marks) -> Result<Vec<u8>, AllocError> {
        let file = escaped(self.alloc, entry.file.as_str())?;
        let note = note_of(self.alloc, entry, marks)?;
        let (file, note) = (file.as_str(), note.as_str());
        let verdict = match &entry.outcome {
            Outcome::Searched(searched) => return self.searched_row(file, searched, note),
            Outcome::Unread(_) => "unread",
            Outcome::Refused(_) | Outcome::Unclear(_) => "refused",
        };
        self.line(file, [verdict, NOTHING, NOTHING, NOTHING], note, "")
    }

    // The line of a file that was searched, with this note: the file, the cells of the search that
    // is reported, the note, and the bad schedule.
    fn searched_row(
        &self,
        file: &str,
        searched: &SearchResult,
        note: &str,
    ) -> Result<Vec<u8>, AllocError> {
        let alloc = self.alloc;
        let Found { report, bad } = &searched.found;
        let bound = number_cell(alloc, report.bound)?;
        let preemptions = number_cell(alloc, bad.as_ref().map(|bad| bad.preemptions))?;
        let schedule = match bad {
            Some(bad) => schedule_text(alloc, bad.steps.as_slice())?,
            None => Vec::new(alloc),
        };
        let schedule = str::from_utf8(schedule.as_slice()).unwrap_or("");
        let tried = report.summary.tried().to_string(alloc)?;
        let cells = [
            verdict_word(&searched.found),
            bound.as_str(),
            preemptions.as_str(),
            tried.as_str(),
        ];
        self.line(file, cells, note, schedule)
    }

    // A line of the table, with its line feed: a cell for each column, as wide as the column, or
    // wider, which moves those after it. `cells` are those between the file and the note. The note
    // and the schedule may be empty; the line doesn't end in a blank.
    fn line(
        &self,
        file: &str,
        cells: [&str; 4],
        note: &str,
        schedule: &str,
    ) -> Result<Vec<u8>, AllocError> {
        let file_width = self.file_width;
        let [verdict, bound, preemptions, tried] = cells;
        let line = format!(in self.alloc;
            "{file:<file_width$}  {verdict:<10}  {bound:<5}  {preemptions:<11}  {tried:<9}  {note:<19}  {schedule}"
        )?;
        Ok(format!(in self.alloc; "{}\n", line.as_str().trim_ascii_end())?.into_bytes())
    }
}

// The verdict of a search in a word: `bad` where it found a bad schedule, even if it was cut short;
// else `incomplete` where it was cut short, and `clean` where it wasn't.
fn verdict_word(found: &Found) -> &'static str {
    match found.report.verdict {
        _ if found.bad.is_some() => "bad",
        Verdict::Incomplete { .. } => "incomplete",
        _ => "clean",
    }
}

// The cell of a table for a number, or a dash where there is none.
fn number_cell(alloc: Global, number: Option<u32>) -> Result<String, AllocError> {
    match number {
        Some(number) => number.to_string(alloc),
        None => NOTHING.to_string(alloc),
    }
}

// A text with each byte that isn't printable ASCII, or is a backslash, as `\x` and two hex digits.
fn escaped(alloc: Global, text: &str) -> Result<String, AllocError> {
    let mut printed = String::new(alloc);
    for byte in text.as_bytes() {
        if (b' '..=b'~').contains(byte) && *byte != b'\\' {
            printed.push(*byte as char)?;
        } else {
            write!(printed, "\\x{byte:02x}")?;
        }
    }
    Ok(printed)
}

// How a note names the line of a file with this number: `line 12`, or `worker.inc:12` where a
// preprocessor's mark says that it came from there. Marks count lines up to `u32::MAX`, which also
// stands for greater numbers.
fn line_name(alloc: Global, marks: &Marks, line: u64) -> Result<String, AllocError> {
    let line = u32::try_from(line).unwrap_or(u32::MAX);
    match marks.origin(line) {
        Some(_) => {
            let told = format!(in alloc; "{}", marks.file_line("", line).with_name())?;
            escaped(alloc, told.as_str())
        }
        None => format!(in alloc; "line {line}"),
    }
}

// The text of a refusal, and after it the place that its line came from, where a preprocessor's
// marks tell it.
fn refusal_text(alloc: Global, marks: &Marks, error: ExploreError) -> Result<String, AllocError> {
    let mut told = format!(in alloc; "{error}")?;
    if let Some(at) = refusal_place(error)
        && marks.origin(at.line).is_some()
    {
        let line = line_name(alloc, marks, u64::from(at.line))?;
        write!(told, " ({line})")?;
    }
    Ok(told)
}

// The place in the text that a refusal names; `None` where it names none.
fn refusal_place(error: ExploreError) -> Option<Pos> {
    match error {
        ExploreError::Syntax(
            SyntaxError::NotAscii(at)
            | SyntaxError::BadChar(at)
            | SyntaxError::Expected(at)
            | SyntaxError::NumberTooBig(at)
            | SyntaxError::TooLong(at)
            | SyntaxError::TooDeep(at),
        )
        | ExploreError::Check(
            CheckError::Duplicate(at)
            | CheckError::Unknown(at)
            | CheckError::WrongKind(at)
            | CheckError::TooMany(at)
            | CheckError::LeaveOutside(at),
        ) => Some(at),
        _ => None,
    }
}

// The note of a file: what there is to say beside its verdict, as remarks with semicolons between
// them; empty where there is nothing. Where it names a line of the file, and a preprocessor's marks
// say where that line came from, it names that place.
fn note_of(alloc: Global, entry: &Entry, marks: &Marks) -> Result<String, AllocError> {
    let mut note = String::new(alloc);
    match &entry.outcome {
        Outcome::Searched(searched) => put_search_remarks(&mut note, entry, searched)?,
        Outcome::Refused(error) => put_remark(&mut note, refusal_text(alloc, marks, *error)?)?,
        Outcome::Unclear(line) => {
            let line = line_name(alloc, marks, *line)?;
            let wanted = "one `# expect:` is wanted, with bad, bad N, failed, stuck or clean";
            put_remark(&mut note, format_args!("{line}: {wanted}"))?;
        }
        Outcome::Unread(cause) => put_remark(&mut note, escaped(alloc, cause.as_str())?)?,
    }
    if let Some(line) = entry.lookalike {
        let line = line_name(alloc, marks, line)?;
        put_remark(
            &mut note,
            format_args!("{line} looks like `# expect:` and isn't"),
        )?;
    }
    Ok(note)
}

// Puts a remark at the end of a note, after a semicolon where the note isn't empty.
fn put_remark<D: fmt::Display + Drop>(note: &mut String, remark: D) -> Result<(), AllocError> {
    let sign = if note.is_empty() { "" } else { "; " };
    write!(note, "{sign}{remark}")
}

// Puts the remarks on a file that was searched at the end of its note: that this was expected, or
// which expectation wasn't seen to be met; and what the search leaves open, if anything. If it was
// cut short and found no bad schedule, nothing is said of an expectation.
fn put_search_remarks(
    note: &mut String,
    entry: &Entry,
    searched: &SearchResult,
) -> Result<(), AllocError> {
    let Found { report, bad } = &searched.found;
    match (entry.expected, entry.status(), bad) {
        (None, _, _) | (_, 3, None) => {}
        (Some(_), 0, _) => put_remark(note, "expected")?,
        (Some(expected), _, _) => put_remark(note, format_args!("{expected} was expected"))?,
    }
    let rest = match (bad, &report.verdict) {
        (Some(bad), _) if u64::from(bad.preemptions) > searched.clear => "fewer preemptions may do",
        (None, Verdict::Clean { all: false }) =>
            "no proof: schedules with more preemptions are left out",
        (None, Verdict::Incomplete { .. }) => "cut short at the limit",
        _ => return Ok(()),
    };
    put_remark(note, rest)
}

/// The JSON of a file, an object and a line feed: `file`, `expect` (what is expected, or null),
/// `status` and `note`, and then the members of its report, or `fault`, which says why it has none.
/// Where the note names a line of the file, and a preprocessor's `marks` say where that line came
/// from, it names that place. Fails where memory runs out.
pub fn json_line(alloc: Global, entry: &Entry, marks: &Marks) -> Result<Vec<u8>, AllocError> {
    let note = note_of(alloc, entry, marks)?;
    let (file, note) = (json_text(alloc, &entry.file)?, json_text(alloc, &note)?);
    let expected = match entry.expected {
        Some(expected) => format!(in alloc; "\"{expected}\"")?,
        None => String::from_str(alloc, "null")?,
    };
    let status = entry.status();
    let line = format!(in alloc;
        "{{\"file\":{file},\"expect\":{expected},\"status\":{status},\"note\":{note},"
    )?;
    let mut line = line.into_bytes();
    match &entry.outcome {
        // the members of the report are these, too
        Outcome::Searched(searched) => {
            let report = report_text(alloc, &searched.found.report)?;
            line.extend_from_slice(report.as_slice().strip_prefix(b"{").unwrap_or(b""))?;
        }
        _ => line.extend_from_slice(format!(in alloc; "\"fault\":{note}}}")?.as_bytes())?,
    }
    line.push(b'\n')?;
    Ok(line)
}

// A text as JSON. The serializer fails only where memory runs out.
fn json_text(alloc: Global, text: &String) -> Result<String, AllocError> {
    serde_json::to_string(alloc, text).map_err(|_| AllocError)
}
