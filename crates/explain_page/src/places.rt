//! What statements say, where they are in the text, and which files its lines come from.

use crate::facts::Facts;
use crate::writer::{Token, Writer};
use explain_run::{Statement, name_text};
use guest_syntax::Pos;
use guest_syntax::pieces::Pieces;
use serde::{Serialize, Serializer};
use std::alloc::{AllocError, Global};
use std::collections::BTreeMap;

/// A line and a column of the text, counted from 1.
#[derive(Clone, Copy, Drop, Serialize)]
pub struct TextPlace {
    column: u32,
    line: u32,
}

/// The place after the last byte of each statement, by the line and column of its first byte.
pub type StatementEnds = BTreeMap<(u32, u32), TextPlace>;

/// Where the statements of a text end: after the `;`, or, of a statement that has a block, after
/// what comes before the `{`. Each `}` has an entry of its own, which is never looked up. A column
/// too great for a `u32` is told as the greatest one.
pub fn statement_ends(alloc: Global, text: &[u8]) -> Result<StatementEnds, AllocError> {
    let mut ends = StatementEnds::new(alloc);
    let mut begin = None;
    let mut end = TextPlace { column: 1, line: 1 };
    for piece in Pieces::new(text) {
        let Pos { line, col } = piece.at;
        let first = *begin.get_or_insert((line, col));
        if !matches!(piece.text, b"{") {
            let length = u32::try_from(piece.text.len()).unwrap_or(u32::MAX);
            let column = col.saturating_add(length);
            end = TextPlace { column, line };
        }
        if matches!(piece.text, b"{" | b"}" | b";") {
            ends.insert(first, end)?;
            begin = None;
        }
    }
    Ok(ends)
}

/// A line of a file, from which a line of the text comes by a preprocessor's mark.
#[derive(Clone, Copy, Drop, Serialize)]
pub struct FilePlace<'a> {
    file: &'a str,
    line: u32,
}

/// Consecutive lines of the text, from line `at` on, that come from consecutive lines of a file,
/// from `first` on.
#[derive(Clone, Copy, Drop, Serialize)]
pub struct FileRun<'a> {
    at: u32,
    #[serde(flatten)]
    first: FilePlace<'a>,
}

impl Facts<'_> {
    // Where a statement begins in the text; `None` for the end of a thread's code.
    fn statement_start(&self, statement: Statement<'_>) -> Option<Pos> {
        let (thread, instruction) = (statement.thread, statement.instruction);
        self.told.source.place(thread, instruction)
    }

    // Which line of a file a line of the text comes from, by a preprocessor's marks; `None` where
    // no mark before the line tells it.
    fn line_origin(&self, line: u32) -> Option<FilePlace<'_>> {
        let origin = self.told.marks.origin(line)?;
        Some(FilePlace {
            file: name_text(origin.file()),
            line: origin.line(),
        })
    }

    /// Which lines of the text come from which lines of which files, by a preprocessor's marks: a
    /// run for each longest series of lines that come from consecutive lines of one file. `None`
    /// where the marks tell it of no line.
    pub fn file_runs(&self) -> Result<Option<Vec<FileRun<'_>>>, AllocError> {
        let mut runs = Vec::new(self.told.alloc);
        let (mut at, mut last) = (0_u32, None);
        // a line begins after each line feed; the first one as if one came before it
        for byte in b"\n".iter().chain(self.told.source.text) {
            if *byte == b'\n' {
                at = at.saturating_add(1);
                let origin = self.line_origin(at);
                if let Some(first) = origin
                    && !is_next(last, first)
                {
                    runs.push(FileRun { at, first })?;
                }
                last = origin;
            }
        }
        Ok(if runs.is_empty() { None } else { Some(runs) })
    }
}

// Whether a line of a file comes right after the line `last`, if that is a line of a file.
fn is_next(last: Option<FilePlace<'_>>, next: FilePlace<'_>) -> bool {
    matches!(last, Some(it) if it.file == next.file && it.line.checked_add(1) == Some(next.line))
}

impl<S: Serializer> Writer<'_, S> {
    /// Writes where a statement begins and ends: `column`, `end`, `from` and `line`.
    pub fn put_place(&mut self, statement: Statement<'_>) {
        self.put_extent(statement);
        self.put_line_number(statement)
    }

    /// Writes the `line` in which a statement begins, null at the end of a thread's code. The other
    /// keys of its place are [`Writer::put_extent`]'s: in a step, `held` is between these and it.
    pub fn put_line_number(&mut self, statement: Statement<'_>) {
        match self.facts.statement_start(statement) {
            Some(begin) => self.put("line", begin.line),
            None => self.put("line", ()),
        }
    }

    /// Writes the `column` at which a statement begins and its `end`, null at the end of a thread's
    /// code, and, where a preprocessor's mark comes before it, the line of a file it comes `from`.
    pub fn put_extent(&mut self, statement: Statement<'_>) {
        self.put_extent_from(self.facts.statement_start(statement))
    }

    /// Writes the `column`, `end` and `from` of what begins at a place of the text, as
    /// [`Writer::put_extent`] does of a statement.
    pub fn put_extent_from(&mut self, begin: Option<Pos>) {
        let facts = self.facts;
        let Some(Pos { line, col }) = begin else {
            self.put("column", ());
            return self.put("end", ());
        };
        self.put("column", col);
        self.put("end", facts.ends.get(&(line, col)));
        self.put_some("from", facts.line_origin(line))
    }

    /// Writes the list `turns`, of each loop round a statement which turn it is in and `of` how many,
    /// the outer loop first; nothing where its thread didn't carry it out in a turn after the first.
    pub fn put_turns(&mut self, statement: Statement<'_>) {
        let (thread, instruction) = (statement.thread, statement.instruction);
        let turns = self.facts.told.turns.of(thread, instruction);
        if turns.len() == 0 {
            return;
        }
        self.begin_list("turns");
        for number in 0..turns.len() {
            if let Some((turn, of)) = turns.get(number) {
                self.token(Token::Object);
                self.put("of", of);
                self.put("turn", turn);
                self.token(Token::ObjectEnd);
            }
        }
        self.token(Token::ListEnd);
    }
}
