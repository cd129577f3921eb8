//! Text in lines of a width: rows of columns, and words that go on in further lines where they
//! don't fit. And where the lines of a text come from that a preprocessor wrote.
#![tactic(auto)]

mod columns;
mod file_line;
mod marks;

pub use crate::columns::{Columns, Content, GAP, STEP, line_cell};
pub use crate::file_line::{FileLine, InLine};
pub use crate::marks::{Marks, Origin};
use std::alloc::{AllocError, Global};
use std::fmt::{self, Display};

/// Nothing where all was written, or the error that memory ran out.
pub type Written = Result<(), AllocError>;

/// A text that is written line by line. Words that don't fit into its width go on in further lines.
/// Each character takes one column.
#[derive(Drop)]
pub struct Page {
    lines: Lines,
    // The words of the line that is being written.
    words: String,
}

// The lines that were written, and how wide they are at most.
#[derive(Drop)]
struct Lines {
    text: String,
    width: usize,
}

impl Page {
    /// A page without a line, for lines of at most `width` columns.
    pub fn new(alloc: Global, width: usize) -> Page {
        let text = String::new(alloc);
        Page {
            lines: Lines { text, width },
            words: String::new(alloc),
        }
    }

    /// The bytes of the text.
    pub fn into_bytes(self) -> Vec<u8> {
        self.lines.text.into_bytes()
    }

    /// Adds an empty line.
    pub fn put_empty_line(&mut self) -> Written {
        self.lines.text.push('\n')
    }

    /// Adds a line as it is, however wide.
    pub fn put_unwrapped(&mut self, line: &str) -> Written {
        self.lines.text.push_str(line)?;
        self.lines.text.push('\n')
    }

    /// Adds words to the line that is being written.
    pub fn write<D: Display + Drop>(&mut self, words: D) -> Written {
        self.words.write(words)
    }

    /// Adds words to the line that is being written: what `write!` calls.
    pub fn write_fmt<D: Display + Drop>(&mut self, words: D) -> Written {
        self.words.write(words)
    }

    /// Whether no words of a line are being written.
    pub fn is_at_line_start(&self) -> bool {
        self.words.is_empty()
    }

    /// Ends the line that is being written, which begins at column `start`. What doesn't fit goes to
    /// further lines, from column `indent` on.
    pub fn end_line(&mut self, start: usize, indent: usize) -> Written {
        self.end_columns("", start, indent)
    }

    /// Adds words as a line. What doesn't fit goes to further lines, from column `indent` on.
    pub fn put_line<D: Display + Drop>(&mut self, words: D, indent: usize) -> Written {
        self.write(words)?;
        self.end_line(0, indent)
    }

    /// Ends the line that is being written, as the second of two columns: it begins at the column
    /// `start`, or one space after `first` where that is longer. What doesn't fit goes to further
    /// lines, from column `indent` on.
    pub fn end_columns(&mut self, first: &str, start: usize, indent: usize) -> Written {
        let second = self.words.as_str();
        self.lines.put_columns(first, second, start, indent)?;
        self.words.clear();
        Ok(())
    }
}

impl Lines {
    // Adds a line of two columns, as [`Page::end_columns`] says.
    fn put_columns(&mut self, first: &str, second: &str, start: usize, indent: usize) -> Written {
        self.text.push_str(first)?;
        let column = width_of(first);
        if !second.is_empty() {
            let gap = start.saturating_sub(column).max(usize::from(column > 0));
            self.put_words(second, column, gap, indent)?;
        }
        self.text.push('\n')
    }

    // Adds words to the last line, which has `from` columns, after `gap` spaces. What doesn't fit
    // goes to further lines, from column `indent` on.
    fn put_words(&mut self, words: &str, from: usize, mut gap: usize, indent: usize) -> Written {
        let mut column = from;
        let mut is_first = from <= indent;
        for word in words.split(' ') {
            if !word.is_empty() {
                let end = column.saturating_add(gap).saturating_add(width_of(word));
                if !is_first && end > self.width {
                    self.put_line_break(indent)?;
                    column = indent;
                } else {
                    self.put_spaces(gap)?;
                    column = column.saturating_add(gap);
                }
                column = self.put_word(word, column, indent)?;
                is_first = false;
                gap = 0;
            }
            gap = usize::saturating_add(gap, 1);
        }
        Ok(())
    }

    // Adds a word to the last line, which has `from` columns. What doesn't fit goes to further
    // lines, from column `indent` on. Answers how many columns the last line has then.
    fn put_word(&mut self, word: &str, from: usize, indent: usize) -> Result<usize, AllocError> {
        let mut column = from;
        for letter in word.chars() {
            if column >= self.width {
                self.put_line_break(indent)?;
                column = indent;
            }
            self.text.push(letter)?;
            column = column.saturating_add(1);
        }
        Ok(column)
    }

    // Ends the last line, and begins a new one with `indent` spaces.
    fn put_line_break(&mut self, indent: usize) -> Written {
        self.text.push('\n')?;
        self.put_spaces(indent)
    }

    // Adds as many spaces as `spaces` says.
    fn put_spaces(&mut self, spaces: usize) -> Written {
        put_repeated(&mut self.text, ' ', spaces)
    }
}

/// How many columns a text takes: one for each of its characters.
pub fn width_of(text: &str) -> usize {
    text.chars().count()
}

/// Adds a character to a text as often as `times` says.
pub fn put_repeated(text: &mut String, letter: char, times: usize) -> Written {
    for _ in 0..times {
        text.push(letter)?;
    }
    Ok(())
}

/// Adds spaces to a row until it has `column` columns, but at least one where it isn't empty.
pub fn pad_to(row: &mut String, column: usize) -> Written {
    let least = usize::from(!row.is_empty());
    let spaces = column.saturating_sub(width_of(row.as_str())).max(least);
    put_repeated(row, ' ', spaces)
}

/// Adds a word to a row. Of a word of more than `columns` columns it adds two dots, and before them
/// as much of its beginning as fits into `columns` with them.
pub fn put_truncated(row: &mut String, word: &str, columns: usize) -> Written {
    if width_of(word) <= columns {
        return row.push_str(word);
    }
    for letter in word.chars().take(columns.saturating_sub(2)) {
        row.push(letter)?;
    }
    row.push_str("..")
}

/// A word quoted for a shell: in single quotes, where a single quote in it is `'\''`, if it is empty
/// or has anything but letters, digits and signs that a shell takes as they are.
pub fn shell_quoted(alloc: Global, word: &str) -> Result<String, AllocError> {
    let is_plain = |byte: &u8| byte.is_ascii_alphanumeric() || b"_./+-@%:,".contains(byte);
    if !word.is_empty() && word.as_bytes().iter().all(is_plain) {
        return word.to_string(alloc);
    }
    format!(in alloc; "'{}'", word.replace(alloc, "'", "'\\''")?)
}

/// A number and the singular of what is counted, printed as `1 step` or `2 steps`.
#[derive(Clone, Copy)]
pub struct Count<'a>(pub usize, pub &'a str);

impl fmt::Display for Count<'_> {
    /// Writes the number and what is counted, as `1 step` or `2 steps`.
    fn fmt<W: fmt::Write>(&self, f: &mut fmt::Formatter<W>) -> fmt::Result {
        let ending = if self.0 == 1 { "" } else { "s" };
        write!(f, "{} {}{ending}", self.0, self.1)
    }
}
