//! A line of a file, as it is printed: with the name of the file or without.

use std::fmt;

/// A line of a file, printed as `12`, or as `worker.inc:12` with the name of the file.
#[derive(Clone, Copy)]
pub struct FileLine<'a> {
    /// The name of the file.
    pub file: &'a str,
    /// The line, counted from 1.
    pub line: u32,
    /// Whether the name is printed: where a text comes from several files.
    pub is_named: bool,
}

impl FileLine<'_> {
    /// The same line, to be printed with the name of its file.
    pub fn with_name(self) -> Self {
        FileLine {
            file: self.file,
            line: self.line,
            is_named: true,
        }
    }
}

impl fmt::Display for FileLine<'_> {
    /// Writes the number of the line, after the file's name and a colon where that is printed.
    fn fmt<W: fmt::Write>(&self, f: &mut fmt::Formatter<W>) -> fmt::Result {
        if self.is_named {
            write!(f, "{}:", self.file)?;
        }
        write!(f, "{}", self.line)
    }
}

/// A line of a file, printed for use in a sentence: `line 12`, or `worker.inc:12`.
#[derive(Clone, Copy)]
pub struct InLine<'a>(pub FileLine<'a>);

impl fmt::Display for InLine<'_> {
    /// Writes `line 12`, or `worker.inc:12` where the name of the file is printed.
    fn fmt<W: fmt::Write>(&self, f: &mut fmt::Formatter<W>) -> fmt::Result {
        let word = if self.0.is_named { "" } else { "line " };
        write!(f, "{word}{}", self.0)
    }
}
