//! The marks (line markers) by which a preprocessor says where the lines of its output come from.

use crate::file_line::FileLine;
use std::alloc::{AllocError, Global};
use std::rc::Rc;
use std::str::from_utf8;

/// The line of a file from which a line of a text comes.
#[derive(Drop)]
pub struct Origin {
    // The name of the file, as a mark has it.
    file: Rc<Vec<u8>>,
    // The line, counted from 1.
    line: u32,
}

impl Origin {
    /// The name of the file that the line comes from, as a mark has it.
    pub fn file(&self) -> &[u8] {
        &self.file
    }

    /// The line of that file, counted from 1.
    pub fn line(&self) -> u32 {
        self.line
    }
}

/// Where the lines of a text come from, by the marks in it: a comment `# 12 "file"` or `#line 12
/// "file"` says that the line after it is line 12 of that file.
#[derive(Drop)]
pub struct Marks {
    // Where each line comes from.
    origins: Vec<Option<Origin>>,
    // Whether the lines that have more than blanks and a comment come from several files.
    has_several_files: bool,
}

// What a mark says: from which line of which file the next line comes. An empty name stands for the
// file of the mark before.
#[derive(Clone, Copy)]
struct Mark<'a> {
    file: &'a [u8],
    line: u32,
}

// The number that decimal digits spell; where it is too large, the largest of 32 bits.
fn number_of(digits: &[u8]) -> u32 {
    let mut number = 0u32;
    for digit in digits {
        let value = u32::from(digit.saturating_sub(b'0'));
        number = number.saturating_mul(10).saturating_add(value);
    }
    number
}

// The name of a file in what comes after the number of a mark: a blank, the name in quotes, and
// flags, which are digits and blanks. `None` where the text is of another form.
fn quoted_name(text: &[u8]) -> Option<&[u8]> {
    let text = text.strip_prefix(b" \"")?;
    let end = text.iter().position(|byte| *byte == b'"')?;
    let (name, rest) = text.split_at_checked(end)?;
    let are_flags = rest
        .iter()
        .skip(1)
        .all(|byte| matches!(byte, b'0'..=b'9' | b' ' | b'\r'));
    are_flags.then_some(name)
}

// The mark that a line of a text is, as `# 12 "file" 2`, `#line 12 "file"` or `#line 12`; `None`
// where the line is no mark.
fn mark_of(text: &[u8]) -> Option<Mark<'_>> {
    let (words, is_name_required) = match text.strip_prefix(b"#line ") {
        Some(words) => (words, false),
        None => (text.strip_prefix(b"# ")?, true),
    };
    let digits = words
        .iter()
        .take_while(|byte| byte.is_ascii_digit())
        .count();
    let (number, rest) = words.split_at_checked(digits)?;
    if number.is_empty() {
        return None;
    }
    let file = if rest.is_empty() && !is_name_required {
        rest
    } else {
        quoted_name(rest)?
    };
    Some(Mark {
        file,
        line: number_of(number),
    })
}

// Where the line after a line with this text comes from, where the line itself comes from `here`:
// from where the text says if it is a mark, else from the line after `here`. `None` where neither
// the text nor a mark before it names a file.
fn following_origin(
    alloc: Global,
    here: &Option<Origin>,
    text: &[u8],
) -> Result<Option<Origin>, AllocError> {
    let (file, line) = match (mark_of(text), here) {
        (Some(mark), _) if !mark.file.is_empty() => {
            (
                Rc::new(alloc, Vec::from_slice(alloc, mark.file)?)?,
                mark.line,
            )
        }
        (Some(mark), Some(here)) => (here.file.clone()?, mark.line),
        (None, Some(here)) => (here.file.clone()?, here.line.saturating_add(1)),
        (_, None) => return Ok(None),
    };
    Ok(Some(Origin { file, line }))
}

// Whether the lines of a text that have more than blanks and a comment come from several files,
// where `origins` are the origins of all lines. The text counts as one of the files.
fn has_several_files(origins: &[Option<Origin>], text: &[u8]) -> bool {
    let lines = text.split(|byte| *byte == b'\n').zip(origins);
    let mut files = lines.filter_map(|(line, origin)| {
        let code = line.trim_ascii();
        let has_code = !code.is_empty() && !code.starts_with(b"#");
        has_code.then_some(origin.as_ref().map(|origin| origin.file()))
    });
    match files.next() {
        Some(first) => files.any(|file| file != first),
        None => false,
    }
}

impl Marks {
    /// Where the lines of a text come from, by the marks in it. Fails where memory runs out.
    pub fn new(alloc: Global, text: &[u8]) -> Result<Marks, AllocError> {
        let mut origins = Vec::new(alloc);
        let mut here = None;
        for line in text.split(|byte| *byte == b'\n') {
            let after = following_origin(alloc, &here, line)?;
            origins.push(here)?;
            here = after;
        }
        let has_several_files = has_several_files(origins.as_slice(), text);
        Ok(Marks {
            origins,
            has_several_files,
        })
    }

    /// Where a line of the text comes from; `None` where no mark before the line tells it, or there
    /// is no such line. Lines count from 1.
    pub fn origin(&self, line: u32) -> Option<&Origin> {
        let at = (line as usize).checked_sub(1)?;
        self.origins.get(at)?.as_ref()
    }

    /// Where a line of the text comes from, to be printed: the line of a file that the marks before
    /// it say, or else the line itself, of the file with the name `read`, which was read.
    pub fn file_line<'a>(&'a self, read: &'a str, line: u32) -> FileLine<'a> {
        let (file, line) = match self.origin(line) {
            Some(origin) => (printable_name(origin.file()), origin.line),
            None => (read, line),
        };
        FileLine {
            file,
            line,
            is_named: self.has_several_files,
        }
    }
}

// The name of a file as it is printed; a question mark where it isn't UTF-8 or has a control
// character.
fn printable_name(name: &[u8]) -> &str {
    match from_utf8(name) {
        Ok(name) if !name.chars().any(char::is_control) => name,
        _ => "?",
    }
}
