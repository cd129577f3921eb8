//! What is told beside the short form of a diagnostic.

ghost use Rattle.std.specs.Prelude.{◌≡◌};

use crate::diagnostic::{Diagnostic, Note, Severity, Span};
use std::alloc::{AllocError, Global};
use std::fmt::{Display, Write};

/// What a diagnostic says after its short form: words, and notes on them.
#[derive(Drop)]
pub struct Message {
    text: String,
    notes: Vec<Note>,
}

impl Message {
    /// A message without a word or a note.
    pub fn new(alloc: Global) -> Message {
        Message {
            text: String::new(alloc),
            notes: Vec::new(alloc),
        }
    }

    /// The allocator that the memory of the message comes from.
    pub fn allocator(&self) -> Global {
        *self.notes.allocator()
    }

    /// Adds words to the message. Fails where memory runs out.
    pub fn say(&mut self, words: impl Display + Drop) -> Result<(), AllocError> {
        write!(self.text, "{words}")
    }

    /// Adds a note that has no place in the text of the guest. Fails where memory runs out.
    pub fn note(&mut self, note: impl Display + Drop) -> Result<(), AllocError> {
        self.note_at(None, note)
    }

    /// Adds a note without a place, if there is one. Fails where memory runs out.
    pub fn hint(&mut self, hint: Option<&'static str>) -> Result<(), AllocError> {
        match hint {
            Some(hint) => self.note(hint),
            None => Ok(()),
        }
    }

    /// Adds a note on the bytes of a span, or, where that is `None`, one without a place. Fails
    /// where memory runs out.
    pub fn note_at(
        &mut self,
        span: Option<Span>,
        note: impl Display + Drop,
    ) -> Result<(), AllocError> {
        let text = note.to_string(self.allocator())?.into_bytes();
        self.notes.push(Note { span, text })?;
        Ok(())
    }

    /// Turns the message and its notes into a diagnostic of this severity, with the short form
    /// `headline`, on the bytes of the span, if there is one.
    pub fn into_diagnostic(
        self,
        severity: Severity,
        headline: String,
        span: Option<Span>,
    ) -> Diagnostic
        ensures headline { result.headline ≡ headline }
        ensures span { result.span ≡ span }
    {
        Diagnostic {
            severity,
            headline,
            span,
            message: self.text.into_bytes(),
            notes: self.notes,
        }
    }
}
