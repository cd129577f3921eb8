//! A program, and where its parts are in its text.

ghost use Rattle.std.specs.Prelude.{◌<◌};
ghost use Rattle.guest_code.specs.SourceMap.{IsMapOf};

use check_hints::diagnostic::{Diagnostic, Severity};
use check_hints::message::Message;
use check_hints::pieces::{START, span_at, text_of};
use guest_code::program::{Instruction, Program};
use guest_code::source_map::SourceMap;
use guest_syntax::pieces::Piece;
use guest_syntax::place::Pos;
use guest_syntax::tree::Tree;
use std::alloc::AllocError;

/// A program, and where its parts are in its text.
#[derive(Clone, Copy)]
pub struct Compiled<'a> {
    /// The tree that the text spells.
    pub tree: &'a Tree,
    /// The tree's program.
    pub program: &'a Program,
    /// The places of the program's instructions, and the names of its locals.
    pub map: &'a SourceMap,
    /// The pieces of the text.
    pub pieces: &'a [Piece<'a>],
    ghost fits: { IsMapOf map.now program.now },
}

impl<'a> Compiled<'a> {
    /// The flat code of a thread, by its number; empty where there is no such thread.
    pub fn code(&self, thread: u8) -> &'a [Instruction] {
        if thread < self.program.threads() {
            self.program.code(thread)
        } else {
            &[]
        }
    }

    /// The place in the text of the statement that a thread's instruction at an index is of; the
    /// start of the text where there is no such instruction.
    pub fn place(&self, thread: u8, at: usize) -> Pos {
        if thread < self.program.threads() && at < self.program.code(thread).len() {
            return self.map.place(thread, at);
        }
        START
    }

    /// The name of a thread, by its number; empty where there is no such thread.
    pub fn thread_name(&self, thread: u8) -> &'a str {
        if thread < self.program.threads() {
            text_of(self.program.thread_name(thread))
        } else {
            ""
        }
    }

    /// The name of a thread's local, by their numbers; empty where there is no such local.
    pub fn local_name(&self, thread: u8, local: usize) -> &'a str {
        if thread < self.program.threads() && local < self.program.locals(thread) {
            text_of(self.map.local_name(thread, local))
        } else {
            ""
        }
    }

    /// Adds to `all` a diagnostic with this message on the piece at a place, of this severity, and
    /// with this number and name, as `W9 MayLack`; unless `all` has one with these and this place.
    /// Fails where memory runs out.
    pub fn add_diagnostic(
        &self,
        all: &mut Vec<Diagnostic>,
        (severity, name): (Severity, &str),
        at: Pos,
        message: Message,
    ) -> Result<(), AllocError> {
        let headline = format!(in message.allocator(); "{severity} {name} at {at}")?;
        for diagnostic in all.as_slice() {
            if diagnostic.headline == headline {
                return Ok(());
            }
        }
        let span = span_at(self.pieces, at);
        all.push(message.into_diagnostic(severity, headline, Some(span)))?;
        Ok(())
    }
}
