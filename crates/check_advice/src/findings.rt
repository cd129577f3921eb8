//! The warnings of `check_lint`, with their places, as diagnostics.

use crate::compiled::Compiled;
use check_hints::diagnostic::{Diagnostic, Severity};
use check_hints::message::Message;
use check_hints::pieces::{START, is_boundary, piece_index_at};
use check_lint::uses::Use;
use check_lint::warning::{Subject, Warning, WarningKind};
use check_lint::warnings::all_warnings;
use guest_code::kinds::kind_of;
use guest_syntax::place::Pos;
use std::alloc::AllocError;

// A warning, and the place in the text at which it is told.
#[derive(Clone, Copy)]
struct Finding {
    warning: Warning,
    at: Pos,
}

impl Compiled<'_> {
    // The first place of a name in the statement that begins at `at`; `at` itself where the
    // statement doesn't have the name.
    fn name_place(&self, at: Pos, name: &str) -> Pos {
        let pieces = self.pieces.iter().skip(piece_index_at(self.pieces, at));
        let mut statement = pieces.take_while(|piece| !is_boundary(piece));
        let found = statement.find(|piece| piece.text == name.as_bytes());
        found.map_or(at, |piece| piece.at)
    }

    // A warning with its place: for a local that of its name in a statement, for an instruction
    // that of its statement, and for an object that of its declared name. Objects of a kind have
    // numbers from 0 on, in the order of the text.
    fn locate(&self, warning: Warning) -> Finding {
        let number = warning.number;
        let at = match warning.kind.row().0 {
            Subject::Local(thread) => {
                let use_ = match warning.kind {
                    WarningKind::NeverSet(_) => Use::Reads,
                    _ => Use::OnlySets,
                };
                let mut code = self.code(thread).iter();
                let first = code.position(|instruction| use_.is_made(number, instruction));
                let statement = self.place(thread, first.unwrap_or(0));
                self.name_place(statement, self.local_name(thread, number))
            }
            Subject::Instruction(thread) => self.place(thread, number),
            Subject::Object(kind) => {
                let objects = self.tree.declarations().iter();
                let mut of_kind = objects.filter(|object| kind_of(object.object) == kind);
                of_kind.nth(number).map_or(START, |object| object.name.at)
            }
        };
        Finding { warning, at }
    }

    // Whether a finding is reported. A statement in a `repeat` has a copy in the flat code for each
    // turn. `Unreached` and `WaitNotLookedAtAgain` are reported only where they are found of all
    // copies: another copy may be reached, and the copy of a `wait` in the last turn always lacks
    // a turn after it that tests a value.
    fn is_reported(&self, all: &[Finding], found: Finding) -> bool {
        let kind = found.warning.kind;
        let (WarningKind::Unreached(thread) | WarningKind::WaitNotLookedAtAgain(thread)) = kind
        else {
            return true;
        };
        let is_such = |other: &&Finding| other.at == found.at && other.warning.kind == kind;
        let code = 0..self.code(thread).len();
        let copies = code.filter(|i| self.place(thread, *i) == found.at).count();
        all.iter().filter(is_such).count() == copies
    }

    /// Adds to `all` the diagnostics of the program's warnings, each kind once for each place.
    /// Fails where memory runs out.
    pub fn add_warnings(&self, all: &mut Vec<Diagnostic>) -> Result<(), AllocError> {
        let alloc = *all.allocator();
        let warnings = all_warnings(alloc, self.program)?;
        let found: Vec<Finding> = warnings.iter().map(|w| self.locate(*w)).collect(alloc)?;
        for finding in &found {
            if self.is_reported(&found, *finding) && !self.is_ruled_out(alloc, finding.warning)? {
                let mut told = Message::new(alloc);
                let title = self.tell_warning(&mut told, finding.warning)?;
                self.add_diagnostic(all, (Severity::Warning, title), finding.at, told)?;
            }
        }
        Ok(())
    }
}
