//! Diagnostics on why a text is refused.

ghost use Rattle.std.specs.Prelude.{◌≡◌, Some, IfOk};
ghost use Rattle.guest_syntax.specs.{ErrorTexts.syntax_error_text, Tree.tree_view};
ghost use Rattle.guest_code.specs.ErrorTexts.{check_error_text};
ghost use Rattle.check_hints.specs.Refusals.{syntax_place, check_place, IsDiagnosticOf};

use crate::diagnostic::{Diagnostic, Severity};
use crate::faults::tell_fault;
use crate::message::Message;
use crate::pieces::{START, pieces, span_at};
use crate::site::FaultSite;
use crate::syntax::tell_refusal;
use guest_code::error::CheckError;
use guest_syntax::SyntaxError;
use guest_syntax::place::Pos;
use guest_syntax::tree::Tree;
use std::alloc::{AllocError, Global};

// The place of an error of the parser; the start of the text where memory ran out.
fn syntax_place(error: SyntaxError) -> Pos
    ensures { result ≡ syntax_place error }
{
    match error {
        SyntaxError::NotAscii(at)
        | SyntaxError::BadChar(at)
        | SyntaxError::Expected(at)
        | SyntaxError::NumberTooBig(at)
        | SyntaxError::TooLong(at)
        | SyntaxError::TooDeep(at) => at,
        SyntaxError::OutOfMemory => Pos { line: 1, col: 1 },
    }
}

// The place of the error for which a tree is no program; `None` where it has no place. Where the
// code of a thread is too long, it is that of the thread's name; `None` where no such thread is.
fn check_place(tree: &Tree, error: CheckError) -> Option<Pos>
    ensures { result ≡ check_place (tree_view tree.now) error }
{
    match error {
        CheckError::Duplicate(at)
        | CheckError::Unknown(at)
        | CheckError::WrongKind(at)
        | CheckError::TooMany(at)
        | CheckError::LeaveOutside(at) => Some(at),
        CheckError::CodeTooLong(thread) => Some(tree.threads().get(thread as usize)?.name.at),
        CheckError::NoThreads | CheckError::OutOfMemory => None,
    }
}

/// The diagnostic on a text that the parser refuses with this error, with the error as headline, and
/// a message on what to write instead. Fails where memory runs out.
pub fn syntax_diagnostic(
    alloc: Global,
    text: &[u8],
    error: SyntaxError,
) -> Result<Diagnostic, AllocError>
    ensures { IfOk result (λ a.
        IsDiagnosticOf a (syntax_error_text error) (Some (syntax_place error))) }
{
    let pieces = pieces(alloc, text)?;
    let at = syntax_place(error);
    let headline = format!(in alloc; "{error}")?;
    let mut message = Message::new(alloc);
    tell_refusal(&mut message, FaultSite::new(&pieces, at), text, error)?;
    Ok(message.into_diagnostic(Severity::Refusal, headline, Some(span_at(&pieces, at))))
}

/// The diagnostic on a text whose tree is no program, for this error, which is its headline, with a
/// message on what to write instead. It has no span where the error has no place. Fails where memory
/// runs out.
pub fn check_diagnostic(
    alloc: Global,
    text: &[u8],
    tree: &Tree,
    error: CheckError,
) -> Result<Diagnostic, AllocError>
    ensures { IfOk result (λ a.
        IsDiagnosticOf a (check_error_text error) (check_place (tree_view tree.now) error)) }
{
    let pieces = pieces(alloc, text)?;
    let at = check_place(tree, error);
    let headline = format!(in alloc; "{error}")?;
    let mut message = Message::new(alloc);
    tell_fault(
        &mut message,
        FaultSite::new(&pieces, at.unwrap_or(START)),
        error,
    )?;
    let span = match at {
        Some(at) => Some(span_at(&pieces, at)),
        None => None,
    };
    Ok(message.into_diagnostic(Severity::Refusal, headline, span))
}
