//! What is wrong with a text, or odd about it, told to a person.
//!
//! - [`check`] answers why a text is refused, or the warnings of its program: a text is refused
//!   exactly where it doesn't parse or its tree has a fault, and the short form and the place are
//!   those of the refusal.
//! - The warnings are those of `check_lint`; here they get their places, and those of a mutex that
//!   tests rule out go. With a limit, it is also told what `check_lint` saw in that many schedules
//!   of the program.
//! - [`advice_text`] answers the lines of diagnostics that `check_hints` writes, with carets
//!   under the bytes in question. Above a diagnostic comes the file and line that its line comes
//!   from, where a preprocessor's mark in the text tells it.
//!
//! Which words a diagnostic has, and all that schedules show, is shown by tests.
#![tactic(auto)]

ghost use Rattle.std.specs.Prelude.{◌≡◌, ◌≢◌, IfOk};
ghost use Rattle.std.specs.List.{list_any};
ghost use Rattle.guest_syntax.specs.{Answers.RefusalIn, Grammar.Spells, Place.start};
ghost use Rattle.guest_syntax.specs.Tree.{Tree, tree_view};
ghost use Rattle.guest_syntax.specs.declared.error.SyntaxError.TheVariants as syntax;
ghost use Rattle.guest_code.specs.{Code.code, Fault.{fault, Refuses}};
ghost use Rattle.check_advice.specs.Told.{Tells, is_warning, is_warned};

mod agreeing;
mod allowed;
mod compiled;
mod explored;
mod findings;
mod spins;
mod warning_words;

use crate::allowed::is_allowed;
use crate::compiled::Compiled;
use check_hints::diagnostic::put_shown;
pub use check_hints::diagnostic::{Diagnostic, Note, Severity, Span};
use check_hints::pieces::pieces;
use check_hints::refusal::{check_diagnostic, syntax_diagnostic};
use explain_lines::Marks;
use guest_code::error::CheckError;
use guest_code::lowering::lower;
use guest_code::program::Program;
use guest_code::source_map::SourceMap;
use guest_syntax::tree::Tree as SyntaxTree;
use guest_syntax::{SyntaxError, parse};
use std::alloc::{AllocError, Global};
use std::slice;

/// What [`check`] finds.
#[derive(Drop)]
pub enum Checked {
    /// The text is a program; these are its warnings and remarks.
    Sound(Vec<Diagnostic>),
    /// The text is refused, by this diagnostic.
    Refused(Diagnostic),
}

impl Checked {
    /// What is told: the warnings and remarks in their order, or why the text is refused.
    pub fn diagnostics(&self) -> &[Diagnostic] {
        match self {
            Checked::Sound(all) => all,
            Checked::Refused(diagnostic) => slice::from_ref(diagnostic),
        }
    }

    /// Whether the text is a program with at least one warning; remarks are none.
    pub fn is_warned(&self) -> bool
        ensures { result ≡ is_warned self.now }
    {
        match self {
            Checked::Sound(all) => has_warning(all),
            Checked::Refused(_) => false,
        }
    }
}

// Whether at least one of the diagnostics is a warning.
fn has_warning(all: &[Diagnostic]) -> bool
    ensures { result ≡ list_any (λ a. is_warning a.severity) all.now }
{
    all.iter().any(|diagnostic| matches!(diagnostic.severity, Severity::Warning))
}

/// Why a text is refused, or else what is odd about its program, in the order of the text. With a
/// limit, schedules of the program are explored, up to that many, counting those that sleep sets
/// cut short, and it is also told what they show. Fails where memory runs out.
pub fn check(alloc: Global, text: &[u8], limit: Option<u64>) -> Result<Checked, AllocError>
    ensures { IfOk result (Tells text.now) }
{
    match parse(alloc, text) {
        Ok(tree) => check_tree(alloc, text, limit, &tree),
        Err(error) => syntax_refusal(alloc, text, error),
    }
}

// What a check finds where the parser refuses the text with this error: the diagnostic on it. Fails
// where the error is that memory ran out, or where memory runs out.
fn syntax_refusal(alloc: Global, text: &[u8], error: SyntaxError) -> Result<Checked, AllocError>
    requires refused { error ≢ syntax.OutOfMemory → (t : Tree) → Spells text.now t → ⊥ }
    requires place { RefusalIn start text.now error }
    ensures { IfOk result (Tells text.now) }
{
    match error {
        SyntaxError::OutOfMemory => Err(AllocError),
        _ => {
            let diagnostic = syntax_diagnostic(alloc, text, error)?;
            Ok(Checked::Refused(diagnostic))
        }
    }
}

// What a check finds where the tree of a text is no program, for this error: the diagnostic on it.
// Fails where the error is that memory ran out, or where memory runs out.
fn check_refusal(
    alloc: Global,
    text: &[u8],
    tree: &SyntaxTree,
    error: CheckError,
) -> Result<Checked, AllocError>
    requires spelt { Spells text.now (tree_view tree.now) }
    requires refused { Refuses error (fault (tree_view tree.now)) }
    ensures { IfOk result (Tells text.now) }
{
    match error {
        CheckError::OutOfMemory => Err(AllocError),
        _ => {
            let diagnostic = check_diagnostic(alloc, text, tree, error)?;
            Ok(Checked::Refused(diagnostic))
        }
    }
}

// What a check finds in a text with this tree: why it is refused, or what is odd about its program.
// With a limit, schedules are explored as well, and it is also told what they show.
fn check_tree(
    alloc: Global,
    text: &[u8],
    limit: Option<u64>,
    tree: &SyntaxTree,
) -> Result<Checked, AllocError>
    requires { Spells text.now (tree_view tree.now) }
    ensures { IfOk result (Tells text.now) }
{
    match lower(alloc, tree) {
        Ok(program) => {
            let all = all_diagnostics(alloc, text, limit, tree, &program)?;
            Ok(Checked::Sound(all))
        }
        Err(error) => check_refusal(alloc, text, tree, error),
    }
}

// The warnings and remarks on the program of a tree, in the order of the text, without those that a
// comment of their line allows. With a limit, also those on what schedules of the program show.
fn all_diagnostics(
    alloc: Global,
    text: &[u8],
    limit: Option<u64>,
    tree: &SyntaxTree,
    program: &Program,
) -> Result<Vec<Diagnostic>, AllocError>
    requires { program.now ≡ code (tree_view tree.now) }
{
    let Ok(map) = SourceMap::new(alloc, tree) else {
        return Err(AllocError);
    };
    let pieces = pieces(alloc, text)?;
    let compiled = Compiled {
        tree,
        program,
        map: &map,
        pieces: &pieces,
    };
    let mut all = Vec::new(alloc);
    compiled.add_warnings(&mut all)?;
    if let Some(limit) = limit {
        compiled.explore_into(limit, &mut all)?;
    }
    all.retain(|diagnostic| !is_allowed(text, diagnostic));
    all.sort_by_key(|diagnostic| diagnostic.place())?;
    Ok(all)
}

/// The lines to print on standard error of what a check of a text found. Above a diagnostic comes a
/// row `FILE:LINE:` where a preprocessor's mark tells the file and line that its line comes from. Fails where memory runs out.
pub fn advice_text(alloc: Global, text: &[u8], checked: &Checked) -> Result<Vec<u8>, AllocError> {
    let marks = Marks::new(alloc, text)?;
    let mut out = Vec::new(alloc);
    for diagnostic in checked.diagnostics() {
        if let Some(span) = diagnostic.span
            && let Some(origin) = marks.origin(span.at.line)
        {
            put_shown(&mut out, origin.file())?;
            let place = format!(in alloc; ":{}:\n", origin.line())?;
            out.extend_from_slice(place.as_bytes())?;
        }
        diagnostic.put(&mut out, text)?;
    }
    Ok(out)
}
