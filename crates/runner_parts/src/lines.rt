//! Reading of the parts of a text, which has one part a line.

ghost use Rattle.std.specs.Prelude.{◌≡◌, ◌∷◌, ◌++◌, [], List, All, map, MatchResult, IfOk, IfErr, OnOk};
ghost use Rattle.runner_parts.specs.PartText.{PartView, IsPart, part_view};
ghost use Rattle.runner_parts.specs.Lines.{lines_of, is_blank, AreLinesOf, IsFirstRefused};
ghost use Rattle.runner_parts.specs.declared.error.PartError.TheVariants.{OutOfMemory};

use crate::error::{LineError, PartError};
use crate::part::Part;
use crate::reading::part_from;
use std::alloc::Global;

/// The parts of a text that has one part a line, in the order of the lines. Blank lines are passed
/// over.
///
/// # Errors
///
/// The number of the first line that is neither blank nor a part's, and what is wrong with it;
/// `OutOfMemory` with the number of the line at which memory ran out.
pub fn parts_from(alloc: Global, text: &[u8]) -> Result<Vec<Part>, LineError>
    ensures are_lines { IfOk result (λ parts.
        AreLinesOf (lines_of text.now) (map part_view parts.items)) }
    ensures reads { (xs : List PartView) → All IsPart xs → AreLinesOf (lines_of text.now) xs →
        MatchResult result (λ parts. map part_view parts.items ≡ xs)
        (λ e. e.error ≡ OutOfMemory) }
    ensures refused { IfErr result (IsFirstRefused text.now) }
{
    let mut parts = Vec::new(alloc);
    let mut number: u64 = 0;
    for line in text.split(|b| *b == b'\n') {
        number = number.saturating_add(1);
        if let Err(error) = push_unless_blank(&mut parts, alloc, line) {
            return Err(LineError { number, error });
        }
    }
    Ok(parts)
}

// Pushes the part of a line to `parts`, or nothing where the line is blank. An error where the line
// is neither blank nor a part's, or memory runs out.
fn push_unless_blank(parts: &mut Vec<Part>, alloc: Global, line: &[u8]) -> Result<(), PartError>
    ensures is_line { OnOk result ((xs : List PartView) × AreLinesOf (line.now ∷ []) xs
        × (map part_view parts.new.items ≡ map part_view parts.old.items ++ xs)) }
    ensures reads { (xs : List PartView) → All IsPart xs → AreLinesOf (line.now ∷ []) xs →
        MatchResult result
        (λ _. map part_view parts.new.items ≡ map part_view parts.old.items ++ xs)
        (λ e. e ≡ OutOfMemory) }
{
    if !is_blank(line) {
        parts.push(part_from(alloc, line)?)?;
    }
    Ok(())
}

// Whether a line is empty or has nothing but ASCII whitespace.
fn is_blank(line: &[u8]) -> bool
    ensures { result ≡ is_blank line.now }
{
    line.iter().all(u8::is_ascii_whitespace)
}
