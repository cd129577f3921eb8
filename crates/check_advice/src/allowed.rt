//! Warnings and remarks that a comment in their line allows, which are not told.

use check_hints::diagnostic::{Diagnostic, line_of};
use std::str::from_utf8;

/// Whether a diagnostic's line ends in a comment that allows the diagnostic, as `# allow W5 W9`
/// does where its number is `W9`. False where the diagnostic has no place.
pub fn is_allowed(text: &[u8], diagnostic: &Diagnostic) -> bool {
    let Some(span) = diagnostic.span else {
        return false;
    };
    let line = from_utf8(line_of(text, span.at.line)).unwrap_or("");
    let (_, comment) = line.split_once('#').unwrap_or(("", ""));
    let words = comment.trim_ascii_start();
    let mut all = words.split_ascii_whitespace();
    if words.len() == comment.len() || all.next().unwrap_or("") != "allow" {
        return false;
    }
    let (number, _) = diagnostic.code();
    for word in all {
        if word == number {
            return true;
        }
    }
    false
}
