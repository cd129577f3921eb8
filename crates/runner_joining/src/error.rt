//! Why parts don't join to a report.

ghost use Rattle.std.specs.Prelude.{◌≡◌, ◌++◌, IfOk};
ghost use Rattle.replay.specs.Spelling.{printed};
ghost use Rattle.runner_joining.specs.ErrorTexts.{place_text, join_error_text, needs_work};

use replay::schedule_text;
use std::alloc::{AllocError, Global};
use walk_cover::CoverError;

/// Where a part belongs: a prefix, and a bound, which is `None` in a search without one.
#[derive(Drop)]
pub struct PartPlace {
    /// The prefix.
    pub under: Vec<u8>,
    /// The bound.
    pub bound: Option<u32>,
}

/// Why parts don't join to a report.
#[derive(Drop)]
pub enum JoinError {
    /// Some schedule of the program begins with this prefix and with the prefix of no part, and no
    /// part's prefix begins with this one.
    Missing(Vec<u8>),
    /// Both are prefixes of parts, and the second begins with the first.
    Nested(Vec<u8>, Vec<u8>),
    /// None of the program's schedules begins with this prefix of a part.
    Unused(Vec<u8>),
    /// No part says what is under this prefix at this bound.
    Lacks(PartPlace),
    /// Only parts that were cut short say what is under this prefix at this bound.
    Cut(PartPlace),
    /// Two parts of this prefix and bound, neither cut short, have different summaries.
    Disagree(PartPlace),
    /// A part of this prefix and bound names a schedule that isn't a bad one of the program,
    /// doesn't begin with the prefix, or isn't within the bound.
    Untrue(PartPlace),
    /// Memory ran out.
    OutOfMemory,
}

impl JoinError {
    /// Whether more parts would help: a prefix or a bound has no part, or only parts that were cut
    /// short. Else a part that is there is wrong, or memory ran out.
    pub fn needs_more_parts(&self) -> bool
        ensures { result ≡ needs_work self.now }
    {
        match self {
            JoinError::Missing(_) | JoinError::Lacks(_) | JoinError::Cut(_) => true,
            _ => false,
        }
    }

    /// The message for the user: one line, without a line feed. Fails where memory runs out.
    pub fn text(&self, alloc: Global) -> Result<Vec<u8>, AllocError>
        ensures { IfOk result (λ text. text.items ≡ join_error_text self.now) }
    {
        match self {
            JoinError::Missing(prefix) => prefix_phrase(alloc, b"nothing under ", prefix, b""),
            JoinError::Nested(outer, inner) => {
                let mut text = prefix_phrase(alloc, b"", outer, b" holds ")?;
                text.extend_from_slice(prefix_phrase(alloc, b"", inner, b" too")?.as_slice())?;
                Ok(text)
            }
            JoinError::Unused(prefix) => prefix_phrase(
                alloc,
                b"no schedule begins with ",
                prefix,
                b"",
            ),
            JoinError::Lacks(place) => place_phrase(alloc, b"nothing", place),
            JoinError::Cut(place) => place_phrase(alloc, b"cut short", place),
            JoinError::Disagree(place) => place_phrase(alloc, b"two parts disagree", place),
            JoinError::Untrue(place) => place_phrase(alloc, b"an untrue schedule", place),
            JoinError::OutOfMemory => Vec::from_slice(alloc, b"memory"),
        }
    }
}

// A prefix in its printed spelling, between the words `before` and the words `after`.
fn prefix_phrase(
    alloc: Global,
    before: &[u8],
    prefix: &Vec<u8>,
    after: &[u8],
) -> Result<Vec<u8>, AllocError>
    ensures { IfOk result (λ text.
        text.items ≡ before.now ++ (printed prefix.now.items ++ after.now)) }
{
    let mut text = Vec::from_slice(alloc, before)?;
    text.extend_from_slice(schedule_text(alloc, prefix.as_slice())?.as_slice())?;
    text.extend_from_slice(after)?;
    Ok(text)
}

// These words, and after them the bound of a place, if it has one, and its prefix.
fn place_phrase(alloc: Global, words: &[u8], place: &PartPlace) -> Result<Vec<u8>, AllocError>
    ensures { IfOk result (λ text. text.items ≡ words.now ++ place_text place.now) }
{
    let mut text = Vec::from_slice(alloc, words)?;
    if let Some(bound) = place.bound {
        text.extend_from_slice(b" at bound ")?;
        text.extend_from_slice(format!(in alloc; "{bound}")?.as_bytes())?;
    }
    text.extend_from_slice(prefix_phrase(alloc, b" under ", &place.under, b"")?.as_slice())?;
    Ok(text)
}

impl From<AllocError> for JoinError {
    ghost use Rattle.runner_joining.specs.declared.error.JoinError.TheVariants.{OutOfMemory};

    ghost from_gives = { λ _ e. e ≡ OutOfMemory };

    fn from(_e: AllocError) -> JoinError {
        JoinError::OutOfMemory
    }
}

impl From<CoverError> for JoinError {
    ghost use Rattle.runner_joining.specs.Parts.{of_cover};

    ghost from_gives = { λ e error. error ≡ of_cover e };

    // The variant of the same name: what is wrong with the parts' prefixes, which are no cover, or
    // that memory ran out.
    fn from(error: CoverError) -> JoinError {
        match error {
            CoverError::Missing(prefix) => JoinError::Missing(prefix),
            CoverError::Nested(outer, inner) => JoinError::Nested(outer, inner),
            CoverError::Unused(prefix) => JoinError::Unused(prefix),
            CoverError::OutOfMemory => JoinError::OutOfMemory,
        }
    }
}
