//! Places in a text.

ghost use Rattle.std.specs.Prelude.{◌≡◌, ◌+◌, ◌<◌, ◌≤◌, ◌^◌, length};
ghost use Rattle.guest_syntax.specs.Place.{past, after};

use std::fmt;

/// A place in a text: a line and a byte of that line, both counted from 1. A line feed ends a line.
#[derive(Clone, Copy, Debug, PartialEq, Eq)]
pub struct Pos {
    /// The line's number, from 1.
    pub line: u32,
    /// The byte's number in its line, from 1.
    pub col: u32,
}

impl Pos {
    /// The place right after `byte`, which is at this place; a line feed ends the line.
    #[tactic(auto, unfolding(crate::specs::Place::past))]
    pub(crate) fn past(self, byte: u8) -> Pos
        requires line { self.line + 1 < 2 ^ 32 }
        requires col { self.col + 1 < 2 ^ 32 }
        ensures place { result ≡ past self byte }
        ensures line { result.line ≤ self.line + 1 }
        ensures col { result.col ≤ self.col + 1 }
    {
        if byte == b'\n' {
            Pos {
                line: self.line + 1,
                col: 1,
            }
        } else {
            Pos {
                line: self.line,
                col: self.col + 1,
            }
        }
    }

    /// The place right after `bytes`, the first of which is at this place.
    pub(crate) fn after(self, bytes: &[u8]) -> Pos
        requires line { self.line + length bytes.now < 2 ^ 32 }
        requires col { self.col + length bytes.now < 2 ^ 32 }
        ensures place { result ≡ after self bytes.now }
        ensures line { result.line ≤ self.line + length bytes.now }
        ensures col { result.col ≤ self.col + length bytes.now }
    {
        let mut at = self;
        for byte in bytes {
            at = at.past(*byte);
        }
        at
    }
}

impl fmt::Display for Pos {
    ghost use Rattle.std.specs.Prelude.{Some};
    ghost use Rattle.guest_syntax.specs.ErrorTexts.{place_text};

    ghost output = { λ at. Some (place_text at) };

    /// Line and column with a colon between them, as `1:21`.
    fn fmt<W: fmt::Write>(&self, f: &mut fmt::Formatter<W>) -> fmt::Result {
        write!(f, "{}:{}", self.line, self.col)
    }
}
