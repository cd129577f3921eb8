//! Why a text is refused.

ghost use Rattle.std.specs.Prelude.{◌≡◌};
ghost use Rattle.guest_syntax.specs.declared.error.SyntaxError.TheVariants.{OutOfMemory};

use crate::place::Pos;
use std::alloc::{AllocError, AllocFailed};
use std::fmt;
use thiserror::Error;

/// The first fault of a text, and its place. A text that is too long is refused before all else.
#[derive(Clone, Copy, Debug, PartialEq, Eq, Error)]
pub enum SyntaxError {
    /// A byte above 127, in a comment too.
    NotAscii(Pos),
    /// A byte that begins no token.
    BadChar(Pos),
    /// A token or the text's end, where the grammar wants something else; also the 0 of `repeat 0`.
    Expected(Pos),
    /// A number above its limit.
    NumberTooBig(Pos),
    /// A text of more than [`TEXT_BYTES`](crate::TEXT_BYTES) bytes; the place is 1:1.
    TooLong(Pos),
    /// The opening brace of a block that lies more than [`DEPTH`](crate::limits::DEPTH) deep.
    TooDeep(Pos),
    /// Memory ran out.
    OutOfMemory,
}

impl fmt::Display for SyntaxError {
    ghost use Rattle.std.specs.Prelude.{Some};
    ghost use Rattle.guest_syntax.specs.ErrorTexts.{syntax_error_text};

    ghost output = { λ e. Some (syntax_error_text e) };

    /// What the user is told, as `syntax S2 BadChar at 1:3`; `memory` where memory ran out.
    fn fmt<W: fmt::Write>(&self, f: &mut fmt::Formatter<W>) -> fmt::Result {
        match self {
            SyntaxError::NotAscii(at) => write!(f, "syntax S1 NotAscii at {at}"),
            SyntaxError::BadChar(at) => write!(f, "syntax S2 BadChar at {at}"),
            SyntaxError::Expected(at) => write!(f, "syntax S3 Expected at {at}"),
            SyntaxError::NumberTooBig(at) => write!(f, "syntax S4 NumberTooBig at {at}"),
            SyntaxError::TooLong(at) => write!(f, "syntax S5 TooLong at {at}"),
            SyntaxError::TooDeep(at) => write!(f, "syntax S6 TooDeep at {at}"),
            SyntaxError::OutOfMemory => write!(f, "memory"),
        }
    }
}

impl From<AllocError> for SyntaxError {
    ghost from_gives = { λ _ e. e ≡ OutOfMemory };

    /// Memory that ran out is told by [`SyntaxError::OutOfMemory`].
    fn from(_e: AllocError) -> SyntaxError {
        SyntaxError::OutOfMemory
    }
}

impl<T: Drop> From<AllocFailed<T>> for SyntaxError {
    ghost from_gives = { λ _ e. e ≡ OutOfMemory };

    /// Memory that ran out is told by [`SyntaxError::OutOfMemory`].
    fn from(_e: AllocFailed<T>) -> SyntaxError {
        SyntaxError::OutOfMemory
    }
}
