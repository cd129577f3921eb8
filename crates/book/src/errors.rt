//! Why a book doesn't settle a walk, or doesn't go on to the next bound.

ghost use Rattle.std.specs.Prelude.{◌≡◌};

use std::alloc::AllocError;
use std::fmt;
use thiserror::Error;

/// Why a book didn't settle a walk. The book is as before.
#[derive(Debug, Drop, Error)]
pub enum SettleError {
    /// The walk's item isn't one of the book's open ones.
    NotOpen,
    /// The walk is of another program or mode than the book.
    Stranger,
    /// Memory ran out.
    OutOfMemory,
}

/// What the user is told: the number and the name of the error; `memory` for `OutOfMemory`.
impl fmt::Display for SettleError {
    ghost use Rattle.std.specs.Prelude.{Some};
    ghost use Rattle.book.specs.ErrorTexts.{settle_error_text};

    ghost output = { λ e. Some (settle_error_text e) };

    fn fmt<W: fmt::Write>(&self, f: &mut fmt::Formatter<W>) -> fmt::Result {
        match self {
            SettleError::NotOpen => write!(f, "book B1 NotOpen"),
            SettleError::Stranger => write!(f, "book B2 Stranger"),
            SettleError::OutOfMemory => write!(f, "memory"),
        }
    }
}

impl From<AllocError> for SettleError {
    ghost use Rattle.book.specs.declared.errors.SettleError.TheVariants.{OutOfMemory};

    ghost from_gives = { λ _ e. e ≡ OutOfMemory };

    fn from(_e: AllocError) -> SettleError {
        SettleError::OutOfMemory
    }
}

/// Why a book didn't go on to the next bound. The book is as before.
#[derive(Debug, Drop, Error)]
pub enum RaiseError {
    /// An item is still open.
    StillOpen,
    /// The bound is the greatest or was made the last one, or the mode has no bound.
    LastBound,
    /// An open item was dropped.
    Dropped,
}

/// What the user is told: the number and the name of the error.
impl fmt::Display for RaiseError {
    ghost use Rattle.std.specs.Prelude.{Some};
    ghost use Rattle.book.specs.ErrorTexts.{raise_error_text};

    ghost output = { λ e. Some (raise_error_text e) };

    fn fmt<W: fmt::Write>(&self, f: &mut fmt::Formatter<W>) -> fmt::Result {
        match self {
            RaiseError::StillOpen => write!(f, "book B4 StillOpen"),
            RaiseError::LastBound => write!(f, "book B5 LastBound"),
            RaiseError::Dropped => write!(f, "book B6 Dropped"),
        }
    }
}
