//! Why a tree is refused.

ghost use Rattle.std.specs.Prelude.{◌≡◌};
ghost use Rattle.guest_code.specs.declared.error.CheckError.TheVariants.{OutOfMemory};

use guest_syntax::place::Pos;
use std::alloc::{AllocError, AllocFailed};
use std::fmt;
use thiserror::Error;

/// What is wrong with a tree, and the place of the name or the `leave`; or that memory ran out.
#[derive(Clone, Copy, Debug, PartialEq, Eq, Error)]
pub enum CheckError {
    /// The name is declared already. Objects and threads share one name space.
    Duplicate(Pos),
    /// An object must be named here, and nothing declares this name.
    Unknown(Pos),
    /// This name is declared as something else than what must be named here.
    WrongKind(Pos),
    /// There is no thread.
    NoThreads,
    /// The declaration, the thread or the first use of a local that passes its limit.
    TooMany(Pos),
    /// The first thread, by its number, with more than `INSTRUCTIONS` instructions.
    CodeTooLong(u8),
    /// No `repeat` of its thread is round this `leave`.
    LeaveOutside(Pos),
    /// Memory ran out.
    OutOfMemory,
}

impl fmt::Display for CheckError {
    ghost use Rattle.std.specs.Prelude.{Some};
    ghost use Rattle.guest_code.specs.ErrorTexts.{check_error_text};

    ghost output = { λ e. Some (check_error_text e) };

    /// What the user is told, as `check C2 Unknown at 1:3`; `memory` where memory ran out.
    fn fmt<W: fmt::Write>(&self, f: &mut fmt::Formatter<W>) -> fmt::Result {
        match self {
            CheckError::Duplicate(at) => write!(f, "check C1 Duplicate at {at}"),
            CheckError::Unknown(at) => write!(f, "check C2 Unknown at {at}"),
            CheckError::WrongKind(at) => write!(f, "check C3 WrongKind at {at}"),
            CheckError::NoThreads => write!(f, "check C4 NoThreads"),
            CheckError::TooMany(at) => write!(f, "check C5 TooMany at {at}"),
            CheckError::CodeTooLong(thread) => {
                write!(f, "check C6 CodeTooLong in thread {thread}")
            }
            CheckError::LeaveOutside(at) => write!(f, "check C7 LeaveOutside at {at}"),
            CheckError::OutOfMemory => write!(f, "memory"),
        }
    }
}

impl From<AllocError> for CheckError {
    ghost from_gives = { λ _ e. e ≡ OutOfMemory };

    /// Memory that ran out is told by [`CheckError::OutOfMemory`].
    fn from(_e: AllocError) -> CheckError {
        CheckError::OutOfMemory
    }
}

impl<T: Drop> From<AllocFailed<T>> for CheckError {
    ghost from_gives = { λ _ e. e ≡ OutOfMemory };

    /// Memory that ran out is told by [`CheckError::OutOfMemory`].
    fn from(_e: AllocFailed<T>) -> CheckError {
        CheckError::OutOfMemory
    }
}
