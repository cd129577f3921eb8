//! Why a line is that of no part.

ghost use Rattle.std.specs.Prelude.{◌≡◌};
ghost use Rattle.runner_parts.specs.declared.error.PartError.TheVariants.{OutOfMemory};

use crate::part::VERSION;
use std::alloc::{AllocError, AllocFailed};
use std::fmt;
use thiserror::Error;

/// Why a line is that of no part.
#[derive(Clone, Copy, Debug, PartialEq, Eq, Error)]
pub enum PartError {
    /// The line isn't JSON.
    NotJson,
    /// The line is of this version, and parts are of [`VERSION`].
    OtherVersion(u64),
    /// The JSON is no object, or an object without this key.
    Missing(&'static str),
    /// The value of this key isn't what it has to be.
    Wrong {
        /// The key.
        key: &'static str,
        /// What its value has to be.
        wanted: &'static str,
    },
    /// The end views aren't sorted; or a bad schedule is named where the counts say that none
    /// failed or got stuck, or none is named where they say that some did.
    Inconsistent,
    /// The JSON isn't what is printed of the part that was read: it has a key more, or spells a
    /// value, as a schedule or the digest, in another way.
    NotPrinted,
    /// Memory ran out.
    OutOfMemory,
}

impl fmt::Display for PartError {
    ghost use Rattle.std.specs.Prelude.{Some};
    ghost use Rattle.runner_parts.specs.ErrorTexts.{part_error_text};

    ghost output = { λ e. Some (part_error_text e) };

    // The message for the user: what is wrong with the line, with the key that is missing or wrong.
    fn fmt<W: fmt::Write>(&self, f: &mut fmt::Formatter<W>) -> fmt::Result {
        match self {
            PartError::NotJson => write!(f, "no JSON"),
            PartError::OtherVersion(version) => {
                write!(f, "parts are of version {VERSION}, not {version}")
            }
            PartError::Missing(key) => write!(f, "no key {key}"),
            PartError::Wrong { key, wanted } => write!(f, "{key} is not {wanted}"),
            PartError::Inconsistent => write!(
                f,
                "ends, failed, stuck and schedule do not fit one another"
            ),
            PartError::NotPrinted => write!(f, "a key or a spelling that no part has"),
            PartError::OutOfMemory => write!(f, "memory"),
        }
    }
}

impl From<AllocError> for PartError {
    ghost from_gives = { λ _ e. e ≡ OutOfMemory };

    fn from(_e: AllocError) -> PartError {
        PartError::OutOfMemory
    }
}

impl<T: Drop> From<AllocFailed<T>> for PartError {
    ghost from_gives = { λ _ e. e ≡ OutOfMemory };

    fn from(_e: AllocFailed<T>) -> PartError {
        PartError::OutOfMemory
    }
}

/// Which line of a text is that of no part, and why.
#[derive(Clone, Copy, Debug, PartialEq, Eq, Error)]
pub struct LineError {
    /// The number, counted from 1, of the first line that is that of no part, or at which memory
    /// ran out.
    pub number: u64,
    /// Why the line is that of no part, or that memory ran out.
    pub error: PartError,
}

impl fmt::Display for LineError {
    ghost use Rattle.std.specs.Prelude.{Some};
    ghost use Rattle.runner_parts.specs.ErrorTexts.{line_error_text};

    ghost output = { λ e. Some (line_error_text e) };

    // The message for the user, to follow the name of a file: the number of the line in it, and
    // what is wrong with the line.
    fn fmt<W: fmt::Write>(&self, f: &mut fmt::Formatter<W>) -> fmt::Result {
        write!(f, "{}: {}", self.number, self.error)
    }
}
