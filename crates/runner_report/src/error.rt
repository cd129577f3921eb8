//! Why a search has no report.

ghost use Rattle.std.specs.Prelude.{◌≡◌};

use guest_code::error::CheckError;
use guest_syntax::SyntaxError;
use std::alloc::{AllocError, AllocFailed};
use std::fmt;
use thiserror::Error;

/// Why a search has no report. Out of memory is one error, wherever it was met.
#[derive(Clone, Copy, Debug, PartialEq, Eq, Error)]
pub enum ExploreError {
    /// The text doesn't parse.
    Syntax(SyntaxError),
    /// The text parses, but is no program.
    Check(CheckError),
    /// Memory ran out.
    OutOfMemory,
}

impl fmt::Display for ExploreError {
    ghost use Rattle.std.specs.Prelude.{Some};
    ghost use Rattle.runner_report.specs.ErrorTexts.{explore_error_text};

    ghost output = { λ e. Some (explore_error_text e) };

    // The message for the user: that of the syntax or check error, or `memory`.
    fn fmt<W: fmt::Write>(&self, f: &mut fmt::Formatter<W>) -> fmt::Result {
        match self {
            ExploreError::Syntax(error) => write!(f, "{error}"),
            ExploreError::Check(error) => write!(f, "{error}"),
            ExploreError::OutOfMemory => write!(f, "memory"),
        }
    }
}

impl From<SyntaxError> for ExploreError {
    ghost use Rattle.runner_report.specs.Texts.{of_syntax};

    ghost from_gives = { λ e error. error ≡ of_syntax e };

    // `OutOfMemory` where the error is that memory ran out, else `Syntax` with the error.
    fn from(error: SyntaxError) -> ExploreError {
        match error {
            SyntaxError::OutOfMemory => ExploreError::OutOfMemory,
            error => ExploreError::Syntax(error),
        }
    }
}

impl From<CheckError> for ExploreError {
    ghost use Rattle.runner_report.specs.Texts.{of_check};

    ghost from_gives = { λ e error. error ≡ of_check e };

    // `OutOfMemory` where the error is that memory ran out, else `Check` with the error.
    fn from(error: CheckError) -> ExploreError {
        match error {
            CheckError::OutOfMemory => ExploreError::OutOfMemory,
            error => ExploreError::Check(error),
        }
    }
}

impl From<AllocError> for ExploreError {
    ghost use Rattle.runner_report.specs.declared.error.ExploreError.TheVariants.{OutOfMemory};

    ghost from_gives = { λ _ e. e ≡ OutOfMemory };

    fn from(_e: AllocError) -> ExploreError {
        ExploreError::OutOfMemory
    }
}

impl<T: Drop> From<AllocFailed<T>> for ExploreError {
    ghost use Rattle.runner_report.specs.declared.error.ExploreError.TheVariants.{OutOfMemory};

    ghost from_gives = { λ _ e. e ≡ OutOfMemory };

    fn from(_e: AllocFailed<T>) -> ExploreError {
        ExploreError::OutOfMemory
    }
}
