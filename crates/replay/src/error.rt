//! Why a text is no schedule, and why a schedule has no run.

ghost use Rattle.std.specs.Prelude.{◌≡◌};

use std::alloc::{AllocError, AllocFailed};
use std::fmt;
use thiserror::Error;

/// Why a text is no schedule.
#[derive(Debug, Drop, Error)]
pub enum ScheduleError {
    /// The offset, in bytes, of the first piece that can't be taken, where it is no piece.
    BadSchedule(usize),
    /// The offset, in bytes, of the first piece that can't be taken, where it is one with which
    /// the schedule has more than [`PLACES`](crate::PLACES) places.
    TooLong(usize),
    /// Memory ran out.
    OutOfMemory,
}

impl fmt::Display for ScheduleError {
    ghost use Rattle.std.specs.Prelude.{Some};
    ghost use Rattle.replay.specs.ErrorTexts.{schedule_error_text};

    ghost output = { λ e. Some (schedule_error_text e) };

    /// What the user is told, with the offset in the text, as `schedule Q1 BadSchedule at 4`;
    /// `memory` where memory ran out.
    fn fmt<W: fmt::Write>(&self, f: &mut fmt::Formatter<W>) -> fmt::Result {
        match self {
            ScheduleError::BadSchedule(at) => write!(f, "schedule Q1 BadSchedule at {at}"),
            ScheduleError::TooLong(at) => write!(f, "schedule Q3 TooLong at {at}"),
            ScheduleError::OutOfMemory => write!(f, "memory"),
        }
    }
}

impl From<AllocError> for ScheduleError {
    ghost use Rattle.replay.specs.declared.error.ScheduleError.TheVariants.{OutOfMemory};

    ghost from_gives = { λ _ e. e ≡ OutOfMemory };

    /// Memory that ran out is told by [`ScheduleError::OutOfMemory`].
    fn from(_e: AllocError) -> ScheduleError {
        ScheduleError::OutOfMemory
    }
}

impl<T: Drop> From<AllocFailed<T>> for ScheduleError {
    ghost use Rattle.replay.specs.declared.error.ScheduleError.TheVariants.{OutOfMemory};

    ghost from_gives = { λ _ e. e ≡ OutOfMemory };

    /// Memory that ran out is told by [`ScheduleError::OutOfMemory`].
    fn from(_e: AllocFailed<T>) -> ScheduleError {
        ScheduleError::OutOfMemory
    }
}

/// Why a schedule has no run. Places count from 0, and the first bad one is told.
#[derive(Debug, Drop, Error)]
pub enum ReplayError {
    /// The number at this place is no thread's.
    NoSuchThread(usize),
    /// The thread at this place isn't enabled there.
    NotEnabled(usize),
    /// Memory ran out.
    OutOfMemory,
}

impl fmt::Display for ReplayError {
    ghost use Rattle.std.specs.Prelude.{Some};
    ghost use Rattle.replay.specs.ErrorTexts.{replay_error_text};

    ghost output = { λ e. Some (replay_error_text e) };

    /// What the user is told, with the place in the schedule, as `schedule P2 NotEnabled at 1`;
    /// `memory` where memory ran out.
    fn fmt<W: fmt::Write>(&self, f: &mut fmt::Formatter<W>) -> fmt::Result {
        match self {
            ReplayError::NoSuchThread(at) => write!(f, "schedule P1 NoSuchThread at {at}"),
            ReplayError::NotEnabled(at) => write!(f, "schedule P2 NotEnabled at {at}"),
            ReplayError::OutOfMemory => write!(f, "memory"),
        }
    }
}

impl From<AllocError> for ReplayError {
    ghost use Rattle.replay.specs.declared.error.ReplayError.TheVariants.{OutOfMemory};

    ghost from_gives = { λ _ e. e ≡ OutOfMemory };

    /// Memory that ran out is told by [`ReplayError::OutOfMemory`].
    fn from(_e: AllocError) -> ReplayError {
        ReplayError::OutOfMemory
    }
}

impl<T: Drop> From<AllocFailed<T>> for ReplayError {
    ghost use Rattle.replay.specs.declared.error.ReplayError.TheVariants.{OutOfMemory};

    ghost from_gives = { λ _ e. e ≡ OutOfMemory };

    /// Memory that ran out is told by [`ReplayError::OutOfMemory`].
    fn from(_e: AllocFailed<T>) -> ReplayError {
        ReplayError::OutOfMemory
    }
}
