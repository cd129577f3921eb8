//! Why the program has no answer to what it was asked.

ghost use Rattle.std.specs.Prelude.{◌≡◌};
ghost use Rattle.std.specs.IoError.{error_kind};
ghost use Rattle.ctxbound_answers.specs.declared.fault.Fault.TheVariants.{Text, Schedule, Replay, Memory};
ghost use Rattle.ctxbound_answers.specs.Status.{fault_status, IsDeviceFault};

use replay::{ReplayError, ScheduleError};
use runner::ExploreError;
use std::alloc::{AllocError, AllocFailed};
use std::io;
use std::io::{ErrorKind, Write};
use thiserror::Error;

/// The status that the program ends with where what the user gave is refused.
pub const REFUSED: u8 = 2;

/// Why the program has no answer to what it was asked. Faults are looked for in the order of the
/// variants. Out of memory is told alike, whatever it was met at.
#[derive(Debug, Drop, Error)]
pub enum Fault {
    /// The file can't be read, or the output can't be written.
    #[error("file")]
    File,
    /// The text spells no program.
    #[error("{0}")]
    Text(ExploreError),
    /// The schedule's text spells no schedule.
    #[error("{0}")]
    Schedule(ScheduleError),
    /// The schedule doesn't run.
    #[error("{0}")]
    Replay(ReplayError),
    /// Memory ran out.
    #[error("memory")]
    Memory,
}

impl Fault {
    /// The status that the program ends with: 2 where what the user gave is refused, 4 where memory
    /// ran out, or a file or a stream failed.
    pub fn status(&self) -> u8
        ensures { result ≡ fault_status self.now }
    {
        match self {
            Fault::File
            | Fault::Text(ExploreError::OutOfMemory)
            | Fault::Schedule(ScheduleError::OutOfMemory)
            | Fault::Replay(ReplayError::OutOfMemory)
            | Fault::Memory => 4,
            Fault::Text(_) | Fault::Schedule(_) | Fault::Replay(_) => REFUSED,
        }
    }

    /// Writes the fault's line to `err`, the name of the program and the message, and answers the
    /// fault's status, whether or not `err` fails.
    pub fn report<E: Write>(&self, err: &mut E) -> u8
        ensures { result ≡ fault_status self.now }
    {
        let _ = writeln!(err, "ctxbound: {self}");
        self.status()
    }
}

impl From<ExploreError> for Fault {
    ghost from_gives = { λ e fault. fault ≡ Text e };

    fn from(error: ExploreError) -> Fault {
        Fault::Text(error)
    }
}

impl From<ScheduleError> for Fault {
    ghost from_gives = { λ e fault. fault ≡ Schedule e };

    fn from(error: ScheduleError) -> Fault {
        Fault::Schedule(error)
    }
}

impl From<ReplayError> for Fault {
    ghost from_gives = { λ e fault. fault ≡ Replay e };

    fn from(error: ReplayError) -> Fault {
        Fault::Replay(error)
    }
}

impl From<AllocError> for Fault {
    ghost from_gives = { λ _ fault. fault ≡ Memory };

    fn from(_error: AllocError) -> Fault {
        Fault::Memory
    }
}

impl<T: Drop> From<AllocFailed<T>> for Fault {
    ghost from_gives = { λ _ fault. fault ≡ Memory };

    fn from(_error: AllocFailed<T>) -> Fault {
        Fault::Memory
    }
}

impl From<io::Error> for Fault {
    ghost from_gives = { λ e fault. IsDeviceFault (error_kind e) fault };

    // Out of memory is the fault `Memory`, each other error of a file or stream the fault `File`.
    fn from(error: io::Error) -> Fault {
        match error.kind() {
            ErrorKind::OutOfMemory => Fault::Memory,
            _ => Fault::File,
        }
    }
}

/// Why a command printed nothing, with the name of the device where one failed.
#[derive(Drop)]
pub enum CommandFault<'a> {
    /// A fault that no device is named with.
    Fault(Fault),
    /// The file or the stream of this name failed with this error.
    Device(&'a str, io::Error),
    /// The line that tells the fault, and the status.
    Line(Vec<u8>, u8),
}

impl CommandFault<'_> {
    /// Writes the fault's line to `err`, and answers the fault's status, whether or not `err`
    /// fails. A device that failed because memory ran out isn't named: that is the fault `Memory`.
    pub fn report<E: Write>(&self, err: &mut E) -> u8 {
        match self {
            CommandFault::Fault(fault) => fault.report(err),
            CommandFault::Device(_, error) if error.kind() == ErrorKind::OutOfMemory => {
                Fault::Memory.report(err)
            }
            CommandFault::Device(name, error) => {
                let _ = writeln!(err, "ctxbound: {name}: {error}");
                Fault::File.status()
            }
            CommandFault::Line(line, status) => {
                let _ = err.write_all(line.as_slice());
                *status
            }
        }
    }
}

impl<X> From<X> for CommandFault<'_>
where
    Fault: From<X>,
{
    // The fault that the error becomes, which names no file and no stream.
    fn from(error: X) -> Self {
        CommandFault::Fault(Fault::from(error))
    }
}
