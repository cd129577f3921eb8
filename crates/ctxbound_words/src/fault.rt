//! Why command words ask for nothing.

ghost use Rattle.std.specs.Prelude.{◌≡◌};
ghost use Rattle.std.specs.IoError.{error_kind};
ghost use Rattle.clap.specs.Values.{kind_of};
ghost use Rattle.ctxbound_words.specs.declared.fault.WordsFault.TheVariants.{OutOfMemory};
ghost use Rattle.ctxbound_words.specs.Words.{of_clap, of_words_error, words_status};

use clap::Error;
use clap::error::ErrorKind;
use std::alloc::AllocError;
use std::io;
use std::io::Write;

/// Why the command words ask for nothing.
#[derive(Drop)]
pub enum WordsFault {
    /// Some word is not UTF-8.
    NotUtf8,
    /// Memory ran out.
    OutOfMemory,
    /// What `clap` says to the user: a refusal, or the help or the version that was asked for.
    Clap(Error),
}

impl WordsFault {
    /// The status that the program ends with: 2 where the command line is refused, or help or the
    /// version is shown, 4 where memory ran out.
    pub fn status(&self) -> u8
        ensures { result ≡ words_status self.now }
    {
        match self {
            WordsFault::NotUtf8 | WordsFault::Clap(_) => 2,
            WordsFault::OutOfMemory => 4,
        }
    }

    /// Writes the message for the user to `err`, and answers the status that the program ends with,
    /// which a failing `err` doesn't change.
    pub fn report<E: Write>(&self, err: &mut E) -> u8
        ensures { result ≡ words_status self.now }
    {
        let _ = match self {
            WordsFault::NotUtf8 => writeln!(err, "ctxbound: words NotUtf8"),
            WordsFault::OutOfMemory => writeln!(err, "ctxbound: memory"),
            WordsFault::Clap(error) => err.write_fmt(error),
        };
        self.status()
    }
}

impl From<Error> for WordsFault {
    ghost from_gives = { λ e fault. fault ≡ of_clap (kind_of e) e };

    // The fault of an error of `clap`: out of memory, or what `clap` says.
    fn from(error: Error) -> WordsFault {
        match error.kind() {
            ErrorKind::OutOfMemory => WordsFault::OutOfMemory,
            _ => WordsFault::Clap(error),
        }
    }
}

impl From<io::Error> for WordsFault {
    ghost from_gives = { λ e fault. fault ≡ of_words_error (error_kind e) };

    // The fault of a command line that can't be read: out of memory, or a word that isn't UTF-8.
    fn from(error: io::Error) -> WordsFault {
        match error.kind() {
            io::ErrorKind::OutOfMemory => WordsFault::OutOfMemory,
            _ => WordsFault::NotUtf8,
        }
    }
}

impl From<AllocError> for WordsFault {
    ghost from_gives = { λ _ fault. fault ≡ OutOfMemory };

    // The fault of memory that ran out.
    fn from(_error: AllocError) -> WordsFault {
        WordsFault::OutOfMemory
    }
}
