//! The statuses of the files of a suite, and that of the suite.

ghost use Rattle.std.specs.Prelude.{◌≡◌, ◌++◌, ◌∷◌, [], IfOk};
ghost use Rattle.ctxbound_suite.specs.Statuses.{IsWorst};

use std::alloc::{AllocError, Global};
use std::fmt;

/// The statuses of the files of a suite that are done.
#[derive(Drop)]
pub struct Tally {
    statuses: Vec<u8>,
}

impl Tally {
    /// A tally of no files.
    pub fn new(alloc: Global) -> Tally
        ensures { result.statuses.items ≡ [] }
    {
        Tally {
            statuses: Vec::new(alloc),
        }
    }

    /// Adds the status of one more file that is done. Fails where memory runs out.
    pub fn push(&mut self, status: u8) -> Result<(), AllocError>
        ensures { IfOk result (λ _.
            self.new.statuses.items ≡ self.old.statuses.items ++ status ∷ []) }
    {
        self.statuses.push(status)?;
        Ok(())
    }

    /// The status of a suite: the greatest of its files', or 0 where it has none.
    pub fn worst(&self) -> u8
        ensures { IsWorst self.now.statuses.items result }
    {
        self.statuses.iter().copied().max().unwrap_or(0)
    }

    // How many of the files have this status.
    fn count(&self, status: u8) -> usize {
        self.statuses.iter().filter(|each| **each == status).count()
    }
}

impl fmt::Display for Tally {
    // How many files there are, and of each status that some of them have how many do, in words.
    fn fmt<W: fmt::Write>(&self, f: &mut fmt::Formatter<W>) -> fmt::Result {
        let files = self.statuses.len();
        write!(f, "{files} {}", if files == 1 { "file" } else { "files" })?;
        let mut begun = false;
        for (status, words) in STATUS_WORDS {
            let count = self.count(status);
            if count > 0 {
                write!(f, "{}{count} {words}", if begun { ", " } else { ": " })?;
                begun = true;
            }
        }
        Ok(())
    }
}

// Each status and what it says of a file, in the order in which a tally prints them.
const STATUS_WORDS: [(u8, &str); 5] = [
    (0, "as expected"),
    (1, "not as expected"),
    (3, "cut short"),
    (2, "refused"),
    (4, "not read"),
];
