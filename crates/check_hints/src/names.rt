//! How near names are to each other.

use std::alloc::{AllocError, Global};
use strsim::generic_levenshtein;

/// A search for the name that is nearest to a word: of those added that are near the word, the first
/// with the least distance of Levenshtein, which counts edits of single bytes. A name is near where
/// its distance is at most a third of the length of the word, rounded up, and less than its own
/// length. Names are told apart by numbers of the caller.
#[derive(Drop)]
pub struct Nearest<'a> {
    word: &'a [u8],
    // The number of the nearest name so far, and its distance.
    best: Option<usize>,
    least: usize,
}

impl<'a> Nearest<'a> {
    /// A search for the name that is nearest to this word, with nothing added yet.
    pub fn new(word: &'a [u8]) -> Nearest<'a> {
        Nearest {
            word,
            best: None,
            least: usize::MAX,
        }
    }

    /// Takes in a name with this number: it is the best so far where it is near the word, and
    /// nearer than all names added before. Fails where memory runs out.
    pub fn add(&mut self, alloc: Global, name: &[u8], number: usize) -> Result<(), AllocError> {
        let distance = generic_levenshtein(alloc, self.word, name)?;
        let is_near = distance <= (self.word.len() + 2) / 3 && distance < name.len();
        if is_near && distance < self.least {
            self.best = Some(number);
            self.least = distance;
        }
        Ok(())
    }

    /// The number of the first of the names that are nearest; `None` where no name is near.
    pub fn found(&self) -> Option<usize> {
        self.best
    }
}
