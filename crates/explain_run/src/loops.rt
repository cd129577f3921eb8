//! The loops of a text.

use guest_syntax::Pos;
use guest_syntax::pieces::Pieces;
use std::alloc::{AllocError, Global};

/// A `repeat` in a text.
#[derive(Drop)]
pub struct Repeat {
    /// The place of its keyword.
    pub at: Pos,
    /// How many turns it has.
    pub turns: usize,
    // The place of the brace that closes its block.
    end: Pos,
    /// The places of each `leave` that leaves it.
    pub leaves: Vec<Pos>,
}

impl Repeat {
    /// Whether a place in the text is inside the block; false for `None`.
    pub fn contains(&self, place: Option<Pos>) -> bool {
        place.is_some_and(|place| is_before(self.at, place) && is_before(place, self.end))
    }

    /// Whether a `leave` that leaves the `repeat` is at a place in the text; false for `None`.
    pub fn is_left_at(&self, place: Option<Pos>) -> bool {
        self.leaves.iter().any(|leave| Some(*leave) == place)
    }
}

// Whether the first place comes before the second one in a text, by line and then by column.
fn is_before(first: Pos, second: Pos) -> bool {
    (first.line, first.col) < (second.line, second.col)
}

/// Each `repeat` of a text, in the order of the text.
pub fn repeats(alloc: Global, text: &[u8]) -> Result<Vec<Repeat>, AllocError> {
    let mut all: Vec<Repeat> = Vec::new(alloc);
    // of each open block the number of the `repeat` that it is the block of, if it is one's
    let mut blocks: Vec<Option<usize>> = Vec::new(alloc);
    let mut next = None;
    for piece in Pieces::new(text) {
        match piece.text {
            b"repeat" => {
                next = Some(all.len());
                all.push(Repeat {
                    at: piece.at,
                    turns: 0,
                    end: piece.at,
                    leaves: Vec::new(alloc),
                })?;
            }
            b"{" => blocks.push(next.take())?,
            b"}" => {
                if let Some(repeat) = repeat_at(&mut all, blocks.pop().flatten()) {
                    repeat.end = piece.at;
                }
            }
            b"leave" => {
                let inner = blocks.iter().rev().find_map(|block| *block);
                if let Some(repeat) = repeat_at(&mut all, inner) {
                    repeat.leaves.push(piece.at)?;
                }
            }
            count => {
                if let Some(repeat) = repeat_at(&mut all, next) {
                    repeat.turns = number_of(count);
                }
            }
        }
    }
    Ok(all)
}

// The `repeat` of this number; `None` where there is none, or no number is given.
fn repeat_at(all: &mut Vec<Repeat>, number: Option<usize>) -> Option<&mut Repeat> {
    all.get_mut(number?)
}

// The number that decimal digits spell; where it is too large, the largest.
fn number_of(digits: &[u8]) -> usize {
    digits.iter().fold(0, |number, digit| {
        let value = usize::from(digit.saturating_sub(b'0'));
        usize::saturating_mul(number, 10).saturating_add(value)
    })
}
