//! The loops of a program that a `leave` may end, as those that spin until a value changes.

use crate::compiled::Compiled;
use check_hints::pieces::{closing_index, is_before, piece_index_at};
use check_lint::spin::Spin;
use guest_code::program::Instruction;
use guest_syntax::pieces::Piece;
use guest_syntax::place::Pos;
use std::alloc::{AllocError, Global};

// Where a `repeat` is in a text: its keyword, and the braces of its block.
#[derive(Clone, Copy)]
struct Block {
    keyword: Pos,
    open: Pos,
    close: Pos,
}

// The block of the `repeat N {` whose first piece is at the index `keyword`, if the piece at the
// later index `inside` comes before the block's end. `None` if not, or if no `repeat` is there.
fn block_around(pieces: &[Piece<'_>], keyword: usize, inside: usize) -> Option<Block> {
    let repeat = pieces.get(keyword)?;
    if !matches!(repeat.text, b"repeat") {
        return None;
    }
    let open = keyword.saturating_add(2);
    let close = closing_index(pieces, open).filter(|close| inside < *close)?;
    Some(Block {
        keyword: repeat.at,
        open: pieces.get(open)?.at,
        close: pieces.get(close)?.at,
    })
}

// The block that the `leave` at a place leaves: that of the innermost `repeat` round it. `None`
// where no `leave` is there.
fn block_of_leave(pieces: &[Piece<'_>], at: Pos) -> Option<Block> {
    let number = piece_index_at(pieces, at);
    if !matches!(pieces.get(number)?.text, b"leave") {
        return None;
    }
    for keyword in (0..number).rev() {
        if let Some(block) = block_around(pieces, keyword, number) {
            return Some(block);
        }
    }
    None
}

impl Compiled<'_> {
    // For each instruction of a thread, whether it is in `block`, that of a `repeat`. A `leave` of
    // it counts as outside: a loop that ends by one hasn't run out of turns (`Spin::runs_out`).
    fn in_block(&self, alloc: Global, thread: u8, block: Block) -> Result<Vec<bool>, AllocError> {
        let mut inside = Vec::new(alloc);
        for at in 0..self.code(thread).len() {
            let place = self.place(thread, at);
            let left = block_of_leave(self.pieces, place);
            let is_left = matches!(left, Some(left) if left.keyword == block.keyword);
            inside.push(!is_left && is_before(block.open, place) && is_before(place, block.close))?;
        }
        Ok(inside)
    }

    // Adds to `spins` the loops of a thread that a `leave` may end: once each copy in its flat code
    // of a `repeat` that has a `leave`. One inside another `repeat` has several copies.
    fn add_spins(&self, thread: u8, spins: &mut Vec<Spin>) -> Result<(), AllocError> {
        for (i, instruction) in self.code(thread).iter().enumerate() {
            if let Instruction::Skip(over) = instruction
                && let Some(block) = block_of_leave(self.pieces, self.place(thread, i))
            {
                let at = block.keyword;
                let exit = i.saturating_add(1).saturating_add(*over);
                let mut is_known = false;
                for spin in spins.as_slice() {
                    is_known |= spin.thread == thread && spin.exit == exit && spin.at == at;
                }
                if !is_known {
                    let inside = self.in_block(*spins.allocator(), thread, block)?;
                    spins.push(Spin {
                        thread,
                        at,
                        exit,
                        inside,
                    })?;
                }
            }
        }
        Ok(())
    }

    /// The loops of the program that a `leave` may end: each copy in the flat code of a `repeat`
    /// that has a `leave`. One inside another has several copies. Fails where memory runs out.
    pub fn spins(&self, alloc: Global) -> Result<Vec<Spin>, AllocError> {
        let mut spins = Vec::new(alloc);
        for thread in 0..self.program.threads() {
            self.add_spins(thread, &mut spins)?;
        }
        Ok(spins)
    }
}
