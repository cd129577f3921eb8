//! Which closing brace seems to be missing.

use crate::pieces::{closing_index, is_first_in_line};
use guest_syntax::pieces::Piece;
use guest_syntax::place::Pos;

/// Where the `{` of a block is whose `}` seems to be missing; and where it is closed, if anywhere,
/// with the line after which a `}` seems missing.
pub type OpenBlock = (Pos, Option<(Pos, u32)>);

// The indent of a line: the column of its first piece; 0 where it has no piece.
fn indent(pieces: &[Piece<'_>], line: u32) -> u32 {
    let first = pieces.iter().find(|piece| piece.at.line == line);
    first.map_or(0, |piece| piece.at.col)
}

// The last of the lines right after `line` that are indented deeper than it, or `line` itself.
fn last_deeper_line(pieces: &[Piece<'_>], line: u32) -> u32 {
    let depth = indent(pieces, line);
    let mut last = line;
    for piece in pieces {
        if piece.at.line > last {
            if piece.at.col <= depth {
                return last;
            }
            last = piece.at.line;
        }
    }
    last
}

// The block whose `{` is at an index, if it is never closed, or only by a `}` that begins a line
// and is indented less than the line of the `{`.
fn open_block_at(pieces: &[Piece<'_>], index: usize) -> Option<OpenBlock> {
    let open = pieces.get(index)?;
    if !matches!(open.text, b"{") {
        return None;
    }
    let Some(close) = closing_index(pieces, index) else {
        return Some((open.at, None));
    };
    let (line, end) = (open.at.line, pieces.get(close)?.at);
    let is_late = is_first_in_line(pieces, close) && end.col < indent(pieces, line);
    is_late.then(|| (open.at, Some((end, last_deeper_line(pieces, line)))))
}

/// The block whose `}` seems to be missing, among those with a `{` before the index `end`: the
/// first that is closed too late, by the indents of lines, or else the last that is never closed.
pub fn find_open_block(pieces: &[Piece<'_>], end: usize) -> Option<OpenBlock> {
    let mut unclosed = None;
    for index in 0..end {
        match open_block_at(pieces, index) {
            Some((open, Some(closed))) => return Some((open, Some(closed))),
            block => unclosed = block.or(unclosed),
        }
    }
    unclosed
}
