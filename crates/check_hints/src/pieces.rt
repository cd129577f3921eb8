//! The pieces of a text, which are its tokens and the bytes that begin no token, by their places.

ghost use Rattle.std.specs.Prelude.{◌≡◌};

use crate::diagnostic::Span;
use guest_syntax::pieces::{self, Piece, Pieces};
use guest_syntax::place::Pos;
use std::alloc::{AllocError, Global};
use std::str::from_utf8;

/// The place of the first byte of a text.
pub const START: Pos = Pos { line: 1, col: 1 };

/// The pieces of a text in order: its tokens, and the bytes that begin no token. Of a longer text,
/// the first [`TEXT_BYTES`](guest_syntax::TEXT_BYTES) bytes alone are cut into pieces. Fails where
/// memory runs out.
pub fn pieces<'a>(alloc: Global, text: &'a [u8]) -> Result<Vec<Piece<'a>>, AllocError> {
    Pieces::new(text).collect(alloc)
}

/// The bytes of a piece as a string; `?` alone if one of them is no visible ASCII character.
pub fn text_of(piece: &[u8]) -> &str {
    match from_utf8(piece) {
        Ok(text) if piece.iter().all(u8::is_ascii_graphic) => text,
        _ => "?",
    }
}

/// Whether a piece is a number: digits alone, and at least one.
pub fn is_number(piece: &str) -> bool {
    !piece.is_empty() && piece.bytes().all(|byte| byte.is_ascii_digit())
}

/// Whether a piece is a name or a keyword, by its first character: a letter or `_`.
pub fn is_name(piece: &str) -> bool {
    piece.starts_with(|first: char| first.is_ascii_alphabetic() || first == '_')
}

/// Whether the first place comes before the second one in a text, by line and then by column.
pub fn is_before(first: Pos, second: Pos) -> bool {
    first.line < second.line || first.line == second.line && first.col < second.col
}

/// The index of the first piece that begins at a place or after it; the number of pieces where none
/// does.
pub fn piece_index_at(pieces: &[Piece<'_>], at: Pos) -> usize {
    let before = |piece: &&Piece<'_>| is_before(piece.at, at);
    pieces.iter().take_while(before).count()
}

/// The span of the piece that begins at a place; a span of one byte where none begins there.
pub fn span_at(pieces: &[Piece<'_>], at: Pos) -> Span
    ensures { result.at ≡ at }
{
    let length = match pieces.get(piece_index_at(pieces, at)) {
        Some(piece) if piece.at == at => piece.text.len(),
        _ => 1,
    };
    Span { at, length }
}

/// Whether a piece ends a statement or declaration, or begins or ends a block: `;`, `{` or `}`.
pub fn is_boundary(piece: &Piece<'_>) -> bool {
    matches!(piece.text, b";" | b"{" | b"}")
}

/// Whether the piece at an index is the first of its line; false where there is no such piece.
pub fn is_first_in_line(pieces: &[Piece<'_>], index: usize) -> bool {
    match (pieces.get(index), pieces.get(index.saturating_sub(1))) {
        (Some(here), Some(before)) => index == 0 || before.at.line < here.at.line,
        _ => false,
    }
}

/// The index of the `}` that closes the block whose `{` is at the index `open`; `None` where the
/// block is never closed.
pub fn closing_index(pieces: &[Piece<'_>], open: usize) -> Option<usize> {
    let first = open.checked_add(1)?;
    let inside = pieces::closing_brace(pieces.get(first..)?)?;
    first.checked_add(inside)
}
