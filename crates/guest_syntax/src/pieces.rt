//! A text cut into tokens, whether or not it spells a tree.

ghost use Rattle.std.specs.Prelude.{◌≡◌, ◌+◌, ◌^◌, ◌≤◌, ◌<◌, ◌⊎◌, length, take, drop, IfSome, None, ℕ};
ghost use Rattle.guest_syntax.specs.Place.{start};
ghost use Rattle.guest_syntax.specs.Pieces.{IsGapBefore, IsWhole, IsStray, open_after, ClosesAt};

use crate::cursor::Cursor;
use crate::lexer::{advance, comment_goes_on, kind_at};
use crate::limits::TEXT_BYTES;
use crate::place::Pos;

/// A token, or a byte with which no token begins.
#[derive(Clone, Copy)]
pub struct Piece<'a> {
    /// The piece's bytes.
    pub text: &'a [u8],
    /// The place of the piece's first byte.
    pub at: Pos,
}

/// What is left of a text, to be cut into pieces: longest tokens, and bytes that begin no token.
#[derive(Drop)]
pub struct Pieces<'a> {
    left: Cursor<'a>,
}

impl<'a> Pieces<'a> {
    /// An iterator over the tokens of a text and its bytes that begin no token, in text order. It
    /// leaves out all bytes after the first [`TEXT_BYTES`](crate::TEXT_BYTES).
    #[tactic(auto, using(std::proofs::lemmas::List::take_min))]
    pub fn new(text: &'a [u8]) -> Pieces<'a>
        ensures rest { result.left.rest.now ≡ take TEXT_BYTES text.now }
        ensures at { result.left.at ≡ start }
    {
        let text = &text[..TEXT_BYTES.min(text.len())];
        let (rest, at) = (text, Pos { line: 1, col: 1 });
        let left = Cursor { text, rest, at };
        Pieces { left }
    }
}

// How many bytes of spaces and comments a text begins with.
fn gap_len(text: &[u8]) -> usize
    ensures within { result ≤ length text.now }
    ensures gap { IsGapBefore (take result text.now) (drop result text.now) }
{
    let mut comment = false;
    for (i, byte) in text.iter().enumerate() {
        match comment_goes_on(comment, *byte) {
            Some(goes_on) => comment = goes_on,
            None => return i,
        }
    }
    text.len()
}

// How many bytes the longest token has that a text begins with; 1 where none begins there.
fn piece_len(text: &[u8]) -> usize
    requires { 0 < length text.now }
    ensures some { 0 < result }
    ensures within { result ≤ length text.now }
    ensures is { IsWhole (take result text.now) (drop result text.now)
        ⊎ IsStray (take result text.now) (drop result text.now) }
{
    match kind_at(text) {
        Some((_, len)) => len,
        None => 1,
    }
}

impl<'a> Iterator for Pieces<'a> {
    ghost use Rattle.std.specs.Prelude.{length};
    ghost use Rattle.std.specs.Iterator.{at_most};
    ghost use Rattle.guest_syntax.specs.Pieces.{GivesPiece};

    type Item = Piece<'a>;

    ghost next_gives = { GivesPiece };

    ghost remaining = { λ s. at_most (length s.left.rest.now) };

    /// The next token past spaces and comments, or a byte that begins no token; `None` at the end.
    fn next(&mut self) -> Option<Piece<'a>> {
        let start = advance(self.left, gap_len(self.left.rest));
        self.left = start;
        if start.rest.is_empty() {
            return None;
        }
        let len = piece_len(start.rest);
        self.left = advance(start, len);
        Some(Piece {
            text: &start.rest[..len],
            at: start.at,
        })
    }
}

// How many blocks are open after a piece if `depth` are open before; `None` for a `}` at depth 0.
fn open_after(piece: &Piece<'_>, depth: usize) -> Option<usize>
    requires { depth + 1 < 2 ^ 64 }
    ensures is { result ≡ open_after piece.now depth }
    ensures deeper { IfSome result (λ d. d ≤ depth + 1) }
{
    if piece.text == b"{".as_slice() {
        Some(depth + 1)
    } else if piece.text == b"}".as_slice() {
        depth.checked_sub(1)
    } else {
        Some(depth)
    }
}

/// The index of the `}` that closes the block in which `pieces` begin; `None` if none does.
pub fn closing_brace(pieces: &[Piece<'_>]) -> Option<usize>
    ensures found { IfSome result (ClosesAt pieces.now) }
    ensures none { result ≡ None → (n : ℕ) → ClosesAt pieces.now n → ⊥ }
{
    let mut depth = 0;
    for (i, piece) in pieces.iter().enumerate() {
        match open_after(piece, depth) {
            Some(deeper) => depth = deeper,
            None => return Some(i),
        }
    }
    None
}
