//! The place at which a text is refused, and what the text has round it.

use crate::forms::{OR_END, other_words, slot, takes_number};
use crate::pieces::{is_boundary, is_first_in_line, piece_index_at, text_of};
use guest_syntax::pieces::Piece;
use guest_syntax::place::Pos;

/// The place at which a text is refused, among the pieces of the text, and the statement or
/// declaration that the place is in. A thread up to its `{` counts as a declaration.
#[derive(Clone, Copy)]
pub struct FaultSite<'a> {
    /// All pieces of the text.
    pub pieces: &'a [Piece<'a>],
    /// The index of the piece at the place; the number of pieces at the end of the text.
    pub at: usize,
    /// The index of the first piece of the statement or declaration.
    pub start: usize,
}

impl<'a> FaultSite<'a> {
    /// The place at which the text of these pieces is refused, with the statement or declaration
    /// that it is in, which begins after the last `;`, `{` or `}` before the place.
    pub fn new(pieces: &'a [Piece<'a>], place: Pos) -> FaultSite<'a> {
        let at = piece_index_at(pieces, place);
        let mut start = 0;
        for i in 0..at {
            if pieces.get(i).is_some_and(is_boundary) {
                start = i + 1;
            }
        }
        FaultSite { pieces, at, start }
    }

    /// The piece of the text at an index, as a string; an empty one past the last piece.
    pub fn piece(&self, index: usize) -> &'a str {
        let piece = self.pieces.get(index);
        piece.map_or("", |piece| text_of(piece.text))
    }

    /// The piece at the fault's place, as a string; an empty one at the end of the text.
    pub fn found(&self) -> &'a str {
        self.piece(self.at)
    }

    /// The first piece of the statement or declaration, as a string: its keyword, or what is there
    /// in the keyword's stead.
    pub fn keyword(&self) -> &'a str {
        self.piece(self.start)
    }

    /// The index of the first piece after the statement or declaration: a `;`, `{` or `}`, or the
    /// first piece of a later line. The number of pieces where there is none.
    pub fn end(&self) -> usize {
        for i in self.start.saturating_add(1)..self.pieces.len() {
            if self.pieces.get(i).is_some_and(is_boundary) || is_first_in_line(self.pieces, i) {
                return i;
            }
        }
        self.pieces.len()
    }

    /// What has to be at the fault's place, by the form of the statement or declaration. Nothing
    /// where the keyword is wrong, or the form ends before. A number and its sign fill one slot.
    pub fn slot(&self) -> &'static str {
        let keyword = self.keyword();
        let mut places = 0_usize;
        for at in self.start.saturating_add(1)..self.at {
            if self.piece(at) != "-" || !takes_number(slot(keyword, places)) {
                places = places.saturating_add(1);
            }
        }
        slot(keyword, places)
    }

    /// The last piece before the fault's place, if a `;` seems to be missing after it: the form of
    /// the statement may end there, and a new line begins, or the text has ended.
    pub fn unended(&self) -> Option<&'a Piece<'a>> {
        let slot = self.slot();
        let may_end = slot == ";" || other_words(self.keyword(), slot) == OR_END;
        let is_last = self.at >= self.pieces.len() || is_first_in_line(self.pieces, self.at);
        if may_end && is_last {
            self.pieces.get(self.at.saturating_sub(1))
        } else {
            None
        }
    }

    /// Whether the fault's place is in a block: one that is closed there, or later, or never.
    pub fn is_in_block(&self) -> bool {
        let mut depth = 0_usize;
        for at in 0..self.at {
            match self.piece(at) {
                "{" => depth = depth.saturating_add(1),
                "}" => depth = depth.saturating_sub(1),
                _ => {}
            }
        }
        depth > 0
    }

    /// Whether a `thread` comes before the fault's place.
    pub fn is_after_thread(&self) -> bool {
        for at in 0..self.at {
            if self.piece(at) == "thread" {
                return true;
            }
        }
        false
    }

    // The first place where a name follows one of these keywords: the keyword, and the name there.
    fn first_after(&self, keywords: &[&str], name: &str) -> Option<(&'a str, &'a Piece<'a>)> {
        let mut before = "";
        for piece in self.pieces {
            if piece.text == name.as_bytes() && (&*keywords).contains(&before) {
                return Some((before, piece));
            }
            before = text_of(piece.text);
        }
        None
    }

    /// The keyword by which the text declares a name first, and the name there; `None` where it
    /// doesn't.
    pub fn declaration(&self, name: &str) -> Option<(&'a str, &'a Piece<'a>)> {
        self.first_after(&["var", "mutex", "cond", "sem", "thread"], name)
    }

    /// Whether the text declares a variable of this name.
    pub fn is_variable(&self, name: &str) -> bool {
        match self.declaration(name) {
            Some((keyword, _)) => keyword == "var",
            None => false,
        }
    }

    /// Whether a local has this name: somewhere a statement gives it a value.
    pub fn is_local(&self, name: &str) -> bool {
        self.first_after(&["load", "set", "add", "cas"], name)
            .is_some()
    }
}
