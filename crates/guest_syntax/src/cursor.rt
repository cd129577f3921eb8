//! Where reading is in a text.

ghost use Rattle.std.specs.Prelude.{◌≡◌, ◌+◌, ◌-◌, ◌<◌, ◌^◌, length, take, drop};
ghost use Rattle.guest_syntax.specs.Place.{start, after};

use crate::place::Pos;

/// A text, what is left of it, and the place of what is left.
#[derive(Clone, Copy)]
pub struct Cursor<'a> {
    pub text: &'a [u8],
    pub rest: &'a [u8],
    pub at: Pos,
    ghost left: { rest.now ≡ drop (length text.now - length rest.now) text.now },
    ghost place: { at ≡ after start (take (length text.now - length rest.now) text.now) },
    ghost lines: { at.line + length rest.now < 2 ^ 32 },
    ghost cols: { at.col + length rest.now < 2 ^ 32 },
}
