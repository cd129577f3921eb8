//! Reading a text into its tree.

ghost use Rattle.std.specs.Prelude.{◌≡◌, ◌≢◌, ◌<◌, length, IfOk, IfErr, Err};
ghost use Rattle.guest_syntax.specs.{Answers.{Answers, RefusalIn}, Grammar.Spells, Place.start};
ghost use Rattle.guest_syntax.specs.Tree.{tree_view};
ghost use Rattle.guest_syntax.specs.declared.error.SyntaxError.TheVariants.{OutOfMemory, TooLong};
ghost use Rattle.guest_syntax.specs.declared.limits.TheConstants.{TEXT_BYTES};
ghost use Rattle.guest_syntax.specs.Tree as model;

use crate::cursor::Cursor;
use crate::error::SyntaxError;
use crate::limits::TEXT_BYTES;
use crate::place::Pos;
use crate::tokens::Reader;
use crate::tree::Tree;
use std::alloc::Global;

/// Reads a whole text into the tree that it spells.
///
/// # Errors
///
/// `TooLong` where the text has more than [`TEXT_BYTES`](crate::TEXT_BYTES) bytes; else the first
/// fault in text order, with its place; `OutOfMemory` where memory runs out first.
pub fn parse(alloc: Global, text: &[u8]) -> Result<Tree, SyntaxError>
    // What is answered is spelled by the text.
    ensures found { IfOk result (λ t. Spells text.now (tree_view t)) }
    // What the text spells is answered, unless memory runs out; it is never refused.
    ensures only { (t : model.Tree) → Spells text.now t → Answers result t }
    // A text that is refused, other than because memory ran out, spells nothing.
    ensures refused { IfErr result (λ e. e ≢ OutOfMemory → (t : model.Tree) → Spells text.now t
        → ⊥) }
    // What a refusal says is so at its place: a byte above 127, or that begins no token, a number
    // above the least limit, an opening brace, some token or the end; or the text is too long.
    ensures place { IfErr result (RefusalIn start text.now) }
    // A text that is too long is refused as such, at its first byte.
    ensures long { TEXT_BYTES < length text.now → result ≡ Err (TooLong start) }
{
    let at = Pos { line: 1, col: 1 };
    if text.len() > TEXT_BYTES {
        return Err(SyntaxError::TooLong(at));
    }
    let rest = text;
    let cursor = Cursor { text, rest, at };
    Reader { alloc, cursor }.tree()
}
