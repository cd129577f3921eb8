//! The pieces of a schedule's text: a thread number, alone or with `x` and a count.

ghost use Rattle.std.specs.Prelude.{◌≡◌, ◌≢◌, ◌-◌, ◌^◌, OnOk, MatchOption, ℕ, ◌++◌, ◌==◌, min, IsTrue, ◌↔◌, position, replicate, slice_index};
ghost use Rattle.std.specs.Str.Parse.{IsNumeral};
ghost use Rattle.replay.specs.Spelling.{SpellsNumber, SpellsCount, IsPiece, piece_text};
ghost use Rattle.replay.specs.inner.Piece.{IsHeldAs};

use std::alloc::{AllocError, Global};

/// How many thread numbers a schedule's text may name: 0 to 255.
pub const NUMBERS: usize = 256;

/// The text of 0, the only number whose text begins with a zero.
const ZERO: &[u8] = b"0";

/// A piece of a schedule: a number of steps of one thread, one after the other.
#[derive(Clone, Copy)]
pub struct Piece {
    /// The thread, by its number.
    pub thread: u8,
    /// How many steps.
    pub count: usize,
}

impl Piece {
    /// The piece of a single step of a thread.
    pub fn step(thread: u8) -> Piece
        ensures { result ≡ record { thread = thread; count = 1 } }
    {
        Piece { thread, count: 1 }
    }
}

/// The piece that a text spells; `None` where the text spells none. A count above `usize::MAX`, too
/// long for a schedule anyway, is answered as `usize::MAX`.
pub fn piece_of(text: &[u8]) -> Option<Piece>
    ensures { MatchOption result (¬ (IsPiece text.now)) (IsHeldAs text.now) }
{
    let Some(at) = first_x(text) else {
        return Some(Piece::step(thread_number_of(text)?));
    };
    Some(Piece {
        thread: thread_number_of(&text[..at])?,
        count: count_of(&text[at + 1..])?,
    })
}

// The index of the first `x` in a text; `None` where the text has none.
fn first_x(text: &[u8]) -> Option<usize>
    ensures { result ≡ position (λ b. b == 120) text.now }
{
    text.iter().position(|b| *b == b'x')
}

// The thread number, 0 to 255, that a text spells in decimal, without leading zeros and without a
// sign; `None` where the text spells none.
fn thread_number_of(text: &[u8]) -> Option<u8>
    ensures { MatchOption result ((t : ℕ) → ¬ (SpellsNumber text.now t)) (SpellsNumber text.now) }
{
    if text == ZERO {
        return Some(0);
    }
    let number = count_of(text)?;
    if number < NUMBERS {
        Some(number as u8)
    } else {
        None
    }
}

// The count, at least 1, that a text spells in decimal, without leading zeros and without a sign;
// `None` where the text spells none. A count above `usize::MAX` is answered as `usize::MAX`.
fn count_of(text: &[u8]) -> Option<usize>
    ensures { MatchOption result ((n : ℕ) → ¬ (SpellsCount text.now n))
        (λ held. (n : ℕ) × SpellsCount text.now n × (held ≡ min n (2 ^ 64 - 1))) }
{
    if !is_count(text) {
        return None;
    }
    let Ok(digits) = str::from_utf8(text) else {
        return None;
    };
    Some(digits.parse().unwrap_or(usize::MAX))
}

// Whether a text spells a count: it has digits alone, at least one, and the first isn't 0.
fn is_count(text: &[u8]) -> bool
    ensures { IsTrue result ↔ (IsNumeral 10 text.now × (slice_index text.now 0 ≢ 48)) }
{
    !text.is_empty() && text[0] != b'0' && text.iter().all(|b| b.is_ascii_digit())
}

/// Appends the spelling of a piece to a text: its thread's number and, unless it has a single step,
/// an `x` and the number of steps. Fails where memory runs out.
pub fn put_piece(text: &mut Vec<u8>, alloc: Global, piece: Piece) -> Result<(), AllocError>
    ensures { OnOk result (text.new.items ≡ text.old.items ++ piece_text piece) }
{
    text.extend_from_slice(piece.thread.to_string(alloc)?.as_bytes())?;
    if piece.count != 1 {
        text.push(b'x')?;
        text.extend_from_slice(piece.count.to_string(alloc)?.as_bytes())?;
    }
    Ok(())
}

/// Appends the steps of a piece to a schedule, as thread numbers. Fails where memory runs out.
pub fn push_steps(schedule: &mut Vec<u8>, piece: Piece) -> Result<(), AllocError>
    ensures { OnOk result
        (schedule.new.items ≡ schedule.old.items ++ replicate piece.count piece.thread) }
{
    for _ in 0..piece.count {
        schedule.push(piece.thread)?;
    }
    Ok(())
}
