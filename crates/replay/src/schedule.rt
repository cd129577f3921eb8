//! The texts of schedules: `-` where the schedule is empty, else pieces joined by commas. A piece
//! is a thread number, or a thread number, `x` and how many steps of that thread follow one
//! another.

ghost use Rattle.std.specs.Prelude.{◌≡◌, ◌≤◌, false, length, IfOk, MatchResult, codes};
ghost use Rattle.std.specs.Str.{bytes_eq};
ghost use Rattle.replay.specs.Spelling.{printed, Spells, IsReadable, ScheduleErrorMeans};
ghost use Rattle.replay.specs.inner.Piece.{RefusalMeans};

use crate::error::ScheduleError;
use crate::piece::{Piece, piece_of, push_steps, put_piece};
use semantics_schedules::limits::STEPS;
use std::alloc::{AllocError, Global};

/// The most places, one for each step, of a schedule that is read from a text: the limit of steps.
pub const PLACES: usize = STEPS;

/// The text of the empty schedule.
const EMPTY: &[u8] = b"-";

/// The printed spelling of a schedule: its longest runs of steps of one thread, joined by commas, a
/// run of one step as the thread's number alone; `-` where the schedule is empty. Fails where
/// memory runs out.
pub fn schedule_text(alloc: Global, schedule: &[u8]) -> Result<Vec<u8>, AllocError>
    ensures value { IfOk result (λ text. text.items ≡ printed schedule.now) }
    ensures spells { IfOk result (λ text. Spells text.items schedule.now) }
{
    let Some((first, others)) = schedule.split_first() else {
        return Vec::from_slice(alloc, EMPTY);
    };
    let mut text = Vec::new(alloc);
    let mut run = Piece::step(*first);
    for thread in others {
        if *thread == run.thread {
            run.count += 1;
        } else {
            put_piece(&mut text, alloc, run)?;
            text.push(b',')?;
            run = Piece::step(*thread);
        }
    }
    put_piece(&mut text, alloc, run)?;
    Ok(text)
}

/// The schedule that a text spells, in any spelling.
///
/// # Errors
///
/// The first piece that can't be taken, by its offset (for a last piece that is empty, the length
/// of the text): `BadSchedule` where it is no piece, `TooLong` where the schedule has more than
/// [`PLACES`] places with it. `OutOfMemory` where memory runs out.
pub fn schedule_from(alloc: Global, text: &[u8]) -> Result<Vec<u8>, ScheduleError>
    ensures value { MatchResult result
        (λ w. Spells text.now w.items) (ScheduleErrorMeans text.now) }
    ensures short { IfOk result (λ w. length w.items ≤ PLACES) }
{
    if is_empty_schedule(text) {
        return Ok(Vec::new(alloc));
    }
    check_pieces(text)?;
    Ok(steps_of_pieces(alloc, text)?)
}

// Checks that a text that isn't `-` spells a schedule of at most `PLACES` places. An error names
// the first piece that can't be taken, by its offset.
fn check_pieces(text: &[u8]) -> Result<(), ScheduleError>
    requires { bytes_eq text.now (codes "-") ≡ false }
    ensures { MatchResult result (λ _. IsReadable text.now) (RefusalMeans text.now) }
{
    let mut places = 0;
    let mut at = 0;
    for piece in text.split(|b| *b == b',') {
        let Some(steps) = piece_of(piece) else {
            return Err(ScheduleError::BadSchedule(at));
        };
        if steps.count > PLACES - places {
            return Err(ScheduleError::TooLong(at));
        }
        places += steps.count;
        at += piece.len() + 1;
    }
    Ok(())
}

// The schedule that a text other than `-` spells, one that `check_pieces` found good: the steps of
// its pieces, one after the other.
fn steps_of_pieces(alloc: Global, text: &[u8]) -> Result<Vec<u8>, AllocError>
    requires some { bytes_eq text.now (codes "-") ≡ false }
    requires readable { IsReadable text.now }
    ensures value { IfOk result (λ w. Spells text.now w.items) }
    ensures short { IfOk result (λ w. length w.items ≤ PLACES) }
{
    let mut schedule = Vec::new(alloc);
    for piece in text.split(|b| *b == b',') {
        push_steps(&mut schedule, piece_of(piece).unwrap())?;
    }
    Ok(schedule)
}

// Whether a text is `-`, the text of the empty schedule.
fn is_empty_schedule(text: &[u8]) -> bool
    ensures { result ≡ bytes_eq text.now (codes "-") }
{
    text == EMPTY
}
