//! In which turns of the loops round them the statements of a run were carried out.

use crate::event::Event;
use explain_run::{Repeat, Source, repeats};
use std::alloc::{AllocError, Global};
use std::collections::BTreeSet;
use std::fmt;

/// In which turns of the loops of a text its threads carried out their statements.
#[derive(Drop)]
pub struct Turns {
    // Of each thread its loops with several turns, the outer ones before those in them.
    loops: Vec<Vec<Loop>>,
    // The threads and the instructions in first turns that have a copy which was carried out.
    again: BTreeSet<(u8, usize)>,
}

// The code of a loop: the first instruction, how many a turn has, and how many turns there are.
#[derive(Clone, Copy)]
struct Loop {
    first: usize,
    length: usize,
    turns: usize,
}

/// Which turns of the loops round it a statement is in, the outer loop first; none where its thread
/// didn't carry it out in a turn after the first. Displayed as `, turn 2 of 3` for each.
#[derive(Clone, Copy)]
pub struct InTurns<'a> {
    loops: &'a [Loop],
    instruction: usize,
}

impl Loop {
    // In which turn, counted from 0, an instruction is, and of what in the first turn that is a copy;
    // `None` where it isn't in the loop.
    fn turn(&self, instruction: usize) -> Option<(usize, usize)> {
        let turn = instruction
            .checked_sub(self.first)?
            .checked_div(self.length)?;
        let before = usize::saturating_mul(turn, self.length);
        (turn < self.turns).then_some((turn, instruction.saturating_sub(before)))
    }
}

impl Turns {
    /// The turns of a run with these events. Fails where memory runs out.
    pub fn new(alloc: Global, source: &Source<'_>, events: &[Event]) -> Result<Turns, AllocError> {
        let repeats = repeats(alloc, source.text)?;
        let (mut loops, mut again) = (Vec::new(alloc), BTreeSet::new(alloc));
        for thread in 0..source.program.threads() {
            loops.push(loops_of(alloc, source, thread, repeats.as_slice())?)?;
        }
        for event in events.iter().filter(|event| !event.is_blocked()) {
            let of = loops.get(event.thread as usize);
            let copy = of.map_or(0, |of| first_copy(of.as_slice(), event.instruction));
            if copy != event.instruction {
                again.insert((event.thread, copy))?;
            }
        }
        Ok(Turns { loops, again })
    }

    /// Which turns an instruction of a thread is in.
    pub fn of(&self, thread: u8, instruction: usize) -> InTurns<'_> {
        let loops = self.loops.get(thread as usize);
        let loops = loops.map(|loops| loops.as_slice()).filter(|loops| {
            self.again
                .contains(&(thread, first_copy(loops, instruction)))
        });
        let loops = loops.unwrap_or(&[]);
        InTurns { loops, instruction }
    }
}

impl InTurns<'_> {
    /// Which turn of the loop of this number, and how many it has; `None` where it isn't in it.
    pub fn get(&self, number: usize) -> Option<(usize, usize)> {
        let of = self.loops.get(number)?;
        let outer = self.loops.get(..number)?;
        let (turn, _) = of.turn(first_copy(outer, self.instruction))?;
        Some((turn.saturating_add(1), of.turns))
    }

    /// How many loops it may be in.
    pub fn len(&self) -> usize {
        self.loops.len()
    }
}

impl fmt::Display for InTurns<'_> {
    fn fmt<W: fmt::Write>(&self, f: &mut fmt::Formatter<W>) -> fmt::Result {
        for (turn, of) in (0..self.len()).filter_map(|number| self.get(number)) {
            write!(f, ", turn {turn} of {of}")?;
        }
        Ok(())
    }
}

// The first copy in a thread's code of what is at this instruction; `loops` are the thread's.
fn first_copy(loops: &[Loop], instruction: usize) -> usize {
    let first = |at: usize, of: &Loop| of.turn(at).map_or(at, |(_, copy)| copy);
    loops.iter().fold(instruction, first)
}

// The loops with several turns in a thread's code, of all `repeats` of its text.
fn loops_of(
    alloc: Global,
    source: &Source<'_>,
    thread: u8,
    repeats: &[Repeat],
) -> Result<Vec<Loop>, AllocError> {
    let mut loops = Vec::new(alloc);
    let is_there = thread < source.program.threads();
    let length = if is_there {
        source.program.code(thread).len()
    } else {
        0
    };
    for (at, repeat) in repeats.iter().enumerate() {
        let mut inside = (0..length).filter(|i| repeat.contains(source.place(thread, *i)));
        if repeat.turns > 1
            && let Some(first) = inside.next()
        {
            let outer = repeats.iter().take(at);
            let outer = outer.filter(|outer| outer.contains(Some(repeat.at)));
            let copies = outer.fold(
                repeat.turns,
                |n, outer| usize::saturating_mul(n, outer.turns),
            );
            let length = inside
                .count()
                .saturating_add(1)
                .checked_div(copies)
                .unwrap_or(0);
            let turns = repeat.turns;
            loops.push(Loop {
                first,
                length,
                turns,
            })?;
        }
    }
    Ok(loops)
}
