//! Tests that agree, which rule out what is warned of a mutex.

use crate::compiled::Compiled;
use check_lint::paths::skip_of;
use check_lint::uses::{expression_reads, local_set};
use check_lint::warning::{Warning, WarningKind};
use guest_code::program::{Expression, Instruction};
use std::alloc::{AllocError, Global};

// Ways to be at a place of a code: with the mutex or without it, and with the test true or not.
const WAYS: usize = 4;

// What is warned of a mutex, at the instruction of number `at`: that the thread takes it there and
// ends owning it, or comes there without it. It does so on a path on which the tests of one
// expression agree, if one is given: a test goes as the one before it did, unless a local of the
// expression was set between them.
#[derive(Clone, Copy)]
struct Fault<'a> {
    code: &'a [Instruction],
    at: usize,
    mutex: usize,
    ends_owning: bool,
    test: Option<&'a Expression>,
}

// The expression that an instruction tests; `None` where it is no test.
fn tested(instruction: &Instruction) -> Option<&Expression> {
    match instruction {
        Instruction::SkipIfZero(test, _) => Some(test),
        _ => None,
    }
}

// The way at a place from which a path leads to the fault, with the test as it `holds` or, where a
// local of it was set, the other way; `after` says of which ways it does.
fn leading_way(
    after: &[Option<usize>],
    place: usize,
    owns: bool,
    holds: bool,
    is_set: bool,
) -> Option<usize> {
    let side = if owns { 2 } else { 0 };
    let first = place.saturating_mul(WAYS).saturating_add(side);
    let way = first.saturating_add(usize::from(holds));
    let other = first.saturating_add(usize::from(!holds));
    match (after.get(way), after.get(other)) {
        (Some(Some(_)), _) => Some(way),
        (_, Some(Some(_))) if is_set => Some(other),
        _ => None,
    }
}

impl Fault<'_> {
    // Whether the thread has the mutex after an instruction, the one at `place`, before which it has
    // it if `owns`; `None` where the path ends, since the thread takes what it has.
    fn owns_after(self, place: usize, instruction: &Instruction, owns: bool) -> Option<bool> {
        match instruction {
            Instruction::Lock(taken) if *taken == self.mutex && owns => None,
            // what another `lock` takes isn't what this one ends with
            Instruction::Lock(taken) if *taken == self.mutex => {
                Some(!self.ends_owning || place == self.at)
            }
            Instruction::Unlock(given) if *given == self.mutex => Some(false),
            _ => Some(owns),
        }
    }

    // Whether an instruction sets a local of the expression whose tests agree.
    fn sets_tested_local(self, instruction: &Instruction) -> bool {
        match (self.test, local_set(instruction)) {
            (Some(test), Some(local)) => expression_reads(local, test),
            _ => false,
        }
    }

    // The way after the one of number `way` on such a path, which jumps where it may; itself at the
    // fault, and `None` where no path leads there. `after` says so of the ways at later places.
    fn way_after(self, after: &[Option<usize>], way: usize) -> Option<usize> {
        let (place, owns, holds) = (way / WAYS, way % WAYS >= 2, way % 2 == 1);
        let Some(instruction) = self.code.get(place) else {
            return (self.ends_owning && owns).then_some(way);
        };
        if place == self.at && !self.ends_owning {
            return (!owns).then_some(way);
        }
        let owns = self.owns_after(place, instruction, owns)?;
        let is_set = self.sets_tested_local(instruction);
        let leads = |place: usize| leading_way(after, place, owns, holds, is_set);
        let next = place.saturating_add(1);
        let jump = next.saturating_add(skip_of(instruction));
        match tested(instruction) {
            Some(test) if self.test == Some(test) => leads(if holds { next } else { jump }),
            Some(_) => leads(jump).or(leads(next)),
            None => leads(jump),
        }
    }

    // The way after each way to be at a place of the code; the first two are those at the start.
    fn ways(self, alloc: Global) -> Result<Vec<Option<usize>>, AllocError> {
        let count = self.code.len().saturating_add(1).saturating_mul(WAYS);
        let mut ways = vec![in alloc; None; count]?;
        for way in (0..count).rev() {
            let after = self.way_after(&ways, way);
            if let Some(known) = ways.get_mut(way) {
                *known = after;
            }
        }
        Ok(ways)
    }

    // Whether some test rules the fault out. On the path that jumps wherever it may all tests agree
    // that jump, so only the others are asked.
    fn is_ruled_out(mut self, alloc: Global) -> Result<bool, AllocError> {
        let ways = self.ways(alloc)?;
        let (mut way, mut is_possible) = (0, matches!(ways.first(), Some(Some(_))));
        for (place, instruction) in self.code.iter().enumerate() {
            if is_possible
                && way / WAYS == place
                && let Some(Some(after)) = ways.get(way)
            {
                way = *after;
                self.test = tested(instruction).filter(|_| way / WAYS == place.saturating_add(1));
                if self.test.is_some() {
                    let agreeing = self.ways(alloc)?;
                    is_possible = matches!(agreeing.as_slice(), [Some(_), ..] | [_, Some(_), ..]);
                }
            }
        }
        Ok(!is_possible)
    }
}

impl Compiled<'_> {
    /// Whether a warning is `MissingUnlock` or `MissingLock`, and is ruled out by some test in the code
    /// of the thread: it isn't so on any path on which the tests of the same expression agree; or is
    /// of a `lock` after which the mutex is given back on each path. Fails where memory runs out.
    pub fn is_ruled_out(&self, alloc: Global, warning: Warning) -> Result<bool, AllocError> {
        let (thread, ends_owning) = match warning.kind {
            WarningKind::MissingUnlock(thread) => (thread, true),
            WarningKind::MissingLock(thread) => (thread, false),
            _ => return Ok(false),
        };
        let (code, at) = (self.code(thread), warning.number);
        let mutex = match code.get(at) {
            Some(Instruction::Lock(mutex) | Instruction::Unlock(mutex)) => *mutex,
            Some(Instruction::Wait { mutex, .. }) => *mutex,
            _ => return Ok(false),
        };
        let fault = Fault {
            code,
            at,
            mutex,
            ends_owning,
            test: None,
        };
        fault.is_ruled_out(alloc)
    }
}
