//! Walks of items after a prefix and up to a quota, and items that differ.

use guest_code::lowering::lower;
use guest_code::program::Program;
use guest_syntax::parse;
use std::alloc::{Alloc, Global};
use std::process::Abort;
use std::sync::Arc;
use std::test::*;
use walk::found::Found;
use walk::walked::Walked;
use walk::walker::walk;
use walk::{Item, Mode};
use walk_prefixes::Prefixes;

/// Two threads that each add one to a variable, in two steps.
const COUNTERS: &str =
    "var x; thread A { load r x; set r r + 1; store x r; } thread B { load r x; set r r + 1; store x r; }";

/// The program that a text spells.
pub fn program_of(alloc: Global, text: &str) -> Result<Arc<Program>, Fail> {
    let tree = parse(alloc, text.as_bytes())?;
    Ok(Arc::new(alloc, lower(alloc, &tree)?)?)
}

/// The walk of a text's program under a prefix, up to `quota` schedules, or one where that is 0.
pub fn walk_under(
    alloc: Global,
    text: &str,
    prefix: &[u8],
    mode: Mode,
    quota: u32,
) -> Result<Walked, Fail> {
    let item = Item::at(alloc, program_of(alloc, text)?, prefix)?;
    Ok(walk(alloc, &item, mode, quota.max(1))?)
}

// How many schedules walks try of the items that a walk left.
fn count_left(alloc: Global, rest: &[Item], mode: Mode) -> Result<u64, Fail> {
    let mut left = 0_u64;
    for item in rest {
        left = left.saturating_add(walk(alloc, item, mode, 256)?.part().tried());
    }
    Ok(left)
}

// Appends each prefix of a list to a line, the last one first, and pops it.
fn push_all(line: &mut String, prefixes: &mut Prefixes) -> Result<(), Fail> {
    for _ in 0..prefixes.len() {
        write!(line, "; {:?}", prefixes.last())?;
        if !prefixes.is_empty() {
            prefixes.pop();
        }
    }
    Ok(())
}

// What a walk in a mode found, in one line: see `WALKS`.
fn found_line(alloc: Global, mut found: Found, mode: Mode) -> Result<String, Fail> {
    let left = count_left(alloc, found.rest.as_slice(), mode)?;
    let mut line = format!(in alloc; "{} {left} {}", found.part.tried(), found.part.beyond())?;
    for end in found.part.ends() {
        write!(line, " {:?} {:?}", end.kind(), end.vars())?;
    }
    push_all(&mut line, &mut found.deferred)?;
    Ok(line)
}

/// A prefix of `COUNTERS`, a bound, a quota, and what the walk of the schedules after the prefix
/// finds: how many are tried, how many further walks try of what it leaves, whether some are beyond
/// the bound, the end views, and the prefixes that the bound defers, the last one first. Of the
/// three schedules that thread 0 begins 1, 2 and 3 are within bounds 0, 1 and 2. What one row puts
/// off, another one walks at the next bound; a prefix past its bound is beyond it, and tries
/// nothing. The last two are cut short by a quota, or not.
const WALKS: [(&[u8], u32, u32, &str); 11] = [
    (&[0], 0, 256, "1 0 true Done [2]; Some([0, 1])"),
    (&[0], 1, 256, "2 0 true Done [1] Done [2]; Some([0, 1, 0])"),
    (&[0], 2, 256, "3 0 false Done [1] Done [2]"),
    (&[0, 1], 0, 256, "0 0 true"),
    (&[], 0, 256, "2 0 true Done [2]; Some([1, 0]); Some([0, 1])"),
    (&[0, 1], 1, 256, "1 0 true Done [1]; Some([0, 1, 0])"),
    (&[1, 0], 1, 256, "1 0 true Done [1]; Some([1, 0, 1])"),
    (&[0, 1, 0], 2, 256, "1 0 false Done [1]"),
    (&[1, 0, 1], 2, 256, "1 0 false Done [1]"),
    (&[], 1, 1, "1 3 false Done [2]"),
    (
        &[],
        1,
        5,
        "4 0 true Done [1] Done [2]; Some([1, 0, 1]); Some([0, 1, 0])",
    ),
];

// Each walk of `WALKS` finds, leaves and puts off what its row says.
#[test]
fn what_walks_find(rt: HostRuntime) -> Result<(), Fail> {
    for (prefix, bound, quota, want) in &WALKS {
        let mode = Mode::Bounded(*bound);
        let walked = walk_under(rt.alloc(), COUNTERS, prefix, mode, *quota)?;
        let line = found_line(rt.alloc(), walked.into_parts().1, mode)?;
        assert_eq!(rt; line.as_str(), *want, "{prefix:?}, {bound}");
    }
    Ok(())
}

// `an item` where a prefix runs in the program of a thread that takes a mutex twice, or else the
// reason why it doesn't.
fn refusal_line(alloc: Global, prefix: &[u8]) -> Result<String, Fail> {
    match Item::at(
        alloc,
        program_of(alloc, "mutex m; thread A { lock m; lock m; }")?,
        prefix,
    ) {
        Ok(_) => Ok(String::from_str(alloc, "an item")?),
        Err(error) => Ok(format!(in alloc; "{error}")?),
    }
}

// There is no thread 1, and thread 0, which locks a mutex twice, may not take its second step.
#[test]
fn prefixes_that_do_not_run(rt: HostRuntime) -> Result<(), Fail> {
    let no_thread = refusal_line(rt.alloc(), &[1])?;
    assert_eq!(rt; no_thread.as_str(), "schedule P1 NoSuchThread at 0");
    let not_enabled = refusal_line(rt.alloc(), &[0, 0])?;
    assert_eq!(rt; not_enabled.as_str(), "schedule P2 NotEnabled at 1");
    Ok(())
}

/// Two threads whose steps are independent.
const READERS: &str = "var x; thread A { load r x; } thread B { load r x; }";

// Walks the first schedule of `READERS` with sleep sets. Answers how many items the walk leaves,
// and whether one of these equals the item that `Item::at` makes of its prefix, at which no thread
// sleeps.
fn count_left_and_find_awake(alloc: Global) -> Result<(usize, bool), Fail> {
    let (_, found) = walk_under(alloc, READERS, &[], Mode::Reduced, 1)?.into_parts();
    let mut some = false;
    for item in &found.rest {
        some |= item.equals(&Item::at(alloc, program_of(alloc, READERS)?, item.prefix())?);
    }
    Ok((found.rest.len(), some))
}

// Two readers, walked up to one schedule with sleep sets: one item is left, at which some thread
// sleeps.
#[test]
fn items_differ_by_who_sleeps(rt: HostRuntime) -> Result<(), Fail> {
    assert_eq!(rt; count_left_and_find_awake(rt.alloc())?, (1, false));
    Ok(())
}
