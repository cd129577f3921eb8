//! The tool `walk FILE MODE [unlisted]`, for `bench/walk.py`: counts the schedules of a guest
//! program within a bound, or those that sleep sets leave (`reduced`), and the prefixes that the
//! bound defers. With `unlisted` these aren't listed, as at a search's last bound, and not counted.

ghost use Rattle.std.specs.Prelude.{◌≡◌, length};

use guest_code::lowering::lower;
use guest_syntax::parse;
use std::alloc::{Alloc, Global};
use std::fs;
use std::fs::Files;
use std::io::Print;
use std::process::ExitCode;
use std::sync::Arc;
use walk::found::Found;
use walk::walker::Walker;
use walk_items::item::Item;
use walk_items::mode::Mode;

/// What a walk counted.
#[derive(Clone, Copy)]
struct Counts {
    tried: u64,
    failed: u64,
    stuck: u64,
    deferred: usize,
}

/// The numbers of schedules that a walk tried, of failed and stuck ones, and of listed prefixes.
fn counts_of(found: &Found) -> Counts
    ensures tried { result.tried ≡ found.now.part.tried }
    ensures failed { result.failed ≡ found.now.part.failed }
    ensures stuck { result.stuck ≡ found.now.part.stuck }
    ensures deferred { result.deferred ≡ length found.now.deferred }
{
    Counts {
        tried: found.part.tried(),
        failed: found.part.failed(),
        stuck: found.part.stuck(),
        deferred: found.deferred.len(),
    }
}

/// The counts of one walk of all schedules in a mode, or of the first `u32::MAX`, the greatest
/// quota. If `lists`, prefixes that the bound defers are listed, and so counted. `None` where the
/// text spells no program, or memory runs out.
fn walk_all(alloc: Global, text: &[u8], mode: Mode, lists: bool) -> Option<Counts> {
    let tree = parse(alloc, text).ok()?;
    let program = Arc::new(alloc, lower(alloc, &tree).ok()?).ok()?;
    let item = Item::root(alloc, Arc::try_clone(&program).ok()?).ok()?;
    let mut walker = Walker::new(alloc, program).ok()?;
    let mut found = Found::new(alloc);
    walker.clear(&mut found, lists);
    walker
        .walk_into(alloc, &mut found, &item, mode, u32::MAX)
        .ok()?;
    Some(counts_of(&found))
}

/// The mode that a word names: a bound, or `reduced`; `None` where it is neither.
fn parse_mode(word: &str) -> Option<Mode> {
    if word == "reduced" {
        return Some(Mode::Reduced);
    }
    Some(Mode::Bounded(word.parse().ok()?))
}

/// What `walk FILE MODE [unlisted]` asks for: the text of the file, the mode, and whether to list
/// the prefixes that it defers. `None` where the file can't be read, or a word is missing or wrong.
fn read_walk_request<H: Files + Alloc<A = Global>>(
    rt: &H,
    words: &[String],
) -> Option<(Vec<u8>, Mode, bool)> {
    let text = fs::read(rt, words.get(1)?.as_str()).ok()?;
    let mode = parse_mode(words.get(2)?.as_str())?;
    let Some(word) = words.get(3) else {
        return Some((text, mode, true));
    };
    if word.as_str() != "unlisted" {
        return None;
    }
    Some((text, mode, false))
}

/// Makes the walk that a command line's words ask for, and prints its counts. Answers the status:
/// failure where the walk fails or can't be printed; `None` where the words ask for no walk.
pub fn run<H: Files + Print + Alloc<A = Global>>(rt: &H, words: &[String]) -> Option<ExitCode> {
    let (text, mode, lists) = read_walk_request(rt, words)?;
    let Some(
        Counts {
            tried,
            failed,
            stuck,
            deferred,
        },
    ) = walk_all(rt.alloc(), text.as_slice(), mode, lists)
    else {
        return Some(ExitCode::FAILURE);
    };
    match println!(rt; "tried {tried} failed {failed} stuck {stuck} deferred {deferred}") {
        Ok(()) => Some(ExitCode::SUCCESS),
        Err(_) => Some(ExitCode::FAILURE),
    }
}
