//! The request of the tool `rounds`, read from the words of its command line.

ghost use Rattle.std.specs.Prelude.{◌≤◌, IfSome};
ghost use Rattle.runner_report.specs.Promises.{IsSearch};

use crate::gate::Policy;
use ctxbound_answers::Exploration;
use runner::{BOUND, Options, Search, WORKERS};
use std::alloc::Global;

/// What a command line asks for: a file to search, how, and what the gate does.
#[derive(Drop)]
pub struct Request {
    pub file: String,
    pub search: Exploration,
    pub policy: Policy,
}

// The search that a word names: `unbounded`, or a bound, `BOUND` at most; else `None`.
fn parse_search(word: &str) -> Option<Search>
    ensures { IfSome result IsSearch }
{
    if word == "unbounded" {
        return Some(Search::Unbounded);
    }
    let bound: u32 = word.parse().ok()?;
    if bound <= BOUND {
        Some(Search::UpTo(bound))
    } else {
        None
    }
}

// The number that a word spells, if it is from 1 to `most`; else `None`.
fn parse_number(word: &str, most: u32) -> Option<u32>
    ensures some { IfSome result (λ n. 1 ≤ n) }
    ensures few { IfSome result (λ n. n ≤ most) }
{
    let number: u32 = word.parse().ok()?;
    if 1 <= number && number <= most {
        Some(number)
    } else {
        None
    }
}

// The search that `words[2..7]` ask for: a bound or `unbounded`, `quick`, `once`, `quick-once` (with
// equal threads once) or another word, the workers, the schedules a walk and the limit, 0 for none. `None` where one is missing or wrong.
fn parse_exploration(words: &[String]) -> Option<Exploration> {
    let search = parse_search(words.get(2)?.as_str())?;
    let limit: u64 = words.get(6)?.as_str().parse().ok()?;
    let quota = parse_number(words.get(5)?.as_str(), u32::MAX)?;
    let workers = parse_number(words.get(4)?.as_str(), WORKERS)?;
    let options = Options {
        search,
        limit: if limit == 0 { None } else { Some(limit) },
        quota,
        quick: words.get(3)?.as_str().starts_with("quick"),
        symmetry: words.get(3)?.as_str().ends_with("once"),
    };
    Some(Exploration {
        options,
        workers,
        progress: false,
    })
}

// The gate's policy by its name, `words[7]`, and a number, `words[8]`, which `open` and `never`
// need, too, but don't use. `None` where one is missing or wrong.
fn parse_policy(words: &[String]) -> Option<Policy> {
    let number: u64 = words.get(8)?.as_str().parse().ok()?;
    match words.get(7)?.as_str() {
        "open" => Some(Policy::Open),
        "never" => Some(Policy::NeverStop),
        "pass" => Some(Policy::PassFirst(number)),
        "worker" => Some(Policy::StopWorker(number)),
        "item" => Some(Policy::StopFrom(number)),
        "together" => Some(Policy::HoldGroup(number)),
        "after" => Some(Policy::HoldAfter(number)),
        _ => None,
    }
}

/// What a command line's words ask for; `None` where they are no request, or memory runs out.
pub fn parse_request(alloc: Global, words: &[String]) -> Option<Request> {
    Some(Request {
        file: words.get(1)?.as_str().to_string(alloc).ok()?,
        search: parse_exploration(words)?,
        policy: parse_policy(words)?,
    })
}
