//! What is said of a tree that is no program, beside the short form of its refusal.

use crate::forms::slot_words;
use crate::message::Message;
use crate::names::Nearest;
use crate::pieces::{span_at, text_of};
use crate::site::FaultSite;
use crate::words::statement_words;
use guest_code::error::CheckError;
use guest_code::limits::{LOCALS, OBJECTS, THREADS, VARIABLES};
use guest_syntax::pieces::Piece;
use std::alloc::{AllocError, Global};

// What a name may be declared as: its keyword, its word in forms, its own word, and the limit.
static KINDS: [(&str, &str, &str, usize); 5] = [
    ("var", "VAR", "variable", VARIABLES),
    ("mutex", "MUTEX", "mutex", OBJECTS),
    ("cond", "COND", "condition", OBJECTS),
    ("sem", "SEM", "semaphore", OBJECTS),
    ("thread", "THREAD", "thread", THREADS),
];

// What is declared by this keyword, or may be at this word of a form: its keyword, its own word and
// the limit. That of a local for any other word.
fn kind_of(keyword_or_slot: &str) -> (&'static str, &'static str, usize) {
    for (keyword, slot, word, most) in &KINDS {
        if *keyword == keyword_or_slot || *slot == keyword_or_slot {
            return (*keyword, *word, *most);
        }
    }
    ("var", "local of its thread", LOCALS)
}

/// Tells of a tree that is no program, for this error, what is wrong at its site, and what is meant;
/// nothing where memory ran out. Fails where memory runs out.
pub fn tell_fault(
    told: &mut Message,
    site: FaultSite<'_>,
    error: CheckError,
) -> Result<(), AllocError> {
    match error {
        CheckError::Duplicate(_) | CheckError::WrongKind(_) => tell_declared(told, site, error),
        CheckError::Unknown(_) => tell_unknown(told, site),
        CheckError::TooMany(_) => {
            let (_, what, most) = kind_of(site.keyword());
            let next = most.saturating_add(1);
            told.say(format_args!("the {next}th {what}: at most {most}"))
        }
        CheckError::NoThreads => told.say("a program has at least one thread: thread A { .. }"),
        CheckError::CodeTooLong(_) => told.say(
            "more than 1,024 instructions, with all copies of each `repeat` written out",
        ),
        CheckError::LeaveOutside(_) => {
            told.say("no `repeat` is round this `leave`")?;
            told.hint(statement_words("return"))
        }
        CheckError::OutOfMemory => Ok(()),
    }
}

// Tells of the name at the site, which is declared before, or as something else.
fn tell_declared(
    told: &mut Message,
    site: FaultSite<'_>,
    error: CheckError,
) -> Result<(), AllocError> {
    let name = site.found();
    let Some((keyword, first)) = site.declaration(name) else {
        return Ok(());
    };
    let (_, kind, _) = kind_of(keyword);
    if matches!(error, CheckError::Duplicate(_)) {
        told.say(format_args!("`{name}` is declared already"))?;
        let span = Some(span_at(site.pieces, first.at));
        return told.note_at(span, format_args!("the first is this {kind}"));
    }
    let wanted = slot_words(site.slot());
    told.say(format_args!("`{name}` is a {kind} ({}); {wanted} was expected", first.at))?;
    told.hint(site.kind_note())
}

// The declared name nearest to the one at the site, of those that this keyword declares.
fn nearest_declared<'a>(
    alloc: Global,
    site: FaultSite<'a>,
    keyword: &str,
) -> Result<Option<&'a Piece<'a>>, AllocError> {
    let mut nearest = Nearest::new(site.found().as_bytes());
    for i in 1..site.pieces.len() {
        if site.piece(i - 1) == keyword {
            nearest.add(alloc, site.piece(i).as_bytes(), i)?;
        }
    }
    match nearest.found() {
        Some(i) => Ok(site.pieces.get(i)),
        None => Ok(None),
    }
}

// Tells of the name at the site, which isn't declared: the nearest name that is; else, if it is a
// local's, how that gets a value; else how to declare it.
fn tell_unknown(told: &mut Message, site: FaultSite<'_>) -> Result<(), AllocError> {
    let found = site.found();
    let (keyword, word, _) = kind_of(site.slot());
    told.say(format_args!("no {word} has this name"))?;
    if let Some(near) = nearest_declared(told.allocator(), site, keyword)? {
        let (name, at) = (text_of(near.text), near.at);
        return told.note(format_args!("did you mean `{name}` (declared at {at})?"));
    }
    if site.is_local(found) {
        return told.hint(site.kind_note());
    }
    let opening = if keyword == "sem" { " = 0" } else { "" };
    told.note(format_args!("declare it: {keyword} {found}{opening};"))
}
