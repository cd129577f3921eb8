//! What is said of a text that doesn't parse, beside the short form of its refusal.

use crate::braces::find_open_block;
use crate::forms::{form, other_words, slot_words};
use crate::message::Message;
use crate::pieces::{is_name, is_number, span_at, text_of};
use crate::site::FaultSite;
use crate::words::{declaration_keyword, statement_words};
use guest_syntax::SyntaxError;
use std::alloc::AllocError;

/// Tells of a text that the parser refuses with this error what is wrong at its site, and what is
/// meant; nothing where memory ran out. Fails where memory runs out.
pub fn tell_refusal(
    told: &mut Message,
    site: FaultSite<'_>,
    text: &[u8],
    error: SyntaxError,
) -> Result<(), AllocError> {
    match error {
        SyntaxError::Expected(_) if site.start < site.at => tell_in_statement(told, site),
        SyntaxError::Expected(_) if site.is_in_block() => tell_in_block(told, site),
        SyntaxError::Expected(_) => tell_outside_blocks(told, site),
        SyntaxError::BadChar(_) => {
            let is_within = site.start < site.at;
            told.say(bad_byte_text(site))?;
            told.hint(if is_within { site.form_note() } else { None })
        }
        _ => told.say(limit_text(site, text, error)),
    }
}

// What is said where a text passes a limit or isn't ASCII.
fn limit_text(site: FaultSite<'_>, text: &[u8], error: SyntaxError) -> &'static str {
    match error {
        SyntaxError::NotAscii(_) if text.starts_with(b"\xef\xbb\xbf") => {
            "a byte order mark: save the file without one"
        }
        SyntaxError::NotAscii(_) => "a byte above 127: a text is ASCII, its comments too",
        SyntaxError::NumberTooBig(_) => match site.slot() {
            "COUNT" => "a number from 0 to 65535 was expected",
            "TIMES" => "a number from 1 to 100 was expected",
            _ => "the greatest number is 9223372036854775807",
        },
        SyntaxError::TooLong(_) => "the text has more than 65,536 bytes",
        SyntaxError::TooDeep(_) => "at most 32 blocks lie round a block",
        _ => "",
    }
}

// What is said of bytes that begin no token, but are part of other languages: of two, or of one.
static BAD_BYTES: [(&str, &str); 9] = [
    ("&& ||", "one operator a statement, and none of these"),
    ("& | ^ ~", "there are no operators on bits"),
    ("// /*", "a comment begins with `#`, and ends with its line"),
    ("/ %", "there is no division"),
    ("( )", "there are no parentheses"),
    ("[ ]", "there are no arrays"),
    ("!", "there is no `!`: compare with 0, as r == 0"),
    ("\" '", "there are no texts, only numbers"),
    (",", "there are no commas"),
];

// What is said of the byte at the site, with which no token begins.
fn bad_byte_text(site: FaultSite<'_>) -> &'static str {
    let (found, next) = (site.found(), site.piece(site.at.saturating_add(1)));
    let is_thread = site.keyword() == "thread";
    if found == "," && is_thread {
        return "each thread has one name and a block of its own";
    }
    if found == "," && !site.is_in_block() {
        return "there are no commas: each name has a declaration of its own";
    }
    if found == ":" && !is_thread && !site.is_in_block() {
        return "a declaration has no type: all values are numbers";
    }
    if found == "." && is_number(site.piece(site.at.saturating_sub(1))) {
        return "numbers are whole: no point is in them";
    }
    for (all, said) in &BAD_BYTES {
        if begins_one(all, found, next) {
            return *said;
        }
    }
    "no token begins with this byte"
}

// Whether one of some words is a byte alone, or this byte and then the piece after it.
fn begins_one(words: &str, byte: &str, next: &str) -> bool {
    for word in words.split(' ') {
        if let Some(rest) = word.strip_prefix(byte)
            && (rest.is_empty() || rest == next)
        {
            return true;
        }
    }
    false
}

// Tells of a token outside all blocks that begins neither a thread nor a declaration.
fn tell_outside_blocks(told: &mut Message, site: FaultSite<'_>) -> Result<(), AllocError> {
    let found = site.found();
    if found == "}" {
        return told.say("this `}` closes no block: is one too many, or a `{` missing?");
    }
    let is_late = site.is_after_thread();
    told.say(if is_late {
        "`thread` was expected"
    } else {
        "a declaration or `thread` was expected"
    })?;
    let known = declaration_keyword(found).unwrap_or("");
    if found == ";" {
        return told.hint(statement_words(";"));
    }
    if known.is_empty() && is_name(found) && statement_words(found).is_some() {
        return told.note("a statement is inside the braces of its thread");
    }
    if is_late && matches!(known, "var" | "mutex" | "cond" | "sem") {
        return told.note("all declarations come before the first thread");
    }
    let note = site.declaration_note(told.allocator())?;
    told.hint(note)
}

// Tells of a token in a block, or of the end of the text there, that begins no statement.
fn tell_in_block(told: &mut Message, site: FaultSite<'_>) -> Result<(), AllocError> {
    let found = site.found();
    match found {
        "thread" | "" => tell_open_block(told, site),
        "while" | "for" | "loop" | "do" => {
            told.say(format_args!("there is no `{found}`: every run of a guest ends"))?;
            told.hint(form("repeat"))
        }
        _ => {
            told.say(no_statement_text(site))?;
            let note = site.statement_note(told.allocator())?;
            told.hint(note)
        }
    }
}

// What is said of a token in a block that begins no statement.
fn no_statement_text(site: FaultSite<'_>) -> &'static str {
    let found = site.found();
    match found {
        "mutex" | "cond" | "sem" => return "all declarations come before the first thread",
        "else" => return "`else` comes right after the `}` of an `if`",
        _ => {}
    }
    if declaration_keyword(found) == Some("var") && statement_words(found).is_none() {
        return "a local isn't declared: it is 0 until it gets a value";
    }
    let next = site.at.saturating_add(1);
    if site.piece(next) != "=" {
        return "a statement or `}` was expected";
    }
    if site.piece(next.saturating_add(1)) == ";" {
        return "a statement begins with its keyword; after the `=` a value is missing";
    }
    "a statement begins with its keyword"
}

// Tells of a `thread` or the end of the text in a block which `}` seems to be missing.
fn tell_open_block(told: &mut Message, site: FaultSite<'_>) -> Result<(), AllocError> {
    told.say("a statement or `}` was expected")?;
    let Some((open, closed)) = find_open_block(site.pieces, site.at) else {
        return told.note("threads stand beside each other, and none is inside another");
    };
    let span = Some(span_at(site.pieces, open));
    let Some((close, line)) = closed else {
        return told.note_at(span, "this `{` is never closed");
    };
    let said = format_args!(
        "this `{{` is closed by the `}}` at {close}: is one missing after line {line}?"
    );
    told.note_at(span, said)
}

// Tells of a wrong token within a statement or a declaration what its form has there, and that a `;`
// seems missing before it, or how it is written.
fn tell_in_statement(told: &mut Message, site: FaultSite<'_>) -> Result<(), AllocError> {
    let slot = site.slot();
    let (wanted, other) = (slot_words(slot), other_words(site.keyword(), slot));
    told.say(format_args!("{wanted}{other} was expected"))?;
    let Some(before) = site.unended() else {
        return told.hint(site.form_note());
    };
    let (text, line) = (text_of(before.text), before.at.line);
    told.note(format_args!("is a `;` missing after `{text}` in line {line}?"))
}
