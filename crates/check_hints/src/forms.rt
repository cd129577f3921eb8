//! How statements and declarations are written.

use crate::pieces::text_of;
use guest_syntax::pieces::Pieces;

/// What is told of how the declarations, and a thread, are written: the keyword in backquotes, and
/// then all, with words in capitals for what is to be filled in. Where there are two ways, the
/// second has all such words of the first.
pub static DECLARATIONS: [&str; 5] = [
    "`var` is written: var NAME; or var NAME = NUMBER;",
    "`mutex` is written: mutex NAME;",
    "`cond` is written: cond NAME;",
    "`sem` is written: sem NAME = COUNT;",
    "`thread` is written: thread NAME { .. }",
];

/// How each statement is written.
pub static STATEMENTS: [&str; 17] = [
    "`load` is written: load LOCAL VAR;",
    "`store` is written: store VAR VALUE;",
    "`add` is written: add LOCAL VAR AMOUNT;",
    "`cas` is written: cas LOCAL VAR OLD NEW;",
    "`lock` is written: lock MUTEX;",
    "`unlock` is written: unlock MUTEX;",
    "`wait` is written: wait COND MUTEX;",
    "`signal` is written: signal COND;",
    "`broadcast` is written: broadcast COND;",
    "`acquire` is written: acquire SEM;",
    "`release` is written: release SEM;",
    "`set` is written: set LOCAL VALUE; or set LOCAL VALUE OP VALUE;",
    "`assert` is written: assert VALUE; or assert VALUE OP VALUE;",
    "`if` is written: if VALUE { .. } or if VALUE OP VALUE { .. }",
    "`else` is written: else { .. } or else { if VALUE { .. } }",
    "`repeat` is written: repeat TIMES { .. }",
    "`leave` is written: leave;",
];

// What a word of a form stands for, or what ends a form; each other word, as `VALUE`, stands for a
// value.
static SLOTS: [(&str, &str); 14] = [
    ("LOCAL", "the name of a local"),
    ("VAR", "the name of a variable"),
    ("MUTEX", "the name of a mutex"),
    ("COND", "the name of a condition"),
    ("SEM", "the name of a semaphore"),
    ("OP", "an operator"),
    ("TIMES", "a number from 1 to 100"),
    ("NAME", "a name that is no keyword"),
    ("NUMBER", "a number"),
    ("COUNT", "a number from 0 to 65535"),
    ("=", "`=`"),
    (";", "`;`"),
    ("", "`;`"),
    ("{", "`{`"),
];

/// What a word of a form stands for, as `the name of a mutex` for `MUTEX`.
pub fn slot_words(slot: &str) -> &'static str {
    for (word, words) in &SLOTS {
        if *word == slot {
            return *words;
        }
    }
    "a local or a number"
}

/// What is said of a place at which a form may end.
pub const OR_END: &str = " or `;`";

/// What is said of what else may be in place of a word of a keyword's form; nothing where nothing may.
pub fn other_words(keyword: &str, slot: &str) -> &'static str {
    match slot {
        "OP" if keyword == "if" => " or `{`",
        "=" if keyword == "sem" => " with an opening count",
        "OP" | "=" => OR_END,
        _ => "",
    }
}

/// Whether a word of a form stands for a number, which may have a sign before it.
pub fn takes_number(slot: &str) -> bool {
    ["VALUE", "AMOUNT", "OLD", "NEW", "NUMBER"].contains(&slot)
}

/// The keyword of a form.
pub fn keyword_of(form: &'static str) -> &'static str {
    form.split('`').nth(1).unwrap_or("")
}

/// The one of these forms with a keyword, case ignored; `None` where none has it.
pub fn form_in(forms: &[&'static str], keyword: &str) -> Option<&'static str> {
    for form in forms {
        if keyword_of(form).eq_ignore_ascii_case(keyword) {
            return Some(*form);
        }
    }
    None
}

/// The form with a keyword, case ignored; `None` where none has it.
pub fn form(keyword: &str) -> Option<&'static str> {
    form_in(&STATEMENTS, keyword).or(form_in(&DECLARATIONS, keyword))
}

/// What a form has at an index after its keyword, from 0 on: a word in capitals, or a sign. Nothing
/// past the form's end. Of two ways to write it, the second counts.
pub fn slot(keyword: &str, index: usize) -> &'static str {
    let form = form(keyword).unwrap_or("");
    let (_, places) = form.rsplit_once(keyword).unwrap_or(("", ""));
    match Pieces::new(places.as_bytes()).nth(index) {
        Some(word) => text_of(word.text),
        None => "",
    }
}
