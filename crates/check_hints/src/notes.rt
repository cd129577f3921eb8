//! What is told of the statement or declaration that seems to be meant.

use crate::forms::{DECLARATIONS, STATEMENTS, form, keyword_of, takes_number};
use crate::names::Nearest;
use crate::pieces::is_name;
use crate::site::FaultSite;
use crate::words::{declaration_keyword, statement_words};
use std::alloc::{AllocError, Global};

// What is told of the form whose keyword is nearest to a word; `None` where none is near.
fn nearest_form(
    alloc: Global,
    forms: &[&'static str],
    word: &str,
) -> Result<Option<&'static str>, AllocError> {
    let mut nearest = Nearest::new(word.as_bytes());
    for (i, form) in forms.iter().enumerate() {
        nearest.add(alloc, keyword_of(form).as_bytes(), i)?;
    }
    match nearest.found() {
        Some(i) => Ok(forms.get(i).copied()),
        None => Ok(None),
    }
}

impl FaultSite<'_> {
    // What is told of the first word after the keyword that is called, as `load` in `x.load()`.
    fn called_words(self) -> Option<&'static str> {
        for i in self.start.saturating_add(1)..self.end() {
            let is_member = matches!(self.piece(i.saturating_sub(1)), "." | ":");
            if is_member || self.piece(i.saturating_add(1)) == "(" {
                let words = statement_words(self.piece(i));
                if words.is_some() {
                    return words;
                }
            }
        }
        None
    }

    // Whether the statement gives its first name a value, by a `=`, by `++` or by `--`.
    fn is_assignment(self) -> bool {
        for i in self.start..self.end() {
            let (word, next) = (self.piece(i), self.piece(i.saturating_add(1)));
            if next == "=" || next == word && matches!(word, "+" | "-") {
                return true;
            }
        }
        false
    }

    // The first name of the statement, and what is after its first `=`; each empty where there is
    // none.
    fn assigned(&self) -> (&str, &str) {
        let (mut name, mut value) = ("", "");
        for i in self.start..self.end() {
            let word = self.piece(i);
            if name.is_empty() && is_name(word) {
                name = word;
            }
            if value.is_empty() && word == "=" {
                value = self.piece(i.saturating_add(1));
            }
        }
        (name, value)
    }

    // How the statement is written that does what an assignment does, to a variable or a local.
    fn assignment_words(self) -> Option<&'static str> {
        let (name, value) = self.assigned();
        if self.is_variable(name) {
            let is_step = matches!(self.piece(self.start.saturating_add(1)), "+" | "-");
            return form(if is_step { "add" } else { "store" });
        }
        if name.is_empty() || self.declaration(name).is_some() {
            return None;
        }
        form(if self.is_variable(value) {
            "load"
        } else {
            "set"
        })
    }

    /// What is told of a statement with a wrong keyword: how the one is written that it seems to be,
    /// by what it calls, assigns or begins with, or what takes its place. Fails where memory runs
    /// out.
    pub fn statement_note(self, alloc: Global) -> Result<Option<&'static str>, AllocError> {
        let word = self.keyword();
        let called = self.called_words();
        if self.is_assignment() {
            return Ok(called.or(self.assignment_words()));
        }
        let known = statement_words(word).or(called);
        if known.is_some() || declaration_keyword(word).is_some() {
            return Ok(known);
        }
        nearest_form(alloc, &STATEMENTS, word)
    }

    /// What is told of a declaration or thread with a wrong keyword: how the one is written that it
    /// seems to be. Fails where memory runs out.
    pub fn declaration_note(self, alloc: Global) -> Result<Option<&'static str>, AllocError> {
        let word = self.keyword();
        let known = declaration_keyword(word).unwrap_or("");
        let next = self.piece(self.start.saturating_add(1));
        let may_be_thread = known == "var" || known.is_empty() && next == "{";
        if may_be_thread && self.piece(self.end()) == "{" {
            return Ok(form("thread"));
        }
        if known.is_empty() && next != "=" {
            return nearest_form(alloc, &DECLARATIONS, word);
        }
        Ok(form(if known.is_empty() { "var" } else { known }))
    }

    /// What is told of a statement or declaration that goes wrong after its keyword: how the one is
    /// written that it calls, as `x.load()` calls `load`, or else how it is written itself.
    pub fn form_note(self) -> Option<&'static str> {
        self.called_words().or(form(self.keyword()))
    }

    /// What is told of the name at the fault's place, which isn't declared as what has to be there:
    /// how a value gets from or to a variable or a local, or how the statement is written.
    pub fn kind_note(self) -> Option<&'static str> {
        let (name, slot, keyword) = (self.found(), self.slot(), self.keyword());
        let is_variable = self.is_variable(name);
        if is_variable && takes_number(slot) {
            return Some("a variable is loaded into a local first: load LOCAL VAR;");
        }
        if is_variable && slot == "LOCAL" && keyword == "set" {
            return form("store");
        }
        let is_set = slot == "VAR" && self.is_local(name);
        form(if is_set { "set" } else { keyword })
    }
}
