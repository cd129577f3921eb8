//! The writer of an explanation as JSON, key by key.

use crate::facts::Facts;
use crate::objects::ObjectStates;
use crate::words::{kind_word, stop_reason_word};
use explain_run::{Object, name_text};
use guest_code::limits::THREADS;
use semantics::mask::Mask;
use serde::{Described, Serialize, Serializer};
use std::alloc::AllocError;
use std::fmt::Display;

/// A writer of facts by a serializer. Each method `put..` writes a key and its value, or several,
/// into the object that was begun last. After the first error nothing more is written, and
/// `written` has it.
pub struct Writer<'w, S: Serializer> {
    pub facts: &'w Facts<'w>,
    out: &'w mut S,
    written: Result<(), S::Error>,
}

/// Where an object or a list begins or ends.
#[derive(Clone, Copy)]
pub enum Token {
    Object,
    ObjectEnd,
    List,
    ListEnd,
}

impl Described for Facts<'_> {}

impl Serialize for Facts<'_> {
    /// Writes the whole explanation that the facts are of, as an object.
    fn serialize<S: Serializer>(&self, out: &mut S) -> Result<(), S::Error> {
        let mut writer = Writer {
            facts: self,
            out,
            written: Ok(()),
        };
        writer.put_explanation();
        let Writer {
            facts: _,
            out: _,
            written,
        } = writer;
        written
    }
}

impl<S: Serializer> Writer<'_, S> {
    /// Writes where an object or a list begins or ends.
    pub fn token(&mut self, token: Token) {
        if self.written.is_ok() {
            self.written = match token {
                Token::Object => self.out.begin_map(None),
                Token::ObjectEnd => self.out.end_map(),
                Token::List => self.out.begin_seq(None),
                Token::ListEnd => self.out.end_seq(),
            };
        }
    }

    /// Writes a key, whose value is written next.
    pub fn key(&mut self, key: &str) {
        if self.written.is_ok() {
            self.written = self.out.key(key);
        }
    }

    /// Writes a value: that of the key that was written last, or the next one of a list.
    pub fn value<T: Serialize + Drop>(&mut self, value: T) {
        if self.written.is_ok() {
            self.written = value.serialize(self.out);
        }
    }

    /// Writes a key and its value.
    pub fn put<T: Serialize + Drop>(&mut self, key: &str, value: T) {
        self.key(key);
        self.value(value);
    }

    /// Writes a key and its value, or neither where there is no value.
    pub fn put_some<T: Serialize + Drop>(&mut self, key: &str, value: Option<T>) {
        if let Some(value) = value {
            self.put(key, value);
        }
    }

    /// Writes a key and a value that took memory to make; fails where memory ran out for it.
    pub fn put_allocated<T: Serialize + Drop>(&mut self, key: &str, value: Result<T, AllocError>) {
        if let Some(value) = self.allocated(value) {
            self.put(key, value);
        }
    }

    /// Writes a key and a value that is told as text.
    pub fn put_text<T: Display + Drop>(&mut self, key: &str, value: T) {
        self.key(key);
        if self.written.is_ok() {
            self.written = self.out.collect_str(&value);
        }
    }

    /// Writes a key, and begins a list as its value.
    pub fn begin_list(&mut self, key: &str) {
        self.key(key);
        self.token(Token::List);
    }

    /// Writes a key, and begins an object as its value.
    pub fn begin_object(&mut self, key: &str) {
        self.key(key);
        self.token(Token::Object);
    }

    /// Writes a list, as a value: the names of the threads in a set, by rising number.
    pub fn thread_names_in(&mut self, threads: Mask) {
        self.token(Token::List);
        for thread in 0..THREADS as u8 {
            if threads.has(thread) {
                self.value(self.facts.told.thread_name(thread));
            }
        }
        self.token(Token::ListEnd);
    }

    /// A value that took memory to make; where memory ran out for it, that is an error of writing.
    pub fn allocated<T: Drop>(&mut self, value: Result<T, AllocError>) -> Option<T> {
        if value.is_err() && self.written.is_ok() {
            self.written = Err(self.out.custom("out of memory"));
        }
        value.ok()
    }

    // Writes the whole explanation as an object. Its `marks`, `source` and `why` are for a page:
    // they are left out where there is no `why`.
    fn put_explanation(&mut self) {
        let facts = self.facts;
        self.token(Token::Object);
        self.begin_list("circles");
        for circle in facts.told.waits.circles() {
            self.thread_names_in(*circle);
        }
        self.token(Token::ListEnd);
        self.put_allocated("end", ObjectStates::at_end(facts));
        self.put_failures();
        self.put("file", facts.told.file_name());
        self.put("kind", facts.told.explanation.kind().map(kind_word));
        let is_page = facts.why.is_some();
        if is_page {
            let marks = self.allocated(facts.file_runs());
            self.put_some("marks", marks.flatten());
        }
        self.put_initial_state();
        self.put("preemptions", facts.told.explanation.preemptions());
        self.put("refused", facts.told.explanation.refused());
        self.put_allocated("schedule", facts.printed_schedule());
        self.put("search", &facts.search);
        if is_page {
            self.put("source", name_text(facts.told.source.text));
        }
        self.put_steps();
        self.put_tests();
        self.put_threads();
        self.put_some("why", facts.why);
        self.token(Token::ObjectEnd);
    }

    // Writes the object `opening`: the names of the conditions and mutexes, which nobody waits for
    // or owns at first, those of the variables as `declared`, in order, the initial counts of
    // semaphores and values of variables, and the threads.
    fn put_initial_state(&mut self) {
        let program = self.facts.told.source.program;
        let Some(objects) = self.allocated(ObjectStates::initial(self.facts)) else {
            return;
        };
        self.begin_object("opening");
        self.put_names("conditions", program.conditions(), Object::Condition(0));
        self.put_names("declared", program.variables(), Object::Variable(0));
        self.put_names("mutexes", program.mutexes(), Object::Mutex(0));
        self.put("semaphores", &objects.semaphores);
        self.put_initial_threads();
        self.put("variables", &objects.variables);
        self.token(Token::ObjectEnd);
    }

    // Writes a list of names: of the first `count` objects of the kind of `first`, in their order.
    fn put_names(&mut self, key: &str, count: u8, first: Object) {
        let told = self.facts.told;
        self.begin_list(key);
        for number in 0..count as usize {
            self.value(told.object_name(match first {
                Object::Variable(_) => Object::Variable(number),
                Object::Mutex(_) => Object::Mutex(number),
                Object::Condition(_) => Object::Condition(number),
                Object::Semaphore(_) => Object::Semaphore(number),
            }));
        }
        self.token(Token::ListEnd);
    }

    // Writes the list `threads` of the initial state: of each thread the statement that it has come
    // to, the locals that it set before that, and why it stopped there, if it did.
    fn put_initial_threads(&mut self) {
        let told = self.facts.told;
        self.begin_list("threads");
        for (start, thread) in told.explanation.starts().iter().zip(0u8..) {
            self.token(Token::Object);
            self.put("name", told.thread_name(thread));
            self.put_next_statement(thread, start.next);
            self.put_assignments(thread, start.assignments.as_slice());
            self.put("stop", start.stop.map(stop_reason_word));
            self.token(Token::ObjectEnd);
        }
        self.token(Token::ListEnd);
    }
}
