//! The threads that stopped, where the values of a failed assertion came from, and the tests in the
//! cause.

use crate::words::stop_reason_word;
use crate::writer::{Token, Writer};
use explain_cause::Event;
use explain_run::Object;
use explain_told::locals_of;
use guest_code::program::Instruction;
use semantics::state::Stop;
use serde::Serializer;

impl<S: Serializer> Writer<'_, S> {
    /// Writes the list `failures`: an object for each thread that stopped, in the order in which
    /// they stopped.
    pub fn put_failures(&mut self) {
        self.begin_list("failures");
        for (at, event) in self.facts.told.causes.events().iter().enumerate() {
            if let Some(stop) = event.stop() {
                self.put_failure(at, event, stop);
            }
        }
        self.token(Token::ListEnd);
    }

    // Writes an object for the thread that stopped in an event, the one at place `at` of the run:
    // where, why and after how many preemptions it stopped, and which loops ran out of turns before;
    // of an `unlock` or a `wait` also the mutex, who owned it and since when, of an assertion the
    // values of its locals.
    fn put_failure(&mut self, at: usize, event: &Event, stop: Stop) {
        let told = self.facts.told;
        let statement = told.statement(event.thread, event.instruction);
        let (mut mutex, mut owner, mut since) = (None, None, None);
        if let Instruction::Unlock(m) | Instruction::Wait { mutex: m, .. } = event.statement {
            mutex = Some(told.object_name(Object::Mutex(m)));
            if let Some(holder) = told.holder_before(at, m) {
                owner = Some(told.thread_name(holder.thread));
            }
            if let Some(place) = told.causes.last_owner_change(at, m)
                && let Some(change) = told.event(place)
            {
                since = change.step;
            }
        }
        self.token(Token::Object);
        self.put_place(statement);
        self.put("mutex", mutex);
        self.put("name", told.thread_name(event.thread));
        self.put("owner", owner);
        self.put("preemptions", told.preemptions_up_to(event));
        self.put_repeats(at);
        self.put("since", since);
        self.put("step", event.step);
        self.put("stop", stop_reason_word(stop));
        self.put_text("text", statement);
        self.put("thread", event.thread);
        self.put_turns(statement);
        self.put_assertion_values(at, event);
        self.token(Token::ObjectEnd);
    }

    // Writes the list `ran_out`: each `repeat` of which a thread made all turns before it stopped in
    // the event at place `at`, and which its `leave` could have ended.
    fn put_repeats(&mut self, at: usize) {
        let told = self.facts.told;
        let repeats = told.causes.repeats_run_out(told.alloc, told.source, at);
        let Some(repeats) = self.allocated(repeats) else {
            return;
        };
        self.begin_list("ran_out");
        for repeat in &repeats {
            self.token(Token::Object);
            self.put_extent_from(Some(repeat.at));
            self.put("line", repeat.at.line);
            self.put("turns", repeat.turns);
            self.token(Token::ObjectEnd);
        }
        self.token(Token::ListEnd);
    }

    // Writes the list `values`: the locals of an assertion, the event at place `at` of the run,
    // each once, with its value and where that came from. The thread stopped there, so the value is
    // that from the end of what ran. The list is empty where the event is no assertion.
    fn put_assertion_values(&mut self, at: usize, event: &Event) {
        let (told, thread) = (self.facts.told, event.thread);
        self.begin_list("values");
        if let Instruction::Assert(test) = event.statement
            && let Some(state) = told.explanation.thread_state(thread)
        {
            for local in &locals_of(test) {
                if let Some(local) = *local {
                    self.token(Token::Object);
                    self.put("local", told.local_name(thread, local));
                    self.put_origins(at, thread, local);
                    self.put("value", state.locals.get(local).copied().unwrap_or(0));
                    self.token(Token::ObjectEnd);
                }
            }
        }
        self.token(Token::ListEnd);
    }

    /// Writes the list `tests`: an object for each test in the cause, in the order in which they were
    /// carried out, with what came of it.
    pub fn put_tests(&mut self) {
        let told = self.facts.told;
        self.begin_list("tests");
        for (event, mark) in told.causes.events().iter().zip(told.causes.marks()) {
            if *mark && matches!(event.statement, Instruction::SkipIfZero(_, _)) {
                let statement = told.statement(event.thread, event.instruction);
                self.token(Token::Object);
                self.put_place(statement);
                self.put("name", told.thread_name(event.thread));
                self.put("step", event.step);
                self.put_text("text", statement);
                self.put_turns(statement);
                self.put("was", event.value() != 0);
                self.token(Token::ObjectEnd);
            }
        }
        self.token(Token::ListEnd);
    }

    // Writes the list `origins`: the statements from which a thread's local has its value before
    // the event at place `at` of the run, in the order in which they were carried out; of one on a
    // variable, also since which step that was as it found it, and which step changed it next.
    fn put_origins(&mut self, at: usize, thread: u8, local: usize) {
        let told = self.facts.told;
        let Some(origins) = self.allocated(told.origins(at, thread, local)) else {
            return;
        };
        self.begin_list("origins");
        for place in &origins {
            if let Some(event) = told.event(*place) {
                let statement = told.statement(event.thread, event.instruction);
                self.token(Token::Object);
                self.put("changed", told.next_change(&event));
                self.put_place(statement);
                self.put("name", told.thread_name(event.thread));
                self.put("since", told.unchanged_since(&event));
                self.put("step", event.step);
                self.put_text("text", statement);
                self.put_turns(statement);
                self.token(Token::ObjectEnd);
            }
        }
        self.token(Token::ListEnd);
    }
}
