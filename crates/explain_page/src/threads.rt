//! The threads after the last step, what they wait for, and who could end the waits.

use crate::facts::Facts;
use crate::objects::ByName;
use crate::words::{thread_status_word, wait_reason_word};
use crate::writer::{Token, Writer};
use explain_run::{Object, Reason, Statement, ThreadState};
use explain_waits::{Fate, Wait};
use serde::Serializer;
use std::alloc::AllocError;
use std::collections::{BTreeMap, BTreeSet};

/// A statement that could end a wait: whether its thread comes to it if it goes on, or may come to
/// it, the places of the steps that carried it out, and the jumps over it by their places in the
/// run.
#[derive(Drop)]
struct UnblockingStatement<'a> {
    statement: Statement<'a>,
    ahead: bool,
    perhaps: bool,
    passed: BTreeSet<usize>,
    taken: Vec<usize>,
}

impl Facts<'_> {
    // The values of a thread's locals in a state of the thread, by name: of as many locals as the
    // program has for the thread, so none where it has no such thread.
    fn local_values(&self, thread: u8, state: &ThreadState) -> Result<ByName<'_, i64>, AllocError> {
        let program = self.told.source.program;
        let mut values = ByName::new(self.told.alloc);
        if thread < program.threads() {
            for (local, value) in state.locals.iter().take(program.locals(thread)).enumerate() {
                values.insert(self.told.local_name(thread, local), *value)?;
            }
        }
        Ok(values)
    }

    // The statements that could end a wait, by thread, line and column. A statement in a `repeat`
    // is one, though the thread's code has it several times: it is ahead where one of these is, and
    // has the steps and the jumps of all. A statement that has no place in the text is left out.
    fn unblocking_statements(
        &self,
        wait: &Wait,
    ) -> Result<BTreeMap<(u8, u32, u32), UnblockingStatement<'_>>, AllocError> {
        let mut found = BTreeMap::new(self.told.alloc);
        for statement in &wait.statements {
            let (thread, at) = (statement.thread, statement.instruction);
            if let Some(place) = self.told.source.place(thread, at) {
                let known = found.entry((thread, place.line, place.col))?;
                let entry = known.or_insert(UnblockingStatement {
                    statement: self.told.statement(thread, at),
                    ahead: false,
                    perhaps: false,
                    passed: BTreeSet::new(self.told.alloc),
                    taken: Vec::new(self.told.alloc),
                });
                match statement.fate {
                    Fate::Taken(step) => entry.taken.push(step)?,
                    Fate::Ahead => entry.ahead = true,
                    Fate::Perhaps => entry.perhaps = true,
                    Fate::OutOfReach => {
                        entry.passed.extend(self.told.causes.jump_over(thread, at))?;
                    }
                }
            }
        }
        Ok(found)
    }
}

impl<S: Serializer> Writer<'_, S> {
    /// Writes the list `threads`: an object for each thread as it is after the last step that ran.
    pub fn put_threads(&mut self) {
        let facts = self.facts;
        self.begin_list("threads");
        for (state, thread) in facts.told.explanation.thread_states().iter().zip(0u8..) {
            self.token(Token::Object);
            self.put_place(facts.told.statement(thread, state.instruction));
            self.put_allocated("locals", facts.local_values(thread, state));
            self.put("name", facts.told.thread_name(thread));
            self.put("status", thread_status_word(state));
            self.put_wait(facts.told.waits.get(thread));
            self.token(Token::ObjectEnd);
        }
        self.token(Token::ListEnd);
    }

    // Writes `waits`: what a thread waits for, of a mutex who owns it and since which step, of a
    // condition what the thread would look at if it were woken, the threads that it waits for, and
    // the statements that could end the wait. Null where `wait` is `None`.
    fn put_wait(&mut self, wait: Option<&Wait>) {
        let told = self.facts.told;
        let Some(wait) = wait else {
            return self.put("waits", ());
        };
        let (mut holder, mut since) = (None, None);
        if let Some(mutex) = wait.reason.mutex()
            && let Some(owner) = told.explanation.holder(mutex)
        {
            (holder, since) = (Some(told.thread_name(owner.thread)), Some(owner.since));
        }
        self.begin_object("waits");
        self.put("act", wait_reason_word(wait.reason));
        if let Reason::Signal(_) = wait.reason {
            self.put("again", wait.look.sleeps);
            self.begin_list("loads");
            for variable in &wait.look.variables {
                self.value(told.object_name(Object::Variable(*variable)));
            }
            self.token(Token::ListEnd);
        }
        self.put_some("holder", holder);
        self.put("object", told.object_name(wait.reason.object()));
        self.key("on");
        self.thread_names_in(wait.on);
        self.put_some("since", since);
        self.put_unblocking_statements(wait);
        self.token(Token::ObjectEnd);
    }

    // Writes the list `statements`: those that could end a wait, each with its thread, its place,
    // whether the thread comes to it, and the steps in which it was passed by, null for
    // one before the first step, and that carried it out.
    fn put_unblocking_statements(&mut self, wait: &Wait) {
        let facts = self.facts;
        let Some(statements) = self.allocated(facts.unblocking_statements(wait)) else {
            return;
        };
        self.begin_list("statements");
        for found in statements.values() {
            self.token(Token::Object);
            match found.perhaps && !found.ahead {
                true => self.put("ahead", "perhaps"),
                false => self.put("ahead", found.ahead),
            }
            self.put_place(found.statement);
            self.put("name", facts.told.thread_name(found.statement.thread));
            self.put_passing_steps(&found.passed);
            self.put("taken", &found.taken);
            self.put_text("text", found.statement);
            self.token(Token::ObjectEnd);
        }
        self.token(Token::ListEnd);
    }

    // Writes the list `passed`: of these jumps, which are places in the run, the steps to which
    // they belong.
    fn put_passing_steps(&mut self, jumps: &BTreeSet<usize>) {
        self.begin_list("passed");
        for at in jumps {
            if let Some(event) = self.facts.told.event(*at) {
                self.value(event.step);
            }
        }
        self.token(Token::ListEnd);
    }
}
