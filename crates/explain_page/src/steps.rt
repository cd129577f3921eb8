//! The steps of an explanation as JSON.

use crate::objects::ObjectStates;
use crate::words::{act_word, stop_reason_word};
use crate::writer::{Token, Writer};
use explain_run::{Assignment, Object, ObjectState, Step};
use guest_code::program::Instruction;
use serde::Serializer;

impl<S: Serializer> Writer<'_, S> {
    /// Writes the list `steps`: an object for each step that ran, in order.
    pub fn put_steps(&mut self) {
        let facts = self.facts;
        let Some(mut objects) = self.allocated(ObjectStates::initial(facts)) else {
            return;
        };
        self.begin_list("steps");
        for (at, step) in facts.told.explanation.steps().iter().enumerate() {
            self.allocated(objects.apply_step(facts, at, step));
            self.put_step(at, step, &objects);
        }
        self.token(Token::ListEnd);
    }

    // Writes the step at place `at` as a JSON object; `objects` are the guest's objects after it.
    fn put_step(&mut self, at: usize, step: &Step, objects: &ObjectStates<'_>) {
        let facts = self.facts;
        let thread = step.line.thread;
        let statement = facts.told.statement(thread, step.instruction);
        self.token(Token::Object);
        self.put("act", act_word(step.line.act));
        self.put_states_after(step, objects);
        self.put("cause", facts.told.is_step_in_cause(at));
        self.put_extent(statement);
        self.begin_list("held");
        for mutex in &step.held {
            self.value(facts.told.object_name(Object::Mutex(*mutex)));
        }
        self.token(Token::ListEnd);
        self.put_line_number(statement);
        self.put_some("mutex", facts.wait_mutex_name(step));
        self.put("name", facts.told.thread_name(thread));
        self.put_object_state("new", step.new);
        self.put_next_statement(thread, step.next);
        self.put("object", facts.told.object_name(step.object));
        self.put_object_state("old", step.old);
        self.put("preempting", step.line.preempting);
        self.put_assignments(thread, step.assignments.as_slice());
        self.put("step", at);
        self.put("stop", step.line.stop.map(stop_reason_word));
        self.put("thread", thread);
        self.put_turns(statement);
        self.put_allocated("woken", facts.thread_names(step.woken.as_slice()));
        self.token(Token::ObjectEnd);
    }

    // Writes the object `after`: the states after a step of its object and of a `wait`'s mutex, by
    // rising name. No two objects share a name: each is in only one of the four maps of `objects`.
    fn put_states_after(&mut self, step: &Step, objects: &ObjectStates<'_>) {
        let touched = Some(self.facts.told.object_name(step.object));
        let beside = self.facts.wait_mutex_name(step);
        let names = [touched.min(beside), touched.max(beside)];
        self.begin_object("after");
        for name in &names {
            if let Some(name) = *name {
                self.put_some(name, objects.conditions.get(name));
                match objects.mutexes.get(name) {
                    Some(Some(owner)) => self.put(name, owner.holder),
                    Some(None) => self.put(name, ()),
                    None => {}
                }
                self.put_some(name, objects.semaphores.get(name));
                self.put_some(name, objects.variables.get(name));
            }
        }
        self.token(Token::ObjectEnd);
    }

    // Writes a key and an object's state as its value: a variable's value, the owner of a mutex or
    // null, how many threads wait for a condition, or a semaphore's count.
    fn put_object_state(&mut self, key: &str, state: ObjectState) {
        let told = self.facts.told;
        match state {
            ObjectState::Value(value) => self.put(key, value),
            ObjectState::Owner(Some(owner)) => self.put(key, told.thread_name(owner)),
            ObjectState::Owner(None) => self.put(key, ()),
            ObjectState::Waiting(count) => self.put(key, count),
            ObjectState::Count(count) => self.put(key, count),
        }
    }

    /// Writes `next`: the statement that a thread has come to, with the mutex or the semaphore that
    /// a `lock` or an `acquire` there `wants`, or null at the end of the thread's code.
    pub fn put_next_statement(&mut self, thread: u8, instruction: usize) {
        let told = self.facts.told;
        let wanted = match told.source.instruction(thread, instruction) {
            Some(Instruction::Lock(m)) => Some(told.object_name(Object::Mutex(m))),
            Some(Instruction::Acquire(k)) => Some(told.object_name(Object::Semaphore(k))),
            Some(_) => None,
            None => return self.put("next", ()),
        };
        let statement = told.statement(thread, instruction);
        self.begin_object("next");
        self.put_place(statement);
        self.put_text("text", statement);
        self.put_some("wants", wanted);
        self.token(Token::ObjectEnd);
    }

    /// Writes the list `sets`: the locals that a thread set, in the order in which it did, each
    /// with its value and the statement that set it.
    pub fn put_assignments(&mut self, thread: u8, assignments: &[Assignment]) {
        let told = self.facts.told;
        self.begin_list("sets");
        for assignment in assignments {
            self.token(Token::Object);
            self.put_place(told.statement(thread, assignment.instruction));
            self.put("local", told.local_name(thread, assignment.local));
            self.put("value", assignment.value);
            self.token(Token::ObjectEnd);
        }
        self.token(Token::ListEnd);
    }
}
