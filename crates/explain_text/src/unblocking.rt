//! Which threads could end the waits for a condition or a semaphore, and why none of them does.

use crate::decisions::VALUE_LAYOUT;
use crate::text::{TextWriter, push_entry};
use explain_cause::Event;
use explain_lines::{Page, Written};
use explain_run::{Object, Reason};
use explain_waits::{Fate, Statement, Wait};
use guest_code::program::Instruction;
use replay::Act;
use std::alloc::AllocError;
use std::collections::{BTreeMap, BTreeSet};

/// The column at which what doesn't fit into a line goes on in the next one.
const INDENT: usize = 6;

impl TextWriter<'_> {
    /// Writes for each object that threads wait for, a mutex only if its owner ended, what they would
    /// do if they were woken, by which tests they came to wait, and what came of the statements that
    /// could end the waits.
    pub fn put_unblocking(&self, page: &mut Page) -> Written {
        let mut told = Vec::new(self.told.alloc);
        for wait in self.told.waits.all() {
            let object = wait.reason.object();
            let is_new = !told.as_slice().contains(&object);
            told.push(object)?;
            let verb = match wait.reason {
                Reason::Signal(_) if is_new => "signal",
                Reason::Acquire(_) if is_new => "release",
                _ if is_new && self.is_given_up(wait) => "unlock",
                _ => continue,
            };
            let name = self.told.object_name(object);
            page.put_line(format_args!("Who could {verb} {name}"), 0)?;
            let mut other = wait;
            for waiter in self.told.waits.all() {
                if waiter.reason == wait.reason {
                    self.put_look(page, waiter)?;
                    self.put_test_of_wait(page, waiter)?;
                    other = waiter;
                }
            }
            self.put_unblocking_threads(page, wait, other)?;
        }
        Ok(())
    }

    // Writes what a thread would do if it were woken now; nothing if it loads nothing and goes on.
    fn put_look(&self, page: &mut Page, wait: &Wait) -> Written {
        let mut seen = BTreeSet::new(self.told.alloc);
        let mut values = String::new(self.told.alloc);
        for variable in &wait.look.variables {
            if seen.insert(*variable)? {
                let value = self.present_value_text(wait.thread, *variable)?;
                push_entry(&mut values, value)?;
            }
        }
        let verb = match wait.look.sleeps {
            true => "wait again",
            false if values.is_empty() => return Ok(()),
            false => "go on",
        };
        let name = self.told.thread_name(wait.thread);
        write!(page, "  {name} would {verb} if it were woken now")?;
        if !values.is_empty() {
            write!(page, ": {values}")?;
        }
        page.end_line(0, INDENT)
    }

    // As text, a variable's value at the end, and the one that a thread loaded last, if another.
    fn present_value_text(&self, thread: u8, variable: usize) -> Result<String, AllocError> {
        let x = self.told.object_name(Object::Variable(variable));
        let variables = self.told.explanation.variables();
        let now = variables.get(variable).copied().unwrap_or(0);
        for (at, step) in self.told.explanation.steps().iter().enumerate().rev() {
            match step.line.act {
                _ if step.line.thread != thread || step.object != Object::Variable(variable) => {}
                Act::Load { value, .. } if value == now => {
                    return format!(in self.told.alloc; "{x} is still {now}");
                }
                Act::Load { value: old, .. } => {
                    return format!(in self.told.alloc; "{x} is {now}, and was {old} in step {at}");
                }
                _ => {}
            }
        }
        format!(in self.told.alloc; "{x} is {now}")
    }

    // Writes which statements could end this wait and what came of them, or that none is left. Those
    // of its own thread are taken from the wait of another for the same reason, if there is one: its
    // own lists only those before the statement at which it waits.
    fn put_unblocking_threads(&self, page: &mut Page, wait: &Wait, other: &Wait) -> Written {
        let mut is_none = true;
        let mut is_one_ahead = false;
        for thread in 0..self.told.source.program.threads() {
            let listing = if thread == wait.thread { other } else { wait };
            let theirs = self.statements_of(thread, listing)?;
            is_none = is_none && theirs.is_empty();
            is_one_ahead |= self.put_statement_fates(page, theirs.as_slice())?;
        }
        if is_none {
            page.put_line("  Nobody: no other thread has such a statement.", INDENT)?;
        } else if !is_one_ahead {
            page.put_line("  Nobody is left who can.", INDENT)?;
        }
        page.put_empty_line()
    }

    // A thread's statements among those that a wait lists.
    fn statements_of(&self, thread: u8, wait: &Wait) -> Result<Vec<Statement>, AllocError> {
        let mut theirs = Vec::new(self.told.alloc);
        for statement in &wait.statements {
            if statement.thread == thread {
                theirs.push(*statement)?;
            }
        }
        Ok(theirs)
    }

    // Writes how often a thread took or jumped over statements that end a wait, and which one it
    // comes to first, or else may come to. The answer is whether there is such a one.
    fn put_statement_fates(
        &self,
        page: &mut Page,
        statements: &[Statement],
    ) -> Result<bool, AllocError> {
        let (mut last, mut times) = (0, 0_usize);
        let (mut ahead, mut perhaps) = (None, None);
        // by its place, the first statement that a jump passed by
        let mut jumps = BTreeMap::new(self.told.alloc);
        for statement in statements {
            match statement.fate {
                Fate::Taken(at) => (last, times) = (at.max(last), times.saturating_add(1)),
                Fate::Ahead => ahead = ahead.or(Some(*statement)),
                Fate::Perhaps => perhaps = perhaps.or(Some(*statement)),
                Fate::OutOfReach => {}
            }
            let (thread, instruction) = (statement.thread, statement.instruction);
            if let Some(at) = self.told.causes.jump_over(thread, instruction) {
                jumps.entry(at)?.or_insert(*statement);
            }
        }
        if times > 0 {
            self.put_taken(page, last, times)?;
        }
        let ahead = ahead.or(perhaps);
        if let Some(statement) = ahead {
            self.put_ahead(page, statement)?;
        }
        if let Some((at, passed)) = jumps.last_key_value() {
            self.put_passed_by(page, *at, *passed, jumps.len())?;
        }
        Ok(ahead.is_some())
    }

    // Writes that a thread took `times` steps that could end a wait, the last one at place `at`.
    fn put_taken(&self, page: &mut Page, at: usize, times: usize) -> Written {
        let Some(step) = self.told.step(at) else {
            return Ok(());
        };
        let site = self.site(step.line.thread, step.instruction);
        write!(page, "  {} did ", site.name)?;
        if times > 1 {
            write!(page, "{times} times, the last time ")?;
        }
        write!(page, "in step {at} ({})", site.line)?;
        match step.line.act {
            Act::Signal(_) | Act::Broadcast(_) if step.woken.is_empty() => {
                page.write(", when nobody waited")?;
            }
            Act::Signal(_) | Act::Broadcast(_) => {
                let woken = self.thread_names(step.woken.as_slice())?;
                write!(page, ", and woke {woken}")?;
            }
            _ => {}
        }
        page.end_line(0, INDENT)
    }

    // Writes that a thread has yet to come to a statement, or may, and where it is held up, if so.
    fn put_ahead(&self, page: &mut Page, ahead: Statement) -> Written {
        let thread = ahead.thread;
        let site = self.site(thread, ahead.instruction);
        let verb = match ahead.fate {
            Fate::Perhaps => "may come to",
            _ => "has yet to come to",
        };
        write!(page, "  {} {verb} {}", site.name, site.line)?;
        if let Some(wait) = self.told.waits.get(thread) {
            write!(page, ", but is blocked {}", self.blocked_site(wait)?)?;
        } else if let Some(standing) = self.told.explanation.thread_state(thread)
            && standing.is_stopped()
        {
            write!(page, ", but stopped at {}", self.line_at_end(thread))?;
        }
        page.end_line(0, INDENT)
    }

    // Writes that a thread jumped over statements `times` times, last by event `at`, and the test.
    fn put_passed_by(
        &self,
        page: &mut Page,
        at: usize,
        passed: Statement,
        times: usize,
    ) -> Written {
        let site = self.site(passed.thread, passed.instruction);
        write!(page, "  {} passed by ", site.name)?;
        if times > 1 {
            write!(page, "{times} times, the last time ")?;
            if let Some(event) = self.told.event(at)
                && let Some(step) = event.step
            {
                write!(page, "in step {step} ({site})")?;
            } else {
                write!(page, "at the start ({site})")?;
            }
        } else {
            page.write(site)?;
        }
        if let Some((at, event)) = self.deciding_event(at) {
            if let Instruction::SkipIfZero(expression, _) = event.statement {
                page.write(",")?;
                self.put_test(page, &event)?;
                page.end_line(0, INDENT)?;
                let before = &mut BTreeSet::new(self.told.alloc);
                return self.put_values(page, (at, expression), VALUE_LAYOUT, before);
            }
            let jump = self.event_site(&event);
            write!(page, ", by `{}` in {}", jump.statement, jump.line)?;
        }
        page.end_line(0, INDENT)
    }

    // What decided on the jump at place `at`: the innermost test round a `leave`, or else the jump.
    fn deciding_event(&self, at: usize) -> Option<(usize, Event)> {
        let event = self.told.event(at)?;
        if let Instruction::Skip(_) = event.statement {
            for place in (0..at).rev() {
                let test = self.told.event(place)?;
                if let Instruction::SkipIfZero(_, length) = test.statement
                    && test.thread == event.thread
                    && test.value() != 0
                    && event.instruction <= test.instruction.saturating_add(length)
                {
                    return Some((place, test));
                }
            }
        }
        Some((at, event))
    }
}
