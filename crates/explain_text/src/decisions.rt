//! The tests that led to where a thread stopped in an error, or to where it waits.

use crate::origins::ValueLayout;
use crate::text::TextWriter;
use explain_cause::{Event, is_decided};
use explain_lines::{Page, Written};
use explain_waits::Wait;
use guest_code::program::Instruction;
use std::collections::BTreeSet;

const MOST_TESTS: usize = 4;
/// The column at which the line of a test begins.
const TEST_INDENT: usize = 4;
/// The column at which what doesn't fit into a line goes on in the next one.
const INDENT: usize = 8;

/// The column at which the values of a test begin, and at which the words above them go on.
const VALUE_INDENT: usize = 6;

/// How the values of a test are shown.
pub const VALUE_LAYOUT: ValueLayout = ValueLayout {
    indent: VALUE_INDENT,
    most_values: 3,
    is_later_change_told: true,
};

impl TextWriter<'_> {
    /// Writes the tests in the cause before the event at place `end`, the last first, one for each
    /// place in the text. Locals that the events at the places `before` set were told before.
    pub fn put_tests(&self, page: &mut Page, end: usize, before: &mut BTreeSet<usize>) -> Written {
        // the variables that later events of the cause read
        let (mut told, mut read) = (Vec::new(self.told.alloc), BTreeSet::new(self.told.alloc));
        for (at, test) in self.told.causes.events().iter().enumerate().rev() {
            if !self.is_event_in_cause(at) {
                continue;
            }
            if at < end
                && told.len() < MOST_TESTS
                && let Instruction::SkipIfZero(expression, _) = test.statement
            {
                let place = self.told.source.place(test.thread, test.instruction);
                if !told.as_slice().contains(&place) {
                    told.push(place)?;
                    self.put_outcome(page, (at, test), end, &read)?;
                    self.put_test(page, test)?;
                    page.end_line(TEST_INDENT, INDENT)?;
                    self.put_values(page, (at, expression), VALUE_LAYOUT, before)?;
                }
            }
            read.extend(test.variable_read())?;
        }
        Ok(())
    }

    /// Writes the last test by which a thread came to wait for a condition or a semaphore, if there
    /// is one, and where its values came from.
    pub fn put_test_of_wait(&self, page: &mut Page, wait: &Wait) -> Written {
        let end = self.instruction_at_end(wait.thread);
        for (at, test) in self.told.causes.events().iter().enumerate().rev() {
            if let Instruction::SkipIfZero(expression, _) = test.statement
                && wait.reason.mutex().is_none()
                && self.decides(test, wait.thread, end)
            {
                write!(page, "  {} waits", self.told.thread_name(wait.thread))?;
                self.put_test(page, test)?;
                page.end_line(0, VALUE_INDENT)?;
                let before = &mut BTreeSet::new(self.told.alloc);
                return self.put_values(page, (at, expression), VALUE_LAYOUT, before);
            }
        }
        Ok(())
    }

    /// Writes that something is so since a test was as it was.
    pub fn put_test(&self, page: &mut Page, test: &Event) -> Written {
        let (site, outcome) = (self.event_site(test), test.value() != 0);
        let (statement, line, comma) = (site.statement, site.line, site.line.comma());
        write!(page, " since `{statement}` in {line}{comma} was {outcome}")
    }

    // Writes what a test, with its place, led to: the event at place `end`, else the next of the
    // cause, no test, that it decides, else the write that it passed by of one of the variables
    // `read` later, else the next test.
    fn put_outcome(
        &self,
        page: &mut Page,
        (at, test): (usize, &Event),
        end: usize,
        read: &BTreeSet<usize>,
    ) -> Written {
        let name = self.told.thread_name(test.thread);
        if let Some(last) = self.told.event(end)
            && self.decides(test, last.thread, last.instruction)
        {
            return page.write("came here");
        }
        let passed = self.passed_write(test, read);
        match self.next_decided(at, test) {
            Some(event) if passed.is_none() || !is_test(&event) => {
                write!(page, "{name} came to {},", self.event_site(&event))
            }
            _ => {
                let first = test.instruction.saturating_add(1);
                let site = self.site(test.thread, passed.unwrap_or(first));
                write!(page, "{name} passed by {site},")
            }
        }
    }

    // The next event of the cause after the test at a place that the test decides, or the first such
    // test where all of them are tests.
    fn next_decided(&self, at: usize, test: &Event) -> Option<Event> {
        let mut first = None;
        for place in at.saturating_add(1)..self.told.causes.events().len() {
            let event = self.told.event(place)?;
            let is_decided = self.decides(test, event.thread, event.instruction);
            if is_decided && self.is_event_in_cause(place) {
                if !is_test(&event) {
                    return Some(event);
                }
                first = first.or(Some(event));
            }
        }
        first
    }

    // The first instruction that a test jumps over which writes one of these variables, or may.
    fn passed_write(&self, test: &Event, variables: &BTreeSet<usize>) -> Option<usize> {
        let first = test.instruction.saturating_add(1);
        for place in first..first.saturating_add(test.jump_length()) {
            match self.told.source.instruction(test.thread, place) {
                Some(
                    Instruction::Store { variable, .. }
                    | Instruction::Add { variable, .. }
                    | Instruction::Cas { variable, .. },
                ) if variables.contains(&variable) => return Some(place),
                _ => {}
            }
        }
        None
    }

    // Whether a test decides that its thread, if it is this one, comes to this instruction.
    fn decides(&self, test: &Event, thread: u8, instruction: usize) -> bool {
        let program = self.told.source.program;
        test.thread == thread && is_decided(program, thread, test.instruction, instruction)
    }

    fn is_event_in_cause(&self, at: usize) -> bool {
        self.told.causes.marks().get(at).copied().unwrap_or(false)
    }
}

fn is_test(event: &Event) -> bool {
    matches!(event.statement, Instruction::SkipIfZero(_, _))
}
