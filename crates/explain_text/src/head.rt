//! The head of the text: how a schedule ended, and why a thread stopped in an error.

use crate::origins::ValueLayout;
use crate::text::TextWriter;
use explain_cause::{Event, Failure};
use explain_lines::{Count, InLine, Page, Written};
use explain_run::{Object, Repeat};
use explain_told::Told;
use guest_code::program::Instruction;
use semantics::view::Kind;
use std::alloc::AllocError;
use std::collections::BTreeSet;

/// The column at which a line begins that says why a thread stopped in an error.
const REASON_INDENT: usize = 4;
/// The column at which what doesn't fit into a line goes on in the next one.
const INDENT: usize = 8;

/// How the values of the locals of an assertion that failed are shown.
const VALUE_LAYOUT: ValueLayout = ValueLayout {
    indent: REASON_INDENT,
    most_values: 8,
    is_later_change_told: false,
};

impl TextWriter<'_> {
    /// Writes how the schedule ended and after how many steps; of a failure, also where and why.
    pub fn put_head(&self, page: &mut Page) -> Written {
        if let Some(failure) = self.told.causes.failure()
            && let Some(event) = self.told.event(failure.event)
        {
            return self.put_failure(page, failure, event);
        }
        let ending = match self.told.explanation.kind() {
            Some(Kind::Stuck) => "STUCK",
            Some(_) => "DONE",
            None if self.told.explanation.refused().is_some() => "REFUSED",
            None => "NOT COMPLETE",
        };
        let run = self.told.explanation;
        write!(page, "{}: {ending} ", self.main_file_name())?;
        self.put_counts(page, run.steps().len(), run.preemptions())
    }

    // The file that the guest's lines come from; where those are several, the one that was read.
    fn main_file_name(&self) -> &str {
        for thread in 0..self.told.source.program.threads() {
            let line = self.told.line(thread, 0);
            if line.line > 0 && !line.is_named {
                return line.file;
            }
        }
        self.told.file_name()
    }

    // Ends a line with these counts, and whether none with fewer preemptions is bad, if that is known.
    fn put_counts(&self, page: &mut Page, steps: usize, preemptions: usize) -> Written {
        let least = match (preemptions, self.layout.is_fewest) {
            (0, _) | (_, None) => "",
            (_, Some(true)) => " None with fewer preemptions is bad.",
            (_, Some(false)) => " Its search doesn't say whether fewer preemptions are enough.",
        };
        let (steps, preemptions) = (Count(steps, "step"), Count(preemptions, "preemption"));
        let words = format_args!("after {steps} with {preemptions}.{least}");
        page.put_line(words, INDENT)
    }

    fn put_failure(&self, page: &mut Page, failure: Failure, event: Event) -> Written {
        let site = self.event_site(&event);
        let steps = match failure.step {
            Some(at) => at.saturating_add(1),
            None => 0,
        };
        let (line, turns) = (site.line.line.0.with_name(), site.line.turns);
        let (statement, name, comma) = (site.statement, site.name, site.line.comma());
        write!(
            page,
            "{line}: FAILED: {statement}   in {name}{turns}{comma} "
        )?;
        self.put_counts(page, steps, failure.preemptions)?;
        let mut before = BTreeSet::new(self.told.alloc);
        self.put_reason(page, failure.event, event.statement, &mut before)?;
        self.put_repeats(page, failure.event)?;
        self.put_tests(page, failure.event, &mut before)
    }

    fn put_repeats(&self, page: &mut Page, at: usize) -> Written {
        let told = self.told;
        for repeat in &told.causes.repeats_run_out(told.alloc, told.source, at)? {
            page.write(repeat_text(told, repeat)?)?;
            page.end_line(REASON_INDENT, INDENT)?;
        }
        Ok(())
    }

    // Writes why the event at a place failed; adds to `before` the places that set the locals shown.
    fn put_reason(
        &self,
        page: &mut Page,
        at: usize,
        statement: Instruction,
        before: &mut BTreeSet<usize>,
    ) -> Written {
        match statement {
            Instruction::Assert(e) => return self.put_values(page, (at, e), VALUE_LAYOUT, before),
            Instruction::Unlock(m) | Instruction::Wait { mutex: m, .. } => {
                self.put_owner(page, at, m)?;
            }
            Instruction::Release(k) => {
                let name = self.told.object_name(Object::Semaphore(k));
                write!(page, "{name} is 65535, which is its limit")?;
            }
            _ => return Ok(()),
        }
        page.end_line(REASON_INDENT, INDENT)
    }

    // Writes who owned a mutex before the event at a place, or that it was free, and since when.
    fn put_owner(&self, page: &mut Page, at: usize, mutex: usize) -> Written {
        let holder = self.told.holder_before(at, mutex);
        self.put_holder(page, mutex, holder)?;
        if holder.is_none()
            && let Some(place) = self.told.causes.last_owner_change(at, mutex)
            && let Some(event) = self.told.event(place)
        {
            let (step, site) = (event.step.unwrap_or(0), self.event_site(&event));
            write!(page, " since step {step} ({}, {site})", site.name)?;
        }
        Ok(())
    }
}

/// Which loops ran out of turns before a thread first stopped in an error, a line for each; empty
/// where no thread stopped. Fails where memory runs out.
pub fn run_out_lines(told: &Told<'_>) -> Result<String, AllocError> {
    let mut lines = String::new(told.alloc);
    if let Some(failure) = told.causes.failure() {
        let at = failure.event;
        for repeat in &told.causes.repeats_run_out(told.alloc, told.source, at)? {
            writeln!(lines, "There {}.", repeat_text(told, repeat)?)?;
        }
    }
    Ok(lines)
}

fn repeat_text(told: &Told<'_>, repeat: &Repeat) -> Result<String, AllocError> {
    let line = InLine(told.marks.file_line(told.file_name(), repeat.at.line));
    let turns = Count(repeat.turns, "turn");
    format!(in told.alloc; "the `repeat` in {line} ran out of its {turns}")
}
