//! Where the values of locals came from.

use crate::text::TextWriter;
use explain_cause::Event;
use explain_lines::{Page, Written};
use explain_run::Object;
use explain_told::{Setting, Settings, locals_of};
use guest_code::program::{Expression, Instruction};
use std::collections::BTreeSet;

/// How many columns further to the right the locals are shown of which a value was computed.
const NESTING: usize = 2;
/// How many columns further to the right what doesn't fit into a line goes on in the next one.
const INDENT: usize = 4;

/// How values are shown: from which column on, how many at most, and whether with later changes.
#[derive(Clone, Copy)]
pub struct ValueLayout {
    pub indent: usize,
    pub most_values: usize,
    pub is_later_change_told: bool,
}

impl TextWriter<'_> {
    /// Writes the locals of the expression of `test`, which the event at its place evaluates, each
    /// with its value and where that came from; under a local that a `set` computed, those of that
    /// `set`. Leaves out what the events at the places `before` set, and adds the places of the others.
    pub fn put_values(
        &self,
        page: &mut Page,
        test: (usize, Expression),
        layout: ValueLayout,
        before: &mut BTreeSet<usize>,
    ) -> Written {
        let (at, expression) = test;
        let Some(Event { thread, .. }) = self.told.event(at) else {
            return Ok(());
        };
        let mut settings = Settings::before(&*self.told, at, thread, locals_of(expression))?;
        for _ in 0..layout.most_values {
            let Some(setting) = settings.next(before)? else {
                return Ok(());
            };
            self.put_value_origin(page, thread, setting, layout.is_later_change_told)?;
            let indent = setting.depth.saturating_mul(NESTING);
            let indent = layout.indent.saturating_add(indent);
            page.end_line(indent, indent.saturating_add(INDENT))?;
        }
        Ok(())
    }

    // Writes a local of a thread, its value and where it came from.
    // The next change is told also if nobody wrote before the read, which may have come too early.
    fn put_value_origin(
        &self,
        page: &mut Page,
        thread: u8,
        setting: Setting,
        is_later_change_told: bool,
    ) -> Written {
        let name = self.told.local_name(thread, setting.local);
        let Some((at, event)) = setting.event else {
            return write!(page, "{name} = 0   from the start");
        };
        let (value, step) = (event.value(), event.step.unwrap_or(0));
        let site = self.event_site(&event);
        write!(page, "{name} = {value}   ")?;
        let Some(variable) = event.variable_read() else {
            return write!(page, "set in {site}");
        };
        let x = self.told.object_name(Object::Variable(variable));
        match event.statement {
            Instruction::Load { .. } => {
                write!(page, "loaded in step {step} ({}) from {x}", site.line)?;
            }
            Instruction::Cas { .. } => {
                let did = if value == 0 { "missed" } else { "hit" };
                let (old, _) = self.told.old_and_new(step);
                write!(page, "because step {step} {did} ({site}): {x} was {old}")?;
            }
            _ => write!(page, "read in step {step} ({site}) from {x}")?,
        }
        let write = self.told.causes.last_write(at, variable);
        match write {
            Some(place) => self.put_writer(page, event.thread, place, x)?,
            None => page.write(", which nobody had written before")?,
        }
        if is_later_change_told || write.is_none() {
            self.put_next_change(page, &event)?;
        }
        Ok(())
    }

    // Writes who wrote variable `x`, by the event at `place`, before `reader` read it, and what it
    // was earlier.
    fn put_writer(&self, page: &mut Page, reader: u8, place: usize, x: &str) -> Written {
        let Some(event) = self.told.event(place) else {
            return Ok(());
        };
        let (step, site) = (event.step.unwrap_or(0), self.event_site(&event));
        let (name, itself) = (site.name, itself_word(event.thread, reader));
        let (old, _) = self.told.old_and_new(step);
        write!(
            page,
            ", which {name}{itself} set in step {step} ({site}); before, {x} was {old}"
        )?;
        match self.told.unchanged_since(&event) {
            Some(earlier) => self.put_since(page, earlier),
            None => page.write(" from the start"),
        }
    }

    // Writes that something is so since a step, and who was preempted before it, if anyone was.
    fn put_since(&self, page: &mut Page, at: usize) -> Written {
        let Some(step) = self.told.step(at) else {
            return Ok(());
        };
        let site = self.site(step.line.thread, step.instruction);
        write!(page, " since step {at} ({}, {})", site.name, site.line)?;
        if let Some(before) = at.checked_sub(1)
            && self.is_preempted_after(before)
            && let Some(other) = self.thread_of_step(before)
        {
            let name = self.told.thread_name(other);
            write!(page, ", where {name} was interrupted")?;
        }
        Ok(())
    }

    // Writes who changed the variable next after an event read it; nothing if none, or it, did.
    fn put_next_change(&self, page: &mut Page, read: &Event) -> Written {
        let at = match self.told.next_change(read) {
            Some(at) if read.step != Some(at) => at,
            _ => return Ok(()),
        };
        let thread = self.thread_of_step(at).unwrap_or(read.thread);
        let itself = itself_word(thread, read.thread);
        let (name, (_, new)) = (self.told.thread_name(thread), self.told.old_and_new(at));
        write!(page, "; {name}{itself} made it {new} in step {at}")
    }
}

// What comes after the name of a thread that is told beside `reader`, to say that it is that one.
fn itself_word(thread: u8, reader: u8) -> &'static str {
    if thread == reader { " itself" } else { "" }
}
