//! The rows of the table of the steps.

use crate::text::{TextWriter, push_entry};
use explain_cause::unchanged_since;
use explain_lines::{
    Content, Count, GAP, InLine, Page, STEP, Written, line_cell, pad_to, put_repeated,
    put_truncated, width_of,
};
use explain_run::{Object, ObjectState, Start, Step, ThreadState, op_text};
use guest_code::program::{Expression, Instruction, Value};
use replay::Act;
use semantics::state::Stop;
use semantics::view::Kind;
use std::alloc::AllocError;
use std::collections::BTreeSet;

/// The fewest columns that are left of a thread's name before a statement in a shared column.
const SHORTEST_LABEL: usize = 4;
/// What the table says of a thread that an assertion stopped.
const ASSERT: &str = "assert";

impl TextWriter<'_> {
    /// Writes the table of the steps, with rows for threads that stopped at the start, and for all
    /// in a deadlock. The answer is how many steps have rows that they don't share.
    pub fn put_table(&self, page: &mut Page) -> Result<usize, AllocError> {
        self.put_header(page)?;
        self.put_initial_stops(page)?;
        let steps = self.told.explanation.steps().len();
        let (mut shown, mut next) = (0_usize, 0);
        for at in 0..steps {
            if self.is_left_out(at) {
                next = at + 1;
            } else if self.has_own_row(at) {
                let folded = self.put_folded_steps(page, next, at)?;
                shown = shown.saturating_add(folded).saturating_add(1);
                self.put_step_rows(page, at)?;
                next = at + 1;
            }
        }
        shown = shown.saturating_add(self.put_folded_steps(page, next, steps)?);
        self.put_end_rows(page)?;
        Ok(shown)
    }

    /// Of each thread, how wide its name is, and the widest of its cells in the table.
    pub fn column_contents(&self) -> Result<Vec<Content>, AllocError> {
        let mut contents = Vec::new(self.told.alloc);
        for thread in 0..self.told.source.program.threads() {
            let name = width_of(self.told.thread_name(thread));
            let cell = self.end_cell_width(thread)?;
            contents.push(Content { name, cell })?;
        }
        self.widen_for_steps(contents.as_mut_slice())?;
        Ok(contents)
    }

    // Widens the cells of threads to what they say of steps that have rows of their own.
    fn widen_for_steps(&self, contents: &mut [Content]) -> Written {
        let mut seen = BTreeSet::new(self.told.alloc);
        for (at, step) in self.told.explanation.steps().iter().enumerate() {
            let thread = step.line.thread;
            if !self.is_left_out(at)
                && self.has_own_row(at)
                && seen.insert((thread, step.instruction))?
                && let Some(content) = contents.get_mut(thread as usize)
            {
                content.cell = width_of(self.step_text(step)?.as_str()).max(content.cell);
            }
        }
        Ok(())
    }

    // The columns of a thread's widest cell where it is blocked in a deadlock, or else of `assert`.
    fn end_cell_width(&self, thread: u8) -> Result<usize, AllocError> {
        match self.told.waits.get(thread) {
            Some(wait) if self.told.explanation.kind() == Some(Kind::Stuck) => {
                let place = format!(in self.told.alloc; "BLOCKED at {}", self.line_at_end(thread))?;
                let action = self.blocked_action(wait)?;
                Ok(width_of(place.as_str()).max(width_of(action.as_str())))
            }
            _ => Ok(width_of(ASSERT)),
        }
    }

    /// The columns of the widest cell of a line, as `worker.inc:12`; 0 without any.
    pub fn line_cell_width(&self) -> Result<usize, AllocError> {
        let mut widest = 0;
        for step in self.told.explanation.steps() {
            let width = self.line_width(step.line.thread, step.instruction)?;
            widest = width.max(widest);
        }
        for thread in 0..self.told.source.program.threads() {
            let at_end = self.instruction_at_end(thread);
            widest = self.line_width(thread, at_end)?.max(widest);
        }
        Ok(widest)
    }

    fn line_width(&self, thread: u8, instruction: usize) -> Result<usize, AllocError> {
        let cell = line_cell(self.told.alloc, self.told.line(thread, instruction))?;
        Ok(width_of(cell.as_str()))
    }

    /// The thread that took the step at a place of the schedule; `None` where no step ran there.
    pub fn thread_of_step(&self, at: usize) -> Option<u8> {
        Some(self.told.step(at)?.line.thread)
    }

    /// Whether the thread of the step at a place is still enabled, and another takes the next step.
    pub fn is_preempted_after(&self, at: usize) -> bool {
        matches!(self.told.step(at.saturating_add(1)), Some(next) if next.line.preempting)
    }

    // Whether a step has no row, as it comes after the first error and isn't in the cause.
    fn is_left_out(&self, at: usize) -> bool {
        let is_late = match self.told.causes.failure() {
            Some(failure) => !matches!(failure.step, Some(step) if at <= step),
            None => false,
        };
        is_late && !self.told.is_step_in_cause(at) && self.layout.steps < usize::MAX
    }

    // Whether a step shares no row: it is in the cause, or threads change, or the layout has room.
    fn has_own_row(&self, at: usize) -> bool {
        self.told.explanation.steps().len() <= self.layout.steps
            || self.told.is_step_in_cause(at)
            || self.is_preempted_after(at)
            || self.thread_of_step(at.saturating_sub(1)) != self.thread_of_step(at)
    }

    fn put_header(&self, page: &mut Page) -> Written {
        let columns = &self.columns;
        let (names, rules) = (String::new(self.told.alloc), String::new(self.told.alloc));
        let mut header = Header { names, rules };
        header.put_column(0, STEP - 1, "step")?;
        header.put_column(STEP, columns.margin.saturating_sub(STEP + GAP), "line")?;
        for t in (0..self.told.source.program.threads()).take(columns.own) {
            let (start, width) = (columns.start(t as usize), columns.width_of(t as usize));
            let mut name = String::new(self.told.alloc);
            put_truncated(&mut name, self.told.thread_name(t), width)?;
            header.put_column(start, width, name.as_str())?;
        }
        if columns.is_shared {
            let start = columns.start(columns.own);
            let name = match columns.own {
                0 => "thread and step",
                _ => "other threads",
            };
            header.put_column(start, columns.end().saturating_sub(start), name)?;
        }
        let rest = columns.width.saturating_sub(columns.changes);
        header.put_column(columns.changes, rest, "what changed")?;
        page.put_unwrapped(header.names.as_str())?;
        page.put_unwrapped(header.rules.as_str())
    }

    // Writes a row for each thread that an assertion stopped before its first step.
    fn put_initial_stops(&self, page: &mut Page) -> Written {
        for t in 0..self.told.source.program.threads() {
            let start = self.told.explanation.starts().get(t as usize);
            if matches!(start, Some(Start { stop: Some(_), .. })) {
                self.put_stop_row(page, String::from_str(self.told.alloc, "start")?, t)?;
            }
        }
        Ok(())
    }

    // Writes one row for a thread's steps `from..to`; the answer is how many have their own rows.
    fn put_folded_steps(
        &self,
        page: &mut Page,
        from: usize,
        to: usize,
    ) -> Result<usize, AllocError> {
        let steps = self.told.explanation.steps().get(from..to).unwrap_or(&[]);
        let [first, .., _] = steps else {
            if from < to {
                self.put_step_rows(page, from)?;
            }
            return Ok(steps.len());
        };
        page.write(self.changed_values(steps)?)?;
        let name = self.told.thread_name(first.line.thread);
        let last = to.saturating_sub(1);
        let mut row = format!(in self.told.alloc; "{from}-{last}")?;
        pad_to(&mut row, self.columns.start(0))?;
        let cell = format!(in self.told.alloc; ".. {} of {name} ..", Count(steps.len(), "step"))?;
        let room = self.columns.end().max(self.columns.width / 2);
        let room = room.saturating_sub(width_of(row.as_str()));
        put_truncated(&mut row, cell.as_str(), room)?;
        self.end_row(page, row.as_str())?;
        Ok(0)
    }

    // As text, each variable that one of these steps changes, with its value after the last step.
    fn changed_values(&self, steps: &[Step]) -> Result<String, AllocError> {
        let mut changes = String::new(self.told.alloc);
        for x in 0..self.told.source.program.variables() as usize {
            if let Some(at) = unchanged_since(steps, steps.len(), x)
                && let Some(step) = steps.get(at)
                && let ObjectState::Value(value) = step.new
            {
                let name = self.told.object_name(step.object);
                push_entry(&mut changes, format_args!("{name} {value}"))?;
            }
        }
        Ok(changes)
    }

    // Ends a row, of which the last column is written, further right where a statement takes more
    // than its own column; what doesn't fit there goes to further lines.
    fn end_row(&self, page: &mut Page, row: &str) -> Written {
        let (start, column) = (width_of(row).saturating_add(GAP), self.columns.changes);
        page.end_columns(row, start.max(column), column)
    }

    // Adds to a row an instruction's line and, in its thread's column, `action`. In a shared column
    // the name comes first, cut off before `action` is, but to `SHORTEST_LABEL` columns at least.
    fn put_action(
        &self,
        row: &mut String,
        thread: u8,
        instruction: usize,
        action: &str,
    ) -> Written {
        let line = line_cell(self.told.alloc, self.told.line(thread, instruction))?;
        let end = self.columns.margin.saturating_sub(GAP);
        pad_to(row, end.saturating_sub(width_of(line.as_str())))?;
        row.push_str(line.as_str())?;
        pad_to(row, self.columns.start(thread as usize))?;
        if thread as usize >= self.columns.own {
            self.put_thread_label(row, thread, self.columns.label.max(SHORTEST_LABEL))?;
        }
        let room = self.columns.width.saturating_sub(width_of(row.as_str()));
        put_truncated(row, action, room)
    }

    // Adds a name, cut off to `room` columns, or the thread's number if another name begins alike.
    fn put_thread_label(&self, row: &mut String, thread: u8, room: usize) -> Written {
        let name = self.told.thread_name(thread);
        let begun = name.as_bytes().get(..room.saturating_sub(2)).unwrap_or(&[]);
        for other in 0..self.told.source.program.threads() {
            let is_alike = self.told.thread_name(other).as_bytes().starts_with(begun);
            if is_alike && other != thread && width_of(name) > room {
                return write!(row, "{thread}: ");
            }
        }
        put_truncated(row, name, room)?;
        row.push_str(": ")
    }

    fn put_step_rows(&self, page: &mut Page, at: usize) -> Written {
        let Some(step) = self.told.step(at) else {
            return Ok(());
        };
        self.put_changes(page, at, step)?;
        self.put_step_row(page, at, step)?;
        if step.line.stop == Some(Stop::Assert) {
            let row = format!(in self.told.alloc; "{at:>4}")?;
            self.put_stop_row(page, row, step.line.thread)?;
        }
        if self.is_preempted_after(at) && !self.is_left_out(at.saturating_add(1)) {
            self.put_preemption_row(page, step)?;
        }
        Ok(())
    }

    // Writes the row of a step, of which the last column is written.
    fn put_step_row(&self, page: &mut Page, at: usize, step: &Step) -> Written {
        let (thread, action) = (step.line.thread, self.step_text(step)?);
        let mut row = format!(in self.told.alloc; "{at:>4}")?;
        self.put_action(&mut row, thread, step.instruction, action.as_str())?;
        self.end_row(page, row.as_str())
    }

    // Writes what a step and its local run changed; of a store, also who wrote before it.
    fn put_changes(&self, page: &mut Page, at: usize, step: &Step) -> Written {
        let thread = step.line.thread;
        self.put_object_change(page, step)?;
        for setting in step.assignments.iter() {
            if !page.is_at_line_start() {
                page.write("; ")?;
            }
            if setting.instruction != step.instruction {
                let line = InLine(self.told.line(thread, setting.instruction));
                write!(page, "{line}: ")?;
            }
            let (name, value) = (self.told.local_name(thread, setting.local), setting.value);
            write!(page, "{name} = {value}")?;
            let is_of_step = setting.instruction == step.instruction;
            if is_of_step && matches!(step.line.act, Act::Load { .. }) {
                write!(page, " from {}", self.told.object_name(step.object))?;
            }
        }
        if let Some((writer, since)) = self.intervening_writer(at, step) {
            let name = self.told.thread_name(writer);
            let x = self.told.object_name(step.object);
            write!(page, "; {name} wrote {x} since step {since}")?;
        }
        Ok(())
    }

    // Writes what a step did to its object, or, after `FALSE:`, why it failed; nothing for a load.
    fn put_object_change(&self, page: &mut Page, step: &Step) -> Written {
        let name = self.told.object_name(step.object);
        match (step.line.act, step.line.stop) {
            (Act::Unlock(m) | Act::Wait { mutex: m, .. }, Some(Stop::NotHeld)) => {
                let thread = self.told.thread_name(step.line.thread);
                let m = self.told.object_name(Object::Mutex(m));
                write!(page, "FALSE: {thread} doesn't own {m}")
            }
            (_, Some(Stop::SemFull)) => page.write("FALSE: its count can't rise"),
            (Act::Load { .. }, _) => Ok(()),
            (Act::Wait { mutex: m, .. }, _) => {
                let m = self.told.object_name(Object::Mutex(m));
                write!(page, "{m} is free; waits for {name}")
            }
            (Act::Signal(_) | Act::Broadcast(_), _) if step.woken.is_empty() => {
                page.write("nobody waits")
            }
            (Act::Signal(_) | Act::Broadcast(_), _) => {
                write!(page, "wakes {}", self.thread_names(step.woken.as_slice())?)
            }
            _ => self.put_state_change(page, name, step),
        }
    }

    // Writes an object's value, count or owner before and after a step; nothing for a condition.
    fn put_state_change(&self, page: &mut Page, name: &str, step: &Step) -> Written {
        match (step.old, step.new) {
            (_, ObjectState::Owner(Some(owner))) => {
                write!(page, "{name} -> {}", self.told.thread_name(owner))
            }
            (_, ObjectState::Owner(None)) => write!(page, "{name} is free"),
            (ObjectState::Value(old), ObjectState::Value(new)) if old == new => {
                write!(page, "{name} {new} (unchanged)")
            }
            (ObjectState::Value(old), ObjectState::Value(new)) => {
                write!(page, "{name} {old} -> {new}")
            }
            (ObjectState::Count(old), ObjectState::Count(new)) => {
                write!(page, "{name} {old} -> {new}")
            }
            _ => Ok(()),
        }
    }

    // Of a store in the cause: which other thread wrote the variable last since the thread used it
    // before, and the place of that use. `None` where there is none, and for other steps.
    fn intervening_writer(&self, at: usize, store: &Step) -> Option<(u8, usize)> {
        if !self.told.is_step_in_cause(at) || !matches!(store.line.act, Act::Store { .. }) {
            return None;
        }
        let (before, mut writer) = (self.told.explanation.steps().get(..at)?, None);
        for (place, step) in before.iter().enumerate().rev() {
            match step.line.act {
                _ if step.object != store.object => {}
                _ if step.line.thread == store.line.thread => return Some((writer?, place)),
                // a `cas` writes only where it hits
                Act::Store { .. } | Act::Add { .. } | Act::Cas { hit: Some(_), .. } => {
                    writer = writer.or(Some(step.line.thread));
                }
                _ => {}
            }
        }
        None
    }

    // Writes the row of an assertion that stopped a thread; `row` has its first column.
    fn put_stop_row(&self, page: &mut Page, mut row: String, thread: u8) -> Written {
        let Some(standing) = self.told.explanation.thread_state(thread) else {
            return Ok(());
        };
        self.put_action(&mut row, thread, standing.instruction, ASSERT)?;
        let statement = self.told.source.instruction(thread, standing.instruction);
        if let Some(Instruction::Assert(test)) = statement {
            put_assertion(page, standing, test)?;
        }
        self.end_row(page, row.as_str())
    }

    fn put_preemption_row(&self, page: &mut Page, step: &Step) -> Written {
        let thread = step.line.thread as usize;
        let (column, width) = (self.columns.start(thread), self.columns.width_of(thread));
        let row = format!(in self.told.alloc; "{:column$}{:~<width$}", "", "")?;
        let site = self.site(step.line.thread, step.next);
        write!(page, "{} is interrupted before {site}", site.name)?;
        page.end_columns(row.as_str(), 0, column)
    }

    // In a deadlock, writes whether each thread with a column has ended or is blocked, and at what.
    fn put_end_rows(&self, page: &mut Page) -> Written {
        if self.told.explanation.kind() != Some(Kind::Stuck) || self.columns.own == 0 {
            return Ok(());
        }
        let mut row = " end".to_string(self.told.alloc)?;
        let mut under = String::new(self.told.alloc);
        for t in (0..self.told.source.program.threads()).take(self.columns.own) {
            self.put_end_cells(&mut row, &mut under, t)?;
        }
        page.put_unwrapped(row.as_str())?;
        if under.is_empty() {
            return Ok(());
        }
        page.put_unwrapped(under.as_str())
    }

    // Adds to `row` whether a thread ended or is blocked, and to `under`, the next row, on what.
    fn put_end_cells(&self, row: &mut String, under: &mut String, thread: u8) -> Written {
        let start = self.columns.start(thread as usize);
        let width = self.columns.width_of(thread as usize);
        pad_to(row, start)?;
        let Some(wait) = self.told.waits.get(thread) else {
            return row.push_str("ended");
        };
        let mut end = self.columns.width;
        for next in self.told.waits.all() {
            if next.thread > thread && (next.thread as usize) < self.columns.own {
                end = self.columns.start(next.thread as usize);
                break;
            }
        }
        pad_to(under, start)?;
        let room = end.saturating_sub(start.saturating_add(GAP));
        put_truncated(under, self.blocked_action(wait)?.as_str(), room)?;
        let blocked = format!(in self.told.alloc; "BLOCKED at {}", self.line_at_end(thread))?;
        let is_long = blocked.len() > width.saturating_add(1);
        row.push_str(if is_long { "BLOCKED" } else { blocked.as_str() })
    }
}

// The two lines above a table: the names of its columns, and lines of dashes under the names.
#[derive(Drop)]
struct Header {
    names: String,
    rules: String,
}

impl Header {
    // Adds the name of a column that begins at `start`, and under it dashes, `width` of them.
    fn put_column(&mut self, start: usize, width: usize, name: &str) -> Written {
        pad_to(&mut self.names, start)?;
        self.names.push_str(name)?;
        pad_to(&mut self.rules, start)?;
        put_repeated(&mut self.rules, '-', width)
    }
}

// Writes an assertion that failed, with the values of locals in this state: `FALSE: 1 == 2`.
fn put_assertion(page: &mut Page, standing: &ThreadState, test: Expression) -> Written {
    let value = |value: Value| match value {
        Value::Literal(n) => n,
        Value::Local(r) => standing.locals.get(r).copied().unwrap_or(0),
    };
    match test {
        Expression::Single(a) => write!(page, "FALSE: {}", value(a)),
        Expression::Both(a, op, b) => {
            write!(page, "FALSE: {} {} {}", value(a), op_text(op), value(b))
        }
    }
}
