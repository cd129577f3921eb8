//! Why threads can't go on. In a circle each thread waits, perhaps through others, for each.

use crate::text::{TextWriter, push_entry};
use explain_lines::{Page, Written, width_of};
use explain_run::{Holder, Object, Reason};
use explain_waits::Wait;
use replay::Act;
use semantics::mask::Mask;
use semantics::state::Status;
use semantics::view::Kind;
use std::alloc::AllocError;

/// The column at which what doesn't fit into a line goes on in the next one.
const INDENT: usize = 6;

// The widths of the columns of names and places.
#[derive(Clone, Copy, Default)]
struct Widths {
    name: usize,
    place: usize,
}

impl TextWriter<'_> {
    /// Where the schedule is stuck or a thread failed, writes why each blocked one can't go on and
    /// who could end the waits; then why the next step can't be taken, and who is still enabled.
    pub fn put_reasons(&self, page: &mut Page) -> Written {
        let title = match self.told.explanation.kind() {
            Some(Kind::Stuck) => Some("Why nobody can go on"),
            _ if self.told.causes.failure().is_some() => Some("Blocked meanwhile"),
            _ => None,
        };
        if let Some(title) = title
            && !self.told.waits.all().is_empty()
        {
            page.put_line(title, 0)?;
            self.put_blocked_threads(page)?;
            page.put_empty_line()?;
            self.put_unblocking(page)?;
        }
        self.put_continuation(page)
    }

    fn put_blocked_threads(&self, page: &mut Page) -> Written {
        let widths = self.column_widths()?;
        for circle in self.told.waits.circles() {
            self.put_circle(page, *circle, widths)?;
        }
        for wait in self.told.waits.all() {
            if wait.is_in_no_circle() {
                self.put_wait_row(page, wait, widths)?;
            }
        }
        Ok(())
    }

    // Writes the rows of a circle, and that its threads wait for one another.
    fn put_circle(&self, page: &mut Page, circle: Mask, widths: Widths) -> Written {
        let (mut names, mut size) = (String::new(self.told.alloc), 0_usize);
        for wait in self.told.waits.all() {
            if circle.has(wait.thread) {
                self.put_wait_row(page, wait, widths)?;
                push_entry(&mut names, self.told.thread_name(wait.thread))?;
                size = size.saturating_add(1);
            }
        }
        match size {
            1 => page.put_line(format_args!("  {names} waits for itself"), INDENT),
            _ => page.put_line(format_args!("  {names} wait for one another"), INDENT),
        }
    }

    fn put_wait_row(&self, page: &mut Page, wait: &Wait, widths: Widths) -> Written {
        let (name, place) = (self.told.thread_name(wait.thread), self.blocked_site(wait)?);
        let (n, p) = (widths.name, widths.place);
        write!(page, "  {name:<n$}  {place:<p$}   ")?;
        self.put_reason_of(page, wait)?;
        page.end_line(0, INDENT)
    }

    /// As text, what a blocked thread waits to do; `retake` and the mutex where it was woken.
    pub fn blocked_action(&self, wait: &Wait) -> Result<String, AllocError> {
        let retakes = matches!(wait.reason, Reason::Retake(_));
        self.action_text(wait.thread, self.instruction_at_end(wait.thread), retakes)
    }

    /// As text, the line at which a blocked thread is, and what it waits to do there.
    pub fn blocked_site(&self, wait: &Wait) -> Result<String, AllocError> {
        let (line, action) = (self.line_at_end(wait.thread), self.blocked_action(wait)?);
        format!(in self.told.alloc; "at {line}: {action}")
    }

    // The widths that all rows need.
    fn column_widths(&self) -> Result<Widths, AllocError> {
        let mut widths = Widths::default();
        for wait in self.told.waits.all() {
            widths.name = width_of(self.told.thread_name(wait.thread)).max(widths.name);
            widths.place = width_of(self.blocked_site(wait)?.as_str()).max(widths.place);
        }
        Ok(widths)
    }

    // Writes why a thread can't go on: who has what it waits for, or since when it waits.
    fn put_reason_of(&self, page: &mut Page, wait: &Wait) -> Written {
        let name = self.told.object_name(wait.reason.object());
        match wait.reason {
            Reason::Lock(m) | Reason::Retake(m) => {
                self.put_holder(page, m, self.told.explanation.holder(m))?;
                page.write(match self.holder_status(m) {
                    Some(Status::Ended) => ", which ended and owns it still",
                    Some(Status::Stopped(_)) => ", which stopped and owns it still",
                    _ => "",
                })
            }
            Reason::Acquire(k) => {
                for (at, step) in self.told.explanation.steps().iter().enumerate().rev() {
                    if step.line.act == Act::Acquire(k) {
                        let site = self.site(step.line.thread, step.instruction);
                        let (taker, line) = (site.name, site.line);
                        write!(page, "{name} is 0; {taker} took the last one ")?;
                        return write!(page, "(step {at}, {line})");
                    }
                }
                write!(page, "{name} is 0 from the start")
            }
            Reason::Signal(_) => {
                let since = wait.since.unwrap_or(0);
                write!(page, "waits for a signal on {name} since step {since}")
            }
        }
    }

    /// Writes who owns a mutex and since which step, or that it is free if `holder` is `None`.
    pub fn put_holder(&self, page: &mut Page, mutex: usize, holder: Option<Holder>) -> Written {
        let name = self.told.object_name(Object::Mutex(mutex));
        if let Some(Holder { thread, since }) = holder
            && let Some(step) = self.told.step(since)
        {
            let site = self.site(thread, step.instruction);
            let (owner, line) = (site.name, site.line);
            write!(page, "{name} is held by {owner} ")?;
            write!(page, "(since step {since}, {line})")
        } else {
            write!(page, "{name} is free")
        }
    }

    // How the owner of a mutex is at the end; `None` where the mutex is free.
    fn holder_status(&self, mutex: usize) -> Option<Status> {
        let holder = self.told.explanation.holder(mutex)?;
        Some(self.told.explanation.thread_state(holder.thread)?.status)
    }

    /// Whether a thread waits for a mutex whose owner ended, and has statements that give it back.
    pub fn is_given_up(&self, wait: &Wait) -> bool {
        let Some(mutex) = wait.reason.mutex() else {
            return false;
        };
        let has_ended = matches!(self.holder_status(mutex), Some(Status::Ended));
        has_ended && !wait.statements.is_empty()
    }

    // Writes why the schedule's next step can't be taken, and who could go on if it isn't complete.
    fn put_continuation(&self, page: &mut Page) -> Written {
        let run = self.told.explanation;
        let (kind, refused) = (run.kind(), run.refused());
        if kind.is_some() && refused.is_none() {
            return Ok(());
        }
        if let Some(thread) = refused {
            self.put_refused_step(page, thread)?;
            page.write(match kind {
                Some(Kind::Stuck) => " Nobody can go on.",
                Some(_) => " The run was over before it.",
                None => " ",
            })?;
        }
        if kind.is_none() {
            self.put_enabled(page)?;
        }
        page.end_line(0, 2)?;
        page.put_empty_line()
    }

    fn put_enabled(&self, page: &mut Page) -> Written {
        page.write("Could go on: ")?;
        let mut separator = "";
        for t in 0..self.told.source.program.threads() {
            if let Some(standing) = self.told.explanation.thread_state(t)
                && standing.is_enabled()
            {
                write!(page, "{separator}{} ({t})", self.told.thread_name(t))?;
                separator = ", ";
            }
        }
        Ok(())
    }

    fn put_refused_step(&self, page: &mut Page, thread: u8) -> Written {
        let at = self.told.explanation.steps().len();
        write!(page, "Step {at} can't be taken: ")?;
        let Some(standing) = self.told.explanation.thread_state(thread) else {
            return write!(page, "there is no thread {thread}.");
        };
        write!(page, "{thread} {}", self.told.thread_name(thread))?;
        match (self.told.waits.get(thread), standing.is_stopped()) {
            (Some(wait), _) => {
                write!(page, " is blocked {}; ", self.blocked_site(wait)?)?;
                self.put_reason_of(page, wait)?;
                page.write(".")
            }
            (None, true) => page.write(" has stopped."),
            (None, false) => page.write(" has ended."),
        }
    }
}
