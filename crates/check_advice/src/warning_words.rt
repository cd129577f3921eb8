//! The messages of warnings.

use crate::compiled::Compiled;
use check_hints::message::Message;
use check_hints::names::Nearest;
use check_lint::uses::Use;
use check_lint::warning::{Warning, WarningKind};
use guest_code::limits::LOCALS;
use std::alloc::{AllocError, Global};

impl<'a> Compiled<'a> {
    /// Tells of a warning of the program, with notes on what to write instead, and answers its number
    /// and name, as `W9 MayLack`. Fails where memory runs out.
    pub fn tell_warning(
        &self,
        told: &mut Message,
        warning: Warning,
    ) -> Result<&'static str, AllocError> {
        let (_, words) = warning.kind.row();
        let (title, said) = words.split_once(": ").unwrap_or((words, ""));
        match warning.kind {
            WarningKind::NeverSet(thread) => self.tell_unset_local(told, thread, warning.number)?,
            WarningKind::NeverRead(thread) => {
                let name = self.thread_name(thread);
                let local = self.local_name(thread, warning.number);
                told.say(format_args!("no statement of {name} reads `{local}`"))?;
            }
            WarningKind::MissingUnlock(thread)
            | WarningKind::MissingLock(thread)
            | WarningKind::LocksAgain(thread) => {
                told.say(format_args!("{} {said}", self.thread_name(thread)))?;
            }
            _ => told.say(said)?,
        }
        if matches!(warning.kind, WarningKind::WaitNotLookedAtAgain(_)) {
            told.note("write: repeat 3 { load r x; if r { leave; } wait c m; }")?;
        }
        Ok(title)
    }

    // Tells of a local of a thread that no statement gives a value, with a note on what to write for
    // `true` or `false`, or else on which local may be meant, if its name is near.
    fn tell_unset_local(
        &self,
        told: &mut Message,
        thread: u8,
        local: usize,
    ) -> Result<(), AllocError> {
        let (name, local) = (self.thread_name(thread), self.local_name(thread, local));
        told.say(format_args!("no statement of {name} gives `{local}` a value: it is 0"))?;
        if matches!(local, "true" | "false") {
            return told.note("write 1 or 0: there are no words for them");
        }
        if let Some(near) = self.nearest_local(told.allocator(), thread, local)? {
            let near = self.local_name(thread, near);
            told.note(format_args!("did you mean `{near}`?"))?;
        }
        Ok(())
    }

    // The number of the local whose name is nearest to this one, among those of the thread that get
    // a value; `None` where none is near.
    fn nearest_local(
        &self,
        alloc: Global,
        thread: u8,
        name: &str,
    ) -> Result<Option<usize>, AllocError> {
        let mut nearest = Nearest::new(name.as_bytes());
        for local in 0..LOCALS {
            if Use::Sets.is_made_in(local, self.code(thread)) {
                nearest.add(alloc, self.local_name(thread, local).as_bytes(), local)?;
            }
        }
        Ok(nearest.found())
    }
}
