//! What is written as JSON, and the lists of names in it.

use crate::places::{StatementEnds, statement_ends};
use explain_run::{Object, Step};
use explain_told::Told;
use replay::{Act, schedule_text};
use serde_json::Value;
use std::alloc::AllocError;

/// What the JSON of an explanation is written from.
#[derive(Drop)]
pub struct Facts<'a> {
    pub told: &'a Told<'a>,
    /// Where the statements of the text end.
    pub ends: StatementEnds,
    /// The report of the search that found the schedule, if one did.
    pub search: Option<Value>,
    /// How the schedule ends and why, in words: for a page alone.
    pub why: Option<&'a str>,
}

impl<'a> Facts<'a> {
    /// What is told, with the report of the search that found the schedule, if one did, and, for a
    /// page alone, how the schedule ends and why.
    pub fn new(
        told: &'a Told<'a>,
        search: Option<Value>,
        why: Option<&'a str>,
    ) -> Result<Facts<'a>, AllocError> {
        Ok(Facts {
            told,
            ends: statement_ends(told.alloc, told.source.text)?,
            search,
            why,
        })
    }

    /// The names of the threads of these numbers, in the same order.
    pub fn thread_names(&self, threads: &[u8]) -> Result<Vec<&str>, AllocError> {
        let mut names = Vec::new(self.told.alloc);
        for thread in threads {
            names.push(self.told.thread_name(*thread))?;
        }
        Ok(names)
    }

    /// The name of the mutex that a step unlocks by a `wait`; `None` where the step is no `wait`.
    pub fn wait_mutex_name(&self, step: &Step) -> Option<&str> {
        match step.line.act {
            Act::Wait { mutex, .. } => Some(self.told.object_name(Object::Mutex(mutex))),
            _ => None,
        }
    }

    /// The whole schedule as it is printed: also the steps that didn't run.
    pub fn printed_schedule(&self) -> Result<String, AllocError> {
        let schedule = schedule_text(self.told.alloc, self.told.explanation.schedule())?;
        String::from_utf8_lossy(self.told.alloc, schedule.as_slice())
    }
}
