//! Where the values of locals came from.

use crate::told::Told;
use explain_cause::Event;
use guest_code::program::{Expression, Instruction, Value};
use std::alloc::AllocError;
use std::collections::BTreeSet;

/// A local whose value matters: which, under how many others that were computed of it, and the
/// event that set it, with its place; `None` where none did, so that it is 0 from the start.
#[derive(Clone, Copy)]
pub struct Setting {
    pub local: usize,
    pub depth: usize,
    pub event: Option<(usize, Event)>,
}

/// The settings of the locals that are asked for, and, after one by a `set`, of those of which that
/// computed the value.
#[derive(Drop)]
pub struct Settings<'a> {
    told: &'a Told<'a>,
    thread: u8,
    // What is still to be told, the next last.
    pending: Vec<Pending>,
}

// A local as it was before the event at place `at`.
#[derive(Clone, Copy)]
struct Pending {
    at: usize,
    local: usize,
    depth: usize,
}

impl<'a> Settings<'a> {
    /// The settings of locals of a thread, the first one first, before the event at place `at`.
    pub fn before(
        told: &'a Told<'a>,
        at: usize,
        thread: u8,
        locals: [Option<usize>; 2],
    ) -> Result<Settings<'a>, AllocError> {
        let pending = Vec::new(told.alloc);
        let mut settings = Settings {
            told,
            thread,
            pending,
        };
        settings.push(at, 0, locals)?;
        Ok(settings)
    }

    /// The next setting whose place isn't among those told before, to which it is added.
    pub fn next(&mut self, before: &mut BTreeSet<usize>) -> Result<Option<Setting>, AllocError> {
        for _ in 0..u64::MAX {
            let Some(Pending { at, local, depth }) = self.pending.pop() else {
                break;
            };
            let place = self.told.causes.last_assignment(at, self.thread, local);
            let event = place.and_then(|place| Some((place, self.told.event(place)?)));
            if let Some((place, event)) = event {
                if !before.insert(place)? {
                    continue;
                }
                if let Instruction::Set { value, .. } = event.statement {
                    self.push(place, depth.saturating_add(1), locals_of(value))?;
                }
            }
            return Ok(Some(Setting {
                local,
                depth,
                event,
            }));
        }
        Ok(None)
    }

    // Adds locals as they were before the event at place `at`, so that the first one is the next.
    fn push(
        &mut self,
        at: usize,
        depth: usize,
        locals: [Option<usize>; 2],
    ) -> Result<(), AllocError> {
        for local in locals.into_iter().rev().flatten() {
            self.pending.push(Pending { at, local, depth })?;
        }
        Ok(())
    }
}

impl Told<'_> {
    /// The places of the events from which a thread's local has its value before the event at place
    /// `end`: those that set the local, or another local from which the value was computed, and, for
    /// each variable that one of these read, the last event before the read that wrote it.
    pub fn origins(
        &self,
        end: usize,
        thread: u8,
        local: usize,
    ) -> Result<BTreeSet<usize>, AllocError> {
        let mut before = BTreeSet::new(self.alloc);
        let mut origins = BTreeSet::new(self.alloc);
        let mut settings = Settings::before(&*self, end, thread, [Some(local), None])?;
        for _ in 0..u64::MAX {
            let Some(setting) = settings.next(&mut before)? else {
                break;
            };
            if let Some((at, event)) = setting.event {
                origins.insert(at)?;
                let read = event.variable_read();
                origins.extend(read.and_then(|x| self.causes.last_write(at, x)))?;
            }
        }
        Ok(origins)
    }
}

/// The numbers of the locals in an expression, each once, in its order.
pub fn locals_of(expression: Expression) -> [Option<usize>; 2] {
    let local = |operand| match operand {
        Value::Local(local) => Some(local),
        Value::Literal(_) => None,
    };
    match expression {
        Expression::Both(a, _, b) if a != b => [local(a), local(b)],
        Expression::Single(a) | Expression::Both(a, _, _) => [local(a), None],
    }
}
