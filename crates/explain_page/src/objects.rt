//! The states of a guest's objects before the first step, and after each step.

use crate::facts::Facts;
use explain_run::{Object, ObjectState, Step};
use serde::Serialize;
use std::alloc::AllocError;
use std::collections::BTreeMap;

/// The values of objects or locals, by the names of these.
pub type ByName<'a, T> = BTreeMap<&'a str, T>;

/// The owner of a mutex, and since which step.
#[derive(Clone, Copy, Drop, Serialize)]
pub struct MutexOwner<'a> {
    pub holder: &'a str,
    pub since: usize,
}

/// The states of all objects at one point of the run, by name: who waits for each condition, the
/// one that waited longest first, the owners of mutexes, the counts of semaphores and the values of
/// variables.
#[derive(Drop, Serialize)]
pub struct ObjectStates<'a> {
    pub conditions: ByName<'a, Vec<&'a str>>,
    pub mutexes: ByName<'a, Option<MutexOwner<'a>>>,
    pub semaphores: ByName<'a, u16>,
    pub variables: ByName<'a, i64>,
}

impl<'a> ObjectStates<'a> {
    /// The states of the objects before the first step.
    pub fn initial(facts: &'a Facts<'_>) -> Result<ObjectStates<'a>, AllocError> {
        Ok(ObjectStates {
            conditions: empty_queues(facts)?,
            mutexes: initial_owners(facts)?,
            semaphores: initial_counts(facts)?,
            variables: initial_values(facts)?,
        })
    }

    /// The states of the objects after the last step that ran.
    pub fn at_end(facts: &'a Facts<'_>) -> Result<ObjectStates<'a>, AllocError> {
        let mut objects = ObjectStates::initial(facts)?;
        for (at, step) in facts.told.explanation.steps().iter().enumerate() {
            objects.apply_step(facts, at, step)?;
        }
        Ok(objects)
    }

    /// Brings the states from before a step to after it. The step is at place `at` of the schedule.
    /// No object changes where the step's own object doesn't.
    pub fn apply_step(
        &mut self,
        facts: &'a Facts<'_>,
        at: usize,
        step: &Step,
    ) -> Result<(), AllocError> {
        if step.old == step.new {
            return Ok(());
        }
        let name = facts.told.object_name(step.object);
        match step.new {
            ObjectState::Value(value) => drop(self.variables.insert(name, value)?),
            ObjectState::Count(count) => drop(self.semaphores.insert(name, count)?),
            ObjectState::Owner(None) => drop(self.mutexes.insert(name, None)?),
            ObjectState::Owner(Some(owner)) => {
                let (holder, since) = (facts.told.thread_name(owner), at);
                let owner = Some(MutexOwner { holder, since });
                drop(self.mutexes.insert(name, owner)?);
            }
            ObjectState::Waiting(_) => self.apply_queue_step(facts, step)?,
        }
        Ok(())
    }

    // Applies a step on a condition: a `wait` adds its thread to those that wait, and leaves its
    // mutex without an owner; a `signal` or `broadcast` removes the threads that it woke. Where no
    // condition has the name of the step's object, nothing is changed.
    fn apply_queue_step(&mut self, facts: &'a Facts<'_>, step: &Step) -> Result<(), AllocError> {
        let Some(queue) = self.conditions.get_mut(facts.told.object_name(step.object)) else {
            return Ok(());
        };
        if let Some(mutex) = facts.wait_mutex_name(step) {
            queue.push(facts.told.thread_name(step.line.thread))?;
            self.mutexes.insert(mutex, None)?;
        } else {
            let woken = facts.thread_names(step.woken.as_slice())?;
            queue.retain(|waiting| !woken.as_slice().contains(waiting));
        }
        Ok(())
    }
}

// By the name of each condition, who waits for it before the first step: nobody.
fn empty_queues<'a>(facts: &'a Facts<'_>) -> Result<ByName<'a, Vec<&'a str>>, AllocError> {
    let mut queues = ByName::new(facts.told.alloc);
    for c in 0..facts.told.source.program.conditions() as usize {
        let name = facts.told.object_name(Object::Condition(c));
        queues.insert(name, Vec::new(facts.told.alloc))?;
    }
    Ok(queues)
}

// By the name of each mutex, who owns it before the first step: nobody.
fn initial_owners<'a>(
    facts: &'a Facts<'_>,
) -> Result<ByName<'a, Option<MutexOwner<'a>>>, AllocError> {
    let mut owners = ByName::new(facts.told.alloc);
    for m in 0..facts.told.source.program.mutexes() as usize {
        owners.insert(facts.told.object_name(Object::Mutex(m)), None)?;
    }
    Ok(owners)
}

// By the name of each semaphore, its count before the first step.
fn initial_counts<'a>(facts: &'a Facts<'_>) -> Result<ByName<'a, u16>, AllocError> {
    let program = facts.told.source.program;
    let mut counts = ByName::new(facts.told.alloc);
    for k in 0..program.semaphores() as usize {
        let name = facts.told.object_name(Object::Semaphore(k));
        counts.insert(name, program.initial_count(k))?;
    }
    Ok(counts)
}

// By the name of each variable, its value before the first step.
fn initial_values<'a>(facts: &'a Facts<'_>) -> Result<ByName<'a, i64>, AllocError> {
    let program = facts.told.source.program;
    let mut values = ByName::new(facts.told.alloc);
    for x in 0..program.variables() as usize {
        let name = facts.told.object_name(Object::Variable(x));
        values.insert(name, program.initial_value(x))?;
    }
    Ok(values)
}
