//! The parts of a program's initial state.

ghost use Rattle.std.specs.Prelude.{◌≡◌, ◌≤◌, length, All, IfOk};
ghost use Rattle.semantics.specs.Machine.{start};

use crate::local::take_local_run;
use crate::state::{Status, Thread};
use guest_code::limits::{COUNT, LOCALS, THREADS};
use guest_code::program::Program;
use std::alloc::{AllocError, Global};

/// The values of a program's variables before the first step, as they are declared. Fails where
/// memory runs out.
pub fn initial_values(alloc: Global, program: &Program) -> Result<Vec<i64>, AllocError>
    ensures { IfOk result (λ v. v.items ≡ (start program.now).vars) }
{
    let mut values = Vec::new(alloc);
    for x in 0..program.variables() {
        values.push(program.initial_value(x as usize))?;
    }
    Ok(values)
}

/// The counts of a program's semaphores before the first step, as they are declared. Fails where
/// memory runs out.
pub fn initial_counts(alloc: Global, program: &Program) -> Result<Vec<u16>, AllocError>
    ensures counts { IfOk result (λ v. v.items ≡ (start program.now).counts) }
    ensures full { IfOk result (λ v. All (λ n. n ≤ COUNT) v.items) }
{
    let mut counts = Vec::new(alloc);
    for k in 0..program.semaphores() {
        counts.push(program.initial_count(k as usize))?;
    }
    Ok(counts)
}

/// A program's threads before the first step: each began with locals of 0, and ran on to its first
/// visible instruction, its end or a failed assertion. Fails where memory runs out.
pub fn initial_threads(alloc: Global, program: &Program) -> Result<Vec<Thread>, AllocError>
    ensures few { length program.now.threads ≤ THREADS }
    ensures threads { IfOk result (λ v. v.items ≡ (start program.now).threads) }
{
    let mut threads = Vec::new(alloc);
    for t in 0..program.threads() {
        let mut thread = Thread {
            pc: 0,
            locals: [0; LOCALS],
            status: Status::Running,
        };
        take_local_run(program.code(t), &mut thread);
        threads.push(thread)?;
    }
    Ok(threads)
}
