//! From a tree to a program.

ghost use Rattle.std.specs.Prelude.{◌≡◌, ◌≤◌, None, map, All, IfOk, MatchResult};
ghost use Rattle.guest_syntax.specs.Tree.{thread_view, tree_view};
ghost use Rattle.guest_code.specs.Program.{variable_view, variables_view, semaphore_view, semaphores_view, thread_view as code_view, threads_view, names_view, locals_view};
ghost use Rattle.guest_code.specs.Uses.{thread_locals};
ghost use Rattle.guest_code.specs.Fault.{too_long, fault, Refuses};
ghost use Rattle.guest_code.specs.Code.{variable_of, mutex_of, condition_of, semaphore_of, code};
ghost use Rattle.guest_code.specs.inner.Emission.{size_of, objects_in, thread_code_in, threads_code_in};

use crate::check::check;
use crate::emit::{Context, emit_block};
use crate::error::CheckError;
use crate::limits::{COUNT, INSTRUCTIONS};
use crate::names::Names;
use crate::program::{Program, Semaphore, Thread, Variable};
use guest_syntax::tree::{Declaration, Name, Object, Thread as ThreadTree, Tree};
use std::alloc::{AllocError, Global};

// A program's variable: a copy of its name, and `opening`, its value before the first step.
fn lower_variable(alloc: Global, name: &Name, opening: i64) -> Result<Variable, AllocError>
    ensures { IfOk result
        (λ v. variable_view v ≡ record { name = name.now.text.items; opening = opening }) }
{
    let name = name.text.to_vec(alloc)?;
    Ok(Variable { name, opening })
}

// A program's semaphore: a copy of its name, and `count`, its count before the first step.
fn lower_semaphore(alloc: Global, name: &Name, count: u16) -> Result<Semaphore, AllocError>
    ensures same { IfOk result
        (λ s. semaphore_view s ≡ record { name = name.now.text.items; count = count }) }
    ensures few { count ≤ COUNT }
{
    let name = name.text.to_vec(alloc)?;
    Ok(Semaphore { name, count })
}

// A program's variables: those that a tree's declarations declare, in their order.
fn lower_variables(alloc: Global, declarations: &[Declaration]) -> Result<Vec<Variable>, AllocError>
    ensures { IfOk result (λ v. variables_view v ≡ objects_in variable_of declarations.now) }
{
    let mut all = Vec::new(alloc);
    for declaration in declarations {
        if let Object::Variable(opening) = declaration.object {
            all.push(lower_variable(alloc, &declaration.name, opening)?)?;
        }
    }
    Ok(all)
}

// The names of a program's mutexes: those that a tree's declarations declare, in their order.
fn lower_mutexes(alloc: Global, declarations: &[Declaration]) -> Result<Vec<Vec<u8>>, AllocError>
    ensures { IfOk result (λ v. names_view v.items ≡ objects_in mutex_of declarations.now) }
{
    let mut all = Vec::new(alloc);
    for declaration in declarations {
        if let Object::Mutex = declaration.object {
            all.push(declaration.name.text.to_vec(alloc)?)?;
        }
    }
    Ok(all)
}

// The names of a program's conditions: those that a tree's declarations declare, in their order.
fn lower_conditions(alloc: Global, declarations: &[Declaration]) -> Result<Vec<Vec<u8>>, AllocError>
    ensures { IfOk result (λ v. names_view v.items ≡ objects_in condition_of declarations.now) }
{
    let mut all = Vec::new(alloc);
    for declaration in declarations {
        if let Object::Condition = declaration.object {
            all.push(declaration.name.text.to_vec(alloc)?)?;
        }
    }
    Ok(all)
}

// A program's semaphores: those that a tree's declarations declare, in their order.
fn lower_semaphores(
    alloc: Global,
    declarations: &[Declaration],
) -> Result<Vec<Semaphore>, AllocError>
    ensures same { IfOk result (λ v. semaphores_view v ≡ objects_in semaphore_of declarations.now) }
    ensures counts { IfOk result (λ v. All (λ s. s.count ≤ COUNT) (semaphores_view v)) }
{
    let mut all = Vec::new(alloc);
    for declaration in declarations {
        if let Object::Semaphore(count) = declaration.object {
            all.push(lower_semaphore(alloc, &declaration.name, count)?)?;
        }
    }
    Ok(all)
}

// Lowers a tree's thread of at most `INSTRUCTIONS` instructions, whose locals are `locals`.
fn lower_thread(
    alloc: Global,
    declarations: &[Declaration],
    locals: &Vec<Vec<u8>>,
    thread: &ThreadTree,
) -> Result<Thread, AllocError>
    requires small { size_of thread.now.body.items ≤ INSTRUCTIONS }
    requires locals { locals_view locals.now ≡ thread_locals (thread_view thread.now) }
    ensures { IfOk result (λ t. code_view t ≡ thread_code_in declarations.now thread.now) }
{
    let context = Context {
        names: Names {
            declarations,
            locals,
        },
        distance_to_exit: 0,
    };
    let mut code = Vec::new(alloc);
    emit_block(&mut code, context, &thread.body)?;
    Ok(Thread {
        name: thread.name.text.to_vec(alloc)?,
        locals: locals.len(),
        code,
    })
}

// Lowers a tree's threads, none of them too long; `locals[i]` are the locals of thread `i`.
fn lower_threads(
    alloc: Global,
    declarations: &[Declaration],
    locals: &[Vec<Vec<u8>>],
    threads: &[ThreadTree],
) -> Result<Vec<Thread>, AllocError>
    requires short { too_long 0 (map thread_view threads.now) ≡ None }
    requires locals { map locals_view locals.now ≡ map thread_locals (map thread_view threads.now) }
    ensures { IfOk result (λ v. threads_view v ≡ threads_code_in declarations.now threads.now) }
{
    let mut all = Vec::new(alloc);
    for (i, thread) in threads.iter().enumerate() {
        all.push(lower_thread(alloc, declarations, &locals[i], thread)?)?;
    }
    Ok(all)
}

/// The program of a tree that has no fault. The length of a code is found before any copy of a
/// `repeat` is written, so no text costs more than the limits allow.
///
/// # Errors
///
/// The first fault in text order, of two at one name the one that [`CheckError`] lists first; else
/// `NoThreads`, if there is no thread; else `CodeTooLong`. `OutOfMemory` where memory runs out.
pub fn lower(alloc: Global, tree: &Tree) -> Result<Program, CheckError>
    ensures { MatchResult result
        (λ p. (fault (tree_view tree.now) ≡ None) × (p ≡ code (tree_view tree.now)))
        (λ e. Refuses e (fault (tree_view tree.now))) }
{
    let locals = check(alloc, tree)?;
    let declarations = tree.declarations();
    let variables = lower_variables(alloc, declarations)?;
    let mutexes = lower_mutexes(alloc, declarations)?;
    let conditions = lower_conditions(alloc, declarations)?;
    let semaphores = lower_semaphores(alloc, declarations)?;
    let threads = lower_threads(alloc, declarations, &locals, tree.threads())?;
    Ok(Program::new(variables, mutexes, conditions, semaphores, threads))
}
