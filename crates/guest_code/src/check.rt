//! Whether a tree has a fault, and which one is the first.

ghost use Rattle.std.specs.Prelude.{◌≡◌, ◌≤◌, [], ◌∷◌, ◌++◌, length, map, IfOk, Ok, Err, cond, true, false};
ghost use Rattle.guest_syntax.specs.Tree.{name_view, operand_view, expr_view, stmt_view, block_view, thread_view, tree_view};
ghost use Rattle.guest_code.specs.Fault.{declares_refusal, refusal, first, first_of_names, fault};
ghost use Rattle.guest_code.specs.Program.{names_view, locals_view};
ghost use Rattle.guest_code.specs.Uses.{object, kind_in, how_many, knows, operand_uses, expr_uses, stmt_uses, block_uses, threads_uses, tree_locals};
ghost use Rattle.guest_code.specs.declared.{error.CheckError.CheckError, kinds.NameKind.NameKind};
ghost use Rattle.guest_code.specs.inner.Walk.{all_uses, declared_in, uses_of, passed, Answers, Meets, Finds};
ghost use Rattle.guest_code.specs.Uses as used;

use crate::error::CheckError;
use crate::kinds::{NameKind, kind_of};
use crate::lengths::check_lengths;
use crate::limits::{LOCALS, THREADS};
use guest_syntax::place::Pos;
use guest_syntax::tree::{Declaration, Expr, Name, Operand, Placed, Statement, Thread, Tree};
use std::alloc::Global;

/// What a check of statements needs: their tree, and whether they are `inside` a `repeat`.
#[derive(Clone, Copy)]
pub struct Scope<'a> {
    pub alloc: Global,
    pub tree: &'a Tree,
    pub in_repeat: bool,
}

// What a name is declared as by the first of `declarations` that has it; `None` if none has it.
fn kind_in_declarations(declarations: &[Declaration], name: &[u8]) -> Option<NameKind>
    ensures { result ≡ kind_in (declared_in declarations.now) name.now }
{
    for declaration in declarations {
        if declaration.name.text.as_slice() == name {
            return Some(kind_of(declaration.object));
        }
    }
    None
}

// The kind that a name is declared as by `threads`: `Thread` where one has the name, else `None`.
fn kind_in_threads(threads: &[Thread], name: &[u8]) -> Option<NameKind>
    ensures { result ≡ kind_in (threads_uses (map thread_view threads.now)) name.now }
{
    for thread in threads {
        if thread.name.text.as_slice() == name {
            return Some(NameKind::Thread);
        }
    }
    None
}

// The kind that a name is declared as by `declarations`, else by `threads`; `None` if by neither.
#[tactic(auto, using(crate::proofs::NameLookup::kind_stays, crate::proofs::NameLookup::kind_after))]
fn kind_among(declarations: &[Declaration], threads: &[Thread], name: &[u8]) -> Option<NameKind>
    ensures { result ≡ kind_in (uses_of declarations.now threads.now) name.now }
{
    match kind_in_declarations(declarations, name) {
        Some(kind) => Some(kind),
        None => kind_in_threads(threads, name),
    }
}

// The kind that a name is declared as anywhere in a tree; `None` where nothing declares it.
#[tactic(auto, unfolding(crate::specs::inner::Walk::all_uses))]
fn kind_in_tree(tree: &Tree, name: &Name) -> Option<NameKind>
    ensures { result ≡ kind_in (all_uses tree.now) name.now.text.items }
{
    kind_among(tree.declarations(), tree.threads(), &name.text)
}

// How many of `declarations` declare an object of a kind.
fn count_of_kind(kind: NameKind, declarations: &[Declaration]) -> usize
    ensures { result ≡ how_many kind (uses_of declarations.now []) }
{
    let mut count = 0;
    for declaration in declarations {
        if kind_of(declaration.object).is_same(kind) {
            count += 1;
        }
    }
    count
}

// Whether a name is one of `locals`.
fn contains_name(locals: &[Vec<u8>], name: &[u8]) -> bool
    ensures { result ≡ knows (names_view locals.now) name.now }
{
    for local in locals {
        if local.as_slice() == name {
            return true;
        }
    }
    false
}

// Refuses a name that is declared nowhere, or as something else than an object of `kind`.
fn check_object(tree: &Tree, kind: NameKind, name: &Name) -> Result<(), CheckError>
    ensures { result ≡ passed (refusal (all_uses tree.now) []
        (object kind (name_view name.now))) tt }
{
    match kind_in_tree(tree, name) {
        None => Err(CheckError::Unknown(name.at)),
        Some(found) if found.is_same(kind) => Ok(()),
        Some(_) => Err(CheckError::WrongKind(name.at)),
    }
}

// Refuses the `leave` at `at` unless it is `inside` a `repeat`.
fn check_leave(inside: bool, at: Pos) -> Result<(), CheckError>
    ensures { result ≡ cond inside (Ok tt) (Err (CheckError.LeaveOutside at)) }
{
    if inside {
        Ok(())
    } else {
        Err(CheckError::LeaveOutside(at))
    }
}

// Refuses a name that is declared, or would be one local too many; else adds it to `locals` if new.
fn insert_local(scope: Scope<'_>, locals: &mut Vec<Vec<u8>>, name: &Name) -> Result<(), CheckError>
    ensures { Meets result scope.entry locals.old locals.new
        (used.local (name_view name.now) ∷ []) }
{
    if kind_in_tree(scope.tree, name).is_some() {
        return Err(CheckError::WrongKind(name.at));
    }
    if contains_name(locals, &name.text) {
        return Ok(());
    }
    if locals.len() >= LOCALS {
        return Err(CheckError::TooMany(name.at));
    }
    locals.push(name.text.to_vec(scope.alloc)?)?;
    Ok(())
}

// Checks the local that an operand names, if any, and adds it to `locals` if it is new.
fn check_operand(
    scope: Scope<'_>,
    locals: &mut Vec<Vec<u8>>,
    operand: &Operand,
) -> Result<(), CheckError>
    ensures { Meets result scope.entry locals.old locals.new
        (operand_uses (operand_view operand.now)) }
{
    match operand {
        Operand::Local(name) => insert_local(scope, locals, name),
        Operand::Literal(_) => Ok(()),
    }
}

// Checks the locals that two operands name, that of `first` first; adds new ones to `locals`.
fn check_operands(
    scope: Scope<'_>,
    locals: &mut Vec<Vec<u8>>,
    first: &Operand,
    second: &Operand,
) -> Result<(), CheckError>
    ensures { Meets result scope.entry locals.old locals.new
        (operand_uses (operand_view first.now) ++ operand_uses (operand_view second.now)) }
{
    check_operand(scope, locals, first)?;
    check_operand(scope, locals, second)
}

// Checks the locals that are used in an expression, and adds new ones to `locals`.
fn check_expr(scope: Scope<'_>, locals: &mut Vec<Vec<u8>>, expr: &Expr) -> Result<(), CheckError>
    ensures { Meets result scope.entry locals.old locals.new (expr_uses (expr_view expr.now)) }
{
    match expr {
        Expr::Single(a) => check_operand(scope, locals, a),
        Expr::Both(a, _, b) => check_operands(scope, locals, a, b),
    }
}

// Checks a read's (`load`, `add` or `cas`) local and variable; adds a new local to `locals`.
fn check_read(
    scope: Scope<'_>,
    locals: &mut Vec<Vec<u8>>,
    local: &Name,
    variable: &Name,
) -> Result<(), CheckError>
    ensures { Meets result scope.entry locals.old locals.new
        (used.local (name_view local.now) ∷ object NameKind.Variable (name_view variable.now) ∷ []) }
{
    insert_local(scope, locals, local)?;
    check_object(scope.tree, NameKind::Variable, variable)
}

// Checks the variable of a `store`, then its value's local, if any; adds a new one to `locals`.
fn check_store(
    scope: Scope<'_>,
    locals: &mut Vec<Vec<u8>>,
    variable: &Name,
    value: &Operand,
) -> Result<(), CheckError>
    ensures { Meets result scope.entry locals.old locals.new
        (object NameKind.Variable (name_view variable.now) ∷ operand_uses (operand_view value.now)) }
{
    check_object(scope.tree, NameKind::Variable, variable)?;
    check_operand(scope, locals, value)
}

// Checks an `add`'s local, variable and value, in this order; adds new locals to `locals`.
fn check_add(
    scope: Scope<'_>,
    locals: &mut Vec<Vec<u8>>,
    local: &Name,
    variable: &Name,
    value: &Operand,
) -> Result<(), CheckError>
    ensures { Meets result scope.entry locals.old locals.new
        (used.local (name_view local.now) ∷ object NameKind.Variable (name_view variable.now) ∷
        operand_uses (operand_view value.now)) }
{
    check_read(scope, locals, local, variable)?;
    check_operand(scope, locals, value)
}

// Checks the local of a `set`, then those in its expression; adds new ones to `locals`.
fn check_set(
    scope: Scope<'_>,
    locals: &mut Vec<Vec<u8>>,
    local: &Name,
    value: &Expr,
) -> Result<(), CheckError>
    ensures { Meets result scope.entry locals.old locals.new
        (used.local (name_view local.now) ∷ expr_uses (expr_view value.now)) }
{
    insert_local(scope, locals, local)?;
    check_expr(scope, locals, value)
}

// Refuses a `wait` unless its first name is a condition's and its second one is a mutex's.
fn check_wait(tree: &Tree, condition: &Name, mutex: &Name) -> Result<(), CheckError>
    ensures { result ≡ passed (first (all_uses tree.now) []
        (object NameKind.Condition (name_view condition.now) ∷ object NameKind.Mutex (name_view mutex.now)
        ∷ [])) tt }
{
    check_object(tree, NameKind::Condition, condition)?;
    check_object(tree, NameKind::Mutex, mutex)
}

// Checks a statement's names, and that a `leave` is in a `repeat`; adds new locals to `locals`.
#[cycle(body)]
fn check_statement(
    scope: Scope<'_>,
    locals: &mut Vec<Vec<u8>>,
    placed: &Placed,
) -> Result<(), CheckError>
    ensures { Meets result scope.entry locals.old locals.new
        (stmt_uses scope.entry.in_repeat placed.now.at (stmt_view placed.now.statement)) }
{
    let tree = scope.tree;
    match &placed.statement {
        Statement::Load { local, variable } => check_read(scope, locals, local, variable),
        Statement::Store { variable, value } => check_store(scope, locals, variable, value),
        Statement::Add {
            local,
            variable,
            value,
        } => check_add(scope, locals, local, variable, value),
        Statement::Cas {
            local,
            variable,
            expected,
            new,
        } => {
            check_read(scope, locals, local, variable)?;
            check_operands(scope, locals, expected, new)
        }
        Statement::Lock(name) | Statement::Unlock(name) => {
            check_object(tree, NameKind::Mutex, name)
        }
        Statement::Wait { condition, mutex } => check_wait(tree, condition, mutex),
        Statement::Signal(name) | Statement::Broadcast(name) => {
            check_object(tree, NameKind::Condition, name)
        }
        Statement::Acquire(name) | Statement::Release(name) => {
            check_object(tree, NameKind::Semaphore, name)
        }
        Statement::Set { local, value } => check_set(scope, locals, local, value),
        Statement::Assert(test) => check_expr(scope, locals, test),
        Statement::If {
            test,
            then,
            otherwise,
        } => match otherwise {
            None => check_if(scope, locals, test, then),
            Some(other) => check_if_else(scope, locals, test, then, other),
        },
        Statement::Repeat { body, .. } => check_repeat(scope, locals, body),
        Statement::Leave => check_leave(scope.in_repeat, placed.at),
    }
}

// Checks the test and the block of an `if` with no `else`, and adds new locals to `locals`.
#[cycle(body)]
#[tactic(auto, using(crate::proofs::CheckIsFault::walk_goes, crate::proofs::CheckIsFault::walk_stops))]
fn check_if(
    scope: Scope<'_>,
    locals: &mut Vec<Vec<u8>>,
    test: &Expr,
    then: &[Placed],
) -> Result<(), CheckError>
    ensures { Meets result scope.entry locals.old locals.new
        (expr_uses (expr_view test.now) ++ block_uses scope.entry.in_repeat (block_view then.now)) }
{
    check_expr(scope, locals, test)?;
    check_block(scope, locals, then)
}

// Checks the test and both blocks of an `if` with an `else`, and adds new locals to `locals`.
#[cycle(body)]
#[tactic(auto, using(crate::proofs::CheckIsFault::walk_goes, crate::proofs::CheckIsFault::walk_stops))]
fn check_if_else(
    scope: Scope<'_>,
    locals: &mut Vec<Vec<u8>>,
    test: &Expr,
    then: &[Placed],
    other: &[Placed],
) -> Result<(), CheckError>
    ensures { Meets result scope.entry locals.old locals.new
        (expr_uses (expr_view test.now) ++ (block_uses scope.entry.in_repeat (block_view then.now)
        ++ block_uses scope.entry.in_repeat (block_view other.now))) }
{
    check_expr(scope, locals, test)?;
    check_block(scope, locals, then)?;
    check_block(scope, locals, other)
}

// Checks the body of a `repeat`, where a `leave` is allowed, and adds new locals to `locals`.
#[cycle(body)]
fn check_repeat(
    scope: Scope<'_>,
    locals: &mut Vec<Vec<u8>>,
    body: &[Placed],
) -> Result<(), CheckError>
    ensures { Meets result scope.entry locals.old locals.new
        (block_uses true (block_view body.now)) }
{
    let inside = Scope {
        alloc: scope.alloc,
        tree: scope.tree,
        in_repeat: true,
    };
    check_block(inside, locals, body)
}

// Checks the statements of a block in their order, and adds new locals to `locals`.
#[cycle(body)]
fn check_block(
    scope: Scope<'_>,
    locals: &mut Vec<Vec<u8>>,
    block: &[Placed],
) -> Result<(), CheckError>
    ensures { Meets result scope.entry locals.old locals.new
        (block_uses scope.entry.in_repeat (block_view block.now)) }
{
    for placed in block {
        check_statement(scope, locals, placed)?;
    }
    Ok(())
}

// Refuses a name that `declarations` or `threads` have, or that passes the limit of its `kind`, of
// which `count` are declared before it.
fn check_new_name(
    declarations: &[Declaration],
    threads: &[Thread],
    kind: NameKind,
    count: usize,
    name: &Name,
) -> Result<(), CheckError>
    ensures { result ≡ passed (declares_refusal kind (name_view name.now)
        (kind_in (uses_of declarations.now threads.now) name.now.text.items) count) tt }
{
    if kind_among(declarations, threads, &name.text).is_some() {
        return Err(CheckError::Duplicate(name.at));
    }
    if count >= kind.limit() {
        return Err(CheckError::TooMany(name.at));
    }
    Ok(())
}

// Refuses the first of `declarations`, which are those of `tree`, that has an earlier one's name or
// passes its kind's limit. The contract alone needs `tree`.
fn check_declarations(tree: &Tree, declarations: &[Declaration]) -> Result<(), CheckError>
    ensures { result ≡ passed (first (all_uses tree.now) [] (declared_in declarations.now)) tt }
{
    for (i, declaration) in declarations.iter().enumerate() {
        let kind = kind_of(declaration.object);
        let before = &declarations[..i];
        let count = count_of_kind(kind, before);
        check_new_name(before, &[], kind, count, &declaration.name)?;
    }
    Ok(())
}

// Checks a thread's names and each `leave` in it. Answers its locals in the order of first use.
fn checked_locals(alloc: Global, tree: &Tree, thread: &Thread) -> Result<Vec<Vec<u8>>, CheckError>
    ensures { Finds result tree.now (block_uses false (block_view thread.now.body.items)) }
{
    let scope = Scope {
        alloc,
        tree,
        in_repeat: false,
    };
    let mut locals = Vec::new(alloc);
    check_block(scope, &mut locals, &thread.body)?;
    Ok(locals)
}

// Checks all names and each `leave`. Answers the locals of each thread in the order of first use.
fn check_and_collect_locals(alloc: Global, tree: &Tree) -> Result<Vec<Vec<Vec<u8>>>, CheckError>
    ensures gives { Answers result (first_of_names (all_uses tree.now)) }
    ensures locals { IfOk result (λ v. map locals_view v.items ≡ tree_locals (tree_view tree.now)) }
    ensures few { IfOk result (λ v. length (tree_view tree.now).threads ≤ THREADS) }
{
    let declarations = tree.declarations();
    let threads = tree.threads();
    check_declarations(tree, declarations)?;
    let mut all = Vec::new(alloc);
    for (i, thread) in threads.iter().enumerate() {
        check_new_name(
            declarations,
            &threads[..i],
            NameKind::Thread,
            i,
            &thread.name,
        )?;
        all.push(checked_locals(alloc, tree, thread)?)?;
    }
    Ok(all)
}

/// Each thread's locals in the order of first use, or the first fault: of a name or a `leave`, else
/// `NoThreads`, else `CodeTooLong`. `OutOfMemory` where memory runs out.
pub fn check(alloc: Global, tree: &Tree) -> Result<Vec<Vec<Vec<u8>>>, CheckError>
    ensures gives { Answers result (fault (tree_view tree.now)) }
    ensures locals { IfOk result (λ v. map locals_view v.items ≡ tree_locals (tree_view tree.now)) }
{
    let all = check_and_collect_locals(alloc, tree)?;
    let threads = tree.threads();
    if threads.len() == 0 {
        return Err(CheckError::NoThreads);
    }
    check_lengths(threads)?;
    Ok(all)
}
