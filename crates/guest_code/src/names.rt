//! What the names of a thread stand for.

ghost use Rattle.std.specs.Prelude.{◌≡◌, map};
ghost use Rattle.guest_syntax.specs.Tree.{name_view, operand_view, expr_view, declaration_view};
ghost use Rattle.guest_code.specs.Code.{object_index, local_index, variable_number, mutex_number, condition_number, semaphore_number, local_number, value_of, expression_of};
ghost use Rattle.guest_code.specs.{Program.names_view, inner.Emission.names_of};

use crate::kinds::{NameKind, kind_of};
use crate::program::{Expression, Value};
use guest_syntax::tree::{Declaration, Expr, Name, Operand};

/// The declarations of a text, and the locals of a thread in the order of first use: what the
/// names in the thread stand for.
#[derive(Clone, Copy)]
pub struct Names<'a> {
    pub declarations: &'a [Declaration],
    pub locals: &'a [Vec<u8>],
}

// How many objects of `kind` are declared before the name: its number, if it is of that kind.
fn objects_before(declarations: &[Declaration], kind: NameKind, name: &[u8]) -> usize
    ensures { result ≡ object_index kind (map declaration_view declarations.now) name.now }
{
    let mut index = 0;
    for declaration in declarations {
        if declaration.name.text.as_slice() == name {
            return index;
        }
        if kind_of(declaration.object).is_same(kind) {
            index += 1;
        }
    }
    index
}

// How many of `locals` come before the name: its number, if it is one of them.
fn locals_before(locals: &[Vec<u8>], name: &[u8]) -> usize
    ensures { result ≡ local_index (names_view locals.now) name.now }
{
    let mut index = 0;
    for local in locals {
        if local.as_slice() == name {
            return index;
        }
        index += 1;
    }
    index
}

impl Names<'_> {
    /// The number of the variable of this name, counted from 0 in the order of declaration.
    pub fn variable(self, name: &Name) -> usize
        ensures { result ≡ variable_number (names_of self.entry) (name_view name.now) }
    {
        objects_before(self.declarations, NameKind::Variable, &name.text)
    }

    /// The number of the mutex of this name, counted from 0 in the order of declaration.
    pub fn mutex(self, name: &Name) -> usize
        ensures { result ≡ mutex_number (names_of self.entry) (name_view name.now) }
    {
        objects_before(self.declarations, NameKind::Mutex, &name.text)
    }

    /// The number of the condition of this name, counted from 0 in the order of declaration.
    pub fn condition(self, name: &Name) -> usize
        ensures { result ≡ condition_number (names_of self.entry) (name_view name.now) }
    {
        objects_before(self.declarations, NameKind::Condition, &name.text)
    }

    /// The number of the semaphore of this name, counted from 0 in the order of declaration.
    pub fn semaphore(self, name: &Name) -> usize
        ensures { result ≡ semaphore_number (names_of self.entry) (name_view name.now) }
    {
        objects_before(self.declarations, NameKind::Semaphore, &name.text)
    }

    /// The number of the thread's local of this name, counted from 0 in the order of first use.
    pub fn local(self, name: &Name) -> usize
        ensures { result ≡ local_number (names_of self.entry) (name_view name.now) }
    {
        locals_before(self.locals, &name.text)
    }

    /// The operand as code has it: a local by its number, a literal as it is.
    pub fn value(self, operand: &Operand) -> Value
        ensures { result ≡ value_of (names_of self.entry) (operand_view operand.now) }
    {
        match operand {
            Operand::Local(name) => Value::Local(self.local(name)),
            Operand::Literal(z) => Value::Literal(*z),
        }
    }

    /// The expression, with its locals by number instead of by name.
    pub fn expression(self, expr: &Expr) -> Expression
        ensures { result ≡ expression_of (names_of self.entry) (expr_view expr.now) }
    {
        match expr {
            Expr::Single(a) => Expression::Single(self.value(a)),
            Expr::Both(a, op, b) => Expression::Both(self.value(a), *op, self.value(b)),
        }
    }
}
