//! What names are declared as.

ghost use Rattle.std.specs.Prelude.{◌≡◌};
ghost use Rattle.guest_code.specs.{Fault.limit_of, Uses.{kind_of, same}};

use crate::limits::{OBJECTS, THREADS, VARIABLES};
use guest_syntax::tree::Object;

/// What a name is declared as.
#[derive(Clone, Copy, PartialEq, Eq)]
pub enum NameKind {
    Variable,
    Mutex,
    Condition,
    Semaphore,
    Thread,
}

/// The kind of an object: what its name is declared as.
pub fn kind_of(object: Object) -> NameKind
    ensures { result ≡ kind_of object }
{
    match object {
        Object::Variable(_) => NameKind::Variable,
        Object::Mutex => NameKind::Mutex,
        Object::Condition => NameKind::Condition,
        Object::Semaphore(_) => NameKind::Semaphore,
    }
}

impl NameKind {
    /// The most names of this kind that a program may declare.
    pub fn limit(self) -> usize
        ensures { result ≡ limit_of self }
    {
        match self {
            NameKind::Variable => VARIABLES,
            NameKind::Mutex => OBJECTS,
            NameKind::Condition => OBJECTS,
            NameKind::Semaphore => OBJECTS,
            NameKind::Thread => THREADS,
        }
    }

    /// Whether this kind is the same as the other one, as `==` has it.
    pub fn is_same(self, other: NameKind) -> bool
        ensures { result ≡ same self other }
    {
        self == other
    }
}
