//! Laws of the grammar, each the contract of a function that does nothing.

ghost use Rattle.std.specs.Prelude.{◌≡◌, List, ℕ};
ghost use Rattle.guest_syntax.specs.{Grammar.Spells, StatementPlaces.AreInThreads};
ghost use Rattle.guest_syntax.specs.Tree as model;

use crate::limits::{COUNT, DEPTH, NUMBER, REPEATS, TEXT_BYTES};

/// Does nothing. Its contract: a text spells at most one tree.
pub fn one_tree()
    ensures { (text : List ℕ) (t u : model.Tree) → Spells text t → Spells text u → t ≡ u }
{}

/// Each statement of a thread is after the thread's name and before the names of later threads.
pub fn statements_are_in_their_threads()
    ensures { (text : List ℕ) (t : model.Tree) → Spells text t → AreInThreads t.threads }
{}

/// Does nothing. Its contract: each limit of a text is the number that the clause gives.
pub fn limits_are()
    ensures text_bytes { TEXT_BYTES ≡ 65536 }
    ensures depth { DEPTH ≡ 32 }
    ensures number { NUMBER ≡ 9223372036854775807 }
    ensures count { COUNT ≡ 65535 }
    ensures repeats { REPEATS ≡ 100 }
{}
