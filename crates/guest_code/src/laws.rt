//! Laws, each the contract of a function that does nothing.

ghost use Rattle.std.specs.Prelude.{◌≡◌, ℕ, List, [], Some};
ghost use Rattle.guest_syntax.specs.Grammar.{Spells};
ghost use Rattle.guest_syntax.specs.declared.limits.TheConstants as texts;
ghost use Rattle.guest_syntax.specs.Tree as model;
ghost use Rattle.guest_code.specs.{Fault.first, FirstFault.IsFirstFault, Program.IsWellFormed};
ghost use Rattle.guest_code.specs.{SourceMap.ArePlacesInThreads, Uses.Use};
ghost use Rattle.guest_code.specs.declared.error.CheckError.{CheckError};

use crate::limits::{COUNT, INSTRUCTIONS, LOCALS, OBJECTS, THREADS, VARIABLES};
use crate::program::Program;
use guest_syntax::laws::statements_are_in_their_threads;

/// The first fault among the uses of names is at one use, and no use before it has any: so what
/// `lower` answers is the first in text order.
pub fn first_fault_is_first()
    ensures { (all us : List Use) (e : CheckError) → first all [] us ≡ Some e
        → IsFirstFault all [] us e }
{}

/// A program keeps every limit, and each number in its code is in range.
pub fn programs_are_well_formed(program: &Program)
    ensures { IsWellFormed program.now }
{
    program.keeps_limits();
}

/// The places of a thread's instructions are in the thread's text: after its name, and before the
/// names of the threads after it.
pub fn places_are_in_their_threads()
    ensures { (text : List ℕ) (t : model.Tree) → Spells text t → ArePlacesInThreads t.threads }
{
    statements_are_in_their_threads();
}

/// Each limit is the number that its clause gives, and `COUNT` is the limit of counts in a text.
pub fn limits_are()
    ensures threads { THREADS ≡ 16 }
    ensures variables { VARIABLES ≡ 16 }
    ensures objects { OBJECTS ≡ 8 }
    ensures locals { LOCALS ≡ 16 }
    ensures instructions { INSTRUCTIONS ≡ 1024 }
    ensures count { COUNT ≡ 65535 }
    ensures counts_of_texts { COUNT ≡ texts.COUNT }
{}
