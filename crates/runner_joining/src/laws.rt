//! A law of parts. A law is what its function ensures; the function does nothing.

ghost use Rattle.std.specs.Prelude.{List, All};
ghost use Rattle.guest_code.specs.Program.{Program};
ghost use Rattle.runner_report.specs.declared.options.Search.{Search};
ghost use Rattle.runner_parts.specs.declared.part.Part.{Part};
ghost use Rattle.runner_joining.specs.{Found.IsFound, Parts.AreHonest};

/// What searches under prefixes find is honest, whatever each was asked for. So what
/// [`join`](crate::join) makes of such parts is a report of the program.
pub fn what_is_found_is_honest()
    ensures { (p : Program) (search : Search) (parts : List Part) →
        All (IsFound p) parts → AreHonest p search parts }
{}
