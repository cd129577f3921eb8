//! What is proved of the definitions alone. A law is what its function ensures; the functions do
//! nothing.

ghost use Rattle.std.specs.Prelude.{◌≡◌, ◌⊎◌, ◌<◌, ℕ, [], Bool, false, Option, length};
ghost use Rattle.guest_code.specs.Program.{Program};
ghost use Rattle.semantics_schedules.specs.Schedules.{schedules_within};
ghost use Rattle.walk_items.specs.declared.mode.Mode.TheVariants.{Bounded};
ghost use Rattle.walk_summary.specs.Summaries.{SummaryView};
ghost use Rattle.runner_report.specs.{Promises.{IsReport, IsWhole}, ReportText.report_text};
ghost use Rattle.runner_report.specs.Reports.{IsFollowed, IsCutShort};
ghost use Rattle.runner_report.specs.declared.{limits.TheConstants.QUOTA, options.Options.Options};
ghost use Rattle.runner_report.specs.declared.{options.Search.TheVariants.UpTo, report.Cause.Cause};
ghost use Rattle.runner_report.specs.declared.report.Report.{Report};
ghost use Rattle.runner.specs.Agreement.{SayTheSame};
ghost use Rattle.runner_workers.specs.declared.limits.TheConstants.{WORKERS};

use crate::limits::{QUOTA, WORKERS};

/// Two reports of one program and search have the same text, if neither is quick or was cut short,
/// and both or none try equal threads once. So the text doesn't depend on workers, gate and quota,
/// nor on a limit that was not reached.
pub fn reports_agree()
    ensures { (may other : Bool) (p : Program) (o q : Options) (r s : Report) →
        o.search ≡ q.search → o.symmetry ≡ q.symmetry → o.quick ≡ false → q.quick ≡ false →
        IsReport may p o r → IsReport other p q s →
        IsWhole r.verdict → IsWhole s.verdict → report_text r ≡ report_text s }
{}

/// Two reports of one program and search, of which neither is quick or was cut short, say the same
/// but for the counts, though one tries equal threads once and the other doesn't.
pub fn equal_threads_once_say_the_same()
    ensures { (may other : Bool) (p : Program) (o q : Options) (r s : Report) →
        o.search ≡ q.search → o.quick ≡ false → q.quick ≡ false →
        IsReport may p o r → IsReport other p q s →
        IsWhole r.verdict → IsWhole s.verdict → SayTheSame r s }
{}

/// A search up to a bound that is said to be cut short isn't finished: fewer schedules were tried
/// than there are within the bound that it came to, or another bound follows, since that one isn't
/// the last, no schedule within it is bad, and some exceed it.
pub fn unfinished_searches_go_on()
    ensures { (may : Bool) (p : Program) (last bound : ℕ) (limit : Option ℕ) (sum : SummaryView)
        (cause : Cause) → IsCutShort may p (UpTo last) (Bounded bound) limit sum cause →
        (sum.tried < length (schedules_within p [] bound))
        ⊎ IsFollowed p (UpTo last) (Bounded bound) }
{}

/// By default a walk tries at most 256 schedules. A search has at most 16 workers.
pub fn limits_are()
    ensures quota { QUOTA ≡ 256 }
    ensures workers { WORKERS ≡ 16 }
{}
