//! Which instructions of a thread a test decides, and what it passes by.

ghost use Rattle.std.specs.Prelude.{◌≡◌, ◌<◌, ◌^◌, length};
ghost use Rattle.guest_code.specs.Program.{JumpsWithin};
ghost use Rattle.explain_cause.specs.Tests.{is_decided, merge_point, passes_write};
ghost use Rattle.explain_cause.specs.inner.Wanting.{IsValidEvent};

use crate::event::Event;
use check_lint::paths::{is_test, skip_of};
use check_lint::uses::Use;
use guest_code::program::{Instruction, Program};

/// Whether a thread comes to an instruction, or not, by a jump of an earlier instruction, such as a
/// test: whether the instruction of number `at` comes before the one at which the branches of the
/// jump of number `jump` merge. False where the thread has no instruction `jump`.
pub fn is_decided(program: &Program, thread: u8, jump: usize, at: usize) -> bool
    ensures { result ≡ is_decided program.now thread jump at }
{
    program.keeps_limits();
    if thread >= program.threads() {
        return false;
    }
    let code = program.code(thread);
    jump < code.len() && at < merge_point(code, jump)
}

/// The number of the instruction at which the branches of the jump of number `instruction` merge:
/// the first after all instructions that this jump passes over, and that the jumps among those pass
/// over; the length of the code where they merge at its end. All jumps go forwards.
pub fn merge_point(code: &[Instruction], instruction: usize) -> usize
    requires short { length code.now < 2 ^ 32 }
    requires jumps { JumpsWithin code.now }
    requires inside { instruction < length code.now }
    ensures { result ≡ merge_point code.now instruction }
{
    let mut reach = instruction + 1;
    for at in instruction..code.len() {
        if at >= reach {
            return reach;
        }
        reach = reach.max(at + 1 + skip_of(&code[at]));
    }
    reach
}

/// Whether an event is a test by which its thread passed by a statement that writes a variable, or
/// may write it, as a `cas`.
pub fn passes_write(program: &Program, event: &Event, variable: usize) -> bool
    requires { IsValidEvent program.now event.now }
    ensures { result ≡ passes_write program.now variable event.now }
{
    let rest = &program.code(event.thread)[event.instruction + 1..];
    let passed = &rest[..event.jump_length().min(rest.len())];
    let writes = Use::Stores.is_made_in(variable, passed);
    is_test(&event.statement) && writes
}
