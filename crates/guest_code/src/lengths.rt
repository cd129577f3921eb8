//! How many instructions code comes to, found before any is written.

ghost use Rattle.std.specs.Prelude.{◌≡◌, ◌+◌, ◌≤◌, length, map, min};
ghost use Rattle.guest_syntax.specs.Tree.{stmt_view, block_view, thread_view};
ghost use Rattle.guest_code.specs.{Fault.too_long, Sizes.{size, block_size}, inner.Walk.passed};

use crate::error::CheckError;
use crate::limits::{INSTRUCTIONS, THREADS};
use guest_syntax::tree::{Placed, Statement, Thread};

/// How many instructions a statement has; `INSTRUCTIONS + 1` where it has more than `INSTRUCTIONS`.
#[cycle(sizes)]
pub fn size_of_statement(statement: &Statement) -> usize
    ensures { result ≡ min (size (stmt_view statement.now)) (INSTRUCTIONS + 1) }
{
    match statement {
        Statement::If {
            then,
            otherwise,
            ..
        } => match otherwise {
            None => (1 + size_of_block(then)).min(INSTRUCTIONS + 1),
            Some(other) => (2 + size_of_block(then) + size_of_block(other)).min(INSTRUCTIONS + 1),
        },
        Statement::Repeat { times, body } => (*times as usize * size_of_block(body)).min(
            INSTRUCTIONS + 1,
        ),
        _ => 1,
    }
}

/// How many instructions a block has; `INSTRUCTIONS + 1` where it has more than `INSTRUCTIONS`.
#[cycle(sizes)]
pub fn size_of_block(block: &[Placed]) -> usize
    ensures { result ≡ min (block_size (block_view block.now)) (INSTRUCTIONS + 1) }
{
    let mut total = 0;
    for placed in block {
        total = (total + size_of_statement(&placed.statement)).min(INSTRUCTIONS + 1);
    }
    total
}

/// Refuses the first thread, if any, that has more than `INSTRUCTIONS` instructions.
pub fn check_lengths(threads: &[Thread]) -> Result<(), CheckError>
    requires { length threads.now ≤ THREADS }
    ensures { result ≡ passed (too_long 0 (map thread_view threads.now)) tt }
{
    for (i, thread) in threads.iter().enumerate() {
        if size_of_block(&thread.body) > INSTRUCTIONS {
            return Err(CheckError::CodeTooLong(i as u8));
        }
    }
    Ok(())
}
