//! Where in its text the code of a program comes from.

ghost use Rattle.std.specs.Prelude.{◌≡◌, ◌<◌, [], ◌++◌, None, length, map, slice_index_or, IfOk, MatchResult, OnOk};
ghost use Rattle.guest_syntax.specs.{Place.start, Tree.{stmt_view, block_view, tree_view}};
ghost use Rattle.guest_code.specs.{Code.code, Fault.{fault, Refuses}};
ghost use Rattle.guest_code.specs.SourceMap.{stmt_places, block_places, copies, source_map, source_map_view, places_of, locals_of, IsMapOf};

use crate::check::check;
use crate::error::CheckError;
use crate::lengths::size_of_block;
use guest_syntax::place::Pos;
use guest_syntax::tree::{Placed, Statement, Tree};
use std::alloc::{AllocError, Global};
use std::marker::Model;

/// For each instruction of a program the place of the statement that it was made of, and the names
/// of its threads' locals. A map is apart from its program: two texts that differ in their layout
/// alone have one program.
#[derive(Drop)]
pub struct SourceMap {
    places: Vec<Vec<Pos>>,
    locals: Vec<Vec<Vec<u8>>>,
}

impl Model for SourceMap {
    ghost use Rattle.guest_code.specs.SourceMap as model;
    ghost use Rattle.guest_code.specs.SourceMap.{source_map_view};

    ghost Value = { model.SourceMap };

    ghost view = { λ m. source_map_view m.places m.locals };
}

// Adds for each instruction of a statement the place of the statement that it is made of. An `if`
// has one for its test and, where it has an `else`, one for the skip after its first block.
#[cycle(places)]
fn push_statement_places(places: &mut Vec<Pos>, placed: &Placed) -> Result<(), AllocError>
    ensures { OnOk result (places.new.items
        ≡ places.old.items ++ stmt_places placed.now.at (stmt_view placed.now.statement)) }
{
    match &placed.statement {
        Statement::If {
            then,
            otherwise,
            ..
        } => {
            places.push(placed.at)?;
            push_block_places(places, then)?;
            if let Some(other) = otherwise {
                places.push(placed.at)?;
                push_block_places(places, other)?;
            }
            Ok(())
        }
        Statement::Repeat { times, body } => push_repeat_places(places, body, *times),
        _ => Ok(places.push(placed.at)?),
    }
}

// Adds the places of `times` copies of a block's instructions. Returns at once if it has none:
// blocks without code, nested in `repeat`s, would else take too long.
#[cycle(places)]
fn push_repeat_places(places: &mut Vec<Pos>, body: &[Placed], times: u8) -> Result<(), AllocError>
    ensures { OnOk result (places.new.items
        ≡ places.old.items ++ copies (block_places (block_view body.now)) times) }
{
    if size_of_block(body) == 0 {
        return Ok(());
    }
    let mut left = times;
    while left > 0 {
        left -= 1;
        push_block_places(places, body)?;
    }
    Ok(())
}

// Adds for each instruction of a block the place of the statement that it is made of.
#[cycle(places)]
fn push_block_places(places: &mut Vec<Pos>, block: &[Placed]) -> Result<(), AllocError>
    ensures { OnOk result (places.new.items
        ≡ places.old.items ++ block_places (block_view block.now)) }
{
    for placed in block {
        push_statement_places(places, placed)?;
    }
    Ok(())
}

impl SourceMap {
    /// The source map of a tree that has no fault. Too long a code is refused before any copy of a
    /// `repeat` is written.
    ///
    /// # Errors
    ///
    /// Those of [`lower`](crate::lowering::lower): the tree's first fault, or `OutOfMemory`.
    pub fn new(alloc: Global, tree: &Tree) -> Result<SourceMap, CheckError>
        ensures map { MatchResult result
            (λ m. (fault (tree_view tree.now) ≡ None) × (m ≡ source_map (tree_view tree.now)))
            (λ e. Refuses e (fault (tree_view tree.now))) }
        ensures fits { IfOk result (λ m. IsMapOf m (code (tree_view tree.now))) }
    {
        let locals = check(alloc, tree)?;
        let mut places = Vec::new(alloc);
        for thread in tree.threads() {
            let mut of_thread = Vec::new(alloc);
            push_block_places(&mut of_thread, &thread.body)?;
            places.push(of_thread)?;
        }
        Ok(SourceMap { places, locals })
    }

    /// The place, in the text, of the statement that an instruction of a thread was made of.
    pub fn place(&self, thread: u8, instruction: usize) -> Pos
        requires { instruction < length (places_of self.now thread) }
        ensures { result ≡ slice_index_or (places_of self.now thread) instruction start }
    {
        self.places[thread as usize][instruction]
    }

    /// The name of the thread's local of this number, as the text spells it.
    pub fn local_name(&self, thread: u8, local: usize) -> &[u8]
        requires { local < length (locals_of self.now thread) }
        ensures { result.now ≡ slice_index_or (locals_of self.now thread) local [] }
    {
        self.locals[thread as usize][local].as_slice()
    }
}
