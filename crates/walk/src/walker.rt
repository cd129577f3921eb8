//! The walk of an item's schedules.

ghost use Rattle.std.specs.Prelude.{◌≡◌, ◌+◌, ◌<◌, ◌≤◌, [], IfOk, OnOk};
ghost use Rattle.std.specs.Arc.{arc_value};
ghost use Rattle.walk_summary.specs.Summaries.{nothing, greatest_count};
ghost use Rattle.walk_items.specs.Walks.{IsWalked, IsPastBound, walk_past_bound};
ghost use Rattle.walk.specs.Founds.{HasAdded};

use crate::found::Found;
use crate::path::Path;
use crate::walked::Walked;
use guest_code::program::Program;
use std::alloc::{AllocError, Global};
use std::marker::Model;
use std::sync::Arc;
use walk_items::item::Item;
use walk_items::mode::Mode;

/// Walks items of one program, and is kept from one item to the next: each walk begins where the
/// one before ended, and goes back only to steps that the two prefixes have in common.
#[derive(Drop)]
pub struct Walker {
    program: Arc<Program>,
    path: Path,
}

impl Model for Walker {
    ghost use Rattle.guest_code.specs.Program.{Program};
    ghost use Rattle.std.specs.Arc.{arc_value};
    ghost use Rattle.walk.specs.inner.Paths.{IsPath};

    ghost Value = { Program };

    ghost view = { λ w. arc_value w.program };

    ghost invariant = { λ w. IsPath (arc_value w.program) w.path };
}

impl Walker {
    /// A walker of items of a program, at its initial state. Fails where memory runs out.
    pub fn new(alloc: Global, program: Arc<Program>) -> Result<Walker, AllocError>
        ensures { IfOk result (λ w. w ≡ arc_value program) }
    {
        let path = Path::start(alloc, &program)?;
        Ok(Walker { program, path })
    }

    /// Forgets what walks found, and keeps the memory for later walks. `lists` says whether
    /// prefixes that later walks defer are to be listed.
    pub fn clear(&mut self, found: &mut Found, lists: bool)
        ensures program { self.new ≡ self.old }
        ensures part { found.new.part ≡ nothing }
        ensures rest { found.new.rest.items ≡ [] }
        ensures deferred { found.new.deferred ≡ [] }
        ensures lists { found.new.lists ≡ lists }
    {
        found.clear(&mut self.path.ends, lists);
    }

    /// Tries the first `quota` schedules of an item of the walker's program in a mode, or all where
    /// there are fewer, as [`walk`] does. Adds what it tried, left and deferred to `found`, which
    /// may have what other walks found. The number of schedules that `found` counts and `quota`
    /// have to add up to less than 2^64 - 1. Fails where memory runs out. The walker can be used
    /// again then; of what was found some may be lost.
    pub fn walk_into(
        &mut self,
        alloc: Global,
        found: &mut Found,
        item: &Item,
        mode: Mode,
        quota: u32,
    ) -> Result<(), AllocError>
        requires program { item.now.program ≡ self.old }
        requires quota { 1 ≤ quota }
        requires room { found.old.part.tried + quota < greatest_count }
        ensures program { self.new ≡ self.old }
        ensures added { OnOk result (HasAdded mode item.now quota found.old found.new) }
    {
        self.path.walk(alloc, found, item, mode, quota)
    }
}

/// Tries the first `quota` schedules of an item in a mode, or all where there are fewer: then no
/// item is left. Where the item's own prefix has more preemptions than the bound, nothing is tried,
/// and nothing is left.
///
/// Trying the schedules within a bound of preemptions, and raising the bound, is the idea of
/// Musuvathi and Qadeer, "Iterative Context Bounding for Systematic Testing of Multithreaded
/// Programs" (PLDI 2007). Fails where memory runs out.
pub fn walk(alloc: Global, item: &Item, mode: Mode, quota: u32) -> Result<Walked, AllocError>
    requires { 1 ≤ quota }
    ensures item { IfOk result (λ w. w.item ≡ item.now) }
    ensures mode { IfOk result (λ w. w.mode ≡ mode) }
    ensures tried { IfOk result (λ w. w.part.tried ≤ quota) }
    ensures rest { IfOk result (λ w. w.part.tried < quota → w.rest ≡ []) }
    ensures past { IfOk result (λ w.
        IsPastBound mode item.now → w ≡ walk_past_bound mode item.now) }
    ensures walked { IfOk result IsWalked }
{
    let mut path = Path::start(alloc, item.program())?;
    let mut found = Found::new(alloc);
    path.walk(alloc, &mut found, item, mode, quota)?;
    Ok(Walked::new(mode, item.try_clone(alloc)?, found))
}
