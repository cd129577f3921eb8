//! Items of a search: each stands for complete schedules that begin with its prefix.

ghost use Rattle.std.specs.Prelude.{◌≡◌, ◌++◌, ◌∷◌, [], ◌↔◌, IfOk, IfErr, OnOk, OnErr, IsTrue, MatchResult};
ghost use Rattle.std.specs.Arc.{arc_value};
ghost use Rattle.replay.specs.Run.{ReplayErrorMeans};
ghost use Rattle.walk_items.specs.Items.{IsItem, item_at, root_of};

use crate::limits::INLINE_STEPS;
use guest_code::program::Program;
use replay::{ReplayError, replay};
use semantics::mask::Mask;
use smallvec::SmallVec;
use std::alloc::{AllocError, Global};
use std::marker::Model;
use std::sync::Arc;

/// A program, a prefix that runs in it, and the threads that sleep after the prefix. It stands for
/// complete schedules that begin with the prefix.
#[derive(Drop)]
pub struct Item {
    program: Arc<Program>,
    prefix: SmallVec<u8, INLINE_STEPS>,
    mask: Mask,
}

impl Model for Item {
    ghost use Rattle.walk_items.specs.Items.{ItemView, IsItem, item_view};

    ghost Value = { ItemView };

    ghost view = { λ i. item_view i.program i.prefix.items i.mask };

    ghost invariant = { λ i. IsItem (item_view i.program i.prefix.items i.mask) };
}

impl Item {
    /// The item of all schedules of a program: that of the empty prefix.
    ///
    /// # Errors
    ///
    /// None so far, since it takes no memory.
    pub fn root(alloc: Global, program: Arc<Program>) -> Result<Item, AllocError>
        ensures { MatchResult result (λ i. i ≡ root_of (arc_value program)) (λ _. ⊥) }
    {
        Ok(Item {
            program,
            prefix: SmallVec::new(alloc),
            mask: Mask::empty(),
        })
    }

    /// The item of the schedules that begin with a prefix, which is replayed to see that it runs.
    /// No thread sleeps after it.
    ///
    /// # Errors
    ///
    /// `NoSuchThread` or `NotEnabled` with the first index in the prefix at which no step can be
    /// taken, `OutOfMemory` where memory runs out.
    pub fn at(alloc: Global, program: Arc<Program>, prefix: &[u8]) -> Result<Item, ReplayError>
        ensures item { IfOk result (λ i. i ≡ item_at (arc_value program) prefix.now) }
        ensures error { IfErr result (ReplayErrorMeans (arc_value program) prefix.now) }
        ensures runs { IfOk result IsItem }
    {
        replay(alloc, &program, prefix)?;
        let prefix = SmallVec::from_slice(alloc, prefix)?;
        Ok(Item {
            program,
            prefix,
            mask: Mask::empty(),
        })
    }

    /// The item of the schedules that begin with a prefix that is known to run, and isn't replayed.
    /// No thread sleeps after it. Fails where memory runs out.
    pub fn at_known(alloc: Global, program: Arc<Program>, prefix: &[u8]) -> Result<Item, AllocError>
        requires { IsItem (item_at (arc_value program) prefix.now) }
        ensures { IfOk result (λ i. i ≡ item_at (arc_value program) prefix.now) }
    {
        let prefix = SmallVec::from_slice(alloc, prefix)?;
        Ok(Item {
            program,
            prefix,
            mask: Mask::empty(),
        })
    }

    /// Whether two items are equal: of equal programs, with equal prefixes and masks of threads
    /// that sleep.
    pub fn equals(&self, other: &Item) -> bool
        ensures { IsTrue result ↔ (self.now ≡ other.now) }
    {
        self.prefix.as_slice() == other.prefix.as_slice()
            && same_masks(self.mask, other.mask)
            && self.program.is_same(&other.program)
    }

    /// An equal item, which shares the program. Fails where memory runs out.
    pub fn try_clone(&self, alloc: Global) -> Result<Item, AllocError>
        ensures same { IfOk result (λ i. i ≡ self.now) }
        ensures runs { IfOk result IsItem }
    {
        let program = Arc::try_clone(&self.program)?;
        let prefix = SmallVec::from_slice(alloc, self.prefix.as_slice())?;
        Ok(Item {
            program,
            prefix,
            mask: self.mask,
        })
    }

    /// Makes this the item of the schedules of the same program that begin with another prefix,
    /// which is known to run. No thread sleeps after it. It is written over the old prefix, once
    /// there is room for it. Fails where memory runs out; the item is then as before.
    pub fn set_prefix(&mut self, prefix: &[u8]) -> Result<(), AllocError>
        requires { IsItem (item_at self.old.program prefix.now) }
        ensures item { OnOk result (self.new ≡ item_at self.old.program prefix.now) }
        ensures same { OnErr result (self.new ≡ self.old) }
    {
        let more = prefix.len().saturating_sub(self.prefix.len());
        self.prefix.reserve(more)?;
        self.mask = Mask::empty();
        self.prefix.clear();
        let _ = self.prefix.extend_from_slice(prefix);
        Ok(())
    }

    /// An item of the same program: its prefix, which is known to run, is `steps` and then a step
    /// of `thread`, after which the threads of `mask` sleep. Fails where memory runs out.
    pub fn with_prefix(
        &self,
        alloc: Global,
        steps: &[u8],
        thread: u8,
        mask: Mask,
    ) -> Result<Item, AllocError>
        requires { IsItem (record {
          program = self.now.program;
          prefix = steps.now ++ thread ∷ [];
          mask = mask;
        }) }
        ensures { IfOk result (λ i. i ≡ record {
          program = self.now.program;
          prefix = steps.now ++ thread ∷ [];
          mask = mask;
        }) }
    {
        let program = Arc::try_clone(&self.program)?;
        let mut prefix = SmallVec::from_slice(alloc, steps)?;
        prefix.push(thread)?;
        Ok(Item {
            program,
            prefix,
            mask,
        })
    }

    /// The program that the item is of.
    pub fn program(&self) -> &Program
        ensures { result.now ≡ self.now.program }
    {
        &self.program
    }

    /// The program that the item is of, to be shared with other items.
    pub fn shared_program(&self) -> &Arc<Program>
        ensures { arc_value result.now ≡ self.now.program }
    {
        &self.program
    }

    /// The steps, as thread numbers, that each of the item's schedules begins with.
    pub fn prefix(&self) -> &[u8]
        ensures prefix { result.now ≡ self.now.prefix }
        ensures runs { IsItem self.now }
    {
        self.prefix.as_slice()
    }

    /// The threads that sleep after the prefix.
    pub fn mask(&self) -> Mask
        ensures { result ≡ self.now.mask }
    {
        self.mask
    }
}

/// Whether two masks have the same threads, as `==` has it; a function, so that callers' proofs
/// have its contract.
pub fn same_masks(first: Mask, second: Mask) -> bool
    ensures { IsTrue result ↔ (first ≡ second) }
{
    first == second
}
