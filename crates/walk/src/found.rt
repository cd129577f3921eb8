//! What a walk finds.

ghost use Rattle.std.specs.Prelude.{◌≡◌, [], true};
ghost use Rattle.walk_summary.specs.Summaries.{nothing};
ghost use Rattle.walk.specs.inner.WalkerInvariant.{IsShared};

use std::alloc::Global;
use walk_items::item::Item;
use walk_prefixes::{Prefixes, shared_len};
use walk_summary::{EndMemory, Summary};

/// What one or more walks of items found together. Its memory serves later walks.
#[derive(Drop)]
pub struct Found {
    /// The summary of the schedules that were tried.
    pub part: Summary,
    /// The items that the walks left open, in the order of their schedules.
    pub rest: Vec<Item>,
    /// The prefixes whose last step would be one preemption too many, where they are listed.
    pub deferred: Prefixes,
    /// Whether deferred prefixes are listed; needless at a search's last bound.
    pub lists: bool,
    // While a walk goes on: how many first steps it has in common with the prefix that was
    // deferred last. The list of prefixes writes only what comes after them.
    pub(crate) shared: usize,
}

impl Found {
    /// An empty `Found`, to which no walk has added. Prefixes that walks defer are to be listed.
    pub fn new(alloc: Global) -> Found
        ensures part { result.part ≡ nothing }
        ensures rest { result.rest.items ≡ [] }
        ensures deferred { result.deferred ≡ [] }
        ensures lists { result.lists ≡ true }
        ensures shared { result.shared ≡ 0 }
    {
        Found {
            part: Summary::empty(alloc),
            rest: Vec::new(alloc),
            deferred: Prefixes::new(alloc),
            lists: true,
            shared: 0,
        }
    }

    // Sets `shared` for a walk that begins after `steps`: to the length of the longest common
    // prefix of `steps` and the prefix that was deferred last, or to 0 where none is listed.
    pub(crate) fn set_shared(&mut self, steps: &Vec<u8>)
        ensures same { self.new ≡ record self.old { shared = self.new.shared } }
        ensures shared { IsShared steps.now.items self.new }
    {
        self.shared = match self.deferred.last() {
            Some(last) => shared_len(last, steps.as_slice()),
            None => 0,
        };
    }

    // Forgets what was found, and keeps the memory for later walks; that of the end views goes to
    // `ends`. `lists` says whether prefixes that later walks defer are to be listed.
    pub(crate) fn clear(&mut self, ends: &mut EndMemory, lists: bool)
        ensures part { self.new.part ≡ nothing }
        ensures rest { self.new.rest.items ≡ [] }
        ensures deferred { self.new.deferred ≡ [] }
        ensures lists { self.new.lists ≡ lists }
        ensures shared { self.new.shared ≡ 0 }
    {
        self.part.clear(ends);
        self.rest.clear();
        self.deferred.clear();
        self.lists = lists;
        self.shared = 0;
    }
}
