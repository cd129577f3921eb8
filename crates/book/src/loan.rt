//! What a book lends to a worker.

ghost use Rattle.std.specs.Prelude.{◌≡◌, [], OnOk};
ghost use Rattle.std.specs.Arc.{arc_value};
ghost use Rattle.walk_items.specs.Items.{AreOf};
ghost use Rattle.book.specs.{ItemLists.all_of, Lending.IsLoanOf};

use crate::item_list::ItemList;
use guest_code::program::Program;
use std::alloc::{AllocError, Global};
use std::marker::Model;
use std::sync::Arc;
use walk_items::item::Item;

/// Copies of the open items that a book has lent to a worker, which walks them as a round of its
/// own.
#[derive(Drop)]
pub struct Loan {
    pub(crate) list: ItemList,
}

impl Model for Loan {
    ghost use Rattle.book.specs.ItemLists.{ListView};

    ghost Value = { ListView };

    ghost view = { λ l. l.list };
}

impl Loan {
    /// An empty loan, which a book fills when it lends.
    pub fn new(alloc: Global) -> Loan
        ensures packed { result.packed ≡ [] }
        ensures unpacked { result.unpacked ≡ [] }
    {
        Loan {
            list: ItemList::new(alloc),
        }
    }

    /// Replaces `items`, which have to be of the same program, by copies of the loan's items, in
    /// the loan's order. The memory of `items` is used again. Fails where memory runs out; `items`
    /// has some items of the program then.
    pub fn clone_items_into(
        &self,
        alloc: Global,
        program: &Arc<Program>,
        items: &mut Vec<Item>,
    ) -> Result<(), AllocError>
        requires of { IsLoanOf (arc_value program.now) self.now }
        requires program { AreOf (arc_value program.now) items.old.items }
        ensures items { OnOk result (items.new.items ≡ all_of (arc_value program.now) self.now) }
        ensures program { AreOf (arc_value program.now) items.new.items }
    {
        let most = self.list.len();
        self.list.clone_last_into(alloc, program, most, items)
    }
}
