//! Items that are stored packed: a list of prefixes, after which no thread sleeps, has an item of a
//! program for each, which is made as it is asked for.

ghost use Rattle.std.specs.Prelude.{◌≡◌, ◌+◌, ◌-◌, ◌<◌, ◌≤◌, [], ◌++◌, ◌∷◌, length, max, vec_len, take, drop, IfOk, OnOk, All};
ghost use Rattle.std.specs.Arc.{arc_value};
ghost use Rattle.walk_items.specs.{Items.{AreOf, IsItem, item_at}, Walks.items_at};
ghost use Rattle.walk_prefixes.specs.PrefixLists.{last_of};

use crate::item::Item;
use guest_code::program::Program;
use std::alloc::{AllocError, Global};
use std::sync::Arc;
use walk_prefixes::{Prefixes, Rev};

/// Replaces `items`, which have to be of `program`, by those of a list's last `count` prefixes, in
/// the list's order. All prefixes of the list have to run. The memory of `items` is used again.
/// Fails where memory runs out.
pub fn unpack_last_into(
    alloc: Global,
    program: &Arc<Program>,
    prefixes: &Prefixes,
    count: usize,
    items: &mut Vec<Item>,
) -> Result<(), AllocError>
    requires count { count ≤ length prefixes.now }
    requires run { All IsItem (items_at (arc_value program.now) prefixes.now) }
    requires program { AreOf (arc_value program.now) items.old.items }
    ensures items { OnOk result (items.new.items ≡
        drop (length prefixes.now - count) (items_at (arc_value program.now) prefixes.now)) }
    ensures program { AreOf (arc_value program.now) items.new.items }
{
    items.truncate(count);
    if count == 0 {
        return Ok(());
    }
    let mut reading = prefixes.rev(alloc)?;
    for place in 0..count {
        set_or_push_item(alloc, program, &reading, items, place)?;
        reading.advance();
    }
    items.reverse();
    Ok(())
}

// Sets `items[place]` to the item of the reader's current prefix, in the memory that it has, or
// appends that item where `place` is the length of `items`. All items have to be of `program`.
fn set_or_push_item(
    alloc: Global,
    program: &Arc<Program>,
    reading: &Rev<'_>,
    items: &mut Vec<Item>,
    place: usize,
) -> Result<(), AllocError>
    requires some { 0 < length reading.now }
    requires run { All IsItem (items_at (arc_value program.now) reading.now) }
    requires place { place ≤ vec_len items.old }
    requires program { AreOf (arc_value program.now) items.old.items }
    ensures items { OnOk result (take (place + 1) items.new.items ≡ take place items.old.items
        ++ item_at (arc_value program.now) (last_of reading.now) ∷ []) }
    ensures program { AreOf (arc_value program.now) items.new.items }
    ensures length { OnOk result (length items.new.items
        ≡ max (length items.old.items) (place + 1)) }
{
    let Some(prefix) = reading.prefix() else {
        unreachable!()
    };
    if place < items.len() {
        items[place].set_prefix(prefix)
    } else {
        let item = Item::at_known(alloc, Arc::try_clone(program)?, prefix)?;
        Ok(items.push(item)?)
    }
}

/// The item of the last of a list's prefixes. The list must have one, and its prefixes have to run.
/// Fails where memory runs out.
pub fn last_item(
    alloc: Global,
    program: &Arc<Program>,
    prefixes: &Prefixes,
) -> Result<Item, AllocError>
    requires some { 0 < length prefixes.now }
    requires run { All IsItem (items_at (arc_value program.now) prefixes.now) }
    ensures { IfOk result (λ i. i ≡ item_at (arc_value program.now) (last_of prefixes.now)) }
{
    let Some(prefix) = prefixes.last() else {
        unreachable!()
    };
    Item::at_known(alloc, Arc::try_clone(program)?, prefix)
}
