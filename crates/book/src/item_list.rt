// The lists of items of a book, partly packed as prefixes.

ghost use Rattle.std.specs.Prelude.{◌≡◌, ℕ, ◌+◌, ◌-◌, ◌<◌, ◌≤◌, ◌↔◌, [], ◌∷◌, ◌++◌, false, not, length, take, drop, filter, count_by, is_ok, if◌then◌else◌, IfOk, OnOk, IfSome, IfNone, IsTrue, Some, slice_get, slice_index_or, All};
ghost use Rattle.std.specs.{Arc.arc_value, List.remove_range};
ghost use Rattle.guest_code.specs.Program.{Program};
ghost use Rattle.walk_items.specs.{Items.{ItemView, AreOf, IsItem}, Walks.items_at};
ghost use Rattle.walk_prefixes.specs.PrefixLists.{is_later};
ghost use Rattle.book.specs.Books.{remove_each, AreWithin, AreOpenAt, StandInOrder};
ghost use Rattle.book.specs.ItemLists.{all_of};

use crate::limits::ROUND;
use guest_code::program::Program;
use semantics::mask::Mask;
use std::alloc::{AllocError, Global};
use std::collections::VecDeque;
use std::marker::Model;
use std::mem;
use std::sync::Arc;
use walk_items::item::{Item, same_masks};
use walk_items::packed::{last_item, unpack_last_into};
use walk_prefixes::{Prefixes, is_later};

// A list of items of one program, which the caller knows. First come packed items: prefixes after
// which no thread sleeps, a few bytes each. Then, in a queue, come unpacked ones, which were
// appended later or unpacked to be walked. The items of a round leave the queue at its front.
#[derive(Drop)]
pub(crate) struct ItemList {
    packed: Prefixes,
    unpacked: VecDeque<Item>,
}

impl Model for ItemList {
    ghost use Rattle.book.specs.ItemLists.{ListView, list_view};

    ghost Value = { ListView };

    ghost view = { λ l. list_view l.packed l.unpacked };
}

impl ItemList {
    // A list of one item, unpacked.
    pub(crate) fn of_item(alloc: Global, item: Item) -> Result<ItemList, AllocError>
        ensures packed { IfOk result (λ l. l.packed ≡ []) }
        ensures unpacked { IfOk result (λ l. l.unpacked ≡ item ∷ []) }
    {
        let mut list = ItemList::new(alloc);
        list.unpacked.push_back(item)?;
        Ok(list)
    }

    // An empty list.
    pub(crate) fn new(alloc: Global) -> ItemList
        ensures packed { result.packed ≡ [] }
        ensures unpacked { result.unpacked ≡ [] }
    {
        ItemList {
            packed: Prefixes::new(alloc),
            unpacked: VecDeque::new(alloc),
        }
    }

    // How many items the list has.
    pub(crate) fn len(&self) -> usize
        ensures { (p : Program) → result ≡ length (all_of p self.now) }
    {
        self.packed.len() + self.unpacked.len()
    }

    // A copy of the item at a place of the list, counted from 0. To read a packed item, it cuts a
    // copy of the packed prefixes after that place, and unpacks the last one left.
    pub(crate) fn item(
        &self,
        alloc: Global,
        program: &Arc<Program>,
        place: usize,
    ) -> Result<Item, AllocError>
        requires place { place < length (all_of (arc_value program.now) self.now) }
        requires run { All IsItem (items_at (arc_value program.now) self.now.packed) }
        ensures { IfOk result (λ i.
            slice_get (all_of (arc_value program.now) self.now) place ≡ Some i) }
    {
        let packed = self.packed.len();
        if packed <= place {
            return self.unpacked[place - packed].try_clone(alloc);
        }
        let mut prefixes = self.packed.try_clone(alloc)?;
        prefixes.truncate(place + 1);
        last_item(alloc, program, &prefixes)
    }

    // Replaces `items`, which have to be of the same program, by copies of the list's last items,
    // at most `most`, in the list's order. The memory of `items` serves the copies of packed items.
    pub(crate) fn clone_last_into(
        &self,
        alloc: Global,
        program: &Arc<Program>,
        most: usize,
        items: &mut Vec<Item>,
    ) -> Result<(), AllocError>
        requires run { All IsItem (items_at (arc_value program.now) self.now.packed) }
        requires unpacked { AreOf (arc_value program.now) self.now.unpacked }
        requires program { AreOf (arc_value program.now) items.old.items }
        ensures items { OnOk result (items.new.items ≡
            drop (length (all_of (arc_value program.now) self.now) - most)
            (all_of (arc_value program.now) self.now)) }
        ensures program { AreOf (arc_value program.now) items.new.items }
    {
        let unpacked = self.unpacked.len();
        let count = most.saturating_sub(unpacked).min(self.packed.len());
        unpack_last_into(alloc, program, &self.packed, count, items)?;
        push_copies(alloc, items, &self.unpacked, unpacked.saturating_sub(most))
    }

    // The item at a place of the whole list, counted from 0, which has to be past the packed ones.
    pub(crate) fn unpacked_item(&self, place: usize) -> &Item
        requires unpacked { length self.now.packed ≤ place }
        requires place { place < length self.now.packed + length self.now.unpacked }
        ensures { (p : Program) → slice_get (all_of p self.now) place ≡ Some result.now }
    {
        &self.unpacked[place - self.packed.len()]
    }

    // The place in the list of an item of the list's program, counted from 0; `None` where the list
    // doesn't have it. Unpacked items are looked at before packed ones.
    pub(crate) fn position(&self, item: &Item) -> Option<usize>
        requires { AreOf item.now.program self.now.unpacked }
        ensures some { IfSome result (λ k.
            (k < length (all_of item.now.program self.now)) ×
            (slice_get (all_of item.now.program self.now) k ≡ Some item.now)) }
        ensures none { IfNone result
            (All (λ i. i ≡ item.now → ⊥) (all_of item.now.program self.now)) }
    {
        match position_from(&self.unpacked, 0, item) {
            Some(place) => Some(self.packed.len() + place),
            None => self.packed_position(item),
        }
    }

    // The place of an item of the list's program among the packed items; `None` where it isn't
    // there. No item is packed in which a thread sleeps.
    fn packed_position(&self, item: &Item) -> Option<usize>
        ensures some { IfSome result (λ k. (k < length self.now.packed) ×
            (slice_get (items_at item.now.program self.now.packed) k ≡ Some item.now)) }
        ensures none { IfNone result
            (All (λ i. i ≡ item.now → ⊥) (items_at item.now.program self.now.packed)) }
    {
        if !same_masks(item.mask(), Mask::empty()) {
            return None;
        }
        self.packed.position(item.prefix())
    }

    // Unpacks the packed items from a place on, if any. Where memory runs out, some of them may be
    // unpacked.
    pub(crate) fn unpack_from(
        &mut self,
        alloc: Global,
        program: &Arc<Program>,
        place: usize,
    ) -> Result<(), AllocError>
        requires { All IsItem (items_at (arc_value program.now) self.old.packed) }
        ensures same { all_of (arc_value program.now) self.new ≡
            all_of (arc_value program.now) self.old }
        ensures run { All IsItem (items_at (arc_value program.now) self.new.packed) }
        ensures unpacked { OnOk result (length self.new.packed ≤ place) }
    {
        while place < self.packed.len() {
            self.unpack_last(alloc, program)?;
        }
        Ok(())
    }

    // Unpacks the last packed item. It is the first unpacked one then. Where memory runs out, the
    // list is as before.
    fn unpack_last(&mut self, alloc: Global, program: &Arc<Program>) -> Result<(), AllocError>
        requires some { 0 < length self.old.packed }
        requires run { All IsItem (items_at (arc_value program.now) self.old.packed) }
        ensures same { all_of (arc_value program.now) self.new ≡
            all_of (arc_value program.now) self.old }
        ensures packed { self.new.packed ≡ (if is_ok result
            then take (length self.old.packed - 1) self.old.packed else self.old.packed) }
    {
        let item = last_item(alloc, program, &self.packed)?;
        self.unpacked.push_front(item)?;
        self.packed.pop();
        Ok(())
    }

    // How many items are packed.
    pub(crate) fn packed_len(&self) -> usize
        ensures { result ≡ length self.now.packed }
    {
        self.packed.len()
    }

    // Finds in the list, in this order, the items `items[k]` of a round, for each k of `places`.
    // Answers the place of each as it is once those found before it are removed; `None` where the
    // list doesn't have them in this order. Looks among the unpacked items with the last `ROUND`
    // items of the list unpacked; where they aren't there in this order, again with all unpacked.
    pub(crate) fn unpack_and_find(
        &mut self,
        alloc: Global,
        program: &Arc<Program>,
        items: &[Item],
        places: &[usize],
    ) -> Result<Option<Vec<usize>>, AllocError>
        requires run { All IsItem (items_at (arc_value program.now) self.old.packed) }
        requires places { All (λ k. k < length items.now) places.now }
        requires unpacked { AreOf (arc_value program.now) self.old.unpacked }
        requires program { AreOf (arc_value program.now) items.now }
        ensures same { all_of (arc_value program.now) self.new ≡
            all_of (arc_value program.now) self.old }
        ensures there { IfOk result (λ o. IfSome o (λ v.
            AreOpenAt (all_of (arc_value program.now) self.old) items.now places.now v.items)) }
        ensures none { IfOk result (λ o. IfNone o
            (StandInOrder (all_of (arc_value program.now) self.old) items.now places.now → ⊥)) }
        ensures unpacked { IfOk result (λ o. IfSome o (λ v.
            All (λ k. length self.new.packed ≤ k) v.items)) }
    {
        let first = self.len().saturating_sub(ROUND);
        self.unpack_from(alloc, program, first)?;
        if let Some(found) = self.find_in_order(alloc, items, places)? {
            return Ok(Some(found));
        }
        self.unpack_from(alloc, program, 0)?;
        self.find_in_order(alloc, items, places)
    }

    // Finds as `unpack_and_find` does, but among the items that are unpacked alone.
    fn find_in_order(
        &self,
        alloc: Global,
        items: &[Item],
        places: &[usize],
    ) -> Result<Option<Vec<usize>>, AllocError>
        requires places { All (λ k. k < length items.now) places.now }
        requires program { (p : Program) × AreOf p self.now.unpacked × AreOf p items.now }
        ensures there { (p : Program) → IfOk result (λ o. IfSome o (λ v.
            AreOpenAt (all_of p self.now) items.now places.now v.items)) }
        ensures none { IfOk result (λ o. IfNone o
            (StandInOrder self.now.unpacked items.now places.now → ⊥)) }
        ensures unpacked { IfOk result (λ o. IfSome o (λ v.
            All (λ k. length self.now.packed ≤ k) v.items)) }
    {
        let packed = self.packed.len();
        let mut found = Vec::with_capacity(alloc, places.len())?;
        let mut start = 0;
        for k in 0..places.len() {
            let Some(place) = position_from(&self.unpacked, start, &items[places[k]]) else {
                return Ok(None);
            };
            found.push(packed + place - k)?;
            start = place + 1;
        }
        Ok(Some(found))
    }

    // Removes a range of unpacked items: those from place `first` of the list up to, but not
    // including, place `end`. Neither place may be that of a packed item.
    fn remove_range(&mut self, first: usize, end: usize)
        requires unpacked { length self.old.packed ≤ first }
        requires range { first ≤ end }
        requires end { end ≤ length self.old.packed + length self.old.unpacked }
        ensures items { (p : Program) →
            all_of p self.new ≡ remove_range (all_of p self.old) first end }
        ensures packed { self.new.packed ≡ self.old.packed }
    {
        let packed = self.packed.len();
        self.unpacked.drain(first - packed..end - packed);
    }

    // Removes the items at `places`, which have to be unpacked, one after another. Each place is
    // counted after the removals before it; so items in a row all have the same place, and are
    // removed at once.
    pub(crate) fn remove_each(&mut self, places: &[usize])
        requires unpacked { All (λ k. length self.old.packed ≤ k) places.now }
        requires within { (p : Program) × AreWithin (all_of p self.old) places.now }
        ensures items { (p : Program) →
            all_of p self.new ≡ remove_each (all_of p self.old) places.now }
        ensures packed { self.new.packed ≡ self.old.packed }
    {
        if let Some(first) = only_place(places) {
            // For the proof: the list's length is a usize, so the end of the range is one, too.
            let _length = self.len();
            return self.remove_range(first, first + places.len());
        }
        let packed = self.packed.len();
        for k in 0..places.len() {
            let _item = self.unpacked.remove(places[k] - packed);
        }
    }

    // Gets memory for `more` further unpacked items. Where memory runs out, the list has the same
    // items as before.
    pub(crate) fn reserve(&mut self, more: usize) -> Result<(), AllocError>
        ensures packed { self.new.packed ≡ self.old.packed }
        ensures unpacked { self.new.unpacked ≡ self.old.unpacked }
        ensures room { OnOk result (length self.new.unpacked + more ≤ self.new.room) }
    {
        self.unpacked.reserve(more)
    }

    // Moves `items` to the end of the list, unpacked. Memory for them has to be reserved before, so
    // this can't fail. Often there are none.
    pub(crate) fn append(&mut self, alloc: Global, items: &mut Vec<Item>)
        requires { length self.old.unpacked + length items.old.items ≤ self.old.room }
        ensures packed { self.new.packed ≡ self.old.packed }
        ensures unpacked { self.new.unpacked ≡ self.old.unpacked ++ items.old.items }
    {
        if items.is_empty() {
            return;
        }
        let taken = mem::replace(items, Vec::new(alloc));
        let _ = self.unpacked.append(&mut VecDeque::from_vec(taken));
    }

    // Appends the items of prefixes after which no thread sleeps. They are packed if the list has no
    // unpacked item, since packed items come first; else they are unpacked. Where memory runs out,
    // the list has the same items as before.
    pub(crate) fn append_prefixes(
        &mut self,
        alloc: Global,
        program: &Arc<Program>,
        prefixes: &Prefixes,
    ) -> Result<(), AllocError>
        requires { All IsItem (items_at (arc_value program.now) prefixes.now) }
        ensures all { all_of (arc_value program.now) self.new ≡ (if is_ok result
            then all_of (arc_value program.now) self.old
            ++ items_at (arc_value program.now) prefixes.now
            else all_of (arc_value program.now) self.old) }
    {
        if self.unpacked.is_empty() {
            return self.packed.append(alloc, prefixes);
        }
        let mut items = Vec::new(alloc);
        unpack_last_into(alloc, program, prefixes, prefixes.len(), &mut items)?;
        self.reserve(items.len())?;
        self.append(alloc, &mut items);
        Ok(())
    }

    // Moves all items of another list, unpacked, to the end of this one; the other list is empty
    // then. Where memory runs out, none is moved: each list has the same items as before, but some
    // of the other list's may be unpacked.
    pub(crate) fn append_list(
        &mut self,
        alloc: Global,
        program: &Arc<Program>,
        other: &mut ItemList,
    ) -> Result<(), AllocError>
        requires { All IsItem (items_at (arc_value program.now) other.old.packed) }
        ensures all { OnOk result (all_of (arc_value program.now) self.new ≡
            all_of (arc_value program.now) self.old ++ all_of (arc_value program.now) other.old) }
        ensures packed { self.new.packed ≡ self.old.packed }
    {
        other.unpack_from(alloc, program, 0)?;
        self.reserve(other.unpacked.len())?;
        let _ = self.unpacked.append(&mut other.unpacked);
        Ok(())
    }

    // Moves this list's last items, at most `most`, into another list, in place of those it has.
    // Packed ones stay packed. Where memory runs out, none is moved, and the other list is empty.
    pub(crate) fn move_last_into(
        &mut self,
        most: usize,
        other: &mut ItemList,
    ) -> Result<(), AllocError>
        ensures kept { (p : Program) → all_of p self.new ≡ (if is_ok result
            then take (length (all_of p self.old) - most) (all_of p self.old)
            else all_of p self.old) }
        ensures moved { (p : Program) → all_of p other.new ≡ (if is_ok result
            then drop (length (all_of p self.old) - most) (all_of p self.old) else []) }
    {
        other.clear();
        let unpacked = self.unpacked.len();
        if most <= unpacked {
            other.unpacked = self.unpacked.split_off(unpacked - most)?;
            return Ok(());
        }
        self.packed.split_last(most - unpacked, &mut other.packed)?;
        mem::swap(&mut self.unpacked, &mut other.unpacked);
        Ok(())
    }

    // Makes this list equal to another one, with the same items packed, in the memory that this one
    // has. Where memory runs out, this list has the first items of the other one, or none.
    pub(crate) fn clone_from(&mut self, alloc: Global, other: &ItemList) -> Result<(), AllocError>
        ensures packed { OnOk result (self.new.packed ≡ other.now.packed) }
        ensures unpacked { OnOk result (self.new.unpacked ≡ other.now.unpacked) }
    {
        self.clear();
        self.packed.copy_from(&other.packed)?;
        for place in 0..other.unpacked.len() {
            self.unpacked
                .push_back(other.unpacked[place].try_clone(alloc)?)?;
        }
        Ok(())
    }

    // Whether another list of this program has the same items in the same order. The same items may
    // be packed in different bytes, or be unpacked in one list alone. So, where bytes or unpacked
    // items differ, it compares unpacked copies of all items.
    pub(crate) fn has_same_items(
        &self,
        alloc: Global,
        program: &Arc<Program>,
        other: &ItemList,
    ) -> Result<bool, AllocError>
        requires run { All IsItem (items_at (arc_value program.now) self.now.packed) }
        requires unpacked { AreOf (arc_value program.now) self.now.unpacked }
        requires other_runs { All IsItem (items_at (arc_value program.now) other.now.packed) }
        requires other_unpacked { AreOf (arc_value program.now) other.now.unpacked }
        ensures { IfOk result (λ same. IsTrue same ↔
            (all_of (arc_value program.now) self.now ≡ all_of (arc_value program.now) other.now)) }
    {
        if self.packed.has_same_bytes(&other.packed)
            && same_items(&self.unpacked, &other.unpacked)
        {
            return Ok(true);
        }
        let mut items = Vec::new(alloc);
        self.clone_last_into(alloc, program, self.len(), &mut items)?;
        let mut others = Vec::new(alloc);
        other.clone_last_into(alloc, program, other.len(), &mut others)?;
        Ok(same_items(&VecDeque::from_vec(items), &VecDeque::from_vec(others)))
    }

    // Removes all items. The list keeps its memory.
    pub(crate) fn clear(&mut self)
        ensures packed { self.new.packed ≡ [] }
        ensures unpacked { self.new.unpacked ≡ [] }
    {
        self.packed.clear();
        self.unpacked.clear();
    }

    // Keeps the list's first items, at most `length`, and drops the others. Takes no memory.
    pub(crate) fn truncate(&mut self, length: usize)
        ensures items { (p : Program) → all_of p self.new ≡ take length (all_of p self.old) }
    {
        let packed = self.packed.len();
        self.packed.truncate(length);
        self.unpacked.truncate(length.saturating_sub(packed));
    }

    // Drops the items whose schedules all come after this schedule, and answers how many. Takes no
    // memory.
    pub(crate) fn drop_later(&mut self, schedule: &[u8]) -> u64
        ensures items { (p : Program) → all_of p self.new ≡
            filter (λ i. not (is_later schedule.now i.prefix)) (all_of p self.old) }
        ensures number { (p : Program) → result ≡
            count_by (λ i. is_later schedule.now i.prefix) (all_of p self.old) }
    {
        let before = self.packed.len() + self.unpacked.len();
        let _packed = self.packed.remove_later(schedule);
        remove_later(&mut self.unpacked, schedule);
        (before - (self.packed.len() + self.unpacked.len())) as u64
    }
}

// The place that all of `places` are. `None` where two of them differ, or `places` is empty.
fn only_place(places: &[usize]) -> Option<usize>
    ensures { IfSome result (λ q. (0 < length places.now) × All (λ k. k ≡ q) places.now) }
{
    let first = *places.first()?;
    if places.iter().all(|place| *place == first) {
        Some(first)
    } else {
        None
    }
}

// Appends copies of the items of `more`, from the index `first` on, to `items`. Where memory runs
// out, some of them may be appended.
fn push_copies(
    alloc: Global,
    items: &mut Vec<Item>,
    more: &VecDeque<Item>,
    first: usize,
) -> Result<(), AllocError>
    requires first { first ≤ length more.now.items }
    ensures items { OnOk result (items.new.items ≡ items.old.items ++ drop first more.now.items) }
    ensures program { (p : Program) → AreOf p more.now.items → AreOf p items.old.items →
        AreOf p items.new.items }
{
    items.reserve(more.len() - first)?;
    for place in first..more.len() {
        items.push(more[place].try_clone(alloc)?)?;
    }
    Ok(())
}

// The first place, from `start` on, of an item in a queue of items of its program; `None` where the
// queue doesn't have it there.
fn position_from(items: &VecDeque<Item>, start: usize, item: &Item) -> Option<usize>
    requires { AreOf item.now.program items.now.items }
    ensures some { IfSome result (λ k. (start ≤ k) ×
        (k < length items.now.items) × (slice_get items.now.items k ≡ Some item.now)) }
    ensures first { IfSome result (λ k. (j : ℕ) (d : ItemView) → start ≤ j → j < k →
        slice_index_or items.now.items j d ≡ item.now → ⊥) }
    ensures none { IfNone result ((j : ℕ) (d : ItemView) → start ≤ j → j < length items.now.items →
        slice_index_or items.now.items j d ≡ item.now → ⊥) }
{
    for place in start..items.len() {
        if has_item_at(items, place, item) {
            return Some(place);
        }
    }
    None
}

// Whether an item is the one at a place of a queue of items of its program. As the programs are
// equal, only prefixes and sleeping threads are compared.
fn has_item_at(items: &VecDeque<Item>, place: usize, item: &Item) -> bool
    requires program { AreOf item.now.program items.now.items }
    requires place { place < length items.now.items }
    ensures { IsTrue result ↔ (slice_get items.now.items place ≡ Some item.now) }
{
    let other = &items[place];
    same_steps(other.prefix(), item.prefix()) && same_masks(other.mask(), item.mask())
}

// Whether two queues of items of one program have equal items at all places.
fn same_items(first: &VecDeque<Item>, second: &VecDeque<Item>) -> bool
    requires { (p : Program) × AreOf p first.now.items × AreOf p second.now.items }
    ensures { IsTrue result ↔ (first.now.items ≡ second.now.items) }
{
    if first.len() != second.len() {
        return false;
    }
    for place in 0..first.len() {
        if !has_item_at(first, place, &second[place]) {
            return false;
        }
    }
    true
}

// Whether two prefixes have the same steps.
fn same_steps(first: &[u8], second: &[u8]) -> bool
    ensures { IsTrue result ↔ (first.now ≡ second.now) }
{
    first == second
}

// Removes the items of a queue whose schedules all come after this schedule, by `is_later`.
fn remove_later(items: &mut VecDeque<Item>, schedule: &[u8])
    ensures { items.new.items ≡
        filter (λ i. not (is_later schedule.now i.prefix)) items.old.items }
{
    items.retain(|item| !is_later(schedule, item.prefix()));
}
