//! The packed list, and a reader of it in reverse order.

ghost use Rattle.std.specs.Prelude.{◌≡◌, ℕ, ◌-◌, ◌^◌, ◌<◌, ◌≤◌, ◌==◌, ◌↔◌, List, [], ◌∷◌, ◌++◌, length, filter, count_by, not, take, drop, is_ok, IfOk, OnOk, IfSome, IfNone, IsTrue, All, Some, if◌then◌else◌, option_copied, slice_get, vec_capacity};
ghost use Rattle.walk_prefixes.specs.inner.Packed.{AreWaysOn, WentBack};
ghost use Rattle.walk_prefixes.specs.PrefixLists.{last_of, is_later};

use crate::bytes::{
    can_put_short_delta, is_later, last_delta, put_bytes, put_delta, put_reserved, put_short_delta,
    restore_previous, shared_len,
};
use crate::seeker::Seeker;
use std::alloc::{AllocError, Global};
use std::marker::Model;
use std::mem;

// How many steps more than those of its first prefix a list has room for in `last` at first.
const MORE_STEPS: usize = 32;

// How many bytes of deltas `bytes` has room for at first, so that those of a short list fit.
const MORE_BYTES: usize = 96;

/// A list of prefixes. Contracts see `List (List ℕ)`. `bytes` are the first prefix, which ends at
/// `front`, and the deltas of all but the last prefix. `last` is the last prefix, and has room for
/// each of the others. Of the `count` prefixes that can be made `removed` ones don't belong to the
/// list: the delta that makes one says so.
#[derive(Drop)]
pub struct Prefixes {
    count: usize,
    removed: usize,
    bytes: Vec<u8>,
    front: usize,
    last: Vec<u8>,
}

impl Model for Prefixes {
    ghost use Rattle.std.specs.Prelude.{List, ℕ, ◌≤◌, false, length, take, drop, vec_capacity};
    ghost use Rattle.walk_prefixes.specs.inner.Packed.{listed, IsPacked, IsCounted};

    ghost Value = { List (List ℕ) };

    ghost view = { λ p. listed p.count (drop p.front p.bytes.items) p.last.items false };

    ghost invariant = { λ p. (p.front ≤ length p.bytes.items)
        × IsPacked p.count (drop p.front p.bytes.items) p.last.items
        (take p.front p.bytes.items) (vec_capacity p.last)
        × IsCounted p.count p.removed (drop p.front p.bytes.items) p.last.items };
}

impl Prefixes {
    /// An empty list, which takes no memory.
    pub fn new(alloc: Global) -> Prefixes
        ensures { result ≡ [] }
    {
        Prefixes {
            count: 0,
            removed: 0,
            bytes: Vec::new(alloc),
            front: 0,
            last: Vec::new(alloc),
        }
    }

    /// How many prefixes there are.
    pub fn len(&self) -> usize
        ensures length { result ≡ length self.now }
        ensures few { result ≤ 2 ^ 63 }
    {
        self.count - self.removed
    }

    /// Whether there is no prefix.
    pub fn is_empty(&self) -> bool
        ensures { result ≡ (length self.now == 0) }
    {
        self.len() == 0
    }

    /// The last prefix; `None` where there is none.
    pub fn last(&self) -> Option<&[u8]>
        ensures { option_copied result ≡ slice_get self.now (length self.now - 1) }
    {
        if self.count == 0 {
            None
        } else {
            Some(self.last.as_slice())
        }
    }

    /// The place of a prefix in the list, counted from 0: the last one, where the list has it more
    /// than once; `None` where the list doesn't have it. It takes no memory.
    pub fn position(&self, prefix: &[u8]) -> Option<usize>
        ensures some { IfSome result (λ k.
            (k < length self.now) × (slice_get self.now k ≡ Some prefix.now)) }
        ensures none { IfNone result (All (λ p. p ≡ prefix.now → ⊥) self.now) }
    {
        let deltas = &self.bytes[self.front..];
        let mut seeker = Seeker::at_last(deltas.len(), self.last.as_slice(), prefix);
        let mut place = self.len();
        let mut left = self.count;
        while 0 < left {
            if !seeker.removed {
                place -= 1;
                if seeker.has_found(prefix) {
                    return Some(place);
                }
            }
            left -= 1;
            seeker = seeker.at_previous(deltas, prefix);
        }
        None
    }

    /// Removes the last prefix of a list, which must not be empty. It takes no memory: `last` has
    /// room for each prefix.
    pub fn pop(&mut self)
        requires { 0 < length self.old }
        ensures { self.new ≡ take (length self.old - 1) self.old }
    {
        loop {
            let deltas = &self.bytes[self.front..];
            let top = last_delta(deltas);
            let _ = restore_previous(deltas, top, &mut self.last);
            self.bytes.truncate(self.front + top.start);
            self.count -= 1;
            if !top.removed {
                return;
            }
            self.removed -= 1;
        }
    }

    // Removes the prefixes before the last one that differ from a schedule and are greater at the
    // first such place. It takes no memory.
    fn mark_later(&mut self, schedule: &[u8])
        requires { 0 < length self.old }
        ensures { self.new ≡ filter (λ p. not (is_later schedule.now p))
            (take (length self.old - 1) self.old) ++ last_of self.old ∷ [] }
    {
        let deltas = self.bytes.len() - self.front;
        let mut seeker = Seeker::at_last(deltas, self.last.as_slice(), schedule);
        let mut left = self.count - 1;
        while 0 < left {
            let end = self.front + seeker.end;
            seeker = seeker.at_previous(&self.bytes[self.front..], schedule);
            if !seeker.removed && seeker.is_later(schedule) {
                self.bytes[end - 1] += 128;
                self.removed += 1;
            }
            left -= 1;
        }
    }

    /// Removes the prefixes that differ from a schedule and are greater at the first such place,
    /// and answers how many. It takes no memory: the bytes of a removed prefix stay, and the delta
    /// that makes it says so, until an earlier prefix is the last one.
    pub fn remove_later(&mut self, schedule: &[u8]) -> usize
        ensures list { self.new ≡ filter (λ p. not (is_later schedule.now p)) self.old }
        ensures number { result ≡ count_by (is_later schedule.now) self.old }
    {
        let before = self.len();
        if before == 0 {
            return 0;
        }
        self.mark_later(schedule);
        if is_later(schedule, self.last.as_slice()) {
            self.pop();
        }
        before - self.len()
    }

    /// Keeps the first prefixes, at most `length`, and removes the others. It takes no memory.
    pub fn truncate(&mut self, length: usize)
        ensures { self.new ≡ take length self.old }
    {
        while length < self.len() {
            self.pop();
        }
    }

    /// Removes all prefixes, and keeps the list's memory. Bytes left there mean nothing.
    pub fn clear(&mut self)
        ensures { self.new ≡ [] }
    {
        self.count = 0;
        self.removed = 0;
    }

    /// Appends a prefix. Fails where memory runs out; the list is then as before.
    pub fn push(&mut self, prefix: &[u8]) -> Result<(), AllocError>
        ensures { self.new ≡ (if is_ok result then self.old ++ prefix.now ∷ [] else self.old) }
    {
        if self.count == 0 {
            return self.push_first(prefix);
        }
        let shared = shared_len(self.last.as_slice(), prefix);
        self.push_after(shared, &prefix[shared..])
    }

    /// Appends a prefix: the first `shared` steps of the last one, or all where it has fewer, and
    /// then the `rest`. It doesn't look whether the two have more steps in common. Tests the usual
    /// case first: the delta is short, and there is room. Fails where memory runs out; the list is
    /// then as before.
    #[inline(always)]
    pub fn push_after(&mut self, shared: usize, rest: &[u8]) -> Result<(), AllocError>
        ensures { self.new ≡ (if is_ok result
            then self.old ++ (take shared (last_of self.old) ++ rest.now) ∷ [] else self.old) }
    {
        if self.count != 0 && can_put_short_delta(&self.bytes, &self.last, shared, rest) {
            put_short_delta(&mut self.bytes, rest.len(), &self.last[shared..]);
            self.last.truncate(shared);
            put_reserved(&mut self.last, rest);
            self.count += 1;
            return Ok(());
        }
        self.push_after_slow(shared, rest)
    }

    // Appends a prefix as [`Prefixes::push_after`] does, in any case: the list may be empty, the
    // delta long, and memory may have to be got.
    #[inline(never)]
    fn push_after_slow(&mut self, shared: usize, rest: &[u8]) -> Result<(), AllocError>
        ensures { self.new ≡ (if is_ok result
            then self.old ++ (take shared (last_of self.old) ++ rest.now) ∷ [] else self.old) }
    {
        if self.count == 0 {
            return self.push_first(rest);
        }
        let shared = shared.min(self.last.len());
        self.last.reserve(rest.len())?;
        put_delta(&mut self.bytes, rest.len(), &self.last[shared..])?;
        self.last.truncate(shared);
        let _ = put_bytes(&mut self.last, rest);
        self.count += 1;
        Ok(())
    }

    // Appends a prefix to an empty list, and gets room for more. On an error the list stays empty.
    fn push_first(&mut self, prefix: &[u8]) -> Result<(), AllocError>
        requires { self.old ≡ [] }
        ensures { self.new ≡ (if is_ok result then prefix.now ∷ [] else []) }
    {
        self.last.reserve(prefix.len().saturating_add(MORE_STEPS))?;
        self.bytes.reserve(prefix.len().saturating_add(MORE_BYTES))?;
        self.bytes.clear();
        let _ = self.bytes.extend_from_slice(prefix);
        self.front = prefix.len();
        self.last.clear();
        let _ = self.last.extend_from_slice(prefix);
        self.count = 1;
        self.removed = 0;
        Ok(())
    }

    /// Appends copies of the prefixes of another list. Fails where memory runs out; the list is
    /// then as before.
    pub fn append(&mut self, alloc: Global, other: &Prefixes) -> Result<(), AllocError>
        ensures { self.new ≡ (if is_ok result then self.old ++ other.now else self.old) }
    {
        if other.count == 0 {
            return Ok(());
        }
        if self.count == 0 {
            let mut copy = other.try_clone(alloc)?;
            mem::swap(self, &mut copy);
            return Ok(());
        }
        let room = other.last.capacity();
        self.last.reserve(room.saturating_sub(self.last.len()))?;
        let shared = shared_len(self.last.as_slice(), &other.bytes[..other.front]);
        let len = self.bytes.len();
        put_delta(&mut self.bytes, other.front - shared, &self.last[shared..])?;
        if let Err(error) = self.bytes.extend_from_slice(&other.bytes[other.front..]) {
            self.bytes.truncate(len);
            return Err(error);
        }
        self.last.clear();
        let _ = self.last.extend_from_slice(other.last.as_slice());
        self.count += other.count;
        self.removed += other.removed;
        Ok(())
    }

    /// Moves the last prefixes, at most `count` of them, into another list, in place of those it
    /// has. The memory that both lists have is used again. Fails where memory runs out, and
    /// where [`Prefixes::remove_later`] removed prefixes whose bytes are still there; this list is
    /// then as before, and the other one is empty.
    pub fn split_last(&mut self, count: usize, other: &mut Prefixes) -> Result<(), AllocError>
        ensures kept { self.new ≡ (if is_ok result
            then take (length self.old - count) self.old else self.old) }
        ensures moved { other.new ≡ (if is_ok result
            then drop (length self.old - count) self.old else []) }
    {
        if count == 0 {
            other.clear();
            return Ok(());
        }
        if self.len() <= count {
            other.clear();
            mem::swap(self, other);
            return Ok(());
        }
        self.split_last_some(count, other)
    }

    // Moves the last `count` prefixes, at least one but not all, into another list, in place of
    // those it has. For that, `last` goes back to the first prefix that moves, then to the one
    // before it. Where memory runs out, this list is as before, and the other one is empty.
    fn split_last_some(&mut self, count: usize, other: &mut Prefixes) -> Result<(), AllocError>
        requires some { 0 < count }
        requires few { count < length self.old }
        ensures kept { self.new ≡ (if is_ok result
            then take (length self.old - count) self.old else self.old) }
        ensures moved { other.new ≡ (if is_ok result
            then drop (length self.old - count) self.old else []) }
    {
        other.count = 0;
        other.removed = 0;
        other.front = 0;
        other.last.clear();
        if self.removed > 0 {
            return Err(AllocError);
        }
        other.last.reserve(self.last.capacity())?;
        let _ = other.last.extend_from_slice(self.last.as_slice());
        let deltas = &self.bytes[self.front..];
        let at = go_back(deltas, count - 1, &mut self.last);
        if let Err(error) = set_bytes(&mut other.bytes, self.last.as_slice(), &deltas[at..]) {
            self.last.clear();
            let _ = self.last.extend_from_slice(other.last.as_slice());
            return Err(error);
        }
        other.front = self.last.len();
        other.count = count;
        let end = go_back(&deltas[..at], 1, &mut self.last);
        self.bytes.truncate(self.front + end);
        self.count -= count;
        Ok(())
    }

    /// Makes the list equal to another one, in the memory that this one has. Fails where memory
    /// runs out; the list then has no prefix.
    pub fn copy_from(&mut self, other: &Prefixes) -> Result<(), AllocError>
        ensures { self.new ≡ (if is_ok result then other.now else []) }
    {
        self.count = 0;
        self.removed = 0;
        self.front = 0;
        self.bytes.clear();
        self.bytes.extend_from_slice(other.bytes.as_slice())?;
        self.last.clear();
        self.last.reserve(other.last.capacity())?;
        let _ = self.last.extend_from_slice(other.last.as_slice());
        self.front = other.front;
        self.count = other.count;
        self.removed = other.removed;
        Ok(())
    }

    /// Whether another list has the same bytes. If so, it has the same prefixes; but two lists of
    /// the same prefixes may have different bytes.
    pub fn has_same_bytes(&self, other: &Prefixes) -> bool
        ensures { IsTrue result → self.now ≡ other.now }
    {
        self.count == other.count
            && self.removed == other.removed
            && self.front == other.front
            && is_equal(self.last.as_slice(), other.last.as_slice())
            && is_equal(self.bytes.as_slice(), other.bytes.as_slice())
    }

    /// A list of the same prefixes, in memory of its own. Fails where memory runs out.
    pub fn try_clone(&self, alloc: Global) -> Result<Prefixes, AllocError>
        ensures { IfOk result (λ p. p ≡ self.now) }
    {
        let bytes = self.bytes.as_slice().to_vec(alloc)?;
        let last = copy_with_room(alloc, self.last.as_slice(), self.last.capacity())?;
        Ok(Prefixes {
            count: self.count,
            removed: self.removed,
            bytes,
            front: self.front,
            last,
        })
    }

    /// A reader of the prefixes in reverse order, from the last to the first. It takes memory for a
    /// copy of the last prefix, which it turns into each earlier one; the list stays as it is.
    /// Fails where memory runs out.
    pub fn rev(&self, alloc: Global) -> Result<Rev<'_>, AllocError>
        ensures { IfOk result (λ r. r ≡ self.now) }
    {
        let last = copy_with_room(alloc, self.last.as_slice(), self.last.capacity())?;
        Ok(Rev {
            count: self.count,
            bytes: &self.bytes[self.front..],
            last,
            first: &self.bytes[..self.front],
        })
    }
}

// Turns the last prefix of a list into the one `count` places before it, by the last `count` deltas
// in `deltas`. Answers the index at which these begin. `last` has to have room for each prefix.
fn go_back(deltas: &[u8], count: usize, last: &mut Vec<u8>) -> usize
    requires { AreWaysOn deltas.now count last.old.items (vec_capacity last.old) }
    ensures back { (w : AreWaysOn deltas.now count last.old.items (vec_capacity last.old)) →
        WentBack w.ways deltas.now count last.old.items result last.new.items
        (vec_capacity last.old) }
    ensures room { vec_capacity last.old ≤ vec_capacity last.new }
{
    let mut at = deltas.len();
    for _ in 0..count {
        let top = last_delta(&deltas[..at]);
        let _ = restore_previous(&deltas[..at], top, last);
        at = top.start;
    }
    at
}

// Replaces `bytes` by a list's first prefix and `deltas`, those of all its prefixes but the last.
// Where memory runs out, some of that may be there.
fn set_bytes(bytes: &mut Vec<u8>, first: &[u8], deltas: &[u8]) -> Result<(), AllocError>
    ensures { OnOk result (bytes.new.items ≡ first.now ++ deltas.now) }
{
    bytes.clear();
    bytes.extend_from_slice(first)?;
    bytes.extend_from_slice(deltas)
}

// Whether two slices have the same bytes.
fn is_equal(first: &[u8], second: &[u8]) -> bool
    ensures { IsTrue result ↔ (first.now ≡ second.now) }
{
    first == second
}

// A copy of a prefix, with room for `longest` steps in all.
fn copy_with_room(alloc: Global, prefix: &[u8], longest: usize) -> Result<Vec<u8>, AllocError>
    ensures prefix { IfOk result (λ v. v.items ≡ prefix.now) }
    ensures room { IfOk result (λ v. longest ≤ vec_capacity v) }
{
    let mut copy = Vec::with_capacity(alloc, longest)?;
    copy.extend_from_slice(prefix)?;
    Ok(copy)
}

/// A reader of a list's prefixes in reverse order. Contracts see those that are still to be read,
/// in the order of the list.
#[derive(Drop)]
pub struct Rev<'a> {
    count: usize,
    bytes: &'a [u8],
    last: Vec<u8>,
    first: &'a [u8],
}

impl<'a> Model for Rev<'a> {
    ghost use Rattle.std.specs.Prelude.{List, ℕ, false, vec_capacity};
    ghost use Rattle.walk_prefixes.specs.inner.Packed.{listed, IsPacked};

    ghost Value = { List (List ℕ) };

    ghost view = { λ p. listed p.count p.bytes.now p.last.items false };

    ghost invariant = { λ p. IsPacked p.count p.bytes.now p.last.items p.first.now
        (vec_capacity p.last) };
}

impl<'a> Rev<'a> {
    /// The current prefix: the last of those that are still to be read. `None` where all are read.
    pub fn prefix(&self) -> Option<&[u8]>
        ensures { option_copied result ≡ slice_get self.now (length self.now - 1) }
    {
        if self.count == 0 {
            None
        } else {
            Some(self.last.as_slice())
        }
    }

    /// Goes on from the current prefix, which there has to be, to the one before it in the list;
    /// that is made in memory that the reader has.
    pub fn advance(&mut self)
        requires { 0 < length self.old }
        ensures { self.new ≡ take (length self.old - 1) self.old }
    {
        loop {
            let top = last_delta(self.bytes);
            let _ = restore_previous(self.bytes, top, &mut self.last);
            self.bytes = &self.bytes[..top.start];
            self.count -= 1;
            if !top.removed {
                return;
            }
        }
    }
}
