// The bytes of deltas. A delta turns a prefix of a list into the one before it: it says how many
// steps to drop at the end, and has the steps to append.
ghost use Rattle.std.specs.Prelude.{◌≡◌, ◌+◌, ◌-◌, ◌<◌, ◌≤◌, ◌++◌, false, length, take, drop, is_ok, OnOk, if◌then◌else◌, vec_len, vec_capacity, IsOk, IsTrue};
ghost use Rattle.walk_prefixes.specs.inner.Packed.{way_bytes, dropped_of, start_of, end_of, number_at, before, head_of, removed_of};
ghost use Rattle.walk_prefixes.specs.PrefixLists.{common_length, is_later};

use std::alloc::AllocError;

// Whether two prefixes have the same eight steps from the index `at` on.
fn have_same_eight(a: &[u8], b: &[u8], at: usize) -> bool
    requires in_a { at + 8 ≤ length a.now }
    requires in_b { at + 8 ≤ length b.now }
    ensures { IsTrue result → take 8 (drop at a.now) ≡ take 8 (drop at b.now) }
{
    read_number(a, at) == read_number(b, at)
}

// How many steps two prefixes have in common at their start, rounded down to a multiple of eight.
fn shared_len_by_eights(a: &[u8], b: &[u8]) -> usize
    ensures in_a { result ≤ length a.now }
    ensures in_b { result ≤ length b.now }
    ensures alike { take result a.now ≡ take result b.now }
{
    let most = a.len().min(b.len());
    let mut n = 0;
    while 8 <= most - n && have_same_eight(a, b, n) {
        n += 8;
    }
    n
}

/// How many steps two prefixes have in common at their start.
pub fn shared_len(a: &[u8], b: &[u8]) -> usize
    ensures in_a { result ≤ length a.now }
    ensures in_b { result ≤ length b.now }
    ensures alike { take result a.now ≡ take result b.now }
    ensures all { result ≡ common_length a.now b.now }
{
    let most = a.len().min(b.len());
    let mut n = shared_len_by_eights(a, b);
    while n < most && a[n] == b[n] {
        n += 1;
    }
    n
}

/// Whether a prefix has the greater step where it first differs from a schedule: all schedules that
/// begin with the prefix come after that schedule then. False where one begins with the other.
pub fn is_later(schedule: &[u8], prefix: &[u8]) -> bool
    ensures { result ≡ is_later schedule.now prefix.now }
{
    let n = shared_len(schedule, prefix);
    if n == schedule.len() {
        return false;
    }
    if n == prefix.len() {
        return false;
    }
    schedule[n] < prefix[n]
}

// Appends bytes to `bytes`, which has room for them.
#[inline(always)]
pub fn put_reserved(bytes: &mut Vec<u8>, more: &[u8])
    requires { vec_len bytes.old + length more.now ≤ vec_capacity bytes.old }
    ensures items { bytes.new.items ≡ bytes.old.items ++ more.now }
    ensures room { vec_capacity bytes.new ≡ vec_capacity bytes.old }
{
    for byte in more {
        bytes.push_reserved(*byte);
    }
}

// Appends bytes to `bytes`. If there is room, fewer than 16 are pushed one by one, which takes less
// time than one call for all.
#[inline(always)]
pub fn put_bytes(bytes: &mut Vec<u8>, more: &[u8]) -> Result<(), AllocError>
    ensures items { OnOk result (bytes.new.items ≡ bytes.old.items ++ more.now) }
    ensures kept { take (length bytes.old.items) bytes.new.items ≡ bytes.old.items }
    ensures room { vec_capacity bytes.old ≤ vec_capacity bytes.new }
    ensures succeeds { vec_len bytes.old + length more.now ≤ vec_capacity bytes.old
        → IsOk result }
{
    if more.len() >= 16 || bytes.capacity() - bytes.len() < more.len() {
        return bytes.extend_from_slice(more);
    }
    put_reserved(bytes, more);
    Ok(())
}

// Whether `put_short_delta` can append a prefix, the first `shared` steps of `last` and then
// `rest`: `last` has as many steps, there is room for the prefix and for the delta back to `last`,
// and one byte can say how many steps that drops and appends.
#[inline(always)]
pub fn can_put_short_delta(bytes: &Vec<u8>, last: &Vec<u8>, shared: usize, rest: &[u8]) -> bool
    ensures shared { IsTrue result → shared ≤ vec_len last.now }
    ensures tail { IsTrue result → vec_len last.now < shared + 15 }
    ensures rest { IsTrue result → length rest.now < 8 }
    ensures bytes { IsTrue result → vec_len bytes.now + 16 ≤ vec_capacity bytes.now }
    ensures last { IsTrue result → shared + length rest.now ≤ vec_capacity last.now }
{
    shared <= last.len()
        && last.len() - shared < 15
        && rest.len() < 8
        && rest.len() <= last.capacity() - shared
        && bytes.capacity() - bytes.len() >= 16
}

// Appends a delta to bytes that have room for it: the steps to append, `tail`, of which there are
// fewer than 15, and one byte for their number and for that of the steps to drop, less than 8.
#[inline(always)]
pub fn put_short_delta(bytes: &mut Vec<u8>, dropped: usize, tail: &[u8])
    requires dropped { dropped < 8 }
    requires tail { length tail.now < 15 }
    requires room { vec_len bytes.old + 16 ≤ vec_capacity bytes.old }
    ensures { bytes.new.items ≡ bytes.old.items ++ way_bytes dropped tail.now false }
{
    put_reserved(bytes, tail);
    bytes.push_reserved((dropped * 16 + tail.len()) as u8);
}

// Appends a delta: the steps to append, `tail`, then how many steps to drop and how many `tail`
// has. Where these are small, one byte has both: the low four bits how many `tail` has, less than
// 15, the three bits above how many to drop; else each is eight bytes, with a byte 15 after them.
// The last byte tells which, since deltas are read from the end. Its highest bit is set later where
// the prefix that the delta makes is removed. Where memory runs out, a part of the delta may be
// appended.
fn put_delta_or_part(bytes: &mut Vec<u8>, dropped: usize, tail: &[u8]) -> Result<(), AllocError>
    ensures done { OnOk result (bytes.new.items ≡ bytes.old.items
        ++ way_bytes dropped tail.now false) }
    ensures kept { take (length bytes.old.items) bytes.new.items ≡ bytes.old.items }
{
    let steps = tail.len();
    if dropped < 8 && steps < 15 {
        put_bytes(bytes, tail)?;
        bytes.push((dropped * 16 + steps) as u8)?;
    } else {
        bytes.extend_from_slice(tail)?;
        bytes.extend_from_slice(&dropped.to_le_bytes())?;
        bytes.extend_from_slice(&steps.to_le_bytes())?;
        bytes.push(15)?;
    }
    Ok(())
}

// Appends a delta, of how many steps to drop and the steps `tail` to append, as `put_delta_or_part`
// does; but where memory runs out, nothing is appended.
pub fn put_delta(bytes: &mut Vec<u8>, dropped: usize, tail: &[u8]) -> Result<(), AllocError>
    ensures { bytes.new.items ≡ (if is_ok result then bytes.old.items
        ++ way_bytes dropped tail.now false else bytes.old.items) }
{
    let len = bytes.len();
    match put_delta_or_part(bytes, dropped, tail) {
        Ok(()) => Ok(()),
        Err(error) => {
            bytes.truncate(len);
            Err(error)
        }
    }
}

// The little-endian number in the eight bytes from `at` on; being eight, they always convert.
fn read_number(bytes: &[u8], at: usize) -> usize
    requires { at + 8 ≤ length bytes.now }
    ensures { result ≡ number_at at bytes.now }
{
    match <[u8; 8]>::try_from(&bytes[at..at + 8]) {
        Ok(eight) => usize::from_le_bytes(eight),
        Err(_) => 0,
    }
}

// A delta: how many steps to drop, from where to where in the bytes the steps to append stand, and
// whether the prefix that it makes is removed.
#[derive(Clone, Copy, Drop)]
pub struct Delta {
    pub dropped: usize,
    pub start: usize,
    pub end: usize,
    pub removed: bool,
}

// The last of some bytes, which tells how the delta at their end is written; 0 where there is none.
fn last_byte(bytes: &[u8]) -> usize
    ensures { result ≡ head_of bytes.now }
{
    if bytes.is_empty() {
        0
    } else {
        usize::from(bytes[bytes.len() - 1])
    }
}

// The delta at the end of some bytes, the one that was appended last: a long one, with 17 bytes of
// numbers, if the low four bits of the last byte are 15. Where there are no bytes, or too few for a
// long one, it is a delta that changes nothing.
#[tactic(auto, using(std::proofs::lemmas::Bool::Decides::nat_tests), unfolding(crate::specs::inner::Packed::dropped_of, crate::specs::inner::Packed::end_of, crate::specs::inner::Packed::start_of, crate::specs::inner::Packed::is_short, crate::specs::inner::Packed::removed_of))]
pub fn last_delta(bytes: &[u8]) -> Delta
    ensures dropped { result.dropped ≡ dropped_of bytes.now }
    ensures start { result.start ≡ start_of bytes.now }
    ensures end { result.end ≡ end_of bytes.now }
    ensures ordered { result.start ≤ result.end }
    ensures within { result.end ≤ length bytes.now }
    ensures removed { result.removed ≡ removed_of bytes.now }
{
    let len = bytes.len();
    let head = last_byte(bytes);
    let removed = head >= 128;
    if head % 16 < 15 {
        let end = len.saturating_sub(1);
        return Delta {
            dropped: head / 16 % 8,
            start: end.saturating_sub(head % 16),
            end,
            removed,
        };
    }
    if len < 17 {
        return Delta {
            dropped: 0,
            start: 0,
            end: 0,
            removed,
        };
    }
    let end = len - 17;
    Delta {
        dropped: read_number(bytes, end),
        start: end.saturating_sub(read_number(bytes, len - 9)),
        end,
        removed,
    }
}

// Turns the last prefix of a list into the one before it. `top` is the delta for that, at the end
// of `bytes`: drops the last `top.dropped` steps, then appends `bytes[top.start..top.end]`. It can
// fail only where `last` has no room for the result.
pub fn restore_previous(bytes: &[u8], top: Delta, last: &mut Vec<u8>) -> Result<(), AllocError>
    requires dropped { top.dropped ≡ dropped_of bytes.now }
    requires start { top.start ≡ start_of bytes.now }
    requires end { top.end ≡ end_of bytes.now }
    requires ordered { top.start ≤ top.end }
    requires within { top.end ≤ length bytes.now }
    ensures done { OnOk result (last.new.items ≡ before bytes.now last.old.items) }
    ensures room { vec_capacity last.old ≤ vec_capacity last.new }
    ensures succeeds { length (before bytes.now last.old.items) ≤ vec_capacity last.old
        → IsOk result }
{
    last.truncate(last.len().saturating_sub(top.dropped));
    last.extend_from_slice(&bytes[top.start..top.end])
}
