// A search in a packed list, from the last prefix to the first, that makes none of them.
ghost use Rattle.std.specs.Prelude.{◌≡◌, ℕ, ◌+◌, ◌-◌, ◌^◌, ◌<◌, ◌≤◌, ◌↔◌, List, length, take, false, slice_index_or, IsTrue};
ghost use Rattle.walk_prefixes.specs.inner.Packed.{dropped_of, start_of, end_of, removed_of, before};
ghost use Rattle.walk_prefixes.specs.PrefixLists.{common_length, is_later};

use crate::bytes::{last_delta, shared_len};

// A search that has come to a prefix of a list: it knows how many bytes of deltas are left, how
// many steps the prefix has, how many of them it has in common with the wanted one at their start,
// which step is the next one, 0 where there is none, and whether the prefix was removed. It takes
// no memory.
#[derive(Clone, Copy, Drop)]
pub struct Seeker {
    pub end: usize,
    pub steps: usize,
    pub shared: usize,
    pub next: u8,
    pub removed: bool,
}

impl Seeker {
    // A search at the last prefix of a list with so many bytes of deltas.
    pub fn at_last(end: usize, last: &[u8], wanted: &[u8]) -> Seeker
        ensures end { result.end ≡ end }
        ensures steps { result.steps ≡ length last.now }
        ensures shared { result.shared ≡ common_length last.now wanted.now }
        ensures within { result.shared ≤ length wanted.now }
        ensures next { result.next ≡ slice_index_or last.now result.shared 0 }
        ensures removed { result.removed ≡ false }
    {
        let shared = shared_len(last, wanted);
        Seeker {
            end,
            steps: last.len(),
            shared,
            next: step_at(last, shared),
            removed: false,
        }
    }

    // Whether the prefix to which the search has come is the wanted one.
    pub fn has_found(&self, wanted: &[u8]) -> bool
        ensures { IsTrue result ↔ ((self.now.shared ≡ self.now.steps)
            × (self.now.steps ≡ length wanted.now)) }
    {
        self.shared == self.steps && self.steps == wanted.len()
    }

    // Whether the prefix to which the search has come comes after the wanted one, by `is_later`.
    pub fn is_later(&self, wanted: &[u8]) -> bool
        requires { self.now.shared ≤ length wanted.now }
        ensures { (last : List ℕ) → self.now.steps ≡ length last →
            self.now.shared ≡ common_length last wanted.now →
            self.now.next ≡ slice_index_or last self.now.shared 0 →
            result ≡ is_later wanted.now last }
    {
        if self.shared == self.steps {
            return false;
        }
        if self.shared == wanted.len() {
            return false;
        }
        wanted[self.shared] < self.next
    }

    // The search, gone on to the prefix before the current one in the list, which the delta at the
    // end of the bytes that are left makes of it. Where the delta keeps more steps than are shared,
    // as many are shared as before; else the steps that it appends are compared with the wanted
    // ones.
    pub fn at_previous(&self, deltas: &[u8], wanted: &[u8]) -> Seeker
        requires end { self.now.end ≤ length deltas.now }
        requires shared { self.now.shared ≤ length wanted.now }
        requires fits { let bytes = take self.now.end deltas.now in
            self.now.steps - dropped_of bytes + (end_of bytes - start_of bytes) < 2 ^ 64 }
        ensures end { result.end ≡ start_of (take self.now.end deltas.now) }
        ensures steps { (last : List ℕ) → self.now.steps ≡ length last →
            result.steps ≡ length (before (take self.now.end deltas.now) last) }
        ensures shared { (last : List ℕ) → self.now.steps ≡ length last →
            self.now.shared ≡ common_length last wanted.now →
            result.shared ≡ common_length (before (take self.now.end deltas.now) last) wanted.now }
        ensures next { (last : List ℕ) → self.now.steps ≡ length last →
            self.now.shared ≡ common_length last wanted.now →
            self.now.next ≡ slice_index_or last self.now.shared 0 →
            result.next ≡ slice_index_or (before (take self.now.end deltas.now) last)
            result.shared 0 }
        ensures removed { result.removed ≡ removed_of (take self.now.end deltas.now) }
        ensures within { result.shared ≤ length wanted.now }
    {
        let bytes = &deltas[..self.end];
        let top = last_delta(bytes);
        let kept = self.steps.saturating_sub(top.dropped);
        let tail = &bytes[top.start..top.end];
        let steps = kept + tail.len();
        if self.shared < kept {
            return Seeker {
                end: top.start,
                steps,
                shared: self.shared,
                next: self.next,
                removed: top.removed,
            };
        }
        let more = shared_len(tail, &wanted[kept..]);
        Seeker {
            end: top.start,
            steps,
            shared: kept + more,
            next: step_at(tail, more),
            removed: top.removed,
        }
    }
}

// The step at a place; 0 where there is none.
fn step_at(steps: &[u8], place: usize) -> u8
    ensures { result ≡ slice_index_or steps.now place 0 }
{
    if place < steps.len() { steps[place] } else { 0 }
}
