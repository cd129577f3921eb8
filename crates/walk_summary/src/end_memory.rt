//! What makes adding to a summary fast: hints at where end views stand, and memory to use again.

ghost use Rattle.std.specs.Prelude.{◌≡◌, ◌<◌, [], IfOk};
ghost use Rattle.walk_summary.specs.{Summaries.end_with, declared.end_memory.TheConstants.PLACES};

use semantics::view::{EndView, Kind};
use std::alloc::{AllocError, Global};

// How many hints a table has: several for each of hundreds of end views, so that few share a hint.
const PLACES: usize = 2048;

/// A small table of hints: for a hash of an end view, the index in a sorted list at which an end
/// view with that hash was found last. A hint may be wrong, so it is tested before it is used.
#[derive(Drop)]
pub struct EndHints {
    indexes: [u16; PLACES],
}

impl EndHints {
    /// A table in which every hint is 0: no end view was found yet.
    pub fn new() -> EndHints {
        EndHints {
            indexes: [0; PLACES],
        }
    }

    // The place in the table for an end view: the upper 11 bits of a hash of its kind and of the
    // values of its variables, made with odd factors that spread the bits.
    pub(crate) fn place_of(kind: Kind, values: &[i64]) -> usize
        ensures { result < PLACES }
    {
        let mut hash: u64 = kind as u64;
        for value in values {
            hash = hash
                .wrapping_mul(0x9E37_79B9_7F4A_7C15)
                .wrapping_add(value.cast_unsigned());
        }
        (hash.wrapping_mul(0xBF58_476D_1CE4_E5B9) >> 53) as usize % PLACES
    }

    // The hint at a place of the table: an index in a sorted list of end views.
    fn hint_at(&self, place: usize) -> usize
        requires { place < PLACES }
    {
        usize::from(self.indexes[place])
    }

    // A guess at which index an end view of this kind and these values stands in a list of `length`
    // end views; it may be wrong. In a list of one it is 0, and no hash is computed.
    #[inline(always)]
    pub(crate) fn hint_for(&self, length: usize, kind: Kind, values: &[i64]) -> usize {
        if length == 1 {
            0
        } else {
            self.hint_at(EndHints::place_of(kind, values))
        }
    }

    // Sets the hint at a place of the table to an index in a sorted list of end views. An index of
    // 65,536 or more can't be stored: then the hint stays.
    pub(crate) fn set_hint(&mut self, place: usize, index: usize)
        requires { place < PLACES }
    {
        match u16::try_from(index) {
            Ok(index) => self.indexes[place] = index,
            Err(_) => {}
        }
    }
}

/// What a summary makes its end views with: hints at where they stand, and views that aren't needed
/// any more, whose memory serves new ones.
#[derive(Drop)]
pub struct EndMemory {
    pub hints: EndHints,
    views: Vec<EndView>,
}

impl EndMemory {
    /// A memory with no view to use again, all of whose hints are 0.
    pub fn new(alloc: Global) -> EndMemory {
        EndMemory {
            hints: EndHints::new(),
            views: Vec::new(alloc),
        }
    }

    // Moves all views of a list into this memory, to be used again. Where it can't grow, a view is
    // freed. The `clear` at the end changes nothing; its contract says that the list is empty.
    pub(crate) fn recycle(&mut self, views: &mut Vec<EndView>)
        ensures { views.new.items ≡ [] }
    {
        while let Some(view) = views.pop() {
            let _ = self.views.push(view);
        }
        views.clear();
    }

    // The end view of this kind and these values, made in the memory of a recycled one, if there is
    // one, else in new memory.
    pub(crate) fn make_view(
        &mut self,
        alloc: Global,
        kind: Kind,
        values: &[i64],
    ) -> Result<EndView, AllocError>
        ensures { IfOk result (λ v. v ≡ end_with kind values.now) }
    {
        match self.views.pop() {
            Some(view) => view.rewritten(kind, values),
            None => Ok(EndView::new(kind, values.to_vec(alloc)?)),
        }
    }
}
