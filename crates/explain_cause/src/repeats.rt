//! Which loops ran out of turns in a run.

use crate::causes::Causes;
use crate::event::Event;
use explain_run::{Repeat, Source, repeats};
use guest_syntax::Pos;
use std::alloc::{AllocError, Global};

impl Causes {
    /// The `repeat`s with a `leave` of which the thread of the event at place `end` made all turns
    /// before that event, in the order of the text: the thread isn't in the loop there, and came
    /// out of it last without a `leave`. Fails where memory runs out.
    pub fn repeats_run_out(
        &self,
        alloc: Global,
        source: &Source<'_>,
        end: usize,
    ) -> Result<Vec<Repeat>, AllocError> {
        let mut all = repeats(alloc, source.text)?;
        all.retain(|repeat| self.runs_out(source, repeat, end));
        Ok(all)
    }

    // Whether the thread of the event at place `end` made all turns of a `repeat` before that event
    // and came out of it without a `leave`. False of a `repeat` that has none.
    fn runs_out(&self, source: &Source<'_>, repeat: &Repeat, end: usize) -> bool {
        let Some(event) = self.events().get(end) else {
            return false;
        };
        let earlier = self.events().iter().take(end).rev();
        let last = earlier
            .filter(|other| other.thread == event.thread)
            .map(|other| place_of(source, other))
            .find(|place| repeat.contains(*place));
        !repeat.leaves.is_empty()
            && !repeat.contains(place_of(source, event))
            && last.is_some_and(|place| !repeat.is_left_at(place))
    }
}

// The place in the text of an event's statement; `None` where the program has no such instruction.
fn place_of(source: &Source<'_>, event: &Event) -> Option<Pos> {
    source.place(event.thread, event.instruction)
}
