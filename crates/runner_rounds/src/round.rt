//! A round that several workers share.

ghost use Rattle.std.specs.Prelude.{◌≡◌, ◌<◌, ◌≤◌, ◌+◌, ◌⊎◌, ◌↔◌, vec_len, IfSome, IfNone, IsTrue};
ghost use Rattle.runner_rounds.specs.Rounds.{rank};

use board::NONE_TOLD;
use walk_items::item::Item;
use walk_items::mode::Mode;

/// The items of a round, and how they are walked. Nobody changes a round while workers have it.
#[derive(Drop)]
pub struct Round {
    pub mode: Mode,
    pub quick: bool,
    /// Whether prefixes that walks of the round defer are listed.
    pub lists: bool,
    pub quota: u32,
    /// The round's number in its stretch, from 1.
    pub turn: u64,
    /// The number of the round's first item on the board. The others have the numbers after it.
    pub first: u64,
    pub items: Vec<Item>,
}

impl Round {
    /// The index of the round's item that has this number on the board; `None` where none has it.
    pub fn place_of(&self, number: u64) -> Option<usize>
        ensures some { IfSome result (λ k. k < vec_len self.now.items) }
        ensures number { IfSome result (λ k. self.now.first + k ≡ number) }
        ensures none { IfNone result ((number < self.now.first)
            ⊎ (self.now.first + vec_len self.now.items ≤ number)) }
    {
        let place = number.checked_sub(self.first)? as usize;
        if place < self.items.len() {
            Some(place)
        } else {
            None
        }
    }

    /// How many of the round's items come before this item: those whose prefix is less than its
    /// own, as lists of thread numbers are compared.
    pub fn rank_of(&self, item: &Item) -> u64
        ensures { result ≡ rank self.now.items.items item.now }
    {
        let mut before = 0;
        for other in &self.items {
            if other.prefix().cmp(&item.prefix()).is_lt() {
                before += 1;
            }
        }
        before
    }

    /// Whether a quick search leaves an item open and doesn't walk it: its rank, by
    /// [`Round::rank_of`], is greater than that of an item with a bad schedule. `least` is the
    /// least rank of such an item that was told on the board; `NONE_TOLD` where none was.
    pub fn leaves_out(&self, item: &Item, least: u64) -> bool
        ensures { IsTrue result ↔ least < rank self.now.items.items item.now }
    {
        least != NONE_TOLD && self.rank_of(item) > least
    }
}
