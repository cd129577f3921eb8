//! What is known of a board at its end, when it has all its seats back.

ghost use Rattle.std.specs.Prelude.{◌≡◌};

use std::marker::Model;

/// How many numbers of a board were drawn, and the least that was told.
#[derive(Drop)]
pub struct Claims {
    pub(crate) count: u64,
    pub(crate) least: u64,
}

impl Model for Claims {
    ghost use Rattle.board.specs.Board.{ClaimsView};

    ghost Value = { ClaimsView };

    ghost view = { λ c. record { count = c.count; least = c.least } };
}

impl Claims {
    /// How many numbers were drawn: these are the numbers below this count.
    pub fn count(&self) -> u64
        ensures { result ≡ self.now.count }
    {
        self.count
    }

    /// The least number that a seat told; [`NONE_TOLD`](crate::NONE_TOLD) where none was told.
    pub fn least(&self) -> u64
        ensures { result ≡ self.now.least }
    {
        self.least
    }
}
