//! What is proved of the definitions alone. A law is what its function ensures; the functions do
//! nothing.

ghost use Rattle.std.specs.Prelude.{◌≡◌};
ghost use Rattle.board.specs.declared.board.TheConstants.{NONE_TOLD};

use crate::board::NONE_TOLD;

/// `NONE_TOLD`, which says that no number was told, is the greatest `u64`.
pub fn none_told_is_the_greatest()
    ensures { NONE_TOLD ≡ 18446744073709551615 }
{}
