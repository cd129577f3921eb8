//! Parts of a search: what was found under one prefix at one bound, as a line of JSON.
//!
//! - [`Part`] is what a search under a prefix found at a bound, and of which guest.
//! - [`GuestDigest`] tells a guest's text from other texts, by its length and its digest;
//!   [`first_of_another`] finds a part that is of another text. A line names its [`VERSION`], too.
//! - [`part_line`] prints a part as a line, byte for byte the defined one.
//! - [`part_from`] reads a part from its line, and [`parts_from`] those of the lines of a text,
//!   with any blanks and keys in any order. What [`part_line`] prints is read back as the same
//!   part; any other JSON is refused.
//! - [`PartError`] and [`LineError`] say why a line is no part's.
#![tactic(auto)]

mod error;
mod guest;
mod lines;
mod part;
mod printing;
mod reading;

pub use error::{LineError, PartError};
pub use guest::{GuestDigest, first_of_another};
pub use lines::parts_from;
pub use part::{Part, VERSION};
pub use printing::part_line;
pub use reading::part_from;
