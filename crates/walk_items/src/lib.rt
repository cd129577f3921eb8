//! Items of a search, and what a walk of one has to keep.
//!
//! - An [`item::Item`] stands for the complete schedules that begin with a prefix that runs; a
//!   [`mode::Mode`] says which of them a search tries.
//! - [`laws`] says of the definitions what walks and books rest on: which schedules an item has,
//!   and that what a walk tried, the items that it left and those that its bound put off lose no
//!   schedule and have none twice.
//! - [`packed`] makes items of the prefixes of a packed list as they are asked for.
//!
//! No program is walked here: the crate `walk` does that.
#![tactic(auto)]

pub mod item;
pub mod laws;
pub mod limits;
pub mod mode;
pub mod packed;
