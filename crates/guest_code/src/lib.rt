//! Programs of the guest language: flat code, made of a tree that has no fault.
//!
//! [`lowering::lower`] answers a tree's first fault, or its program. Which fault is the first is
//! said in `specs/Fault.antt` of the uses of names in text order (`specs/Uses.antt`), and which
//! program a tree stands for in `specs/Code.antt`. No public contract cites `specs/inner`.
//!
//! What is promised, for every tree:
//!
//! - A program is answered exactly where the tree has no fault, and it is the one that the tree
//!   stands for; else exactly the first fault is answered. Only memory may run out.
//! - The first fault is at one use of a name or a `leave`, and no use before it has any
//!   ([`laws::first_fault_is_first`]); else that there is no thread; else too long a code.
//! - A program keeps every limit of [`limits`]; each object, local and jump in its code is in range
//!   ([`laws::programs_are_well_formed`], by `IsWellFormed` of `specs/Program.antt`).
//! - The [`source_map::SourceMap`] of a tree has for each instruction of its program the place of
//!   the statement that it was made of, and for each local its name. The places of a thread are in
//!   its text ([`laws::places_are_in_their_threads`]).
//! - Programs are equal exactly where all that is seen of them is ([`program::Program::is_same`]).
#![tactic(auto)]

mod check;
mod emit;
pub mod error;
pub mod kinds;
pub mod laws;
mod lengths;
pub mod limits;
pub mod lowering;
mod names;
pub mod program;
pub mod source_map;
