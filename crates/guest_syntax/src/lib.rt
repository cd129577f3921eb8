//! Texts of the guest language, and the trees that they spell.
//!
//! A guest text declares variables, mutexes, conditions, semaphores, then threads with statements.
//! [`parse`] reads a text into a [`tree::Tree`], or answers its first fault and where it is. The
//! grammar, `Spells` in `specs/Grammar.antt`, relates a text to a tree and says nothing of how a
//! text is read: what a token is, that the longest is taken, which tokens spell a tree, all limits.
//!
//! What [`parse`] promises of every text stands at its clauses: a tree is answered exactly where
//! the text spells it, unless memory runs out, and what a refusal says is so at its place. A text
//! spells at most one tree ([`laws::one_tree`]), and each statement is in the text of its thread
//! ([`laws::statements_are_in_their_threads`]). Reading ends, and reads no byte outside the text.
//!
//! [`pieces::Pieces`] gives the tokens also of a text that doesn't parse. Tests show which fault is
//! the first, and at which token. `specs/reader` models the reader, for proofs alone.
#![tactic(auto)]

mod blocks;
mod cursor;
mod error;
mod expressions;
pub mod laws;
mod lexer;
pub mod limits;
mod parser;
pub mod pieces;
pub mod place;
mod reading;
mod statements;
mod token;
mod tokens;
pub mod tree;

pub use error::SyntaxError;
pub use limits::TEXT_BYTES;
pub use place::Pos;
pub use reading::parse;
