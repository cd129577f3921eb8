//! Why a text is refused, in more words than its number and its place.
//!
//! - [`refusal::syntax_diagnostic`] and [`refusal::check_diagnostic`] answer a diagnostic whose
//!   short form and place are those of the refusal.
//! - A note says how the statement is written that was begun or seems to be meant, or what takes
//!   the place of a word of another language. No statement is written anew.
//!
//! - A [`diagnostic::Diagnostic`] is what is told of a refusal, a warning or a remark, and writes its
//!   lines: carets lie under the bytes that are meant.
//!
//! Which words a diagnostic has, and that its lines are so, is shown by tests.
#![tactic(auto)]

mod braces;
pub mod diagnostic;
mod faults;
mod forms;
pub mod message;
pub mod names;
mod notes;
pub mod pieces;
pub mod refusal;
mod site;
mod syntax;
mod words;
