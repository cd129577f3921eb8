//! What searches show of a program, and of the programs of a suite, each compared with what its
//! text expects.
//!
//! - [`run_search`] makes one search. A [`Found`] is its report and the bad schedule that it names,
//!   with its preemptions and how it ends.
//! - [`verify_text`] answers whether the program that a text spells is right, that is, none of its
//!   complete schedules fails or gets stuck: by a search without a bound, and where that isn't
//!   enough by searches up to 0, 1, 2 .. preemptions. [`Correctness`] is the answer.
//! - [`search`] makes the searches of a text of a suite: one without a bound, and where that doesn't
//!   say enough one up to a bound. It answers the search to report, with a bad schedule of fewest
//!   preemptions where one could be found within the limit.
//! - [`Expectation::of_text`] reads what a text's comments expect, and
//!   [`expectation_lookalike_line`] finds a comment that may have been meant as an expectation.
//! - An [`Entry`] is what became of one file, with its status. A [`Tally`] has the statuses of all
//!   files, and the status of the suite.
//! - [`Table`] and [`json_line`] print an entry, as a row of a table or as JSON.
#![tactic(auto)]

mod answer;
mod entry;
mod expectation;
mod found;
mod printing;
mod searches;
mod tally;

pub use answer::{Correctness, Preemptions, verify, verify_text};
pub use entry::{Entry, Outcome};
pub use expectation::{Expectation, ExpectedVerdict, expectation_lookalike_line};
pub use found::{BadSchedule, Found, run_search};
pub use printing::{Table, json_line};
pub use searches::{SearchResult, search};
pub use tally::Tally;
