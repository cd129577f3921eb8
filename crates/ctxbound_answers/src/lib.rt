//! What a program can be asked for, answers to what is asked of a guest program, and how a program
//! writes them and ends.
//!
//! - A [`GuestRequest`] is asked of one guest program: a replay, or a search, an [`Exploration`],
//!   with the trace of what it finds or without. [`Limits`] say how far each search goes of a
//!   guest of a suite, or of one that is to be right. A [`Request`] is all that command words can
//!   ask for.
//! - [`answer_to`] answers it for the bytes of texts, by [`replay_text`] or [`explore_text`], whose
//!   contracts speak of nothing else. [`Printed`] is what is written then, and the status; a
//!   [`Fault`] is why there is no answer, with the line that tells so, and its status.
//! - [`serve`] reads a text, answers and writes; [`exit_status`] is the status that the program ends
//!   with then; [`serve_file`] does all that with a file.
//! - [`explain_text`] explains why a schedule ends as it does, for the bytes of a text: the schedule
//!   that an [`ExplainRequest`] asks for, or the bad one that a search finds. Its contract says
//!   which, and the status. [`Render`] is the trait of a format of explanations;
//!   [`TextFormat`] is that for a terminal.
//! - A [`CommandFault`] is why a command printed nothing. Unlike a [`Fault`] it may name the file
//!   or the stream that failed. [`read_file`] reads a file for such a command, and
//!   [`write_printed`] writes what the command prints.
//! - A [`Host`] is what a search needs of the system. [`ProgressGate`] is the gate of a search: where
//!   it is asked to, it tells how far the search is.
#![tactic(auto)]

mod answer;
mod explained;
mod exploration;
mod fault;
mod host;
mod limits;
mod progress;
mod request;
mod serving;

pub use answer::{Printed, answer_to, explore_text, replay_status, replay_text, verdict_status};
pub use explained::{
    Explained, Output, Render, TextFormat, explain_text, has_fewest_preemptions, no_schedule_text,
    run_out_text,
};
pub use exploration::{DEFAULT_BOUND, Exploration, GuestRequest, has_equal_threads, once_words};
pub use fault::{CommandFault, Fault, REFUSED};
pub use host::Host;
pub use limits::{DEFAULT_LIMIT, Limits};
pub use progress::ProgressGate;
pub use request::{
    CheckForm, CheckRequest, DEFAULT_STEPS, DEFAULT_WIDTH, ExplainForm, ExplainRequest,
    JoinRequest, PrefixesRequest, Request, SuiteRequest, UnderRequest, VerifyRequest,
};
pub use serving::{
    MOST_READ, STANDARD_OUTPUT, exit_status, is_standard_input, read_file, serve, serve_file,
    write_out, write_printed,
};
