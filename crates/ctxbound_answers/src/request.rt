//! What command words can ask for.

ghost use Rattle.runner_report.specs.Promises.{IsSearch};
ghost use Rattle.ctxbound_answers.specs.inner.Searches.{IsSearch-prop};

use crate::exploration::{Exploration, GuestRequest};
use crate::limits::Limits;
use runner_report::Search;

/// What the command words ask for. Files go by the names that the user gave.
#[derive(Drop)]
pub enum Request {
    /// To replay or search the guest program in this file.
    Guest { file: String, request: GuestRequest },
    /// To explain a schedule, in this form.
    Explain(ExplainRequest, ExplainForm),
    /// To search the guest programs of a suite.
    Suite(SuiteRequest),
    /// To say whether a guest program is right.
    Verify(VerifyRequest),
    /// To check guest programs and search nothing.
    Check(CheckRequest),
    /// To list prefixes of the schedules of a guest program.
    Prefixes(PrefixesRequest),
    /// To search what is under a prefix of the schedules of a guest program.
    Under(UnderRequest),
    /// To join what searches under prefixes found.
    Join(JoinRequest),
}

impl Request {
    /// The name of the guest program's file, for the hint that `ctxbound check` says more, which is
    /// given where its text is refused. `None` for the commands that give no such hint: `check`,
    /// `suite` and `verify`.
    pub fn file_to_check(&self) -> Option<&str> {
        match self {
            Request::Guest { file, .. }
            | Request::Explain(ExplainRequest { file, .. }, _)
            | Request::Prefixes(PrefixesRequest { file, .. })
            | Request::Under(UnderRequest { file, .. })
            | Request::Join(JoinRequest { file, .. }) => Some(file.as_str()),
            Request::Suite(_) | Request::Verify(_) | Request::Check(_) => None,
        }
    }
}

/// To list prefixes of the schedules of the guest program in a file.
#[derive(Drop)]
pub struct PrefixesRequest {
    pub file: String,
    /// How many prefixes are listed at least, where the program has as many of one length.
    pub at_least: u32,
    /// Whether only those prefixes are listed that a search with sleep sets, and no bound, enters.
    pub is_pruned: bool,
}

/// To search, of the schedules of the guest program in a file, those that begin with a prefix.
#[derive(Drop)]
pub struct UnderRequest {
    pub file: String,
    /// The prefix, in schedule text.
    pub prefix: String,
    /// The search. Whether it is quick makes no difference under a prefix.
    pub search: Exploration,
}

/// To join parts, which say what was found under prefixes of the schedules of the guest program in
/// a file, to the report of a search.
#[derive(Drop)]
pub struct JoinRequest {
    pub file: String,
    pub parts: Vec<String>,
    pub search: Search,
    ghost is_search: { IsSearch search } by { IsSearch-prop search },
}

/// To check the guest program in each of several files, and tell what is wrong or odd.
#[derive(Drop)]
pub struct CheckRequest {
    /// A folder stands for the files in it, and in its folders, whose names end in `.guest`.
    pub files: Vec<String>,
    /// Whether the status is 1 where there is a warning.
    pub strict: bool,
    /// How many schedules are gone through at most for deeper warnings, where these are asked for.
    pub depth: Option<u64>,
    pub form: CheckForm,
}

/// The form in which a check tells what is wrong or odd.
#[derive(Clone, Copy)]
pub enum CheckForm {
    /// In lines for people, with the source.
    Lines,
    /// In a line for each refusal, warning and remark.
    Short,
    /// In a JSON object for each refusal, warning and remark.
    Json,
}

/// To search the guest program in each file of a suite, and print a table or JSON.
#[derive(Drop)]
pub struct SuiteRequest {
    /// A folder stands for the files in it, and in its folders, whose names end in `.guest`.
    pub files: Vec<String>,
    pub limits: Limits,
    pub json: bool,
}

/// To say whether the guest program in a file is right.
#[derive(Drop)]
pub struct VerifyRequest {
    pub file: String,
    pub limits: Limits,
}

/// To explain a schedule of the guest program in a file, or the schedule that a search finds.
#[derive(Drop)]
pub struct ExplainRequest {
    pub file: String,
    /// The schedule, in schedule text. Where there is none, a search finds one.
    pub schedule: Option<String>,
    pub search: Exploration,
}

/// The columns of an explanation in text, where the command words give no number.
pub const DEFAULT_WIDTH: u32 = 100;

/// The most steps of an explanation that folds none, where the command words give no number.
pub const DEFAULT_STEPS: u32 = 40;

/// The form in which an explanation is told.
#[derive(Clone, Copy)]
pub enum ExplainForm {
    /// As text of this width: each step, where there are at most `steps`, else those that matter.
    Text { width: usize, steps: usize },
    /// As JSON.
    Json,
    /// As an HTML page.
    Html,
}
