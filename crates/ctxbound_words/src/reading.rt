//! Parsing of the command words to the request that they make.

ghost use Rattle.std.specs.Prelude.{◌≡◌, ◌≤◌, ◌↔◌, IsTrue};
ghost use Rattle.runner_workers.specs.declared.limits.TheConstants.{WORKERS as MOST};
ghost use Rattle.runner_report.specs.declared.options.Search.TheVariants.{UpTo, Unbounded};
ghost use Rattle.runner_report.specs.Promises.{IsSearch};

use crate::commands::{ctxbound_command, standard_input_twice};
use crate::fault::WordsFault;
use clap::ArgMatches;
use ctxbound_answers::{
    CheckForm, CheckRequest, DEFAULT_BOUND, DEFAULT_LIMIT, DEFAULT_STEPS, DEFAULT_WIDTH,
    ExplainForm, ExplainRequest, Exploration, GuestRequest, JoinRequest, Limits, PrefixesRequest,
    Request, SuiteRequest, UnderRequest, VerifyRequest, is_standard_input,
};
use runner_report::limits::{BOUND, QUOTA};
use runner_report::{Options, Search};
use runner_workers::WORKERS;
use std::alloc::{Alloc, AllocError, Global};
use std::env::Env;

/// How many schedules a deep check goes through at most, where no number is asked for.
const DEFAULT_DEPTH: u64 = 100_000;

/// How many prefixes are listed at least, where no number is asked for: on a machine of eight
/// processors each gets eight, so that all are busy until near the end.
const DEFAULT_PREFIXES: u32 = 64;

/// A command and the arguments that it is given. One that the command doesn't take counts as not
/// given.
#[derive(Clone, Copy)]
struct CommandArguments<'a, 'w> {
    alloc: Global,
    /// The command's name.
    name: &'w str,
    args: &'a ArgMatches<'w>,
}

impl CommandArguments<'_, '_> {
    // Whether this flag is given.
    fn flag(&self, name: &str) -> bool {
        self.args.get_flag(name)
    }

    // The number that this option is given, or else the default one.
    fn number(&self, name: &str, default: u32) -> u32 {
        self.args.get_one(name).unwrap_or(default)
    }

    // The value of this argument, given or the default one; an empty string where it has none.
    fn text(&self, name: &str) -> Result<String, AllocError> {
        String::from_str(self.alloc, self.args.get_str(name).unwrap_or(""))
    }

    // The values of this argument, given or the default ones, if it has any.
    fn texts(&self, name: &str) -> Result<Vec<String>, AllocError> {
        let mut values = Vec::new(self.alloc);
        for value in self.args.get_strs(name).unwrap_or(&[]) {
            values.push(String::from_str(self.alloc, value)?)?;
        }
        Ok(values)
    }

    // The bound that is given, or else the default one, which in `explain` is the greatest; `clap`
    // has refused one above `BOUND`.
    fn bound(&self) -> u32
        ensures { IsSearch (UpTo result) }
    {
        let is_far = self.name == "explain";
        let default = if is_far { BOUND } else { DEFAULT_BOUND };
        self.number("bound", default).min(BOUND)
    }

    // The limit that is given, if any. Where `explain` is given no bound it has that of `verify`.
    fn limit(&self) -> Option<u64> {
        let bound: Option<u32> = self.args.get_one("bound");
        let is_far = self.name == "explain" && bound.is_none() && !self.is_unbounded();
        let limit: Option<u64> = self.args.get_one("limit");
        limit.or(is_far.then_some(DEFAULT_LIMIT))
    }

    // The number of workers that is given, or else 1; `clap` has refused one that can't be.
    fn workers(&self) -> u32
        ensures some { 1 ≤ result }
        ensures few { result ≤ MOST }
    {
        self.number("workers", 1).clamp(1, WORKERS)
    }

    // Whether a search has no bound: that of `unbounded`, or with `--unbounded`.
    fn is_unbounded(&self) -> bool {
        self.name == "unbounded" || self.flag("unbounded")
    }

    // How far a search goes: without a bound where `is_unbounded`, else up to the bound.
    fn search(&self, is_unbounded: bool) -> Search
        ensures search { IsSearch result }
        ensures unbounded { result ≡ Unbounded ↔ IsTrue is_unbounded }
    {
        if is_unbounded {
            Search::Unbounded
        } else {
            Search::UpTo(self.bound())
        }
    }

    // The search that is asked for. No argument sets its quota.
    fn exploration(&self) -> Exploration {
        Exploration {
            options: Options {
                search: self.search(self.is_unbounded()),
                limit: self.limit(),
                quota: QUOTA,
                quick: self.flag("quick"),
                symmetry: self.flag("symmetry"),
            },
            workers: self.workers(),
            progress: self.flag("progress"),
        }
    }

    // How far each search goes, of a command that makes several, up to this bound.
    fn limits(&self, bound: u32) -> Limits
        requires { IsSearch (UpTo bound) }
    {
        Limits {
            limit: self.args.get_one("limit").unwrap_or(DEFAULT_LIMIT),
            bound,
            workers: self.workers(),
            progress: self.flag("progress"),
        }
    }

    // What `replay`, `explore` or `unbounded` is asked of a guest program.
    fn guest_request(&self) -> Result<GuestRequest, AllocError> {
        Ok(if self.name == "replay" {
            GuestRequest::Replay {
                schedule: self.text("SCHEDULE")?,
            }
        } else if self.flag("trace") {
            GuestRequest::Trace(self.exploration())
        } else {
            GuestRequest::Explore(self.exploration())
        })
    }

    fn explain_request(&self) -> Result<ExplainRequest, AllocError> {
        Ok(ExplainRequest {
            file: self.text("FILE")?,
            schedule: match self.args.get_str("SCHEDULE") {
                Some(schedule) => Some(String::from_str(self.alloc, schedule)?),
                None => None,
            },
            search: self.exploration(),
        })
    }

    // The form of an explanation. With `--all` each step of any schedule is shown.
    fn explain_form(&self) -> ExplainForm {
        if self.flag("html") {
            return ExplainForm::Html;
        }
        if self.flag("json") {
            return ExplainForm::Json;
        }
        ExplainForm::Text {
            width: self.number("width", DEFAULT_WIDTH) as usize,
            steps: if self.flag("all") {
                usize::MAX
            } else {
                self.number("steps", DEFAULT_STEPS) as usize
            },
        }
    }

    // Only with `--deep` a check goes through schedules.
    fn check_request(&self) -> Result<CheckRequest, AllocError> {
        let depth = self.args.get_one("limit").unwrap_or(DEFAULT_DEPTH);
        let form = if self.flag("json") {
            CheckForm::Json
        } else if self.flag("short") {
            CheckForm::Short
        } else {
            CheckForm::Lines
        };
        Ok(CheckRequest {
            files: self.texts("FILE")?,
            strict: self.flag("strict"),
            depth: self.flag("deep").then_some(depth),
            form,
        })
    }

    // Refused where standard input is named both for the guest program and for parts.
    fn join_request(&self) -> Result<JoinRequest, WordsFault> {
        let file = self.text("FILE")?;
        let mut parts = self.args.get_strs("PART").unwrap_or(&[]).iter();
        if is_standard_input(file.as_str()) && parts.any(|part| is_standard_input(part)) {
            return Err(WordsFault::Clap(standard_input_twice(self.alloc)?));
        }
        Ok(JoinRequest {
            file,
            parts: self.texts("PART")?,
            search: self.search(self.is_unbounded()),
        })
    }

    // The request that the command makes with these arguments. The bound of `verify` is the
    // greatest, since no argument sets it.
    fn request(&self) -> Result<Request, WordsFault> {
        Ok(match self.name {
            "check" => Request::Check(self.check_request()?),
            "suite" => Request::Suite(SuiteRequest {
                files: self.texts("FILE")?,
                limits: self.limits(self.bound()),
                json: self.flag("json"),
            }),
            "verify" => Request::Verify(VerifyRequest {
                file: self.text("FILE")?,
                limits: self.limits(BOUND),
            }),
            "prefixes" => Request::Prefixes(PrefixesRequest {
                file: self.text("FILE")?,
                at_least: self.number("at-least", DEFAULT_PREFIXES),
                is_pruned: self.flag("unbounded"),
            }),
            "join" => Request::Join(self.join_request()?),
            "explain" => Request::Explain(self.explain_request()?, self.explain_form()),
            _ if self.args.get_str("under").is_some() => Request::Under(UnderRequest {
                file: self.text("FILE")?,
                prefix: self.text("under")?,
                search: self.exploration(),
            }),
            _ => Request::Guest {
                file: self.text("FILE")?,
                request: self.guest_request()?,
            },
        })
    }
}

/// Reads the words of the command line that the system gave the program, the first of which is its
/// own name, and answers the request that they make. The default `replay` is never taken: `clap`
/// demands a subcommand.
///
/// # Errors
///
/// What `clap` says of the words, a request for help or for the version included; `NotUtf8` where a
/// word isn't UTF-8, `OutOfMemory` where memory runs out.
pub fn read_request<R: Env + Alloc<A = Global>>(rt: &R) -> Result<Request, WordsFault> {
    let alloc = rt.alloc();
    let words: Vec<String> = std::env::args(rt)?.collect(alloc)?;
    let matches = ctxbound_command(alloc)?.try_get_matches_from(words.as_slice())?;
    let (name, args) = matches.subcommand().unwrap_or(("replay", &matches));
    CommandArguments { alloc, name, args }.request()
}
