//! The commands and their arguments: a table, and what `clap` makes of it.

use clap::builder::ValueParser;
use clap::error::ErrorKind;
use clap::{Arg, ArgAction, Command, Error};
use std::alloc::{AllocError, Global};

/// The version that `--version` shows.
pub const VERSION: &str = "0.2.0";

/// The greatest number that `--at-least` takes. All prefixes that are printed are held in memory,
/// and more of them balance the load no better, however many machines there are.
const MAX_PREFIXES: i64 = 1 << 20;

/// What the help of each command ends with.
const HELP_END: &str = "Examples:
  ctxbound verify examples/lock_order_fixed.guest
  ctxbound explore examples/first.guest --trace
  ctxbound unbounded examples/lost_update_fixed.guest
  ctxbound replay examples/first.guest 0,1,0
  ctxbound explain examples/lock_order.guest
  ctxbound check examples/first.guest
  ctxbound suite examples

`clean` with `\"all\":false` is no proof: schedules with more preemptions were left out.
Try `unbounded` first where a program is small: it leaves no outcome out.
`--workers 4` ends a long search two to three times sooner on four processors.

Statuses:
  0  no schedule is bad, or a suite's files are as expected; a replay that is done, or not complete
  1  a schedule is bad: it failed or got stuck; so did a replay
  2  words, text, program or schedule refused; help or version shown
  3  the search was cut short, or parts of one are missing
  4  out of memory, or the file can't be read or the output written";

/// What is said of an argument, which without any of these is `[NAME]`: a text, or none.
enum Setting {
    /// It is an option, `--name`.
    Long,
    /// It takes no value.
    Flag,
    /// Help shows its value by this name.
    Value(&'static str),
    /// It takes a number from the first to the second.
    Range(i64, i64),
    /// It has to be given.
    Required,
    /// It takes several values.
    Several,
    /// It has this value where none is given.
    DefaultsTo(&'static str),
    /// Help doesn't show that value.
    HidesDefault,
}

use Setting::{DefaultsTo, Flag, HidesDefault, Long, Range, Required, Several, Value};

/// An argument of a command.
#[derive(Clone, Copy)]
struct Argument {
    name: &'static str,
    settings: &'static [Setting],
    help: &'static str,
    /// The arguments that can't be given beside it.
    conflicts: &'static [&'static str],
    /// The arguments that have to be given beside it.
    needs: &'static [&'static str],
}

// A row for an argument: its name, its settings, its help, and without or with which others.
macro_rules! argument {
    ($name:literal $($setting:expr),*; $help:literal
     $(; without $($other:literal)+)? $(; with $($need:literal)+)?) => {
        Argument {
            name: $name,
            settings: &[$($setting),*],
            help: $help,
            conflicts: &[$($($other),+)?],
            needs: &[$($($need),+)?],
        }
    };
}

const FILE: Argument = argument!("FILE" Required; "The guest program; `-` is standard input");

const FILES: Argument = argument!("FILE" Required, Several;
    "The guest programs; a folder stands for the files in it, and in its folders, that end in `.guest`");

const WORKERS: Argument =
    argument!("workers" Long, Value("W"), Range(1, runner_workers::WORKERS as i64);
    "How many threads work [default: 1]");

const LIMIT: Argument = argument!("limit" Long, Value("L"), Range(1, i64::MAX);
    "Cut the search short after this number of schedules");

const EACH_LIMIT: Argument = argument!("limit" Long, Value("L"), Range(1, i64::MAX);
    "Cut a search short once this number of schedules was tried [default: 20000000]");

const BOUND: Argument =
    argument!("bound" Long, Value("N"), Range(0, runner_report::limits::BOUND as i64);
    "The most preemptions of a schedule [default: 2]");

const PROGRESS: Argument =
    argument!("progress" Long, Flag; "Tell on standard error how far the search is");

const QUICK: Argument =
    argument!("quick" Long, Flag; "Once a bad schedule is found, leave out what comes after it");

const SYMMETRY: Argument =
    argument!("symmetry" Long, Flag; "Of threads that are equal where they are, let one step alone");

const TRACE: Argument =
    argument!("trace" Long, Flag; "After the report, print the trace of the schedule that it names");

// What it prints is parts of a search, for `join`: of all its schedules, and no trace.
const UNDER: Argument = argument!("under" Long, Value("PREFIX");
    "Run the schedules that begin with this one, and print a line a bound for `join`";
    without "quick" "symmetry" "trace");

/// A command on guest programs.
#[derive(Clone, Copy)]
struct Subcommand {
    name: &'static str,
    about: &'static str,
    arguments: &'static [Argument],
}

const JOIN: Subcommand = Subcommand {
    name: "join",
    about: "Joins what was found under prefixes to the report of the whole search",
    arguments: &[
        FILE,
        argument!("PART" Several, DefaultsTo("-"), HidesDefault;
            "Files of lines that `explore --under` prints; `-`, or none, is standard input"),
        BOUND,
        argument!("unbounded" Long, Flag; "Join parts of a search without a bound"; without "bound"),
    ],
};

const SUBCOMMANDS: [Subcommand; 9] = [
    Subcommand {
        name: "explore",
        about: "Runs a guest program under all schedules, those with fewest preemptions first",
        arguments: &[
            FILE, WORKERS, LIMIT, PROGRESS, QUICK, SYMMETRY, BOUND, TRACE, UNDER,
        ],
    },
    Subcommand {
        name: "unbounded",
        about: "Runs a guest program under all schedules that sleep sets leave",
        arguments: &[
            FILE, WORKERS, LIMIT, PROGRESS, QUICK, SYMMETRY, TRACE, UNDER,
        ],
    },
    Subcommand {
        name: "replay",
        about: "Runs one schedule of a guest program and prints its trace",
        arguments: &[
            FILE,
            argument!("SCHEDULE" DefaultsTo("-");
                "Thread numbers from 0, joined by commas, `0x3` for three steps; `-` is the empty schedule"),
        ],
    },
    // Where a schedule is given nothing is searched. Only text has a width, and may fold steps. No
    // schedule has more than 32,768 steps.
    Subcommand {
        name: "explain",
        about: "Says why a schedule of a guest program ends as it does",
        arguments: &[
            FILE,
            WORKERS,
            argument!("limit" Long, Value("L"), Range(1, i64::MAX);
                "Cut the search short after this number of schedules [default: 20000000 without --bound]"),
            PROGRESS,
            QUICK,
            argument!("SCHEDULE"; "The schedule to explain; left out, a search finds one";
                without "workers" "limit" "progress" "quick" "bound" "unbounded"),
            argument!("bound" Long, Value("N"), Range(0, runner_report::limits::BOUND as i64);
                "The most preemptions of a schedule [default: 64, and if none is found, any]"),
            argument!("unbounded" Long, Flag; "Search without a bound"; without "bound"),
            argument!("all" Long, Flag; "Show each step, however many"; without "html" "json"),
            argument!("steps" Long, Value("N"), Range(0, 32_768);
                "Show each step where there are at most N, else fold [default: 40]";
                without "all" "html" "json"),
            argument!("width" Long, Value("N"), Range(40, 1000);
                "The columns of a line, at most [default: 100]"; without "html" "json"),
            argument!("html" Long, Flag; "Print a page"; without "json"),
            argument!("json" Long, Flag; "Print JSON"),
        ],
    },
    Subcommand {
        name: "check",
        about: "Says what is wrong or odd about guest programs, and searches nothing",
        arguments: &[
            FILES,
            argument!("strict" Long, Flag; "Status 1 where there is a warning"),
            argument!("short" Long, Flag; "Print a line for each refusal and each warning"; without "json"),
            argument!("json" Long, Flag; "Print a JSON object for each refusal and each warning"),
            argument!("deep" Long, Flag;
                "Go through the schedules that sleep sets leave, for more warnings"),
            argument!("remarks" Long, Flag; "With --deep: tell what need not be wrong, too"; with "deep"),
            argument!("limit" Long, Value("L"), Range(1, i64::MAX);
                "With --deep: go through at most this number of schedules [default: 100000]";
                with "deep"),
        ],
    },
    Subcommand {
        name: "suite",
        about: "Searches many guest programs, and compares what each expects of itself",
        arguments: &[
            FILES,
            BOUND,
            WORKERS,
            EACH_LIMIT,
            PROGRESS,
            argument!("json" Long, Flag; "Print an object a line instead of a table"),
        ],
    },
    Subcommand {
        name: "verify",
        about: "Says whether a guest program is right, up to how many preemptions it is, or why not",
        arguments: &[FILE, WORKERS, EACH_LIMIT, PROGRESS],
    },
    Subcommand {
        name: "prefixes",
        about: "Lists beginnings of schedules: each schedule begins with exactly one of them",
        arguments: &[
            FILE,
            argument!("at-least" Long, Value("N"), Range(1, MAX_PREFIXES);
                "List at least N, or all where there are fewer [default: 64]"),
            argument!("unbounded" Long, Flag; "List those that a search without a bound enters"),
        ],
    },
    JOIN,
];

impl Setting {
    // The argument of this name with the setting.
    fn of<'a>(&self, name: &'static str, arg: Arg<'a>) -> Arg<'a> {
        match self {
            Long => arg.long(name),
            Flag => arg.action(ArgAction::SetTrue),
            Value(value) => arg.value_name(*value),
            Range(least, most) => arg.value_parser(ValueParser::signed(*least, *most)),
            Required => arg.required(true),
            Several => arg.num_args(1..),
            DefaultsTo(value) => arg.default_value(*value),
            HidesDefault => arg.hide_default_value(true),
        }
    }
}

impl Argument {
    // The argument as `clap` has it.
    fn arg<'a>(&self, alloc: Global) -> Result<Arg<'a>, AllocError> {
        let mut arg = Arg::new(alloc, self.name).help(self.help);
        for setting in self.settings {
            arg = setting.of(self.name, arg);
        }
        arg.conflicts_with_all(self.conflicts)?
            .requires_all(self.needs)
    }
}

// A command of this name, without arguments, that does what `about` says.
fn begin_command<'a>(alloc: Global, name: &'a str, about: &'a str) -> Command<'a> {
    Command::new(alloc, name).about(about).after_help(HELP_END)
}

impl Subcommand {
    // The command as `clap` has it.
    fn command<'a>(&self, alloc: Global) -> Result<Command<'a>, AllocError> {
        let mut command = begin_command(alloc, self.name, self.about);
        for argument in self.arguments {
            command = command.arg(argument.arg(alloc)?)?;
        }
        Ok(command)
    }
}

/// The command `ctxbound`, with a subcommand for each thing that it can be asked for. Fails where
/// memory runs out.
pub fn ctxbound_command<'a>(alloc: Global) -> Result<Command<'a>, AllocError> {
    let about = "Looks for schedules under which a guest program fails or gets stuck";
    let mut program = begin_command(alloc, "ctxbound", about)
        .version(VERSION)
        .subcommand_required(true);
    for subcommand in &SUBCOMMANDS {
        program = program.subcommand(subcommand.command(alloc)?)?;
    }
    Ok(program)
}

/// What `join` says where standard input is named both for the guest program and for parts. Fails
/// where memory runs out.
pub fn standard_input_twice(alloc: Global) -> Result<Error, AllocError> {
    let mut join = JOIN.command(alloc)?.bin_name("ctxbound join")?;
    join.error(
        ErrorKind::ArgumentConflict,
        "standard input can't be both the guest program and the parts",
    )
}
