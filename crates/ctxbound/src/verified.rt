//! The command `verify`.

use check_advice::{Checked, Diagnostic, check};
use check_hints::pieces::pieces;
use ctxbound_answers::{Fault, Host, Printed, VerifyRequest, run_out_text};
use ctxbound_suite::{BadSchedule, Correctness, Preemptions, verify_text};
use explain_lines::{Count, Marks, shell_quoted};
use guest_syntax::pieces::Piece;
use replay::schedule_text;
use semantics::view::Kind;
use std::alloc::{AllocError, Global};
use std::fmt::Write;
use std::io;

/// Up to how many schedules it is looked for caveats to the answer that a program is right.
const CAVEAT_DEPTH: u64 = 1_000_000;

/// The number of the remark that a check was cut short.
const CUT_SHORT: &str = "W21";

/// What is said at the end where the searches leave open whether a program is right.
const HIGHER_LIMIT: &str = "A higher --limit says more.";

/// Verifies that no schedule of the guest program of this text is bad, and answers what is left to
/// print of it. A line on each search is written to `out` as the search ends, and that the program
/// is right before it is looked for caveats.
///
/// # Errors
///
/// What is wrong first with the text, or `Memory`.
pub fn verify_guest<H: Host, W: io::Write>(
    rt: &H,
    text: &[u8],
    request: &VerifyRequest,
    out: &mut W,
) -> Result<Printed, Fault> {
    let alloc = rt.alloc();
    let answer = verify_text(rt, text, request.limits, out)?;
    let file = request.file.as_str();
    let told = match &answer {
        Correctness::Right => right_text(rt, request, text, out)?,
        Correctness::Bad { bad, is_fewest } => {
            let run_out = run_out_text(alloc, text, file, bad.steps.as_slice())?;
            bad_text(alloc, file, bad, *is_fewest, run_out.as_str())?
        }
        Correctness::Undecided { below } => undecided_text(alloc, file, *below)?,
    };
    Ok(Printed {
        output: told.into_bytes(),
        status: answer.status(),
    })
}

// Writes to `out` that a program is right, and answers its caveats, after that answer where `out`
// didn't take it, so that writing the rest fails, too.
fn right_text<H: Host, W: io::Write>(
    rt: &H,
    request: &VerifyRequest,
    text: &[u8],
    out: &mut W,
) -> Result<String, AllocError> {
    let (alloc, file) = (rt.alloc(), request.file.as_str());
    let mut lines = format!(in alloc; "RIGHT: no schedule of {file} fails or gets stuck.\n")?;
    if out.write_all(lines.as_bytes()).is_ok() && out.flush().is_ok() {
        lines.clear();
    }
    let pieces = pieces(alloc, text)?;
    if CAVEATS.iter().any(|caveat| has_word(&pieces, caveat.1)) {
        let depth = request.limits.limit.min(CAVEAT_DEPTH);
        if request.limits.progress {
            let tried = Count(depth as usize, "schedule");
            let _ = rt.eprintln(format_args!("caveats: looked for in at most {tried}"));
        }
        put_caveats(&mut lines, alloc, text, &pieces, depth)?;
    }
    Ok(lines)
}

// Adds to `lines` one for each warning of `CAVEATS` that a check of the schedules of the program of
// this text, up to `depth` of them, finds, and for each that the check may have missed since it was
// cut short there. A warning's place is its line and column, or the file and line that a
// preprocessor's mark names.
fn put_caveats(
    lines: &mut String,
    alloc: Global,
    text: &[u8],
    pieces: &[Piece<'_>],
    depth: u64,
) -> Result<(), AllocError> {
    let marks = Marks::new(alloc, text)?;
    let Checked::Sound(all) = check(alloc, text, Some(depth))? else {
        return Ok(());
    };
    for diagnostic in &all {
        let (line, column) = diagnostic.place();
        let at = match marks.origin(line) {
            Some(_) => format!(in alloc; "{}", marks.file_line("", line).with_name())?,
            None => format!(in alloc; "{line}:{column}")?,
        };
        put_caveat(lines, alloc, diagnostic, at.as_str())?;
        if diagnostic.code().0 == CUT_SHORT {
            put_missed_caveats(lines, depth, pieces)?;
        }
    }
    Ok(())
}

// Whether a word is among the pieces of a text.
fn has_word(pieces: &[Piece<'_>], word: &[u8]) -> bool {
    pieces.iter().any(|piece| piece.text == word)
}

// The warnings that are caveats to the answer that a program is right: the number of each, a word
// that a text with this warning has, and what the schedules were searched for.
const CAVEATS: [(&str, &[u8], &str); 2] = [
    ("W12", b"leave", "loops that run out of turns"),
    ("W13", b"signal", "signals for which several threads wait"),
];

// Adds to `lines` a line with the message of a diagnostic at the place `at`, where it is a warning
// of `CAVEATS`.
fn put_caveat(
    lines: &mut String,
    alloc: Global,
    diagnostic: &Diagnostic,
    at: &str,
) -> Result<(), AllocError> {
    let (number, name) = diagnostic.code();
    if CAVEATS.iter().any(|caveat| caveat.0 == number) {
        let message = String::from_utf8_lossy(alloc, diagnostic.message.as_slice())?;
        writeln!(lines, "But {number} {name} at {at}: {message}")?;
    }
    Ok(())
}

// Adds to `lines` one for each of `CAVEATS` whose word is among the text's `pieces`, where the
// check was cut short after `depth` schedules.
fn put_missed_caveats(
    lines: &mut String,
    depth: u64,
    pieces: &[Piece<'_>],
) -> Result<(), AllocError> {
    for (_, word, sought) in CAVEATS {
        if has_word(pieces, word) {
            let tried = Count(depth as usize, "schedule");
            writeln!(lines, "But {sought} were looked for in {tried} alone.")?;
        }
    }
    Ok(())
}

// The text of the answer that the schedule `bad` of the program in this file is bad, with the
// command that explains it. Where it has preemptions, the text says whether it is known
// (`is_fewest`) that none with fewer is bad. `run_out` has lines that say which loops ran out of
// turns. No bad schedule is `Done`.
fn bad_text(
    alloc: Global,
    file: &str,
    bad: &BadSchedule,
    is_fewest: bool,
    run_out: &str,
) -> Result<String, AllocError> {
    let ends = match bad.kind {
        Kind::Stuck => "gets stuck",
        Kind::Failed | Kind::Done => "fails",
    };
    let count = Preemptions(bad.preemptions);
    let others = match (bad.preemptions, is_fewest) {
        (0, _) => "",
        (_, true) => "; none with fewer is bad",
        (_, false) => "; whether one with fewer is bad isn't known",
    };
    let word = shell_quoted(alloc, file)?;
    let steps = schedule_text(alloc, bad.steps.as_slice())?;
    let steps = String::from_utf8_lossy(alloc, steps.as_slice())?;
    format!(in alloc;
        "BAD: a schedule of {file} with {count} {ends}{others}.\n{run_out}See why: ctxbound explain {word} {steps}\n"
    )
}

// The text of the answer that it is undecided whether a program is right: it is only known that no
// schedule with fewer preemptions than `below` is bad.
fn undecided_text(alloc: Global, file: &str, below: u32) -> Result<String, AllocError> {
    let known = below.saturating_sub(1);
    let at_most = if known == 0 { "" } else { "at most " };
    let count = Preemptions(known);
    match below {
        0 => format!(in alloc; "UNDECIDED: nothing is known of {file}. {HIGHER_LIMIT}\n"),
        _ => format!(in alloc;
            "UNDECIDED: no schedule of {file} with {at_most}{count} is bad. {HIGHER_LIMIT}\n"
        ),
    }
}
