//! The trace of a run: a text, one line for each step.

ghost use Rattle.std.specs.Prelude.{◌≡◌, ◌<◌, ◌++◌, ℕ, List, length, All, IfOk, OnOk};
ghost use Rattle.std.specs.{Fmt.{decimal, signed_decimal}, List.flat_map};
ghost use Rattle.replay.specs.Run.{IsRunOf};
ghost use Rattle.replay.specs.Trace.{Trace, trace, start_line, step_line, step_lines, end_lines, values_text, act_text, hit_text, preempt_text, stop_text, kind_text, IsValidAct, IsValidLine, IsValidRun};

use crate::run::{Act, Line, Run};
use guest_code::program::Program;
use semantics::state::Stop;
use semantics::view::Kind;
use std::alloc::{AllocError, Global};

/// The trace of a run of the program. Each line ends with a line feed.
///
/// First `start NAME stop assert` for each thread that stopped at the start. Then, for each step,
/// its place, the thread's name and what it did, with ` preempt` where the switch was preempting
/// and ` stop WHY` where the thread stopped. At last `preemptions N`, `kind K` and `vars` with the
/// value of each variable. Fails where memory runs out.
pub fn trace_text(alloc: Global, program: &Program, run: &Run) -> Result<Vec<u8>, AllocError>
    requires { IsValidRun program.now run.now }
    ensures run { IfOk result (λ text. text.items ≡ trace program.now run.now) }
    ensures schedule { IfOk result (λ text. (w : List ℕ) →
        IsRunOf program.now w run.now → text.items ≡ Trace program.now w) }
{
    let mut text = Vec::new(alloc);
    put_start_lines(&mut text, program, run.stopped())?;
    put_step_lines(&mut text, alloc, program, run.lines())?;
    put_end_lines(&mut text, alloc, program, run)?;
    Ok(text)
}

// Appends a line for each thread that stopped before any step, where only an assertion can stop it.
fn put_start_lines(text: &mut Vec<u8>, program: &Program, stopped: &[u8]) -> Result<(), AllocError>
    requires { All (λ t. t < length program.now.threads) stopped.now }
    ensures { OnOk result
        (text.new.items ≡ text.old.items ++ flat_map (start_line program.now) stopped.now) }
{
    for t in stopped {
        put_three_texts(text, b"start ", program.thread_name(*t), b" stop assert\n")?;
    }
    Ok(())
}

// Appends a line for each step of a run, in order.
fn put_step_lines(
    text: &mut Vec<u8>,
    alloc: Global,
    program: &Program,
    lines: &[Line],
) -> Result<(), AllocError>
    requires { All (IsValidLine program.now) lines.now }
    ensures { OnOk result
        (text.new.items ≡ text.old.items ++ step_lines program.now 0 lines.now) }
{
    for (k, line) in lines.iter().enumerate() {
        put_step_line(text, alloc, program, k, *line)?;
    }
    Ok(())
}

// Appends the line of the step that has index k in the schedule: k, its thread, and what it did.
fn put_step_line(
    text: &mut Vec<u8>,
    alloc: Global,
    program: &Program,
    k: usize,
    line: Line,
) -> Result<(), AllocError>
    requires { IsValidLine program.now line }
    ensures { OnOk result (text.new.items ≡ text.old.items ++ step_line program.now k line) }
{
    put_number(text, alloc, b"", k)?;
    put_three_texts(text, b" ", program.thread_name(line.thread), b" ")?;
    put_act(text, alloc, program, line.act)?;
    put_three_texts(
        text,
        preempt_text(line.preempting),
        stop_text(line.stop),
        b"\n",
    )?;
    Ok(())
}

// Appends what a step did: its word, its objects' names, the values that it read and stored, and of
// a `cas` whether it hit.
fn put_act(text: &mut Vec<u8>, alloc: Global, program: &Program, act: Act) -> Result<(), AllocError>
    requires { IsValidAct program.now act }
    ensures { OnOk result (text.new.items ≡ text.old.items ++ act_text program.now act) }
{
    match act {
        Act::Load { variable, value } => {
            put_two_texts(text, b"load ", program.variable_name(variable))?;
            put_value(text, alloc, b" ", value)
        }
        Act::Store { variable, value } => {
            put_two_texts(text, b"store ", program.variable_name(variable))?;
            put_value(text, alloc, b" ", value)
        }
        Act::Add { variable, old, new } => {
            put_two_texts(text, b"add ", program.variable_name(variable))?;
            put_value(text, alloc, b" ", old)?;
            put_value(text, alloc, b" ", new)
        }
        Act::Cas { variable, old, hit } => {
            put_two_texts(text, b"cas ", program.variable_name(variable))?;
            put_value(text, alloc, b" ", old)?;
            put_hit(text, alloc, hit)
        }
        Act::Lock(m) => put_two_texts(text, b"lock ", program.mutex_name(m)),
        Act::Unlock(m) => put_two_texts(text, b"unlock ", program.mutex_name(m)),
        Act::Wait { condition, mutex } => {
            put_two_texts(text, b"wait ", program.condition_name(condition))?;
            put_two_texts(text, b" ", program.mutex_name(mutex))
        }
        Act::Retake(m) => put_two_texts(text, b"retake ", program.mutex_name(m)),
        Act::Signal(c) => put_two_texts(text, b"signal ", program.condition_name(c)),
        Act::Broadcast(c) => put_two_texts(text, b"broadcast ", program.condition_name(c)),
        Act::Acquire(k) => put_two_texts(text, b"acquire ", program.semaphore_name(k)),
        Act::Release(k) => put_two_texts(text, b"release ", program.semaphore_name(k)),
    }
}

// Appends how a `cas` went: `hit` and the value that it stored, or `miss`.
fn put_hit(text: &mut Vec<u8>, alloc: Global, hit: Option<i64>) -> Result<(), AllocError>
    ensures { OnOk result (text.new.items ≡ text.old.items ++ hit_text hit) }
{
    match hit {
        Some(value) => put_value(text, alloc, b" hit ", value),
        None => text.extend_from_slice(b" miss"),
    }
}

// Appends the three lines at the end of a trace: how many preemptions the schedule has, how it
// ends, and the variables' values.
fn put_end_lines(
    text: &mut Vec<u8>,
    alloc: Global,
    program: &Program,
    run: &Run,
) -> Result<(), AllocError>
    requires { IsValidRun program.now run.now }
    ensures { OnOk result (text.new.items ≡ text.old.items ++ end_lines program.now run.now) }
{
    put_number(text, alloc, b"preemptions ", run.preemptions())?;
    put_three_texts(text, b"\nkind ", kind_text(run.kind()), b"\nvars")?;
    put_values(text, alloc, program, run.variables())?;
    text.extend_from_slice(b"\n")?;
    Ok(())
}

// Appends the names and the values of the variables, as ` x=1 y=2`.
fn put_values(
    text: &mut Vec<u8>,
    alloc: Global,
    program: &Program,
    values: &[i64],
) -> Result<(), AllocError>
    requires { length values.now ≡ length program.now.variables }
    ensures { OnOk result
        (text.new.items ≡ text.old.items ++ values_text program.now 0 values.now) }
{
    for (x, value) in values.iter().enumerate() {
        put_two_texts(text, b" ", program.variable_name(x))?;
        put_value(text, alloc, b"=", *value)?;
    }
    Ok(())
}

// Appends a word and a value in decimal, with nothing added between them.
fn put_value(text: &mut Vec<u8>, alloc: Global, word: &[u8], value: i64) -> Result<(), AllocError>
    ensures { OnOk result (text.new.items ≡ text.old.items ++ (word.now ++ signed_decimal value)) }
{
    put_two_texts(text, word, value.to_string(alloc)?.as_bytes())
}

// Appends a word and a number in decimal, with nothing added between them.
fn put_number(
    text: &mut Vec<u8>,
    alloc: Global,
    word: &[u8],
    number: usize,
) -> Result<(), AllocError>
    ensures { OnOk result (text.new.items ≡ text.old.items ++ (word.now ++ decimal number)) }
{
    put_two_texts(text, word, number.to_string(alloc)?.as_bytes())
}

// Appends three texts, with nothing added between them.
fn put_three_texts(
    text: &mut Vec<u8>,
    first: &[u8],
    second: &[u8],
    third: &[u8],
) -> Result<(), AllocError>
    ensures { OnOk result
        (text.new.items ≡ text.old.items ++ (first.now ++ second.now ++ third.now)) }
{
    put_two_texts(text, first, second)?;
    text.extend_from_slice(third)
}

// Appends two texts, with nothing added between them.
fn put_two_texts(text: &mut Vec<u8>, first: &[u8], second: &[u8]) -> Result<(), AllocError>
    ensures { OnOk result (text.new.items ≡ text.old.items ++ (first.now ++ second.now)) }
{
    text.extend_from_slice(first)?;
    text.extend_from_slice(second)
}

// What a step's line says of a preempting switch: ` preempt`; for any other step the empty text.
fn preempt_text(preempting: bool) -> &'static [u8]
    ensures { result.now ≡ preempt_text preempting }
{
    if preempting { b" preempt" } else { b"" }
}

// What a step's line says of a thread that stopped: ` stop` and why; the empty text where the
// thread didn't stop.
fn stop_text(stop: Option<Stop>) -> &'static [u8]
    ensures { result.now ≡ stop_text stop }
{
    match stop {
        Some(Stop::Assert) => b" stop assert",
        Some(Stop::NotHeld) => b" stop not-held",
        Some(Stop::SemFull) => b" stop sem-full",
        None => b"",
    }
}

// The word for how a schedule ends; `none` where the schedule isn't complete.
fn kind_text(kind: Option<Kind>) -> &'static [u8]
    ensures { result.now ≡ kind_text kind }
{
    match kind {
        Some(Kind::Done) => b"done",
        Some(Kind::Failed) => b"failed",
        Some(Kind::Stuck) => b"stuck",
        None => b"none",
    }
}
