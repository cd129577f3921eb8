//! The explanation of a schedule as text, and the names and places that its parts tell.

use explain_cause::{Event, InTurns};
use explain_lines::{Columns, FileLine, InLine, Page, Written, shell_quoted};
use explain_run::{Object, Statement, Step};
use explain_told::Told;
use guest_code::program::Instruction;
use replay::{Act, schedule_text};
use std::alloc::{AllocError, Global};
use std::fmt;
use std::str::from_utf8;

/// How wide the text of an explanation is, and which steps have rows.
#[derive(Clone, Copy)]
pub struct Layout {
    /// Columns of a line, at most; fewer than 40 count as 40, more than 1,000 as 1,000.
    pub width: usize,
    /// A schedule of at most this many steps has a row for each; in a longer one some share rows.
    pub steps: usize,
    /// Whether a search that found it showed that no schedule with fewer preemptions is bad.
    pub is_fewest: Option<bool>,
}

/// What writes the text of an explanation: what is told, and the layout.
#[derive(Drop)]
pub struct TextWriter<'a> {
    pub told: &'a Told<'a>,
    pub layout: Layout,
    pub columns: Columns,
}

/// The explanation as text, with a table of the steps. Only the last line, the command that replays
/// the schedule, may be wider than the layout says. Fails where memory runs out.
pub fn explanation_text(told: &Told<'_>, layout: Layout) -> Result<Vec<u8>, AllocError> {
    TextWriter::new(&*told, layout)?.text(true)
}

/// The explanation without the steps: how the schedule ends and why. Fails where memory runs out.
pub fn why_text(told: &Told<'_>, layout: Layout) -> Result<Vec<u8>, AllocError> {
    TextWriter::new(&*told, layout)?.text(false)
}

/// A statement of a thread as a sentence tells it, with its line: `line 12: lock m`.
#[derive(Clone, Copy)]
pub struct Site<'a> {
    /// The name of the thread.
    pub name: &'a str,
    pub line: InTurn<'a>,
    pub statement: Statement<'a>,
}

/// A line, and the turns in which it is, where it matters: `line 12, turn 2 of 3`.
#[derive(Clone, Copy)]
pub struct InTurn<'a> {
    pub line: InLine<'a>,
    pub turns: InTurns<'a>,
}

impl InTurn<'_> {
    /// A comma where turns are told, for words that go on after them.
    pub fn comma(&self) -> &'static str {
        if self.turns.len() == 0 { "" } else { "," }
    }
}

impl fmt::Display for InTurn<'_> {
    fn fmt<W: fmt::Write>(&self, f: &mut fmt::Formatter<W>) -> fmt::Result {
        write!(f, "{}{}", self.line, self.turns)
    }
}

impl fmt::Display for Site<'_> {
    fn fmt<W: fmt::Write>(&self, f: &mut fmt::Formatter<W>) -> fmt::Result {
        write!(f, "{}: {}", self.line, self.statement)
    }
}

/// Adds an entry to a text that lists entries, after a comma unless it is the first.
pub fn push_entry<D: fmt::Display + Drop>(list: &mut String, entry: D) -> Written {
    if !list.is_empty() {
        list.push_str(", ")?;
    }
    list.write(entry)
}

impl<'a> TextWriter<'a> {
    // A writer without columns is made first, since it is asked how wide they have to be.
    fn new(told: &'a Told<'a>, layout: Layout) -> Result<TextWriter<'a>, AllocError> {
        let mut writer = TextWriter {
            told,
            layout,
            columns: Columns::new(told.alloc, layout.width, &[], 0)?,
        };
        let (threads, line) = (writer.column_contents()?, writer.line_cell_width()?);
        writer.columns = Columns::new(told.alloc, layout.width, threads.as_slice(), line)?;
        Ok(writer)
    }

    fn text(&self, with_steps: bool) -> Result<Vec<u8>, AllocError> {
        let mut page = Page::new(self.told.alloc, self.columns.width);
        self.put_head(&mut page)?;
        page.put_empty_line()?;
        let steps = self.told.explanation.steps().len();
        let mut shown = steps;
        if with_steps {
            shown = self.put_table(&mut page)?;
            page.put_empty_line()?;
        }
        self.put_reasons(&mut page)?;
        if shown != steps {
            let words = format_args!("{shown} of {steps} steps are shown; --all shows each.");
            page.put_line(words, 2)?;
        }
        page.put_unwrapped(self.replay_command()?.as_str())?;
        Ok(page.into_bytes())
    }

    // `-`, the schedule without steps, would stand for a spelling that isn't UTF-8, which none is.
    fn replay_command(&self) -> Result<String, AllocError> {
        let ran = self.told.explanation.steps().len();
        let schedule = self.told.explanation.schedule().get(..ran).unwrap_or(&[]);
        let spelled = schedule_text(self.told.alloc, schedule)?;
        let schedule = from_utf8(spelled.as_slice()).unwrap_or("-");
        let file = shell_quoted(self.told.alloc, self.told.file_name())?;
        format!(in self.told.alloc; "Replay: ctxbound replay {file} {schedule}")
    }

    /// The names of the threads of these numbers, separated by commas.
    pub fn thread_names(&self, threads: &[u8]) -> Result<String, AllocError> {
        let mut names = String::new(self.told.alloc);
        for thread in threads {
            push_entry(&mut names, self.told.thread_name(*thread))?;
        }
        Ok(names)
    }

    /// The number of the instruction that a thread has come to at the end; 0 if there is no thread.
    pub fn instruction_at_end(&self, thread: u8) -> usize {
        match self.told.explanation.thread_state(thread) {
            Some(standing) => standing.instruction,
            None => 0,
        }
    }

    /// The line that a thread has come to at the end; line 0 if it ended or there is no thread.
    pub fn line_at_end(&self, thread: u8) -> FileLine<'_> {
        self.told.line(thread, self.instruction_at_end(thread))
    }

    /// The statement of an instruction of a thread, with the name of the thread and the line.
    pub fn site(&self, thread: u8, instruction: usize) -> Site<'_> {
        Site {
            name: self.told.thread_name(thread),
            line: InTurn {
                line: InLine(self.told.line(thread, instruction)),
                turns: self.told.turns.of(thread, instruction),
            },
            statement: self.told.statement(thread, instruction),
        }
    }

    /// The statement of an event, with the name of its thread and the line.
    pub fn event_site(&self, event: &Event) -> Site<'_> {
        self.site(event.thread, event.instruction)
    }

    /// As text, what the thread of a step did in it.
    pub fn step_text(&self, step: &Step) -> Result<String, AllocError> {
        let retakes = matches!(step.line.act, Act::Retake(_));
        self.action_text(step.line.thread, step.instruction, retakes)
    }

    /// As text, the statement at instruction `at`; if a `wait` `retakes`, `retake` and its mutex.
    pub fn action_text(&self, thread: u8, at: usize, retakes: bool) -> Result<String, AllocError> {
        match self.told.source.instruction(thread, at) {
            Some(Instruction::Wait { mutex: m, .. }) if retakes => {
                format!(in self.told.alloc; "retake {}", self.told.object_name(Object::Mutex(m)))
            }
            _ => self.site(thread, at).statement.to_string(self.told.alloc),
        }
    }
}
