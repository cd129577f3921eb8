//! The columns of the table of a schedule's steps. Widths and places are in characters.

use crate::file_line::FileLine;
use crate::put_truncated;
use std::alloc::{AllocError, Global};

// The least width of a table.
const LEAST_WIDTH: usize = 40;
// The greatest width of a table.
const GREATEST_WIDTH: usize = 1_000;
/// Where the column of the lines begins, after the numbers of the steps and a blank.
pub const STEP: usize = 5;
// The least width of the column that has the line of each step's statement.
const LEAST_LINE_WIDTH: usize = 4;
// The greatest width of the column that has the line of each step's statement.
const GREATEST_LINE_WIDTH: usize = 24;
// The width below which a thread's column isn't narrowed, where it has one of its own.
const OWN_WIDTH: usize = 13;
// The width below which the column that threads share isn't narrowed.
const SHARED_WIDTH: usize = 28;
// Columns between the name and the statement of a thread in the column that threads share.
const COLON: usize = 2;
/// Blanks between two columns.
pub const GAP: usize = 2;
// The least width of the column of what a step changed, where threads have columns of their own.
const CHANGES_WIDTH: usize = 29;

/// How wide what is in a thread's column is.
#[derive(Clone, Copy, Default)]
pub struct Content {
    /// The thread's name.
    pub name: usize,
    /// The widest of its cells.
    pub cell: usize,
}

impl Content {
    // The width of a column that the thread has for its own.
    fn own_width(self) -> usize {
        self.name.max(self.cell)
    }

    // The width of a column that the thread shares, where its name is in each of its cells.
    fn shared_width(self) -> usize {
        self.name.saturating_add(COLON).saturating_add(self.cell)
    }
}

/// Where each column of a table begins.
#[derive(Drop)]
pub struct Columns {
    /// How wide the lines of the table are, at most.
    pub width: usize,
    /// Where the first thread's column begins, after the step and the line.
    pub margin: usize,
    /// How many threads have a column of their own, the first ones.
    pub own: usize,
    /// Whether there are other threads: they share one column.
    pub is_shared: bool,
    /// How wide a thread's name may be in the shared column, so that each statement fits beside it.
    pub label: usize,
    /// Where the column of what a step changed begins.
    pub changes: usize,
    // How wide the columns of threads are, the shared one last.
    widths: Vec<usize>,
}

impl Columns {
    /// The columns of a table `width` wide for threads with this content, whose cells with the
    /// lines of statements are up to `line` wide. The first threads, as many as fit, have columns
    /// of their own, and all others share one. Each is as wide as what is in it; where that doesn't
    /// fit, the widest are narrowed. A width that is too small or too great counts as the least or
    /// the greatest. Fails where memory runs out.
    pub fn new(
        alloc: Global,
        width: usize,
        threads: &[Content],
        line: usize,
    ) -> Result<Columns, AllocError> {
        let width = width.max(LEAST_WIDTH).min(GREATEST_WIDTH);
        let margin = STEP + line.max(LEAST_LINE_WIDTH).min(GREATEST_LINE_WIDTH) + GAP;
        let room = width.saturating_sub(margin);
        let spare = room.saturating_sub(CHANGES_WIDTH);
        let shared = SHARED_WIDTH.min(room.saturating_sub(GAP) / 2);
        let is_shared = own_columns(threads, spare) < threads.len();
        let rest = if is_shared { shared + GAP } else { 0 };
        let own = own_columns(threads, spare.saturating_sub(rest));
        let others = threads.iter().skip(own);
        let cell = others.map(|thread| thread.cell).max().unwrap_or(0);
        let widths = widths(alloc, threads, own, shared, spare)?;
        let last = widths.last().copied().unwrap_or(0);
        let mut columns = Columns {
            width,
            margin,
            own,
            is_shared,
            label: last.saturating_sub(cell.saturating_add(COLON)),
            changes: 0,
            widths,
        };
        columns.changes = columns.start_of(columns.widths.len());
        Ok(columns)
    }

    // Where the column of this number begins, of those of threads; for their number, where the last
    // of them ends, with the gap after it.
    fn start_of(&self, column: usize) -> usize {
        let before = self.widths.iter().take(column);
        before.fold(self.margin, |start, width| {
            usize::saturating_add(start, *width).saturating_add(GAP)
        })
    }

    /// Where the column of a thread begins, its own one or the shared one. Threads count from 0.
    pub fn start(&self, thread: usize) -> usize {
        self.start_of(thread.min(self.own))
    }

    /// How wide the column of a thread is, its own one or the shared one.
    pub fn width_of(&self, thread: usize) -> usize {
        let column = thread.min(self.own);
        self.widths.get(column).copied().unwrap_or(0)
    }

    /// Where the last of the columns of threads ends, without the gap after it.
    pub fn end(&self) -> usize {
        self.changes.saturating_sub(GAP)
    }
}

// How many of these threads, the first ones, can have columns of their own in `room`, with the gaps
// after them, where the columns are narrowed as far as they may be.
fn own_columns(threads: &[Content], room: usize) -> usize {
    let mut left = room;
    for (count, thread) in threads.iter().enumerate() {
        let width = thread.own_width().min(OWN_WIDTH);
        match left.checked_sub(width + GAP) {
            Some(rest) => left = rest,
            None => return count,
        }
    }
    threads.len()
}

// The widths of the columns of these threads, of which the first `own` have columns of their own
// and the others share one: what is in them, or less where that doesn't fit into `room` with the
// gaps after them. `shared` is the width below which the shared one isn't narrowed.
fn widths(
    alloc: Global,
    threads: &[Content],
    own: usize,
    shared: usize,
    room: usize,
) -> Result<Vec<usize>, AllocError> {
    let mut wanted = Vec::new(alloc);
    for thread in threads.iter().take(own) {
        wanted.push((thread.own_width(), OWN_WIDTH))?;
    }
    let others = threads.iter().skip(own);
    if let Some(width) = others.map(|thread| thread.shared_width()).max() {
        wanted.push((width, shared))?;
    }
    let narrowed = |most: usize, (width, least): (usize, usize)| width.min(most.max(least));
    let fits = |most: &usize| {
        let all = wanted.iter().fold(0, |sum, each| {
            usize::saturating_add(sum, narrowed(*most, *each)).saturating_add(GAP)
        });
        all <= room
    };
    let most = (0..=room).rev().find(fits).unwrap_or(0);
    wanted
        .iter()
        .map(|each| narrowed(most, *each))
        .collect(alloc)
}

/// The cell of a table for a line of a file: `name:12`, the name without folders and cut off where
/// it is too long for the column; the number alone where the name isn't to be printed.
pub fn line_cell(alloc: Global, line: FileLine<'_>) -> Result<String, AllocError> {
    let number = format!(in alloc; "{}", line.line)?;
    if !line.is_named {
        return Ok(number);
    }
    let name = line.file.rsplit('/').next().unwrap_or("");
    let mut cell = String::new(alloc);
    put_truncated(
        &mut cell,
        name,
        GREATEST_LINE_WIDTH
            .saturating_sub(number.len())
            .saturating_sub(1),
    )?;
    write!(cell, ":{number}")?;
    Ok(cell)
}
