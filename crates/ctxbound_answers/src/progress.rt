//! How far a search is, told on standard error while it goes on.

use runner::{Gate, Progress};
use std::fmt;
use std::io::Eprint;
use std::sync::atomic::{AtomicU64, Ordering};

/// A number that is shown with its digits in groups of three, with commas between them.
#[derive(Clone, Copy)]
struct GroupedNumber(u64);

impl fmt::Display for GroupedNumber {
    // The digits of the number in groups of three, with commas between them: a `u64` has at most
    // seven groups. The first is shown without leading zeros.
    fn fmt<W: fmt::Write>(&self, f: &mut fmt::Formatter<W>) -> fmt::Result {
        let groups = [
            self.0 / 1_000_000_000_000_000_000,
            self.0 / 1_000_000_000_000_000 % 1_000,
            self.0 / 1_000_000_000_000 % 1_000,
            self.0 / 1_000_000_000 % 1_000,
            self.0 / 1_000_000 % 1_000,
            self.0 / 1_000 % 1_000,
            self.0 % 1_000,
        ];
        let mut shown = groups.iter().skip_while(|group| **group == 0);
        write!(f, "{}", shown.next().unwrap_or(&0))?;
        for group in shown {
            write!(f, ",{group:03}")?;
        }
        Ok(())
    }
}

/// The line that tells how far a search is.
#[derive(Clone, Copy)]
struct ProgressLine(Progress);

impl fmt::Display for ProgressLine {
    // How far a search is: its bound, how many schedules were tried, how many of them are bad, how
    // many items are open, and, where a next bound may follow, how many prefixes are deferred.
    fn fmt<W: fmt::Write>(&self, f: &mut fmt::Formatter<W>) -> fmt::Result {
        let progress = self.0;
        match progress.bound {
            Some(bound) => write!(f, "bound {bound}: ")?,
            None => write!(f, "unbounded: ")?,
        }
        let (tried, bad) = (GroupedNumber(progress.tried), GroupedNumber(progress.bad));
        let open_items = GroupedNumber(progress.open_items as u64);
        write!(f, "{tried} tried, {bad} bad, {open_items} open")?;
        if progress.lists {
            write!(f, ", {} deferred", GroupedNumber(progress.deferred as u64))?;
        }
        Ok(())
    }
}

/// The gate of the program's searches: it stops nobody. Where it is asked to, it tells on standard
/// error how far the search is, at each bound and each time that twice as many schedules were tried
/// as when it told last. Where standard error fails the search goes on.
#[derive(Drop)]
pub struct ProgressGate<'a, R> {
    rt: &'a R,
    is_asked: bool,
    /// Two more than the bound that the last line told of, 1 after a line without a bound, 0 before
    /// the first line.
    told: AtomicU64,
    /// How many schedules have to be tried before another line tells of the bound that `told` has.
    next: AtomicU64,
}

impl<'a, R> ProgressGate<'a, R> {
    /// A gate that lets every worker go on, and prints the search's progress where `is_asked`.
    pub fn new(rt: &'a R, is_asked: bool) -> ProgressGate<'a, R> {
        ProgressGate {
            rt,
            is_asked,
            told: AtomicU64::new(0),
            next: AtomicU64::new(0),
        }
    }
}

impl<R: Eprint + Sync> Gate for ProgressGate<'_, R> {
    ghost use Rattle.std.specs.Prelude.{false};

    ghost stops = { λ _. false };

    // False: the gate stops no worker.
    fn may_stop(&self) -> bool {
        false
    }

    // Tells how far the search is, where that was asked for: once it is at a new bound, and once
    // twice as many schedules were tried as when it told last. `told` keeps a bound as itself plus
    // two, and no bound as 1, since 0 stands for no line yet.
    fn round_ended(&self, progress: Progress) {
        let bound = progress.bound.map_or(1, |bound| u64::from(bound) + 2);
        let is_new = self.told.swap(bound, Ordering::SeqCst) != bound;
        if self.is_asked && (is_new || progress.tried >= self.next.load(Ordering::SeqCst)) {
            let next = progress.tried.saturating_mul(2).max(1);
            self.next.store(next, Ordering::SeqCst);
            let _ = self.rt.eprintln(ProgressLine(progress));
        }
    }
}
