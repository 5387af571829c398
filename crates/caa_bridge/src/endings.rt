//! How the plays of a journal ended.

use caa_base::written::entry::{Entry, Kind, OutOfMemory, Outcome, Place};
use caa_base::written::journal::Journal;
use caa_commands::status::Status;
use journal_text::texts::text_writer::told_name;
use line_plant::noted::Link;
use place_plan::plans::plan::Plan;
use place_plan::rules::one_entry::{ends_play, outcome_at};
use std::alloc::Global;
use std::io::Write;

/// The status of a play that was signalled or undone, where the call is strict.
const SIGNALLED_OR_UNDONE: u8 = 7;

/// The status of a play that wasn't begun at the machine, where the call is strict.
const NOT_BEGUN: u8 = 9;

/// How many plays told an exception of this name outside.
#[derive(Drop)]
struct Signals<'a> {
    name: &'a [u8],
    count: u64,
}

/// How many plays ended in each way. Those that began after the device was given up are apart: the machine never heard of them.
#[derive(Drop)]
pub struct Endings<'a> {
    committed: u64,
    signals: Vec<Signals<'a>>,
    undone: u64,
    failed: u64,
    not_begun: u64,
}

/// Whether the device was asked for a put by the step of this entry.
fn is_attempt(entry: &Entry) -> bool {
    matches!(entry.kind, Kind::Write | Kind::PutFault | Kind::Restore)
}

/// Whether the device was given up at the step of this entry, which is the attempt of this number if it is one.
fn ends_link(plan: &Plan, entry: &Entry, attempt: u64, link: Link) -> bool {
    match link {
        Link::Whole => false,
        Link::Broken { number } => is_attempt(entry) && attempt == number,
        Link::GivenUp => ends_play(plan, entry) && outcome_at(entry) == Outcome::Failed,
    }
}

/// The entries up to the one at which the device was given up, and those behind it.
fn cut_at_link<'a>(plan: &Plan, entries: &'a [Entry], link: Link) -> (&'a [Entry], &'a [Entry]) {
    let mut attempts: u64 = 0;
    for (index, entry) in entries.iter().enumerate() {
        if is_attempt(entry) {
            attempts = attempts.saturating_add(1);
        }
        if ends_link(plan, entry, attempts, link) {
            return entries.split_at(index + 1);
        }
    }
    (entries, &[])
}

/// For each place, whether these entries begin it as a play.
fn begun_by(alloc: Global, plan: &Plan, entries: &[Entry]) -> Result<Vec<bool>, OutOfMemory> {
    let mut begun = Vec::new(alloc);
    for _ in 0..plan.places() {
        begun.push(false)?;
    }
    for entry in entries {
        if entry.kind == Kind::Start && plan.parent(entry.place).is_none() {
            mark(begun.as_mut_slice(), entry.place);
        }
    }
    Ok(begun)
}

/// Marks a place, if there is such a place.
fn mark(places: &mut [bool], place: Place) {
    if let Some(it) = places.get_mut(place as usize) {
        *it = true;
    }
}

impl<'a> Endings<'a> {
    /// How the plays of this journal ended, over a link that ended so.
    pub fn of(
        alloc: Global,
        plan: &'a Plan,
        journal: &Journal,
        link: Link,
    ) -> Result<Self, OutOfMemory> {
        let entries = journal.as_slice();
        let (_, behind) = cut_at_link(plan, entries, link);
        let late = begun_by(alloc, plan, behind)?;
        let mut endings = Endings {
            committed: 0,
            signals: Vec::new(alloc),
            undone: 0,
            failed: 0,
            not_begun: 0,
        };
        for entry in entries {
            if ends_play(plan, entry) {
                endings.add(plan, entry, late.as_slice())?;
            }
        }
        Ok(endings)
    }

    /// One play more that ended by this entry.
    fn add(&mut self, plan: &'a Plan, entry: &Entry, late: &[bool]) -> Result<(), OutOfMemory> {
        let is_late = late.get(entry.place as usize).copied().unwrap_or(false);
        match outcome_at(entry) {
            _ if is_late => count_up(&mut self.not_begun),
            Outcome::Commit => count_up(&mut self.committed),
            Outcome::Signal(_) => {
                self.add_signal(told_name(plan, entry).unwrap_or_default())?;
            }
            Outcome::Undone | Outcome::Aborted => count_up(&mut self.undone),
            Outcome::Failed => count_up(&mut self.failed),
        }
        Ok(())
    }

    /// One play more that told this exception outside.
    fn add_signal(&mut self, name: &'a [u8]) -> Result<(), OutOfMemory> {
        for signals in self.signals.as_mut_slice() {
            if signals.name == name {
                count_up(&mut signals.count);
                return Ok(());
            }
        }
        self.signals.push(Signals { name, count: 1 })?;
        Ok(())
    }

    /// Whether each play committed.
    pub fn are_well(&self) -> bool {
        self.signals.is_empty() && self.undone == 0 && self.failed == 0 && self.not_begun == 0
    }

    /// How many plays weren't begun at the machine.
    pub fn not_begun(&self) -> u64 {
        self.not_begun
    }

    /// The status of a strict call, where all was played and written: that some play wasn't begun goes before that one failed, and that
    /// before one that was signalled or undone.
    pub fn strict_status(&self) -> u8 {
        if self.not_begun > 0 {
            NOT_BEGUN
        } else if self.failed > 0 {
            Status::SomeFailed.code()
        } else if self.are_well() {
            Status::Done.code()
        } else {
            SIGNALLED_OR_UNDONE
        }
    }

    /// Tells them in a line.
    pub fn tell<W: Write>(&self, operator: &mut W) {
        let _ = operator.write_all(b"plays:");
        tell_count(operator, b"commit", self.committed);
        if !self.signals.is_empty() {
            let _ = operator.write_all(b" signal");
        }
        for signals in self.signals.as_slice() {
            tell_count(operator, signals.name, signals.count);
        }
        tell_count(operator, b"undone", self.undone);
        tell_count(operator, b"failed", self.failed);
        tell_count(operator, b"not begun", self.not_begun);
        let _ = operator.write_all(b"\n");
    }
}

/// One more.
fn count_up(count: &mut u64) {
    *count = count.saturating_add(1);
}

/// Tells how many plays ended so, where any did.
fn tell_count<W: Write>(operator: &mut W, word: &[u8], count: u64) {
    if count > 0 {
        let _ = operator.write_all(b" ");
        let _ = operator.write_all(word);
        let _ = write!(operator, " {count}");
    }
}
