//! What is told, and done, as entries are made.

use caa_base::written::entry::{Entry, Outcome, Place};
use entry_log::watched::Watch;
use journal_text::texts::text_writer::told_name;
use place_plan::plans::plan::Plan;
use place_plan::rules::one_entry::{ends_play, outcome_at};
use std::io::Write;

/// It tells an operator of each play that ended otherwise than by commit, up to the first that failed, by which the device is given up
/// unless it goes on; and how far all plays are.
#[derive(Drop)]
pub struct Watcher<W> {
    operator: W,
    goes_on: bool,
    /// Whether the device was given up.
    is_over: bool,
    each: u64,
    entries: u64,
}

/// Which of the plays has this place, counted from 1 on; 0 where it is no play's.
fn play_number(plan: &Plan, place: Place) -> u64 {
    for (index, play) in plan.play_places().iter().enumerate() {
        if *play == place {
            return index as u64 + 1;
        }
    }
    0
}

impl<W: Write> Watcher<W> {
    /// One over a device that is given up when a play has failed, or goes on. It tells how far all is after each so many entries; never,
    /// where that is 0.
    pub fn new(operator: W, goes_on: bool, each: u64) -> Self {
        Watcher {
            operator,
            goes_on,
            is_over: false,
            each,
            entries: 0,
        }
    }

    /// Tells of a play that ended so, which is no commit: its number among all, its action, its place, and what was told outside.
    fn tell_end(&mut self, plan: &Plan, entry: &Entry, outcome: Outcome) {
        let (number, place) = (play_number(plan, entry.place), entry.place);
        let _ = write!(self.operator, "play {number} ");
        let _ = self.operator.write_all(plan.action_name(place));
        let _ = write!(self.operator, " (place {place}) ended: ");
        let _ = self.operator.write_all(match outcome {
            Outcome::Commit => b"commit",
            Outcome::Signal(_) => b"signal ",
            Outcome::Undone => b"undone",
            Outcome::Aborted => b"aborted",
            Outcome::Failed if self.goes_on => b"failed",
            Outcome::Failed => b"failed; nothing more is sent but stop",
        });
        let _ = self
            .operator
            .write_all(told_name(plan, entry).unwrap_or_default());
        let _ = self.operator.write_all(b"\n");
    }

    /// A play has ended so.
    fn note_end(&mut self, plan: &Plan, entry: &Entry, outcome: Outcome) {
        if outcome != Outcome::Commit && !self.is_over {
            self.tell_end(plan, entry, outcome);
        }
        if outcome == Outcome::Failed && !self.goes_on {
            self.is_over = true;
        }
    }

    /// One entry more was made.
    fn count(&mut self, plan: &Plan) {
        self.entries = self.entries.saturating_add(1);
        if self.each > 0 && self.entries % self.each == 0 {
            let (entries, bound) = (self.entries, plan.bound());
            let _ = write!(self.operator, "entry {entries} of at most {bound}\n");
        }
    }
}

impl<W: Write> Watch for Watcher<W> {
    fn saw(&mut self, plan: &Plan, entry: &Entry) {
        self.count(plan);
        if ends_play(plan, entry) {
            self.note_end(plan, entry, outcome_at(entry));
        }
    }
}
