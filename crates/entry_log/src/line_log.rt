//! A log in a sink, which takes no memory.

ghost use Rattle.std.specs.Prelude.{◌≡◌, List, true, false, [], ◌∷◌, ◌++◌};
ghost use Rattle.caa_base.specs.declared.written.entry.Entry.{Entry as JournalEntry};
ghost use Rattle.place_plan.specs.Plans.PlanValue.{Plan as PlanValue};
ghost use Rattle.place_plan.specs.RulesOfJournals.WellFormed.{IsWellFormed};
ghost use Rattle.journal_text.specs.Texts.Naming.{is_well_named};
ghost use Rattle.journal_text.specs.Texts.Text.{entries_text};
ghost use Rattle.entry_log.specs.Live.{Opening};
ghost use Rattle.entry_log.specs.LineLogs.{AllCame, Tells, stage_after};

use caa_base::outside::reading::write_all;
use caa_base::outside::sink::Sink;
use caa_base::written::entry::{Entry, Failed};
use journal_text::texts::text_blocks::write_line;
use place_plan::plans::plan::Plan;
use place_plan::rules::well_formed::is_well_formed;

/// How far a log has come.
#[derive(Clone, Copy, Debug, PartialEq, Eq)]
pub enum LogStage {
    /// Nothing was written yet.
    Unopened,
    /// The first line was written, and that of each entry since.
    Whole,
    /// A write failed, and nothing is written any more.
    Failed,
}

/// The lines of a journal in a sink: each is written by one call of the sink, and none behind a write that failed.
#[derive(Drop)]
pub struct LineLog<K> {
    pub sink: K,
    pub stage: LogStage,
}

/// How a log stands after a write.
fn stage_after(written: Result<(), Failed>) -> LogStage
    ensures { result ≡ stage_after written }
{
    match written {
        Ok(()) => LogStage::Whole,
        Err(Failed) => LogStage::Failed,
    }
}

impl<K: Sink> LineLog<K> {
    /// Writes the first line, if nothing was written yet.
    fn begin(&mut self)
        ensures told { (plan : PlanValue) (opening : Opening) (entries : List JournalEntry)
            → Tells ⟦<K as Sink>⟧ plan opening self.old entries → Tells ⟦<K as Sink>⟧ plan opening self.new entries }
        ensures begun { self.new.stage ≡ LogStage.Unopened → ⊥ }
    {
        if self.stage == LogStage::Unopened {
            self.stage = stage_after(write_all(&mut self.sink, b"journal\n"));
        }
    }

    /// Writes the first line where a device was laid out, if nothing was written yet.
    pub fn begin_if(&mut self, done: bool)
        ensures told { (plan : PlanValue) (opening : Opening) (entries : List JournalEntry)
            → Tells ⟦<K as Sink>⟧ plan opening self.old entries → Tells ⟦<K as Sink>⟧ plan opening self.new entries }
        ensures begun { done ≡ true → self.new.stage ≡ LogStage.Unopened → ⊥ }
        ensures same { done ≡ false → self.new ≡ self.old }
    {
        if done {
            self.begin();
        }
    }

    /// Writes the line of an entry, unless a write failed before.
    fn go_on(&mut self, plan: &Plan, entry: &Entry)
        requires named { is_well_named plan.now ≡ true }
        requires formed { IsWellFormed plan.now entry.now }
        requires begun { self.old.stage ≡ LogStage.Unopened → ⊥ }
        ensures told { (opening : Opening) (entries : List JournalEntry) → Tells ⟦<K as Sink>⟧ plan.now opening self.old entries
            → Tells ⟦<K as Sink>⟧ plan.now opening self.new (entries ++ entry.now ∷ []) }
        ensures begun { self.new.stage ≡ LogStage.Unopened → ⊥ }
    {
        match self.stage {
            LogStage::Whole => {
                let written = write_line(&mut self.sink, plan, entry);
                self.stage = stage_after(written);
            }
            LogStage::Failed => {}
            LogStage::Unopened => unreachable!(),
        }
    }

    /// Writes the line of an entry, behind the first line. An entry that isn't well formed has none.
    pub fn add(&mut self, plan: &Plan, entry: &Entry)
        requires { is_well_named plan.now ≡ true }
        ensures told { (opening : Opening) (entries : List JournalEntry) → IsWellFormed plan.now entry.now
            → Tells ⟦<K as Sink>⟧ plan.now opening self.old entries
            → Tells ⟦<K as Sink>⟧ plan.now opening self.new (entries ++ entry.now ∷ []) }
        ensures begun { self.new.stage ≡ LogStage.Unopened → ⊥ }
    {
        self.begin();
        if is_well_formed(plan, entry) {
            self.go_on(plan, entry);
        }
    }

    /// Writes what stands behind the entries in the text of a journal, so that all of the text is written. Where a write fails or had
    /// failed, a front of the text was written and not all.
    pub fn complete(&mut self, rest: &[u8]) -> Result<(), Failed>
        ensures { (plan : PlanValue) (opening : Opening) (entries : List JournalEntry)
            → Tells ⟦<K as Sink>⟧ plan opening self.old entries
            → AllCame ⟦<K as Sink>⟧ opening self.new.sink (entries_text plan entries ++ rest.now) result }
    {
        self.begin();
        match self.stage {
            LogStage::Whole => write_all(&mut self.sink, rest),
            LogStage::Failed => Err(Failed),
            LogStage::Unopened => unreachable!(),
        }
    }
}
