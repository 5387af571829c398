ghost use Rattle.std.specs.Prelude.{◌≡◌, List, [], ◌++◌, IfOk, IfErr};
ghost use Rattle.caa_base.specs.declared.written.entry.Entry.{Entry as JournalEntry};
ghost use Rattle.place_plan.specs.Plans.PlanValue.{Plan as PlanValue};
ghost use Rattle.place_plan.specs.RulesOfJournals.WellFormed.{IsWellFormed};
ghost use Rattle.journal_text.specs.Texts.Text.{first_line, entry_line, entries_text};
ghost use Rattle.entry_log.specs.declared.sink_log.LogState.{LogState};
ghost use Rattle.entry_log.specs.Logs.{IsFresh, Tells, TextCame, WasCut, LineCame};

use crate::log::Log;
use caa_base::outside::reading::write_all;
use caa_base::outside::sink::Sink;
use caa_base::written::entry::{Entry, Failed, OutOfMemory};
use journal_text::texts::text_writer::push_entry;
use place_plan::plans::plan::Plan;
use std::alloc::Global;
use std::marker::Model;
use std::snapshot::Snapshot;

/// Whether a log still writes, and why it has stopped.
#[derive(Clone, Copy, Debug, PartialEq, Eq)]
pub enum LogState {
    /// All lines so far were written.
    Whole,
    /// A write failed.
    Failed,
    /// No memory was found for a line.
    NoMemory,
}

/// A log in a sink: each line is written by one call as its entry is made, from an empty journal on.
///
/// Where a write fails or a line finds no memory, the log has stopped: at most a front of that line was written, and nothing is written
/// any more.
#[derive(Drop)]
pub struct SinkLog<K> {
    sink: K,
    line: Vec<u8>,
    opened: Snapshot<K>,
    state: LogState,
}

impl<K> Model for SinkLog<K> {
    ghost use Rattle.entry_log.specs.Logs.{SinkLog};

    ghost Value = { SinkLog K };

    ghost view = { λ l. record { sink = l.sink; opened = l.opened.value; state = l.state } };
}

/// The sink in which a log couldn't be opened, since its first line wasn't written.
#[derive(Drop)]
pub struct Unopened<K> {
    pub sink: K,
}

impl<K: Sink + Drop> SinkLog<K> {
    /// Writes the first line to a sink that is fresh. Where that fails, a front of it was written, and not all, and the sink is handed
    /// back.
    pub fn open(alloc: Global, mut sink: K) -> Result<SinkLog<K>, Unopened<K>>
        requires { IsFresh ⟦<K as Sink>⟧ sink }
        ensures opened { IfOk result (λ log. log.opened ≡ sink) }
        ensures told { IfOk result (λ log. (plan : PlanValue) → Tells ⟦<K as Sink>⟧ log plan []) }
        ensures refused { IfErr result (λ e. WasCut ⟦<K as Sink>⟧ sink e.sink first_line) }
    {
        let opened = Snapshot::of(&sink);
        match write_all(&mut sink, b"journal\n") {
            Ok(()) => Ok(SinkLog {
                sink,
                line: Vec::new(alloc),
                opened,
                state: LogState::Whole,
            }),
            Err(Failed) => Err(Unopened { sink }),
        }
    }

    /// Whether the log still writes, and why it has stopped.
    pub fn state(&self) -> LogState
        ensures { result ≡ self.now.state }
    {
        self.state
    }

    /// Writes what stands behind the entries in the text of the journal, so that all of the text is written. Where a write fails or
    /// had failed, a front of the text was written and not all.
    pub fn complete(&mut self, rest: &[u8]) -> Result<(), Failed>
        requires memory { self.old.state ≡ LogState.NoMemory → ⊥ }
        ensures opened { self.new.opened ≡ self.old.opened }
        ensures came { (plan : PlanValue) (journal : List JournalEntry) → Tells ⟦<K as Sink>⟧ self.old plan journal
            → TextCame ⟦<K as Sink>⟧ self.old.opened self.new.sink (entries_text plan journal ++ rest.now) result }
    {
        match self.state {
            LogState::Whole => write_all(&mut self.sink, rest),
            LogState::Failed => Err(Failed),
            LogState::NoMemory => unreachable!(),
        }
    }

    /// The sink.
    pub fn into_sink(self) -> K
        ensures { result ≡ self.sink }
    {
        self.sink
    }
}

/// Writes the line of an entry by one call.
fn write_line<K: Sink>(sink: &mut K, line: &mut Vec<u8>, plan: &Plan, entry: &Entry) -> LogState
    requires { IsWellFormed plan.now entry.now }
    ensures { LineCame ⟦<K as Sink>⟧ sink.old sink.new (entry_line plan.now entry.now) result }
{
    line.clear();
    match push_entry(line, plan, entry) {
        Ok(()) => match write_all(sink, line.as_slice()) {
            Ok(()) => LogState::Whole,
            Err(Failed) => LogState::Failed,
        },
        Err(OutOfMemory) => LogState::NoMemory,
    }
}

impl<K: Sink> Log for SinkLog<K> {
    ghost tells = { λ log plan journal. Tells ⟦<K as Sink>⟧ log plan journal };

    fn add(&mut self, plan: &Plan, entry: &Entry) {
        match self.state {
            LogState::Whole => {
                self.state = write_line(&mut self.sink, &mut self.line, plan, entry);
            }
            LogState::Failed | LogState::NoMemory => {}
        }
    }
}
