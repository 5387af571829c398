//! The text of a journal that goes out as it is made: the lines of some entries at once, so that it takes no memory.

ghost use Rattle.std.specs.Prelude.{◌≡◌, ◌≤◌, ◌+◌, ◌*◌, ◌++◌, true, length, take, is_err, IfOk, OnOk, OnErr};
ghost use Rattle.std.specs.List.{flat_map};
ghost use Rattle.std.specs.Io.KnownBytes.{append_known};
ghost use Rattle.caa_base.specs.Outside.Counts.{CountsFault};
ghost use Rattle.caa_base.specs.Outside.Writing.{WrotePart};
ghost use Rattle.place_plan.specs.RulesOfJournals.WellFormed.{IsWellFormed, AllWellFormed};
ghost use Rattle.journal_text.specs.Texts.Naming.{is_well_named};
ghost use Rattle.journal_text.specs.Texts.Room.{spare, most_line};
ghost use Rattle.journal_text.specs.Texts.Text.{entry_line, entries_text, rest_lines};
ghost use Rattle.journal_text.specs.Watching.Looks.{AreOfPlan};

use crate::looks::seens::Seens;
use crate::texts::entry_writer::write_entry;
use crate::texts::text_writer::push_rest;
use caa_base::outside::reading::write_all;
use caa_base::outside::sink::Sink;
use caa_base::written::entry::{Entry, Failed, OutOfMemory};
use caa_base::written::journal::Journal;
use place_plan::plans::plan::Plan;
use std::alloc::Global;

/// How many bytes of lines are gathered at most before they are written.
const BLOCK: usize = 65_536;

/// The lines of how many entries are gathered at most. They fit in a block, as long as names may be.
const AT_ONCE: usize = 512;

/// Room for the line of any entry, as long as names may be.
const LINE_ROOM: usize = 128;

/// What stands behind the lines of the entries in the text of a journal: the value of each object, the outcome of each place, and
/// what was seen.
pub fn write_rest(
    alloc: Global,
    plan: &Plan,
    journal: &Journal,
    seens: &Seens,
) -> Result<Vec<u8>, OutOfMemory>
    requires entries { AllWellFormed plan.now journal.now.entries }
    requires watches { AreOfPlan plan.now seens.now.seens }
    ensures { IfOk result (λ rest. rest.items ≡ rest_lines plan.now journal.now.entries seens.now.seens) }
{
    let mut rest = Vec::new(alloc);
    push_rest(alloc, &mut rest, plan, journal.as_slice(), seens.as_slice())?;
    Ok(rest)
}

/// Writes the text of a journal to a sink, with the lines of its entries as they are made, and `rest` behind them. It takes no memory.
///
/// Where a write fails, only a part of the text was written, from its front and not to its end.
pub fn write_in_blocks<K: Sink>(
    sink: &mut K,
    plan: &Plan,
    journal: &Journal,
    rest: &[u8],
) -> Result<(), Failed>
    requires named { is_well_named plan.now ≡ true }
    requires entries { AllWellFormed plan.now journal.now.entries }
    ensures done { OnOk result
        (K.held sink.new ≡ append_known (K.held sink.old) (entries_text plan.now journal.now.entries ++ rest.now)) }
    ensures part { OnErr result
        (WrotePart (K.held sink.old) (K.held sink.new) (entries_text plan.now journal.now.entries ++ rest.now)) }
    ensures count { CountsFault (is_err result) (K.faults sink.old) (K.faults sink.new) }
    ensures room { K.room sink.new ≡ K.room sink.old }
{
    write_all(sink, b"journal\n")?;
    write_entries(sink, plan, journal.as_slice())?;
    write_all(sink, rest)
}

/// Writes the line of an entry to a sink by one call, as it stands in the text of a journal: for whoever logs each entry as it is made.
/// It takes no memory.
///
/// Where a write fails, only a part of the line was written, from its front and not to its end.
pub fn write_line<K: Sink>(sink: &mut K, plan: &Plan, entry: &Entry) -> Result<(), Failed>
    requires named { is_well_named plan.now ≡ true }
    requires formed { IsWellFormed plan.now entry.now }
    ensures done { OnOk result (K.held sink.new ≡ append_known (K.held sink.old) (entry_line plan.now entry.now)) }
    ensures part { OnErr result (WrotePart (K.held sink.old) (K.held sink.new) (entry_line plan.now entry.now)) }
    ensures count { CountsFault (is_err result) (K.faults sink.old) (K.faults sink.new) }
{
    let mut room = [0u8; LINE_ROOM];
    write_at_once(sink, &mut room, plan, &[*entry])
}

/// Writes a line for each entry to a sink, those of some entries at once.
fn write_entries<K: Sink>(sink: &mut K, plan: &Plan, entries: &[Entry]) -> Result<(), Failed>
    requires named { is_well_named plan.now ≡ true }
    requires entries { AllWellFormed plan.now entries.now }
    ensures done { OnOk result (K.held sink.new ≡ append_known (K.held sink.old) (flat_map (entry_line plan.now) entries.now)) }
    ensures part { OnErr result (WrotePart (K.held sink.old) (K.held sink.new) (flat_map (entry_line plan.now) entries.now)) }
    ensures count { CountsFault (is_err result) (K.faults sink.old) (K.faults sink.new) }
    ensures room { K.room sink.new ≡ K.room sink.old }
{
    let mut block = [0u8; BLOCK];
    let mut done = 0;
    while done < entries.len() {
        let next = done + AT_ONCE.min(entries.len() - done);
        write_at_once(sink, &mut block, plan, &entries[done..next])?;
        done = next;
    }
    Ok(())
}

/// Gathers the lines of some entries in a block, and writes them to a sink.
fn write_at_once<K: Sink>(
    sink: &mut K,
    block: &mut [u8],
    plan: &Plan,
    entries: &[Entry],
) -> Result<(), Failed>
    requires named { is_well_named plan.now ≡ true }
    requires entries { AllWellFormed plan.now entries.now }
    requires size { most_line * length entries.now + spare ≤ length block.old }
    ensures done { OnOk result (K.held sink.new ≡ append_known (K.held sink.old) (flat_map (entry_line plan.now) entries.now)) }
    ensures part { OnErr result (WrotePart (K.held sink.old) (K.held sink.new) (flat_map (entry_line plan.now) entries.now)) }
    ensures count { CountsFault (is_err result) (K.faults sink.old) (K.faults sink.new) }
    ensures room { K.room sink.new ≡ K.room sink.old }
    ensures kept { length block.new ≡ length block.old }
{
    let end = put_entries(block, plan, entries);
    write_all(sink, &block[..end])
}

/// Writes a line for each of some entries into a block, from its front on, and gives where the last one ends.
fn put_entries(block: &mut [u8], plan: &Plan, entries: &[Entry]) -> usize
    requires named { is_well_named plan.now ≡ true }
    requires entries { AllWellFormed plan.now entries.now }
    requires room { most_line * length entries.now + spare ≤ length block.old }
    ensures end { result ≤ length block.new }
    ensures lines { take result block.new ≡ flat_map (entry_line plan.now) entries.now }
    ensures kept { length block.new ≡ length block.old }
{
    plan.places();
    let mut at = 0;
    for entry in entries {
        at = write_entry(block, at, plan, entry);
    }
    at
}
