ghost use Rattle.std.specs.Prelude.{◌≡◌, true, List, is_err, IfOk, IsErr, OnOk, OnErr};
ghost use Rattle.std.specs.Io.KnownBytes.{append_known};
ghost use Rattle.caa_base.specs.Outside.Counts.{CountsFault};
ghost use Rattle.caa_base.specs.Outside.Writing.{WrotePart};
ghost use Rattle.caa_base.specs.declared.written.entry.Entry.{Entry};
ghost use Rattle.caa_commands.specs.Findings.{text_bytes, IsWritable, CanBeTold, status_of, is_played, needs_memory, checked_text, numbered_text, finding_text};

use crate::fault::Refusal;
use crate::status::Status;
use caa_base::outside::reading::write_all;
use caa_base::outside::sink::Sink;
use caa_base::written::entry::{Failed, OutOfMemory};
use caa_base::written::journal::Journal;
use caa_base::written::line::{end_line, push_number, push_word};
use journal_text::texts::text_blocks::write_in_blocks;
use place_plan::plans::plan::Plan;
use script_checker::plan_counts::PlanCounts;
use std::alloc::Global;

/// What a call of the program came to. Each has one status and one text.
#[derive(Drop)]
pub enum Finding {
    /// The words are no command.
    Usage,
    /// A read of the source failed.
    SourceFault,
    /// The input is refused.
    Refused(Refusal),
    /// The script was checked, and has a plan so large.
    Checked(PlanCounts),
    /// The device refused to be laid out.
    PlantFault,
    /// The script was played; whether a play failed, and what is printed of the journal.
    Played { failed: bool, text: Text },
    /// What the command prints of the script is this text.
    Printed(Vec<u8>),
    /// The journal is legal and complete, and has so many entries.
    Legal { entries: u64 },
    /// The journal is none, or isn't legal and complete, or shows a wrong value: the first line at fault.
    Illegal { line: u64 },
    /// No memory was found.
    OutOfMemory,
}

/// The text of a finding: one that is always the same; one that was written for it; or that of a journal of this plan, of which what
/// stands behind the entries was written, and the lines of the entries are made as they go out.
#[derive(Drop)]
pub enum Text {
    Fixed(&'static [u8]),
    Written(Vec<u8>),
    OfJournal { plan: Plan, rest: Vec<u8> },
}

impl Text {
    /// Writes the text to a sink, where it is that of a journal that of this one. It takes no memory.
    ///
    /// Where a write fails, only a part of the text was written, from its front and not to its end.
    pub fn write<K: Sink>(&self, sink: &mut K, journal: &Journal) -> Result<(), Failed>
        requires { IsWritable self.now journal.now.entries }
        ensures done { OnOk result (K.held sink.new ≡ append_known (K.held sink.old) (text_bytes self.now journal.now.entries)) }
        ensures part { OnErr result (WrotePart (K.held sink.old) (K.held sink.new) (text_bytes self.now journal.now.entries)) }
        ensures count { CountsFault (is_err result) (K.faults sink.old) (K.faults sink.new) }
        ensures room { K.room sink.new ≡ K.room sink.old }
    {
        match self {
            Text::Fixed(bytes) => write_all(sink, bytes),
            Text::Written(bytes) => write_all(sink, bytes.as_slice()),
            Text::OfJournal { plan, rest } => write_in_blocks(sink, plan, journal, rest.as_slice()),
        }
    }
}

/// The line that tells how large a plan is.
fn checked(alloc: Global, counts: PlanCounts) -> Result<Vec<u8>, OutOfMemory>
    ensures { IfOk result (λ text. text.items ≡ checked_text counts) }
{
    let mut text = Vec::from_slice(alloc, b"ok participants")?;
    push_number(&mut text, u64::from(counts.participants))?;
    push_word(&mut text, b"objects")?;
    push_number(&mut text, u64::from(counts.objects))?;
    push_word(&mut text, b"places")?;
    push_number(&mut text, counts.places)?;
    push_word(&mut text, b"bound")?;
    push_number(&mut text, counts.bound)?;
    end_line(&mut text)?;
    Ok(text)
}

/// The line of a word and a number.
fn numbered(alloc: Global, word: &[u8], number: u64) -> Result<Vec<u8>, OutOfMemory>
    ensures { IfOk result (λ text. text.items ≡ numbered_text word.now number) }
{
    let mut text = Vec::from_slice(alloc, word)?;
    push_number(&mut text, number)?;
    end_line(&mut text)?;
    Ok(text)
}

impl Finding {
    /// Its status.
    pub fn status(&self) -> Status
        ensures { result ≡ status_of self.now }
    {
        match self {
            Finding::Usage => Status::Usage,
            Finding::SourceFault => Status::SourceFault,
            Finding::Refused(_) => Status::Refused,
            Finding::PlantFault => Status::PlantFault,
            Finding::Played {
                failed: true,
                text: _,
            } => Status::SomeFailed,
            Finding::Checked(_)
            | Finding::Played {
                failed: false,
                text: _,
            }
            | Finding::Printed(_)
            | Finding::Legal { entries: _ } => Status::Done,
            Finding::Illegal { line: _ } => Status::Illegal,
            Finding::OutOfMemory => Status::OutOfMemory,
        }
    }

    /// Whether a script was played.
    pub fn is_played(&self) -> bool
        ensures { result ≡ is_played self.now }
    {
        matches!(self, Finding::Played { failed: _, text: _ })
    }

    /// Its text. One that is always the same needs no memory, nor does one that was written before.
    pub fn into_text(self, alloc: Global) -> Result<Text, OutOfMemory>
        ensures text { IfOk result (λ text. (journal : List Entry) → text_bytes text journal ≡ finding_text self journal) }
        ensures writable { IfOk result (λ text. (journal : List Entry) → CanBeTold self journal → IsWritable text journal) }
        ensures wanting { IsErr result → needs_memory self ≡ true }
    {
        match self {
            Finding::Usage => Ok(Text::Fixed(
                b"usage: check | sim SEED | run | audit | cell N | graph K | messages SEED | pool W\n",
            )),
            Finding::SourceFault => Ok(Text::Fixed(b"fault source\n")),
            Finding::PlantFault => Ok(Text::Fixed(b"fault plant\n")),
            Finding::OutOfMemory => Ok(Text::Fixed(b"")),
            Finding::Played { failed: _, text } => Ok(text),
            Finding::Printed(text) => Ok(Text::Written(text)),
            Finding::Refused(refusal) => Ok(Text::Written(refusal.text(alloc)?)),
            Finding::Checked(counts) => Ok(Text::Written(checked(alloc, counts)?)),
            Finding::Legal { entries } => Ok(Text::Written(numbered(alloc, b"legal", entries)?)),
            Finding::Illegal { line } => Ok(Text::Written(numbered(alloc, b"illegal", line)?)),
        }
    }
}
