//! The events of a trace, each in a line of its own. Where no memory is found a part may have been added.

use caa_base::written::entry::{OutOfMemory, Participant};
use page_text::parts::{push_number, push_text};
use std::alloc::Global;
use std::io::Write;

/// How many microseconds a trace counts for an entry, so that a viewer shows its number as milliseconds.
const STEP: u64 = 1_000;

/// The text of a trace.
#[derive(Drop)]
pub struct Events {
    text: Vec<u8>,
}

impl Events {
    /// No event but the name of the whole.
    pub fn new(alloc: Global) -> Result<Events, OutOfMemory> {
        let text = Vec::from_slice(
            alloc,
            b"{\"displayTimeUnit\":\"ms\",\"traceEvents\":[\n{\"ph\":\"M\",\"name\":\"process_name\",\"args\":{\"name\":\"caa\"},\"pid\":1}",
        )?;
        Ok(Events { text })
    }

    /// The whole trace.
    pub fn into_text(self) -> Result<Vec<u8>, OutOfMemory> {
        let mut text = self.text;
        text.extend_from_slice(b"\n]}\n")?;
        Ok(text)
    }

    /// Begins an event of this kind, of a participant.
    fn begin(&mut self, kind: &'static str, by: Participant) -> Result<(), OutOfMemory> {
        self.text.extend_from_slice(b",\n{\"ph\":\"")?;
        self.text.extend_from_slice(kind.as_bytes())?;
        self.text.extend_from_slice(b"\",\"tid\":")?;
        push_number(&mut self.text, u64::from(by))
    }

    /// Adds when an event is: behind so many entries.
    fn at(&mut self, taken: u64) -> Result<(), OutOfMemory> {
        self.text.extend_from_slice(b"\"ts\":")?;
        push_number(&mut self.text, taken.saturating_mul(STEP))
    }

    /// Adds what an event is called.
    fn name(&mut self, name: &[u8]) -> Result<(), OutOfMemory> {
        self.text.extend_from_slice(b"\"name\":")?;
        push_text(&mut self.text, name)
    }

    /// Ends an event.
    fn close(&mut self) -> Result<(), OutOfMemory> {
        self.text.extend_from_slice(b"\"pid\":1}")?;
        Ok(())
    }

    /// Names the thread of a participant.
    pub fn thread(&mut self, by: Participant, name: &[u8]) -> Result<(), OutOfMemory> {
        self.begin("M", by)?;
        self.text
            .extend_from_slice(b"\"name\":\"thread_name\",\"args\":{\"name\":")?;
        push_text(&mut self.text, name)?;
        self.text.extend_from_slice(b"\"of\":\"participant\"},")?;
        self.close()
    }

    /// A stretch begins behind so many entries.
    pub fn open(&mut self, by: Participant, taken: u64, name: &[u8]) -> Result<(), OutOfMemory> {
        self.begin("B", by)?;
        self.at(taken)?;
        self.name(name)?;
        self.close()
    }

    /// The innermost stretch ends behind so many entries.
    pub fn end(&mut self, by: Participant, taken: u64) -> Result<(), OutOfMemory> {
        self.begin("E", by)?;
        self.at(taken)?;
        self.close()
    }

    /// An entry, by its number, counted from 1, and its line.
    pub fn entry(&mut self, by: Participant, number: u64, line: &[u8]) -> Result<(), OutOfMemory> {
        self.begin("i", by)?;
        self.at(number)?;
        self.name(line)?;
        self.text
            .extend_from_slice(b"\"s\":\"t\",\"args\":{\"entry\":")?;
        push_number(&mut self.text, number)?;
        self.text.extend_from_slice(b"\"of\":\"journal\"},")?;
        self.close()
    }

    /// An object has this value from behind so many entries on.
    pub fn value(&mut self, name: &[u8], taken: u64, value: i64) -> Result<(), OutOfMemory> {
        self.begin("C", 0)?;
        self.at(taken)?;
        self.name(name)?;
        match write!(self.text, "\"args\":{{\"value\":{value}}},") {
            Ok(()) => self.close(),
            Err(_) => Err(OutOfMemory),
        }
    }
}
