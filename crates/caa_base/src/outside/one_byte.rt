//! Streams for tests: a source and a sink in memory that move one byte a call, and fail where that was asked for.
//!
//! A program that reads and writes in pieces meets every cut between two pieces here. No program is run on them.

ghost use Rattle.std.specs.Prelude.{◌≡◌, ◌<◌, ◌≤◌, ◌-◌, ◌++◌, ◌⊎◌, ◌↔◌, [], min, length, take, Some, IsErr, IfOk, OnErr};
ghost use Rattle.caa_base.specs.Outside.Memory.{FailsNext, failures_after};

use crate::outside::memory::{MemSink, MemSource};
use crate::outside::sink::Sink;
use crate::outside::source::Source;
use crate::written::entry::{Failed, OutOfMemory};
use std::alloc::Global;
use std::marker::Model;

/// A source of bytes in memory that gives one byte a call.
#[derive(Drop)]
pub struct OneByteSource {
    source: MemSource,
}

impl Model for OneByteSource {
    ghost use Rattle.caa_base.specs.Outside.Memory.{FailingSource};

    ghost Value = { FailingSource };

    ghost view = { λ s. s.source };
}

impl OneByteSource {
    /// A source of these bytes. `fail` lists the reads that fail, by their numbers: 1 is the first that comes.
    pub fn new(alloc: Global, bytes: &[u8], fail: &[u64]) -> Result<Self, OutOfMemory>
        ensures left { IfOk result (λ s. s.left ≡ bytes.now) }
        ensures failures { IfOk result (λ s. s.failures ≡ record { at = fail.now; calls = 0; faults = 0 }) }
    {
        let source = MemSource::new(alloc, bytes, fail)?;
        Ok(OneByteSource { source })
    }

    /// The bytes that are left.
    pub fn left(&self) -> &[u8]
        ensures { result.now ≡ self.now.left }
    {
        self.source.left()
    }
}

impl Source for OneByteSource {
    ghost faults = { λ s. s.failures.faults };

    ghost left = { λ s. Some s.left };

    fn read(&mut self, buf: &mut [u8]) -> Result<usize, Failed>
        requires { 0 < length buf.old }
        ensures fails { IsErr result ↔ FailsNext self.old.failures }
        ensures bound { IfOk result (λ n. n ≤ length buf.new) }
        ensures most { IfOk result (λ n. n ≡ min (length self.old.left) 1) }
        ensures taken { IfOk result (λ n. self.old.left ≡ take n buf.new ++ self.new.left) }
        ensures end { IfOk result (λ n. n ≡ 0 → self.new.left ≡ []) }
        ensures kept { OnErr result (self.new.left ≡ self.old.left) }
        ensures failures { self.new.failures ≡ failures_after result self.old.failures }
    {
        self.source.read(&mut buf[..1])
    }

    fn faults(&self) -> u64 {
        self.source.faults()
    }
}

/// A sink in memory that takes one byte a call.
#[derive(Drop)]
pub struct OneByteSink {
    sink: MemSink,
}

impl Model for OneByteSink {
    ghost use Rattle.caa_base.specs.Outside.Memory.{FailingSink};

    ghost Value = { FailingSink };

    ghost view = { λ s. s.sink };
}

impl OneByteSink {
    /// An empty sink, with memory for `room` bytes.
    ///
    /// `fail` lists the writes that fail, by their numbers: 1 is the first that comes. Once the sink is full, each write fails.
    pub fn new(alloc: Global, room: u64, fail: &[u64]) -> Result<Self, OutOfMemory>
        ensures held { IfOk result (λ s. s.held ≡ []) }
        ensures room { IfOk result (λ s. s.room ≡ room) }
        ensures failures { IfOk result (λ s. s.failures ≡ record { at = fail.now; calls = 0; faults = 0 }) }
    {
        let sink = MemSink::new(alloc, room, fail)?;
        Ok(OneByteSink { sink })
    }

    /// The bytes that it holds.
    pub fn bytes(&self) -> &[u8]
        ensures { result.now ≡ self.now.held }
    {
        self.sink.bytes()
    }
}

impl Sink for OneByteSink {
    ghost faults = { λ s. s.failures.faults };

    ghost held = { λ s. Some s.held };

    ghost room = { λ s. Some s.room };

    fn write(&mut self, piece: &[u8]) -> Result<usize, Failed>
        requires { 0 < length piece.now }
        ensures fails { IsErr result ↔ (FailsNext self.old.failures ⊎ (self.old.room ≤ length self.old.held)) }
        ensures one { IfOk result (λ n. n ≡ 1) }
        ensures appended { IfOk result (λ n. self.new.held ≡ self.old.held ++ take n piece.now) }
        ensures kept { OnErr result (self.new.held ≡ self.old.held) }
        ensures room { self.new.room ≡ self.old.room }
        ensures failures { self.new.failures ≡ failures_after result self.old.failures }
    {
        self.sink.write(&piece[..1])
    }

    fn faults(&self) -> u64 {
        self.sink.faults()
    }
}
