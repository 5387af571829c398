ghost use Rattle.std.specs.Prelude.{◌≡◌, ◌<◌, ◌≤◌, ◌-◌, ◌++◌, ◌⊎◌, ◌↔◌, [], min, length, take, Some, IsErr, IfOk, OnErr};
ghost use Rattle.caa_base.specs.Outside.Memory.{FailsNext, failures_after};

use crate::outside::memory::failures::Failures;
use crate::outside::memory::sure_sink::SureSink;
use crate::outside::sink::Sink;
use crate::written::entry::{Failed, OutOfMemory};
use std::alloc::Global;
use std::marker::Model;

/// A sink in memory, whose writes fail where that was asked for and where it is full.
#[derive(Drop)]
pub struct MemSink {
    sink: SureSink,
    failures: Failures,
}

impl Model for MemSink {
    ghost use Rattle.caa_base.specs.Outside.Memory.{FailingSink};

    ghost Value = { FailingSink };

    ghost view = { λ s. record { held = s.sink.held; room = s.sink.room; failures = s.failures } };
}

impl MemSink {
    /// An empty sink, with memory for `room` bytes.
    ///
    /// `fail` lists the writes that fail, by their numbers: 1 is the first that comes. Once the sink is full, each write fails.
    pub fn new(alloc: Global, room: u64, fail: &[u64]) -> Result<Self, OutOfMemory>
        ensures held { IfOk result (λ s. s.held ≡ []) }
        ensures room { IfOk result (λ s. s.room ≡ room) }
        ensures failures { IfOk result (λ s. s.failures ≡ record { at = fail.now; calls = 0; faults = 0 }) }
    {
        let sink = SureSink::new(alloc, room)?;
        let failures = Failures::new(alloc, fail)?;
        Ok(MemSink { sink, failures })
    }

    /// The bytes that it holds.
    pub fn bytes(&self) -> &[u8]
        ensures { result.now ≡ self.now.held }
    {
        self.sink.bytes()
    }
}

impl Sink for MemSink {
    ghost faults = { λ s. s.failures.faults };

    ghost held = { λ s. Some s.held };

    ghost room = { λ s. Some s.room };

    fn write(&mut self, piece: &[u8]) -> Result<usize, Failed>
        requires { 0 < length piece.now }
        ensures fails { IsErr result ↔ (FailsNext self.old.failures ⊎ (self.old.room ≤ length self.old.held)) }
        ensures most { IfOk result (λ n. n ≡ min (length piece.now) (self.old.room - length self.old.held)) }
        ensures appended { IfOk result (λ n. self.new.held ≡ self.old.held ++ take n piece.now) }
        ensures kept { OnErr result (self.new.held ≡ self.old.held) }
        ensures room { self.new.room ≡ self.old.room }
        ensures failures { self.new.failures ≡ failures_after result self.old.failures }
    {
        if self.failures.is_next() || self.sink.is_full() {
            self.failures.add_fault();
            return Err(Failed);
        }
        Ok(self.sink.append(piece))
    }

    fn faults(&self) -> u64 {
        self.failures.faults()
    }
}
