ghost use Rattle.std.specs.Prelude.{◌≡◌, ◌<◌, ◌↔◌, ◌++◌, [], min, length, take, Some, IsErr, IfOk, OnErr};
ghost use Rattle.caa_base.specs.Outside.Memory.{FailsNext, failures_after};

use crate::outside::memory::failures::Failures;
use crate::outside::memory::sure_source::SureSource;
use crate::outside::source::Source;
use crate::written::entry::{Failed, OutOfMemory};
use std::alloc::Global;
use std::marker::Model;

/// A source of bytes in memory, whose reads fail where that was asked for.
#[derive(Drop)]
pub struct MemSource {
    source: SureSource,
    failures: Failures,
}

impl Model for MemSource {
    ghost use Rattle.caa_base.specs.Outside.Memory.{FailingSource};

    ghost Value = { FailingSource };

    ghost view = { λ s. record { left = s.source; failures = s.failures } };
}

impl MemSource {
    /// A source of these bytes. `fail` lists the reads that fail, by their numbers: 1 is the first that comes.
    pub fn new(alloc: Global, bytes: &[u8], fail: &[u64]) -> Result<Self, OutOfMemory>
        ensures left { IfOk result (λ s. s.left ≡ bytes.now) }
        ensures failures { IfOk result (λ s. s.failures ≡ record { at = fail.now; calls = 0; faults = 0 }) }
    {
        let source = SureSource::new(alloc, bytes)?;
        let failures = Failures::new(alloc, fail)?;
        Ok(MemSource { source, failures })
    }

    /// The bytes that are left.
    pub fn left(&self) -> &[u8]
        ensures { result.now ≡ self.now.left }
    {
        self.source.left()
    }
}

impl Source for MemSource {
    ghost faults = { λ s. s.failures.faults };

    ghost left = { λ s. Some s.left };

    fn read(&mut self, buf: &mut [u8]) -> Result<usize, Failed>
        requires { 0 < length buf.old }
        ensures fails { IsErr result ↔ FailsNext self.old.failures }
        ensures most { IfOk result (λ n. n ≡ min (length self.old.left) (length buf.new)) }
        ensures taken { IfOk result (λ n. self.old.left ≡ take n buf.new ++ self.new.left) }
        ensures end { IfOk result (λ n. n ≡ 0 → self.new.left ≡ []) }
        ensures kept { OnErr result (self.new.left ≡ self.old.left) }
        ensures failures { self.new.failures ≡ failures_after result self.old.failures }
    {
        if self.failures.is_next() {
            self.failures.add_fault();
            return Err(Failed);
        }
        Ok(self.source.take(buf))
    }

    fn faults(&self) -> u64 {
        self.failures.faults()
    }
}
