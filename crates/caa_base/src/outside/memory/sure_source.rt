ghost use Rattle.std.specs.Prelude.{◌≡◌, ◌<◌, ◌++◌, min, length, take, drop, Some, IfOk};

use crate::outside::source::Source;
use crate::written::entry::{Failed, OutOfMemory};
use std::alloc::Global;
use std::marker::Model;

/// A source of bytes in memory, seen as the list of those that are left. It never fails.
#[derive(Drop)]
pub struct SureSource {
    bytes: Vec<u8>,
    read: usize,
}

impl Model for SureSource {
    ghost use Rattle.std.specs.Prelude.{List, ℕ, drop, length, ◌≤◌};

    ghost Value = { List ℕ };

    ghost view = { λ s. drop s.read s.bytes.items };

    ghost invariant = { λ s. s.read ≤ length s.bytes.items };
}

impl SureSource {
    /// A source of these bytes.
    pub fn new(alloc: Global, bytes: &[u8]) -> Result<Self, OutOfMemory>
        ensures { IfOk result (λ source. source ≡ bytes.now) }
    {
        let bytes = Vec::from_slice(alloc, bytes)?;
        Ok(SureSource { bytes, read: 0 })
    }

    /// The bytes that are left.
    pub fn left(&self) -> &[u8]
        ensures { result.now ≡ self.now }
    {
        &self.bytes[self.read..]
    }

    /// Takes as many of the bytes that are left as fit the buffer, and says how many.
    pub(super) fn take(&mut self, buf: &mut [u8]) -> usize
        ensures most { result ≡ min (length self.old) (length buf.old) }
        ensures taken { self.old ≡ take result buf.new ++ self.new }
    {
        let rest = &self.bytes[self.read..];
        let count = rest.len().min(buf.len());
        buf[..count].copy_from_slice(&rest[..count]);
        self.read += count;
        count
    }
}

impl Source for SureSource {
    ghost faults = { λ _. 0 };

    ghost left = { λ s. Some s };

    fn read(&mut self, buf: &mut [u8]) -> Result<usize, Failed> {
        Ok(self.take(buf))
    }

    fn faults(&self) -> u64 {
        0
    }
}
