ghost use Rattle.std.specs.Prelude.{◌≡◌, ◌<◌, ◌≤◌, ◌-◌, ◌++◌, ◌↔◌, [], min, length, take, Some, IsTrue, IsErr, IfOk, OnErr};
ghost use Rattle.caa_base.specs.Outside.Counts.{faults_after};
ghost use Rattle.caa_base.specs.Outside.Memory.{refused_by};

use crate::outside::count::counted_up;
use crate::outside::sink::Sink;
use crate::written::entry::{Failed, OutOfMemory};
use std::alloc::Global;
use std::marker::Model;

/// A sink in memory that fails only where it is full.
#[derive(Drop)]
pub struct SureSink {
    bytes: Vec<u8>,
    room: u64,
    refused: u64,
}

impl Model for SureSink {
    ghost use Rattle.std.specs.Prelude.{◌≡◌, ◌<◌, ◌≤◌, length, vec_capacity};
    ghost use Rattle.caa_base.specs.Outside.Memory.{WillingSink};

    ghost Value = { WillingSink };

    ghost view = { λ s. record { held = s.bytes.items; room = s.room; refused = s.refused } };

    ghost invariant = { λ s. record {
      fits : length s.bytes.items ≤ s.room;
      memory : s.room ≤ vec_capacity s.bytes;
      willing : length s.bytes.items < s.room → s.refused ≡ 0;
    } };
}

impl SureSink {
    /// A sink that holds nothing yet, and can hold `room` bytes. Its memory is taken here.
    pub fn new(alloc: Global, room: u64) -> Result<Self, OutOfMemory>
        ensures held { IfOk result (λ sink. sink.held ≡ []) }
        ensures room { IfOk result (λ sink. sink.room ≡ room) }
        ensures refused { IfOk result (λ sink. sink.refused ≡ 0) }
    {
        Ok(SureSink {
            bytes: Vec::with_capacity(alloc, room as usize)?,
            room,
            refused: 0,
        })
    }

    /// The bytes that it holds.
    pub fn bytes(&self) -> &[u8]
        ensures { result.now ≡ self.now.held }
    {
        self.bytes.as_slice()
    }

    /// Whether it can't hold one more byte.
    pub fn is_full(&self) -> bool
        ensures full { IsTrue result ↔ (self.now.room ≤ length self.now.held) }
    {
        self.bytes.len() as u64 >= self.room
    }

    /// Appends the front of the piece, as long as there is room, and says how much that was.
    pub(super) fn append(&mut self, piece: &[u8]) -> usize
        ensures most { result ≡ min (length piece.now) (self.old.room - length self.old.held) }
        ensures held { self.new.held ≡ self.old.held ++ take result piece.now }
        ensures room { self.new.room ≡ self.old.room }
        ensures refused { self.new.refused ≡ self.old.refused }
    {
        let spare = self.room as usize - self.bytes.len();
        let count = piece.len().min(spare);
        self.bytes.extend_from_slice(&piece[..count]).unwrap();
        count
    }
}

impl Sink for SureSink {
    ghost faults = { refused_by };

    ghost held = { λ s. Some s.held };

    ghost room = { λ s. Some s.room };

    fn write(&mut self, piece: &[u8]) -> Result<usize, Failed>
        requires { 0 < length piece.now }
        ensures full { IsErr result ↔ (self.old.room ≤ length self.old.held) }
        ensures most { IfOk result (λ n. n ≡ min (length piece.now) (self.old.room - length self.old.held)) }
        ensures appended { IfOk result (λ n. self.new.held ≡ self.old.held ++ take n piece.now) }
        ensures kept { OnErr result (self.new.held ≡ self.old.held) }
        ensures room { self.new.room ≡ self.old.room }
        ensures faults { refused_by self.new ≡ faults_after result (refused_by self.old) }
    {
        if self.is_full() {
            self.refused = counted_up(self.refused);
            return Err(Failed);
        }
        Ok(self.append(piece))
    }

    fn faults(&self) -> u64
        ensures not_full { length self.now.held < self.now.room → result ≡ 0 }
        ensures count { result ≡ refused_by self.now }
    {
        self.refused
    }
}
