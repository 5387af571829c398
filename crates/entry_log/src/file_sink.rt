//! A file as the sink of a log.

ghost use Rattle.std.specs.Prelude.{◌≡◌, ◌<◌, ◌≤◌, length, None, IfOk};
ghost use Rattle.caa_base.specs.Outside.Counts.{faults_after};

use caa_base::outside::sink::Sink;
use caa_base::written::entry::Failed;
use std::fs::File;
use std::io::Write;
use std::marker::Model;

/// A file that is written as a sink. It tells nothing of its bytes, and has no memory of its own: each write is one of the system.
///
/// It is seen as the number of the writes that failed; one that the disk was to confirm and didn't is one of them.
#[derive(Drop)]
pub struct FileSink {
    file: File,
    is_synced: bool,
    faults: u64,
}

impl Model for FileSink {
    ghost use Rattle.std.specs.Prelude.{ℕ};

    ghost Value = { ℕ };

    ghost view = { λ s. s.faults };
}

impl FileSink {
    /// The sink that writes this file. A synced one waits after each write until the disk has it, so that it is there also when the
    /// power fails.
    pub fn new(file: File, is_synced: bool) -> Self
        ensures { result ≡ 0 }
    {
        FileSink {
            file,
            is_synced,
            faults: 0,
        }
    }

    /// Writes some bytes of the front of the piece, and says how many; none where that failed.
    fn send(&mut self, piece: &[u8]) -> usize
        ensures bound { result ≤ length piece.now }
        ensures kept { self.new ≡ self.old }
    {
        match self.file.write(piece) {
            Ok(count) if !self.is_synced || self.file.sync_data().is_ok() => count,
            _ => 0,
        }
    }
}

impl Sink for FileSink {
    ghost faults = { λ faults. faults };

    ghost held = { λ _. None };

    fn write(&mut self, piece: &[u8]) -> Result<usize, Failed>
        requires { 0 < length piece.now }
        ensures some { IfOk result (λ n. 0 < n) }
        ensures bound { IfOk result (λ n. n ≤ length piece.now) }
        ensures faults { self.new ≡ faults_after result self.old }
    {
        let count = self.send(piece);
        if count > 0 {
            return Ok(count);
        }
        if self.faults < u64::MAX {
            self.faults += 1;
        }
        Err(Failed)
    }

    fn faults(&self) -> u64 {
        self.faults
    }
}
