ghost use Rattle.std.specs.Prelude.{◌≡◌, ◌<◌, ◌≤◌, length, None, IfOk};
ghost use Rattle.caa_base.specs.Outside.Counts.{faults_after};

use crate::outside::count::counted_up;
use crate::outside::sink::Sink;
use crate::outside::source::Source;
use crate::written::entry::Failed;
use std::io::{Read, Write};
use std::marker::Model;

/// A stream that is read as a source, such as standard input. It tells nothing of its bytes.
///
/// It is seen as the number of the reads that failed.
#[derive(Drop)]
pub struct StdSource<R> {
    stream: R,
    faults: u64,
}

impl<R> Model for StdSource<R> {
    ghost use Rattle.std.specs.Prelude.{ℕ};

    ghost Value = { ℕ };

    ghost view = { λ s. s.faults };
}

impl<R: Read> StdSource<R> {
    /// The source that reads this stream, such as `rt.stdin()`.
    pub fn new(stream: R) -> Self
        ensures { result ≡ 0 }
    {
        StdSource { stream, faults: 0 }
    }
}

impl<R: Read> Source for StdSource<R> {
    ghost faults = { λ faults. faults };

    ghost left = { λ _. None };

    fn read(&mut self, buf: &mut [u8]) -> Result<usize, Failed>
        requires { 0 < length buf.old }
        ensures bound { IfOk result (λ n. n ≤ length buf.new) }
        ensures faults { self.new ≡ faults_after result self.old }
    {
        match self.stream.read(buf) {
            Ok(count) => Ok(count),
            Err(_) => {
                self.faults = counted_up(self.faults);
                Err(Failed)
            }
        }
    }

    fn faults(&self) -> u64 {
        self.faults
    }
}

/// A stream that is written as a sink, such as standard output. It tells nothing of its bytes.
///
/// It is seen as the number of the writes that failed.
#[derive(Drop)]
pub struct StdSink<W> {
    stream: W,
    faults: u64,
}

impl<W> Model for StdSink<W> {
    ghost use Rattle.std.specs.Prelude.{ℕ};

    ghost Value = { ℕ };

    ghost view = { λ s. s.faults };
}

impl<W: Write> StdSink<W> {
    /// The sink that writes this stream, such as `rt.stdout()`.
    pub fn new(stream: W) -> Self
        ensures { result ≡ 0 }
    {
        StdSink { stream, faults: 0 }
    }
}

impl<W: Write> Sink for StdSink<W> {
    ghost faults = { λ faults. faults };

    ghost held = { λ _. None };

    fn write(&mut self, piece: &[u8]) -> Result<usize, Failed>
        requires { 0 < length piece.now }
        ensures some { IfOk result (λ n. 0 < n) }
        ensures bound { IfOk result (λ n. n ≤ length piece.now) }
        ensures faults { self.new ≡ faults_after result self.old }
    {
        match self.stream.write(piece) {
            Ok(count) if count > 0 => Ok(count),
            _ => {
                self.faults = counted_up(self.faults);
                Err(Failed)
            }
        }
    }

    fn faults(&self) -> u64 {
        self.faults
    }
}
