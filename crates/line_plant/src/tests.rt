//! That a line is sent before its answer is awaited, which no clause says.

use crate::flushed::FlushedSink;
use crate::plant::LinePlant;
use caa_base::outside::plant::Plant;
use caa_base::outside::standard::StdSource;
use caa_base::written::entry::Failed;
use caa_base::written::name::Name;
use std::cell::Cell;
use std::io;
use std::io::{Read, Write};
use std::test::Fail;

/// What is seen of a stream that keeps what is written to it until it is flushed.
#[derive(Drop)]
struct Seen {
    /// How many bytes wait to be flushed.
    waiting: Cell<usize>,
    /// How many flushes there were.
    flushes: Cell<u64>,
    /// How many reads there were while bytes waited.
    early_reads: Cell<u64>,
}

/// The end of such a stream that is written.
#[derive(Drop)]
struct Commands<'a> {
    seen: &'a Seen,
}

impl Write for Commands<'_> {
    fn write(&mut self, piece: &[u8]) -> io::Result<usize> {
        self.seen
            .waiting
            .set(self.seen.waiting.get().saturating_add(piece.len()));
        Ok(piece.len())
    }

    fn flush(&mut self) -> io::Result<()> {
        self.seen.waiting.set(0);
        self.seen
            .flushes
            .set(self.seen.flushes.get().saturating_add(1));
        Ok(())
    }
}

/// The answers to what is written there.
#[derive(Drop)]
struct Answers<'a> {
    left: &'a [u8],
    seen: &'a Seen,
}

impl Read for Answers<'_> {
    fn read(&mut self, buf: &mut [u8]) -> io::Result<usize> {
        if self.seen.waiting.get() > 0 {
            self.seen
                .early_reads
                .set(self.seen.early_reads.get().saturating_add(1));
        }
        self.left.read(buf)
    }
}

#[test]
fn each_line_is_flushed_before_its_answer_is_awaited(rt: HostRuntime) -> Result<(), Fail> {
    let alloc = rt.alloc();
    let seen = Seen {
        waiting: Cell::new(0),
        flushes: Cell::new(0),
        early_reads: Cell::new(0),
    };
    let answers = StdSource::new(Answers {
        left: b"well 0\nwell 1\nfailed 2\n",
        seen: &seen,
    });
    let commands = FlushedSink::new(Commands { seen: &seen });
    let names = vec![in alloc; Name::from_bytes(alloc, b"plate")?]?;
    let mut plant = LinePlant::new(alloc, names, Vec::new(alloc), answers, commands);
    plant.lay(alloc, &[0], &[], 2)?;
    assert_eq!(rt; seen.flushes.get(), 1);
    assert_eq!(rt; plant.put(0, 1), Ok(()));
    assert_eq!(rt; seen.flushes.get(), 2);
    assert_eq!(rt; plant.put(0, 0), Err(Failed));
    assert_eq!(rt; seen.flushes.get(), 3);
    assert_eq!(rt; seen.early_reads.get(), 0);
    Ok(())
}
