//! Streams of the standard library that fail.

use caa_base::outside::sink::Sink;
use caa_base::outside::source::Source;
use caa_base::outside::standard::{StdSink, StdSource};
use caa_base::written::entry::Failed;
use std::io;
use std::io::{Read, Write};

/// A stream that fails at each call.
#[derive(Drop)]
struct Broken;

impl Read for Broken {
    fn read(&mut self, _buf: &mut [u8]) -> io::Result<usize> {
        Err(io::Error::from(io::ErrorKind::Other))
    }
}

impl Write for Broken {
    fn write(&mut self, _piece: &[u8]) -> io::Result<usize> {
        Err(io::Error::from(io::ErrorKind::Other))
    }

    fn flush(&mut self) -> io::Result<()> {
        Ok(())
    }
}

#[test]
fn a_source_counts_the_reads_that_fail(rt: HostRuntime) {
    let mut buf = [0u8; 4];
    let mut source = StdSource::new(Broken);
    assert_eq!(rt; source.read(&mut buf), Err(Failed));
    assert_eq!(rt; source.read(&mut buf), Err(Failed));
    assert_eq!(rt; source.faults(), 2);
}

#[test]
fn a_sink_counts_the_writes_that_fail(rt: HostRuntime) {
    let mut sink = StdSink::new(Broken);
    assert_eq!(rt; sink.write(b"a"), Err(Failed));
    assert_eq!(rt; sink.faults(), 1);
}

#[test]
fn a_sink_counts_the_writes_that_take_nothing(rt: HostRuntime) {
    let mut room = [0u8; 2];
    let mut sink = StdSink::new(room.as_mut_slice());
    assert_eq!(rt; sink.write(b"abc"), Ok(2));
    assert_eq!(rt; sink.write(b"c"), Err(Failed));
    assert_eq!(rt; sink.faults(), 1);
}
