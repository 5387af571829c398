//! Sources that are read to their end and sinks that all is written to, and what a call that fails leaves.

ghost use Rattle.std.specs.Prelude.{◌≡◌, ◌≢◌, ◌<◌, ◌≤◌, ◌+◌, ◌++◌, length, IsOk, IsErrOf, IfOk, IfErr};

use caa_base::outside::memory::{SureSink, SureSource};
use caa_base::outside::one_byte::{OneByteSink, OneByteSource};
use caa_base::outside::reading::{ReadError, read_all, write_all};
use caa_base::outside::sink::Sink;
use caa_base::outside::source::Source;
use caa_base::written::entry::Failed;
use std::alloc::Global;
use std::test::Fail;

const TEXT: &[u8; 10] = b"some bytes";

/// Over a source that never fails, a reading ends without a fault.
fn read_sure(alloc: Global, source: &mut SureSource, limit: u64) -> Result<Vec<u8>, ReadError>
    ensures all { IfOk result (λ bytes. bytes.items ≡ source.old) }
    ensures no_fault { IfErr result (λ error. error ≢ ReadError.Fault) }
    ensures too_long { IsErrOf result ReadError.TooLong → limit < length source.old }
{
    read_all(alloc, source, limit)
}

/// Into a sink with enough room that never fails, all is written.
fn write_sure(sink: &mut SureSink, bytes: &[u8]) -> Result<(), Failed>
    requires { length sink.old.held + length bytes.now ≤ sink.old.room }
    ensures done { IsOk result }
    ensures held { sink.new.held ≡ sink.old.held ++ bytes.now }
{
    write_all(sink, bytes)
}

#[test]
fn what_never_fails_is_read_and_written_whole(rt: HostRuntime) -> Result<(), Fail> {
    let mut source = SureSource::new(rt.alloc(), TEXT)?;
    let bytes = read_sure(rt.alloc(), &mut source, 10)?;
    let mut sink = SureSink::new(rt.alloc(), 10)?;
    write_sure(&mut sink, &bytes)?;
    assert_eq!(rt; sink.bytes(), TEXT.as_slice());
    Ok(())
}

#[test]
fn a_read_that_fails_ends_the_reading(rt: HostRuntime) -> Result<(), Fail> {
    let mut source = OneByteSource::new(rt.alloc(), TEXT, &[4])?;
    let result = read_all(rt.alloc(), &mut source, 10);
    assert_eq!(rt; result.err(), Some(ReadError::Fault));
    assert_eq!(rt; source.faults(), 1);
    let rest = read_all(rt.alloc(), &mut source, 10)?;
    assert_eq!(rt; rest.as_slice(), b"e bytes".as_slice());
    Ok(())
}

#[test]
fn a_write_that_fails_ends_the_writing(rt: HostRuntime) -> Result<(), Fail> {
    let mut sink = OneByteSink::new(rt.alloc(), 10, &[4])?;
    assert_eq!(rt; write_all(&mut sink, TEXT), Err(Failed));
    assert_eq!(rt; sink.bytes(), b"som".as_slice());
    assert_eq!(rt; sink.faults(), 1);
    Ok(())
}
