ghost use Rattle.std.specs.Prelude.{◌≡◌, ◌<◌, ◌≤◌, length, take, vec_len, is_err, IfOk, IfErr, IfSome, OnOk, OnErr};
ghost use Rattle.std.specs.Io.KnownBytes.{append_known, prepend_known, IsAtEnd};
ghost use Rattle.caa_base.specs.Outside.Counts.{CountsFault};
ghost use Rattle.caa_base.specs.Outside.Reading.{emptied, is_fault, TookUntil};
ghost use Rattle.caa_base.specs.Outside.Writing.{WrotePart};

use crate::outside::sink::Sink;
use crate::outside::source::Source;
use crate::written::entry::Failed;
use std::alloc::{AllocError, Global};
use thiserror::Error;

/// How many bytes one read asks for at most.
const PIECE: usize = 4096;

/// Why a source wasn't read to its end.
#[derive(Clone, Copy, Debug, PartialEq, Eq, Error)]
pub enum ReadError {
    /// A read failed.
    #[error("the input can't be read")]
    Fault,
    /// The input has more bytes than the limit.
    #[error("the input is too long")]
    TooLong,
    /// No memory was found.
    #[error("out of memory")]
    OutOfMemory,
}

impl From<AllocError> for ReadError {
    ghost use Rattle.caa_base.specs.declared.outside.reading.ReadError.{ReadError};

    ghost from_gives = { λ _ error. error ≡ ReadError.OutOfMemory };

    fn from(_error: AllocError) -> Self {
        ReadError::OutOfMemory
    }
}

/// Reads some bytes into the front of the buffer. A read that fails isn't tried again.
fn read_once<S: Source>(source: &mut S, buf: &mut [u8]) -> Result<usize, ReadError>
    requires { 0 < length buf.old }
    ensures bound { IfOk result (λ n. n ≤ length buf.new) }
    ensures bytes { IfOk result (λ n. S.left source.old ≡ prepend_known (take n buf.new) (S.left source.new)) }
    ensures end { IfOk result (λ n. n ≡ 0 → IsAtEnd (S.left source.new)) }
    ensures failed { OnErr result (S.left source.new ≡ S.left source.old) }
    ensures error { IfErr result (λ error. error ≡ ReadError.Fault) }
    ensures count { CountsFault (is_err result) (S.faults source.old) (S.faults source.new) }
{
    match source.read(buf) {
        Ok(taken) => Ok(taken),
        Err(Failed) => Err(ReadError::Fault),
    }
}

/// Reads all that a source has left, which is at most `limit` bytes.
///
/// After an error what was read is lost: at `TooLong` one byte more than the limit, and at the
/// others at most the limit.
pub fn read_all<S: Source>(alloc: Global, source: &mut S, limit: u64) -> Result<Vec<u8>, ReadError>
    ensures all { IfOk result (λ bytes. IfSome (S.left source.old) (λ rest. bytes.items ≡ rest)) }
    ensures end { OnOk result (S.left source.new ≡ emptied (S.left source.old)) }
    ensures fits { IfOk result (λ bytes. vec_len bytes ≤ limit) }
    ensures taken { IfErr result (TookUntil (S.left source.old) (S.left source.new) limit) }
    ensures count { CountsFault (is_fault result) (S.faults source.old) (S.faults source.new) }
{
    let mut bytes = Vec::new(alloc);
    let mut piece = [0u8; PIECE];
    loop {
        let spare = limit - bytes.len() as u64;
        let wanted = spare.min(PIECE as u64 - 1) as usize + 1;
        let taken = read_once(source, &mut piece[..wanted])?;
        if taken == 0 {
            return Ok(bytes);
        }
        if taken as u64 > spare {
            return Err(ReadError::TooLong);
        }
        bytes.extend_from_slice(&piece[..taken])?;
    }
}

/// Writes some bytes of the front of the piece. A write that fails isn't tried again.
fn write_once<K: Sink>(sink: &mut K, piece: &[u8]) -> Result<usize, Failed>
    requires { 0 < length piece.now }
    ensures some { IfOk result (λ n. 0 < n) }
    ensures bound { IfOk result (λ n. n ≤ length piece.now) }
    ensures bytes { IfOk result (λ n. K.held sink.new ≡ append_known (K.held sink.old) (take n piece.now)) }
    ensures failed { OnErr result (K.held sink.new ≡ K.held sink.old) }
    ensures room { K.room sink.new ≡ K.room sink.old }
    ensures count { CountsFault (is_err result) (K.faults sink.old) (K.faults sink.new) }
{
    sink.write(piece)
}

/// Writes all of these bytes to a sink. It takes no memory.
///
/// Where a write fails, only a part of the bytes was written, from their front and not to their end.
pub fn write_all<K: Sink>(sink: &mut K, bytes: &[u8]) -> Result<(), Failed>
    ensures done { OnOk result (K.held sink.new ≡ append_known (K.held sink.old) bytes.now) }
    ensures part { OnErr result (WrotePart (K.held sink.old) (K.held sink.new) bytes.now) }
    ensures count { CountsFault (is_err result) (K.faults sink.old) (K.faults sink.new) }
    ensures room { K.room sink.new ≡ K.room sink.old }
{
    let mut done = 0;
    while done < bytes.len() {
        done += write_once(sink, &bytes[done..])?;
    }
    Ok(())
}
