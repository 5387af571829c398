use crate::calls::{Meeting, TWO_WORKS, in_threads, words_of};
use caa_base::outside::memory::{MemPlant, MemSink, MemSource};
use caa_base::outside::one_byte::{OneByteSink, OneByteSource};
use caa_base::outside::sink::Sink;
use caa_base::outside::source::Source;
use caa_base::written::entry::Entry;
use caa_commands::logged_top::top_logged_quiet;
use caa_commands::status::{Ended, Status};
use caa_commands::top::top_quiet;
use entry_log::watched::Nobody;
use std::alloc::Global;
use std::process::Abort;
use std::test::Fail;

const SCRIPT: &[u8] =
    b"participant ann\nparticipant bob\nobject x 5\nobject y 0\naction swap\nuse x y\nroles left right\nbody left\nread x\nadd x 1\nbody right\nput y 7\nend\nplay swap ann bob\n";

/// What `sim 1` says of the script.
const TEXT: &[u8] =
    b"journal\narrive 0 ann\narrive 0 bob\nstart 0 bob\nwrite 0 bob y 7\nverdict 0 bob done\nread 0 ann x 5\nwrite 0 ann x 6\nverdict 0 ann done\nend 0 ann commit\nleave 0 ann\nleave 0 bob\nobject x 6\nobject y 7\noutcome 0 swap commit\n";

/// What `sim 1` comes to.
fn sim<S: Source, K: Sink>(
    alloc: Global,
    source: &mut S,
    sink: &mut K,
    plant: MemPlant,
) -> Result<Ended<MemPlant>, Fail> {
    let words = words_of(alloc, &["sim", "1"])?;
    Ok(top_quiet(alloc, words.as_slice(), source, sink, plant))
}

/// Of a source that gives a byte at a time, the read with this number fails.
fn source_fails_at(rt: &impl Abort, alloc: Global, failing: u64) -> Result<(), Fail> {
    let mut source = OneByteSource::new(alloc, SCRIPT, &[failing])?;
    let mut sink = MemSink::new(alloc, 1000, &[])?;
    let ended = sim(alloc, &mut source, &mut sink, MemPlant::new(false))?;
    assert_eq!(rt; ended.status, Status::SourceFault);
    assert!(rt; ended.journal.is_empty());
    assert_eq!(rt; sink.bytes(), b"fault source\n".as_slice());
    Ok(())
}

#[test]
fn what_is_not_read_whole_is_a_source_fault(rt: HostRuntime) -> Result<(), Fail> {
    // The last of these reads is the one that would find the end.
    let bytes = SCRIPT.len() as u64;
    for failing in 1..bytes + 2 {
        source_fails_at(&rt, rt.alloc(), failing)?;
    }
    Ok(())
}

/// Of a sink that takes a byte at a time, the write with this number fails; the play was this one.
fn sink_fails_at(
    rt: &impl Abort,
    alloc: Global,
    failing: u64,
    status: Status,
    play: &[Entry],
) -> Result<(), Fail> {
    let mut source = MemSource::new(alloc, SCRIPT, &[])?;
    let mut sink = OneByteSink::new(alloc, 1000, &[failing])?;
    let ended = sim(alloc, &mut source, &mut sink, MemPlant::new(false))?;
    assert_eq!(rt; ended.status, status);
    assert_eq!(rt; ended.journal.as_slice(), play);
    assert_eq!(rt; sink.bytes().len() as u64 + 1, failing);
    assert!(rt; TEXT.starts_with(sink.bytes()));
    Ok(())
}

#[test]
fn what_is_not_written_whole_is_a_sink_fault(rt: HostRuntime) -> Result<(), Fail> {
    let alloc = rt.alloc();
    let mut source = OneByteSource::new(alloc, SCRIPT, &[])?;
    let mut sink = MemSink::new(alloc, 1000, &[])?;
    let whole = sim(alloc, &mut source, &mut sink, MemPlant::new(false))?;
    assert_eq!(rt; whole.status, Status::Done);
    assert_eq!(rt; sink.bytes(), TEXT);
    let play = whole.journal.as_slice();
    assert_eq!(rt; play.len(), 11);

    let bytes = TEXT.len() as u64;
    for failing in 1..bytes + 1 {
        sink_fails_at(&rt, alloc, failing, Status::SinkFault, play)?;
    }
    // Nothing is left to write once the text is whole.
    sink_fails_at(&rt, alloc, bytes + 1, Status::Done, play)
}

/// The same where the journal is written as the script is played, which then has so many entries.
fn log_fails_at(
    rt: &impl Abort,
    alloc: Global,
    failing: u64,
    status: Status,
    entries: u64,
) -> Result<(), Fail> {
    let words = words_of(alloc, &["sim", "1"])?;
    let mut source = MemSource::new(alloc, SCRIPT, &[])?;
    let sink = OneByteSink::new(alloc, 1000, &[failing])?;
    let ended = top_logged_quiet(
        alloc,
        words.as_slice(),
        &mut source,
        sink,
        MemPlant::new(false),
        Nobody,
    );
    assert_eq!(rt; ended.status, status);
    assert_eq!(rt; ended.journal.len(), entries);
    assert_eq!(rt; ended.sink.bytes().len() as u64 + 1, failing);
    assert!(rt; TEXT.starts_with(ended.sink.bytes()));
    Ok(())
}

#[test]
fn a_log_that_has_stopped_holds_a_front_of_the_text(rt: HostRuntime) -> Result<(), Fail> {
    // Nothing is played where the first line can't be written; a play that has begun goes on to its end.
    let first_line = b"journal\n".len() as u64;
    let bytes = TEXT.len() as u64;
    for failing in 1..first_line + 1 {
        log_fails_at(&rt, rt.alloc(), failing, Status::SinkFault, 0)?;
    }
    for failing in first_line + 1..bytes + 1 {
        log_fails_at(&rt, rt.alloc(), failing, Status::SinkFault, 11)?;
    }
    log_fails_at(&rt, rt.alloc(), bytes + 1, Status::Done, 11)
}

#[test]
fn run_overlaps(rt: HostRuntime) -> Result<(), Fail> {
    let gate = Meeting::new();
    let ended = in_threads(&rt, rt.alloc(), &["run"], TWO_WORKS, &gate)?;
    assert_eq!(rt; ended, (Status::Done, Status::Done));
    assert!(rt; gate.have_met());
    Ok(())
}
