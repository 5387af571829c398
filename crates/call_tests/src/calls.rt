//! Calls of the program over memory, and a gate for those in threads.

use caa_base::outside::gate::Gate;
use caa_base::outside::memory::{MemPlant, MemSink, MemSource};
use caa_base::written::entry::{Participant, Place};
use caa_commands::status::Status;
use caa_commands::top::{asks_for_threads, top, top_quiet};
use std::alloc::{AllocError, Global};
use std::sync::Wait;
use std::sync::atomic::{AtomicBool, AtomicU64, Ordering};
use std::test::Fail;
use std::thread;
use std::thread::Threads;

/// Ann and bob each work for a round, in plays of their own.
pub const TWO_WORKS: &[u8] =
    b"participant ann\nparticipant bob\naction w\nroles r\nbody r\nwork 1\nend\nplay w ann\nplay w bob\n";

pub fn words_of(alloc: Global, words: &[&str]) -> Result<Vec<String>, AllocError> {
    let mut all = Vec::new(alloc);
    for word in words {
        all.push(String::from_str(alloc, word)?)?;
    }
    Ok(all)
}

/// How a play in threads ends on a script over memory, and how an audit of its text ends.
pub fn in_threads<G: Gate + Sync, R: Threads + Wait + Sync>(
    rt: &R,
    alloc: Global,
    words: &[&str],
    script: &[u8],
    gate: &G,
) -> Result<(Status, Status), Fail> {
    let words = words_of(alloc, words)?;
    let words = words.as_slice();
    let mut source = MemSource::new(alloc, script, &[])?;
    let mut sink = MemSink::new(alloc, 4000, &[])?;
    let plant = MemPlant::new(false);
    if !asks_for_threads(words) {
        return Err(Fail::from("the words ask for no threads"));
    }
    let played = top(rt, alloc, words, &mut source, &mut sink, plant, gate).status;
    Ok((played, audit_of(alloc, script, sink.bytes())?))
}

/// How an audit of this text of a play ends.
fn audit_of(alloc: Global, script: &[u8], text: &[u8]) -> Result<Status, Fail> {
    let mut input = Vec::from_slice(alloc, script)?;
    input.extend_from_slice(text)?;
    let words = words_of(alloc, &["audit"])?;
    let mut source = MemSource::new(alloc, input.as_slice(), &[])?;
    let mut sink = MemSink::new(alloc, 1000, &[])?;
    let plant = MemPlant::new(false);
    Ok(top_quiet(alloc, words.as_slice(), &mut source, &mut sink, plant).status)
}

/// A gate at which two participants wait for each other, for a while.
#[derive(Drop)]
pub struct Meeting {
    came: [AtomicBool; 2],
    misses: AtomicU64,
}

impl Meeting {
    pub fn new() -> Meeting {
        Meeting {
            came: [AtomicBool::new(false), AtomicBool::new(false)],
            misses: AtomicU64::new(0),
        }
    }

    /// Whether both have come, and each before the other had waited for too long.
    pub fn have_met(&self) -> bool {
        self.came[0].load(Ordering::SeqCst)
            && self.came[1].load(Ordering::SeqCst)
            && self.misses.load(Ordering::SeqCst) == 0
    }
}

impl Gate for Meeting {
    fn work(&self, by: Participant, _place: Place) {
        let own = by as usize % 2;
        self.came[own].store(true, Ordering::SeqCst);
        for turn in 0..50_000_000u32 {
            if self.came[1 - own].load(Ordering::SeqCst) {
                return;
            }
            if turn % 1024 == 0 {
                thread::yield_now();
            }
        }
        self.misses.fetch_add(1, Ordering::SeqCst);
    }
}
