//! The program `caa`: it checks and plays scripts of coordinated atomic actions, prints their journals and judges them.
#![tactic(auto)]

use action_script::words::call_words::call_words;
use caa_base::outside::gate::EmptyGate;
use caa_base::outside::memory::MemPlant;
use caa_base::outside::reading::write_all;
use caa_base::outside::standard::{StdSink, StdSource};
pub use caa_commands::status::{Ended, Status};
pub use caa_commands::top::{asks_for_threads, top, top_quiet};
use std::process::ExitCode;

/// Its name, its version, and the commit that it was built from: zeros, until `./build_caa` has written twelve digits there.
const VERSION: &[u8] = b"caa 1.0, commit 000000000000\n";

/// Whether the words ask for the version. No command is called so.
fn asks_for_version(words: &[String]) -> bool {
    matches!(words, [word] if word.as_str() == "--version")
}

/// Writes the version on standard output.
fn tell_version(rt: &HostRuntime) -> Status {
    match write_all(&mut StdSink::new(rt.stdout()), VERSION) {
        Ok(()) => Status::Done,
        Err(_) => Status::SinkFault,
    }
}

fn main(rt: HostRuntime) -> ExitCode {
    let Ok(words) = call_words(&rt) else {
        return ExitCode::from(Status::OutOfMemory.code());
    };
    if asks_for_version(words.as_slice()) {
        return ExitCode::from(tell_version(&rt).code());
    }
    let mut source = StdSource::new(rt.stdin());
    let mut sink = StdSink::new(rt.stdout());
    let plant = MemPlant::new(false);
    let words = words.as_slice();
    let ended = if asks_for_threads(words) {
        top(
            &rt,
            rt.alloc(),
            words,
            &mut source,
            &mut sink,
            plant,
            &EmptyGate,
        )
    } else {
        top_quiet(rt.alloc(), words, &mut source, &mut sink, plant)
    };
    ExitCode::from(ended.status.code())
}
