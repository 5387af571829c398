//! An example of a program with `caa` inside: it plays the script on standard input over a press of its own.
#![tactic(auto)]

mod rounds;
mod slow_press;
mod stroke;

use crate::rounds::play_in_rounds;
use crate::slow_press::SlowPress;
use crate::stroke::Stroke;
use action_script::lines::reader::read;
use caa_base::outside::reading::read_all;
use caa_base::outside::standard::{StdSink, StdSource};
use caa_base::written::limits::MOST_SCRIPT_BYTES;
use journal_replay::hall::PlainHall;
use script_checker::compile::compile;
use std::process::ExitCode;

/// How the program ends. Wherever it needs memory and finds none, it ends as where that step is refused.
#[derive(Clone, Copy)]
enum Status {
    /// The script was played to its end.
    Done = 0,
    /// The input can't be read to its end, or is longer than a script may be.
    Unread = 3,
    /// The script is refused.
    Refused = 4,
    /// The line of an entry can't be written.
    Unwritten = 5,
    /// The press can't be laid out.
    Unopened = 6,
}

/// Plays the script on standard input, and writes each entry to standard output.
fn play(rt: &HostRuntime) -> Status {
    let mut source = StdSource::new(rt.stdin());
    let mut sink = StdSink::new(rt.stdout());
    let Ok(bytes) = read_all(rt.alloc(), &mut source, MOST_SCRIPT_BYTES) else {
        return Status::Unread;
    };
    let Ok(script) = read(rt.alloc(), bytes.as_slice()) else {
        return Status::Refused;
    };
    let Ok(plan) = compile(rt.alloc(), &script) else {
        return Status::Refused;
    };
    let stroke = Stroke::new();
    let press = SlowPress::new(&stroke);
    let Ok(mut hall) = PlainHall::open(rt.alloc(), plan, press) else {
        return Status::Unopened;
    };
    let mut line = Vec::new(rt.alloc());
    match play_in_rounds(&mut hall, &stroke, &mut line, &mut sink) {
        Ok(()) => Status::Done,
        Err(_) => Status::Unwritten,
    }
}

fn main(rt: HostRuntime) -> ExitCode {
    ExitCode::from(play(&rt) as u8)
}
