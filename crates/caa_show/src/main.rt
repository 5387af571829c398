//! The program `caa_show`: it shows what a script says, and why one is refused.
#![tactic(auto)]

mod interlocks;
mod judging;
mod lines;
mod misread;
mod paging;
mod plays;
mod reading;
mod showing;
mod whereabouts;
mod words;

use crate::interlocks::{InterlockCall, interlock_asked, show_interlocks};
use crate::plays::{PlayCall, play_asked, show_plays};
use crate::showing::{Shown, Status, show};
use crate::words::{Alone, USAGE, VERSION, View, asked, asked_alone};
use action_script::words::call_words::call_words;
use caa_base::outside::reading::{ReadError, read_all, write_all};
use caa_base::outside::standard::{StdSink, StdSource};
use caa_base::written::entry::OutOfMemory;
use caa_base::written::limits::MOST_AUDIT_BYTES;
use fault_trials::trials::Progress;
use interlock_views::asking::RulesCall;
use interlock_views::hunting::HuntProgress;
use script_views::line_table::line_table;
use script_views::page::{Page, Piece};
use std::alloc::Global;
use std::fs;
use std::io::ErrorKind;
use std::process::ExitCode;
use std::rt::Files;

/// What the input is called where it is no file.
const STANDARD_INPUT: &str = "<stdin>";

/// All bytes of a file.
fn read_file(rt: &(impl Files + AllocGlobal), path: &str) -> Result<Vec<u8>, ReadError> {
    match fs::open(rt, path) {
        Ok(file) => read_all(rt.alloc(), &mut StdSource::new(file), MOST_AUDIT_BYTES),
        Err(error) if error.kind() == ErrorKind::OutOfMemory => Err(ReadError::OutOfMemory),
        Err(_) => Err(ReadError::Fault),
    }
}

/// A status with a text that is always the same, behind the name of the input. No call of it is laid out in place, so each text stands
/// whole in the program, where a build can set the commit of the version.
#[inline(never)]
fn told(alloc: Global, status: Status, file: &str, text: &[u8]) -> Shown {
    let mut told = Vec::new(alloc);
    let name = told.extend_from_slice(file.as_bytes());
    let rest = told.extend_from_slice(text);
    if name.is_ok() && rest.is_ok() {
        Shown { status, text: told }
    } else {
        Shown {
            status: Status::OutOfMemory,
            text: Vec::new(alloc),
        }
    }
}

/// What a view shows of what was read.
fn show_read(alloc: Global, view: View, file: &str, read: Result<Vec<u8>, ReadError>) -> Shown {
    match read {
        Ok(bytes) => match show(alloc, view, file.as_bytes(), &bytes) {
            Ok(shown) => shown,
            Err(_) => told(alloc, Status::OutOfMemory, "", b""),
        },
        Err(error) => unread(alloc, file, error),
    }
}

/// What a view of plays shows of what was read.
fn show_played<P: Progress>(
    alloc: Global,
    call: &PlayCall,
    file: &str,
    read: Result<Vec<u8>, ReadError>,
    progress: &mut P,
) -> Shown {
    match read {
        Ok(bytes) => match show_plays(alloc, call, file.as_bytes(), &bytes, progress) {
            Ok(shown) => shown,
            Err(_) => told(alloc, Status::OutOfMemory, "", b""),
        },
        Err(error) => unread(alloc, file, error),
    }
}

/// What is told of an input that can't be read.
fn unread(alloc: Global, file: &str, error: ReadError) -> Shown {
    match error {
        ReadError::Fault => told(
            alloc,
            Status::SourceFault,
            file,
            b": the input can't be read\n",
        ),
        ReadError::TooLong => told(alloc, Status::Refused, file, b": the input is too long\n"),
        ReadError::OutOfMemory => told(alloc, Status::OutOfMemory, "", b""),
    }
}

/// The table of the kinds of lines.
fn show_line_table(alloc: Global) -> Shown {
    match line_table(alloc) {
        Ok(text) => Shown {
            status: Status::Done,
            text,
        },
        Err(_) => told(alloc, Status::OutOfMemory, "", b""),
    }
}

/// What is shown without an input.
fn show_alone(alloc: Global, alone: Alone) -> Shown {
    match alone {
        Alone::LineTable => show_line_table(alloc),
        Alone::Help => told(alloc, Status::Done, "", USAGE),
        Alone::Version => told(alloc, Status::Done, "", VERSION),
    }
}

/// The bytes of a file, or of standard input where none is named.
fn read_input(rt: &HostRuntime, file: Option<&str>) -> Result<Vec<u8>, ReadError> {
    match file {
        Some(path) => read_file(rt, path),
        None => read_all(
            rt.alloc(),
            &mut StdSource::new(rt.stdin()),
            MOST_AUDIT_BYTES,
        ),
    }
}

/// After so many entries at most it is told how far a view of plays has come.
const EACH: u64 = 100_000_000;

/// Tells on standard error how far a view of plays has come.
#[derive(Drop)]
struct Teller<'a> {
    rt: &'a HostRuntime,
    /// How many entries are played before the next line.
    next: u64,
}

impl<'a> Teller<'a> {
    /// Tells that so many of these are done, where it is time to.
    fn tell_of(&mut self, counting: Counting, done: u32, all: u32, entries: u64) {
        if entries < self.next {
            return;
        }
        self.next = entries.saturating_add(EACH);
        if let Ok(line) = progress_line(self.rt.alloc(), counting, done, all) {
            write_shown(self.rt, &line, false);
        }
    }
}

impl<'a> Progress for Teller<'a> {
    fn tell(&mut self, done: u32, schedules: u32, entries: u64) {
        let counting = Counting {
            view: "faults: ",
            what: " schedules\n",
        };
        self.tell_of(counting, done, schedules, entries);
    }
}

impl<'a> HuntProgress for Teller<'a> {
    fn tell(&mut self, plays: u32, most: u32, entries: u64) {
        let counting = Counting {
            view: "interlock: ",
            what: " plays\n",
        };
        self.tell_of(counting, plays, most, entries);
    }
}

/// The view that tells how far it has come, and what it counts.
#[derive(Clone, Copy)]
struct Counting {
    view: &'static str,
    what: &'static str,
}

/// A line that tells how far a view of plays has come.
fn progress_line(
    alloc: Global,
    counting: Counting,
    done: u32,
    all: u32,
) -> Result<Vec<u8>, OutOfMemory> {
    let mut page = Page::new(alloc, &[]);
    page.say(&[
        Piece::Text(counting.view),
        Piece::Number(u64::from(done)),
        Piece::Text(" of "),
        Piece::Number(u64::from(all)),
        Piece::Text(counting.what),
    ])?;
    Ok(page.into_text())
}

/// What a view of plays comes to.
fn serve_played(rt: &HostRuntime, call: &PlayCall) -> Shown {
    let name = call.file.unwrap_or(STANDARD_INPUT);
    let mut teller = Teller { rt, next: EACH };
    show_played(
        rt.alloc(),
        call,
        name,
        read_input(rt, call.file),
        &mut teller,
    )
}

/// What becomes of the rules of a file, over a script that was read.
fn show_rules(rt: &HostRuntime, call: &InterlockCall, bytes: &[u8], rules: &[u8]) -> Shown {
    let alloc = rt.alloc();
    let file = call.script.unwrap_or(STANDARD_INPUT).as_bytes();
    let asked = RulesCall {
        script: call.script.unwrap_or("-").as_bytes(),
        file: call.rules.unwrap_or(STANDARD_INPUT).as_bytes(),
        text: rules,
        plays: call.plays,
    };
    let mut teller = Teller { rt, next: EACH };
    match show_interlocks(alloc, &asked, file, bytes, &mut teller) {
        Ok(shown) => shown,
        Err(_) => told(alloc, Status::OutOfMemory, "", b""),
    }
}

/// What a view of interlocks comes to.
fn serve_interlocks(rt: &HostRuntime, call: &InterlockCall) -> Shown {
    let bytes = match read_input(rt, call.script) {
        Ok(bytes) => bytes,
        Err(error) => return unread(rt.alloc(), call.script.unwrap_or(STANDARD_INPUT), error),
    };
    match read_input(rt, call.rules) {
        Ok(rules) => show_rules(rt, call, &bytes, &rules),
        Err(error) => unread(rt.alloc(), call.rules.unwrap_or(STANDARD_INPUT), error),
    }
}

/// What the words come to, and whether it belongs into the output: why a picture or a graph isn't there doesn't.
fn serve(rt: &HostRuntime, words: &[String]) -> (Shown, bool) {
    let alloc = rt.alloc();
    if let Some(alone) = asked_alone(words) {
        return (show_alone(alloc, alone), true);
    }
    if let Some(call) = play_asked(words) {
        return (serve_played(rt, &call), true);
    }
    if let Some(call) = interlock_asked(words) {
        return (serve_interlocks(rt, &call), true);
    }
    match asked(words) {
        None => (told(alloc, Status::Usage, "", USAGE), true),
        Some((view, file)) => {
            let name = file.unwrap_or(STANDARD_INPUT);
            let read = read_input(rt, file);
            let shown = show_read(alloc, view, name, read);
            let is_output = !view.is_for_machine() || shown.status == Status::Done;
            (shown, is_output)
        }
    }
}

/// Writes what is shown: into the output, or where it doesn't belong there as an error.
fn write_shown(rt: &HostRuntime, text: &[u8], is_output: bool) -> bool {
    if is_output {
        write_all(&mut StdSink::new(rt.stdout()), text).is_ok()
    } else {
        write_all(&mut StdSink::new(rt.stderr()), text).is_ok()
    }
}

fn main(rt: HostRuntime) -> ExitCode {
    let Ok(words) = call_words(&rt) else {
        return ExitCode::from(Status::OutOfMemory as u8);
    };
    let (shown, is_output) = serve(&rt, words.as_slice());
    if write_shown(&rt, &shown.text, is_output) {
        ExitCode::from(shown.status as u8)
    } else {
        ExitCode::from(Status::SinkFault as u8)
    }
}
