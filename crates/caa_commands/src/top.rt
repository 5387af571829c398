ghost use Rattle.std.specs.Prelude.{◌≡◌, ◌≤◌, [], if◌then◌else◌, true, false, map, string_bytes};
ghost use Rattle.caa_commands.specs.Commands.{command_of, asks_for_input, asks_for_threads, without_threads};
ghost use Rattle.caa_commands.specs.Findings.{is_played, CanBeTold};
ghost use Rattle.caa_commands.specs.Gates.{IsToldByRun};
ghost use Rattle.caa_commands.specs.OutsideUse.{sink_use, call_over};
ghost use Rattle.caa_commands.specs.Calls.{Tells, Answers};
ghost use Rattle.caa_commands.specs.Served.{MissesNothing};

pub use crate::command::asks_for_threads;
use crate::command::{quiet_command_of, threaded_command_of};
use crate::playing::Decision;
use crate::serving::{decide, decide_in_threads};
use crate::status::{Ended, Status};
use caa_base::outside::plant::Plant;
use caa_base::outside::sink::Sink;
use caa_base::outside::source::Source;
use caa_base::written::journal::Journal;
use role_driver::ToldGate;
use std::alloc::Global;
use std::sync::Wait;
use std::thread::Threads;

/// The journal that is handed back where the text of a finding wasn't written: the played one, or none.
fn journal_kept(alloc: Global, is_played: bool, journal: Journal) -> Journal
    ensures { result.entries ≡ (if is_played then journal.entries else []) }
{
    if is_played {
        journal
    } else {
        Journal::empty(alloc)
    }
}

/// Writes the text of what was found, and answers.
pub(crate) fn tell<K: Sink, P: Plant>(
    alloc: Global,
    decision: Decision<P>,
    sink: &mut K,
) -> Ended<P>
    requires { CanBeTold decision.finding decision.journal.entries }
    ensures tells { Tells decision.finding decision.journal.entries result.journal.entries
        (sink_use ⟦<K as Sink>⟧ sink.old sink.new) result.status }
    ensures plant { result.plant ≡ decision.plant }
    ensures room { K.room sink.new ≡ K.room sink.old }
    ensures count { K.faults sink.old ≤ K.faults sink.new }
{
    let Decision {
        finding,
        plant,
        journal,
    } = decision;
    let status = finding.status();
    let is_played = finding.is_played();
    let Ok(text) = finding.into_text(alloc) else {
        return Ended {
            status: Status::OutOfMemory,
            plant,
            journal: Journal::empty(alloc),
        };
    };
    match text.write(sink, &journal) {
        Ok(()) => Ended {
            status,
            plant,
            journal,
        },
        Err(_) => Ended {
            status: Status::SinkFault,
            plant,
            journal: journal_kept(alloc, is_played, journal),
        },
    }
}

/// Serves the command of the words, from a source to a sink, over a device. It always returns.
///
/// `check` reads a script and tells how large its plan is. `sim SEED`, with a seed from 0 to 2147483647, plays it to its end in
/// the order that the seed gives and writes the text of the journal. `audit` reads a script and the text of a journal after it,
/// and tells whether the journal is legal and complete. `graph K`, with K from 1 to 7, reads a script of primitives and writes the
/// script of the graph of their sets of at most K members. `messages SEED`, with such a seed too, reads a script, lets the roles of
/// its first play agree by messages, and writes what happened and what each has resolved. `cell N`, with N from 1 to 2000, reads
/// nothing: it plays the script of a production cell that works for N cycles, as `sim` plays one by the seed N, and writes the
/// summary of the journal. Things are tried in this order: the words (`Usage`); the reading (`SourceFault`, or `Refused` where the
/// input is too long); the script (`Refused`); for `audit` the journal (`Refused` past its most entries, or `Illegal`); for `sim` and
/// `cell` that the device is laid out (`PlantFault`), and the play (`SomeFailed` where a play failed); and the writing. Where not all
/// of the text is written, the status is `SinkFault`, and a part of the text was written. At `OutOfMemory` nothing was written; it
/// never comes for wrong words.
///
/// The journal that is handed back is the played one, wherever the script was played; for `audit` at `Done` the one that was
/// read; and else empty. The device is as it was for `check`, `audit`, `graph` and `messages`, and wherever nothing was tried beyond
/// the script. The source is as it was for `cell`.
pub fn top_quiet<S: Source, K: Sink, P: Plant>(
    alloc: Global,
    words: &[String],
    source: &mut S,
    sink: &mut K,
    plant: P,
) -> Ended<P>
    ensures answer { Answers
        (call_over ⟦<S as Source>⟧ ⟦<P as Plant>⟧ (without_threads (command_of (map string_bytes words.now)))
        source.old source.new plant result.plant result.journal.entries)
        (sink_use ⟦<K as Sink>⟧ sink.old sink.new)
        result.status }

    // Where nothing outside fails, what can be served is served, an audit tells what is to be found, and what is to be refused is
    // refused; or memory was wanting.
    ensures completeness { MissesNothing
        (call_over ⟦<S as Source>⟧ ⟦<P as Plant>⟧ (without_threads (command_of (map string_bytes words.now)))
        source.old source.new plant result.plant result.journal.entries)
        (sink_use ⟦<K as Sink>⟧ sink.old sink.new)
        result.status }

    // Words that are no command leave the source as it was, and so does `cell`.
    ensures untouched { asks_for_input (without_threads (command_of (map string_bytes words.now))) ≡ false → source.new ≡ source.old }
    ensures room { K.room sink.new ≡ K.room sink.old }
    ensures source_count { S.faults source.old ≤ S.faults source.new }
    ensures sink_count { K.faults sink.old ≤ K.faults sink.new }
{
    let decision = decide(alloc, quiet_command_of(words), source, plant);
    tell(alloc, decision, sink)
}

/// Serves `run` and `pool`, from a source to a sink, over a device. It need not return, so all other words are for [`top_quiet`].
///
/// `run` reads a script and plays it to its end, each participant in a thread of its own, which calls the gate before each piece
/// of work. When the play is over, it writes the text of the journal with what was seen. `pool W`, with W from 1 to 16, reads a script
/// and plays it to its end by W workers, each in a thread of its own, who take the seats of participants by turns and call the gate
/// in the same way. It writes the text of the journal too, and nobody watches. Things are tried in the same order as for `sim`, and
/// what is handed back is the same.
pub fn top<S: Source, K: Sink, P: Plant + Send, G: ToldGate + Sync, R: Threads + Wait + Sync>(
    rt: &R,
    alloc: Global,
    words: &[String],
    source: &mut S,
    sink: &mut K,
    plant: P,
    gate: &G,
) -> Ended<P>
    requires threads { asks_for_threads (command_of (map string_bytes words.now)) ≡ true }
    ensures answer { Answers
        (call_over ⟦<S as Source>⟧ ⟦<P as Plant>⟧ (command_of (map string_bytes words.now))
        source.old source.new plant result.plant result.journal.entries)
        (sink_use ⟦<K as Sink>⟧ sink.old sink.new)
        result.status }

    // Where nothing outside fails, what can be served is served, and what is to be refused is refused; or memory was wanting.
    ensures completeness { MissesNothing
        (call_over ⟦<S as Source>⟧ ⟦<P as Plant>⟧ (command_of (map string_bytes words.now))
        source.old source.new plant result.plant result.journal.entries)
        (sink_use ⟦<K as Sink>⟧ sink.old sink.new)
        result.status }

    // With `run` the gate was told of each work in the journal, and of each handler that begins there.
    ensures told { IsToldByRun (command_of (map string_bytes words.now)) (G.was_told gate.now) (G.was_handed gate.now)
        result.journal.entries }
    ensures room { K.room sink.new ≡ K.room sink.old }
    ensures source_count { S.faults source.old ≤ S.faults source.new }
    ensures sink_count { K.faults sink.old ≤ K.faults sink.new }
{
    let decision = decide_in_threads(rt, alloc, threaded_command_of(words), source, plant, gate);
    tell(alloc, decision, sink)
}
