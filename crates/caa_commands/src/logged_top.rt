ghost use Rattle.std.specs.Prelude.{◌≡◌, ◌≤◌, true, false, map, string_bytes};
ghost use Rattle.caa_commands.specs.Commands.{command_of, asks_for_input, asks_for_threads, without_threads};
ghost use Rattle.caa_commands.specs.Findings.{CanBeTold};
ghost use Rattle.caa_commands.specs.Gates.{IsToldByRun};
ghost use Rattle.caa_commands.specs.OutsideUse.{sink_use, call_over};
ghost use Rattle.caa_commands.specs.Served.{MissesNothing};
ghost use Rattle.entry_log.specs.Logs.{IsFresh};
ghost use Rattle.caa_commands.specs.Logging.{TellsAlike, ToldBy, LogAnswers};

use crate::command::{quiet_command_of, threaded_command_of};
use crate::logged_serving::{decide_logged, decide_logged_in_threads};
use crate::logging::{LogUse, LoggedDecision, end_log};
use crate::status::{Ended, Status};
use crate::top::tell;
use caa_base::outside::plant::Plant;
use caa_base::outside::sink::Sink;
use caa_base::outside::source::Source;
use caa_base::written::journal::Journal;
use entry_log::watched::Watch;
use role_driver::ToldGate;
use std::alloc::Global;
use std::sync::Wait;
use std::thread::Threads;

/// What a call of the program that writes its journal as it plays hands back.
#[derive(Drop)]
pub struct LoggedEnd<P, K> {
    pub status: Status,
    /// The plant that was handed in.
    pub plant: P,
    /// The journal that was played, or the one that an audit judged legal and told of, or else an empty one.
    pub journal: Journal,
    /// The sink that was handed in.
    pub sink: K,
}

/// Writes what is still to be written of what was found, and answers.
fn tell_logged<K: Sink + Drop, P: Plant>(
    alloc: Global,
    decided: LoggedDecision<P, K>,
) -> LoggedEnd<P, K>
    requires { CanBeTold decided.decision.finding decided.decision.journal.entries }
    ensures told { ToldBy ⟦<K as Sink>⟧ decided.decision.finding decided.decision.journal.entries result.journal.entries decided.log
        result.sink result.status }
    ensures plant { result.plant ≡ decided.decision.plant }
{
    let LoggedDecision { decision, log } = decided;
    match log {
        LogUse::Untouched(mut sink) => {
            let Ended {
                status,
                plant,
                journal,
            } = tell(alloc, decision, &mut sink);
            LoggedEnd {
                status,
                plant,
                journal,
                sink,
            }
        }
        LogUse::Unopened(sink) => LoggedEnd {
            status: Status::SinkFault,
            plant: decision.plant,
            journal: decision.journal,
            sink,
        },
        LogUse::Kept(mut log) => {
            let status = end_log(&mut log, &decision.finding);
            LoggedEnd {
                status,
                plant: decision.plant,
                journal: decision.journal,
                sink: log.into_sink(),
            }
        }
    }
}

/// Serves the command of the words as [`top_quiet`](crate::top::top_quiet) does, and writes the journal of `sim` as it plays: before a
/// put is asked for, the lines of all entries before it were written, each by one call of the sink, as long as no write failed and
/// memory was found for each line.
///
/// The sink is a fresh one, such as that of a file that was just made. At the end it holds what it would hold after `top_quiet`. Where
/// the first line can't be written nothing is played (`SinkFault`). Where a later write fails the play goes on to its end, nothing more
/// is written, and the status is `SinkFault`; where no memory is found for a line or for what stands behind the entries, it is
/// `OutOfMemory`, and a front of the text was written. The watcher sees each entry after its line was written, before a put is asked
/// for, also where the log has stopped.
///
/// The journal that is handed back is the played one, wherever the script was played.
pub fn top_logged_quiet<S: Source, K: Sink + Drop, P: Plant, W: Watch + Drop>(
    alloc: Global,
    words: &[String],
    source: &mut S,
    sink: K,
    plant: P,
    watcher: W,
) -> LoggedEnd<P, K>
    requires fresh { IsFresh ⟦<K as Sink>⟧ sink }
    requires alike { TellsAlike ⟦<K as Sink>⟧ }
    ensures answer { ∥ LogAnswers
        (call_over ⟦<S as Source>⟧ ⟦<P as Plant>⟧ (without_threads (command_of (map string_bytes words.now)))
        source.old source.new plant result.plant result.journal.entries)
        (sink_use ⟦<K as Sink>⟧ sink result.sink)
        result.status ∥₁ }
    ensures completeness { ∥ MissesNothing
        (call_over ⟦<S as Source>⟧ ⟦<P as Plant>⟧ (without_threads (command_of (map string_bytes words.now)))
        source.old source.new plant result.plant result.journal.entries)
        (sink_use ⟦<K as Sink>⟧ sink result.sink)
        result.status ∥₁ }
    ensures untouched { asks_for_input (without_threads (command_of (map string_bytes words.now))) ≡ false → source.new ≡ source.old }
    ensures source_count { S.faults source.old ≤ S.faults source.new }
{
    let decided = decide_logged(alloc, quiet_command_of(words), source, plant, sink, watcher);
    tell_logged(alloc, decided)
}

/// Serves `run` and `pool` as [`top`](crate::top::top) does, and writes the journal as they play, as [`top_logged_quiet`] does that of
/// `sim`. It need not return, so all other words are for that.
pub fn top_logged<
    S: Source,
    K: Sink + Drop + Send,
    P: Plant + Send,
    W: Watch + Drop + Send,
    G: ToldGate + Sync,
    R: Threads + Wait + Sync,
>(
    rt: &R,
    alloc: Global,
    words: &[String],
    source: &mut S,
    sink: K,
    plant: P,
    watcher: W,
    gate: &G,
) -> LoggedEnd<P, K>
    requires threads { asks_for_threads (command_of (map string_bytes words.now)) ≡ true }
    requires fresh { IsFresh ⟦<K as Sink>⟧ sink }
    requires alike { TellsAlike ⟦<K as Sink>⟧ }
    ensures answer { ∥ LogAnswers
        (call_over ⟦<S as Source>⟧ ⟦<P as Plant>⟧ (command_of (map string_bytes words.now))
        source.old source.new plant result.plant result.journal.entries)
        (sink_use ⟦<K as Sink>⟧ sink result.sink)
        result.status ∥₁ }
    ensures completeness { ∥ MissesNothing
        (call_over ⟦<S as Source>⟧ ⟦<P as Plant>⟧ (command_of (map string_bytes words.now))
        source.old source.new plant result.plant result.journal.entries)
        (sink_use ⟦<K as Sink>⟧ sink result.sink)
        result.status ∥₁ }
    ensures told { IsToldByRun (command_of (map string_bytes words.now)) (G.was_told gate.now) (G.was_handed gate.now)
        result.journal.entries }
    ensures source_count { S.faults source.old ≤ S.faults source.new }
{
    let asked = threaded_command_of(words);
    let decided = decide_logged_in_threads(rt, alloc, asked, source, plant, sink, watcher, gate);
    tell_logged(alloc, decided)
}
