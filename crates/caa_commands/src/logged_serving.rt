//! What the commands that play come to over the input, where the journal is written as they play.

ghost use Rattle.std.specs.Prelude.{◌≡◌, ◌<◌, ◌≤◌, Some, false, option_map, IfSome};
ghost use Rattle.entry_log.specs.Logs.{IsFresh};
ghost use Rattle.caa_commands.specs.declared.command.Command.{Command};
ghost use Rattle.caa_commands.specs.Commands.{asks_for_input, most_seed, IsWithinRange};
ghost use Rattle.caa_commands.specs.inner.Parts.{quiet_command, threaded_command};
ghost use Rattle.caa_commands.specs.OutsideUse.{source_use, plant_use, left_of, call_of, IsIdle};
ghost use Rattle.caa_commands.specs.Calls.{InputComesTo, CameTo};
ghost use Rattle.caa_commands.specs.Gates.{IsToldByRun};
ghost use Rattle.caa_commands.specs.declared.logging.LogUse.{LogUse};
ghost use Rattle.caa_commands.specs.Logging.{WasUsed, ScriptInLog, PlayedInLog};

use crate::command::{OverInput, OverPlan, Quiet, Threaded};
use crate::finding::Finding;
use crate::logged_playing::{pool_logged, run_logged, simulate_logged};
use crate::logging::{LogUse, LoggedDecision};
use crate::playing::Decision;
use crate::scripts::{NoPlan, plan_of};
use crate::serving::{decide, unread};
use caa_base::outside::plant::Plant;
use caa_base::outside::reading::read_all;
use caa_base::outside::sink::Sink;
use caa_base::outside::source::Source;
use caa_base::written::limits::MOST_SCRIPT_BYTES;
use entry_log::watched::Watch;
use role_driver::ToldGate;
use std::alloc::Global;
use std::sync::Wait;
use std::thread::Threads;

/// This was found, and nothing was played nor written.
fn unplayed<P: Plant, K: Sink>(
    alloc: Global,
    finding: Finding,
    plant: P,
    sink: K,
) -> LoggedDecision<P, K>
    ensures finding { result.decision.finding ≡ finding }
    ensures idle { IsIdle
        (left_of (plant_use ⟦<P as Plant>⟧ plant result.decision.plant) result.decision.journal.entries) }
    ensures log { result.log ≡ LogUse.Untouched sink }
{
    LoggedDecision {
        decision: Decision::idle(alloc, finding, plant),
        log: LogUse::Untouched(sink),
    }
}

/// Plays the script in these bytes by the schedule of a seed.
fn simulate_script<P: Plant, K: Sink + Drop, W: Watch + Drop>(
    alloc: Global,
    seed: u32,
    bytes: &[u8],
    plant: P,
    sink: K,
    watcher: W,
) -> LoggedDecision<P, K>
    requires seed { seed ≤ most_seed }
    requires fresh { IsFresh ⟦<K as Sink>⟧ sink }
    ensures comes { InputComesTo (Command.Sim seed) bytes.now result.decision.finding
        (left_of (plant_use ⟦<P as Plant>⟧ plant result.decision.plant) result.decision.journal.entries) }
    ensures logged { WasUsed ⟦<K as Sink>⟧ sink
        (ScriptInLog ⟦<K as Sink>⟧ (Command.Sim seed) bytes.now
        (left_of (plant_use ⟦<P as Plant>⟧ plant result.decision.plant) result.decision.journal.entries)
        result.decision.finding)
        result.decision.finding result.decision.journal.entries result.log }
{
    match plan_of(alloc, bytes) {
        Ok(plan) => simulate_logged(alloc, plan, seed, plant, sink, watcher),
        Err(NoPlan::Refused(refusal)) => unplayed(alloc, Finding::Refused(refusal), plant, sink),
        Err(NoPlan::OutOfMemory) => unplayed(alloc, Finding::OutOfMemory, plant, sink),
    }
}

/// What `sim` comes to over a source and a device.
fn decide_sim<S: Source, P: Plant, K: Sink + Drop, W: Watch + Drop>(
    alloc: Global,
    seed: u32,
    source: &mut S,
    plant: P,
    sink: K,
    watcher: W,
) -> LoggedDecision<P, K>
    requires seed { seed ≤ most_seed }
    requires fresh { IsFresh ⟦<K as Sink>⟧ sink }
    ensures came { CameTo
        (call_of (Some (Command.Sim seed))
        (source_use ⟦<S as Source>⟧ source.old source.new)
        (left_of (plant_use ⟦<P as Plant>⟧ plant result.decision.plant) result.decision.journal.entries))
        result.decision.finding }
    ensures logged { WasUsed ⟦<K as Sink>⟧ sink
        (PlayedInLog ⟦<K as Sink>⟧
        (call_of (Some (Command.Sim seed))
        (source_use ⟦<S as Source>⟧ source.old source.new)
        (left_of (plant_use ⟦<P as Plant>⟧ plant result.decision.plant) result.decision.journal.entries))
        result.decision.finding)
        result.decision.finding result.decision.journal.entries result.log }
    ensures count { S.faults source.old ≤ S.faults source.new }
{
    match read_all(alloc, source, MOST_SCRIPT_BYTES) {
        Ok(bytes) => simulate_script(alloc, seed, bytes.as_slice(), plant, sink, watcher),
        Err(error) => unplayed(alloc, unread(error), plant, sink),
    }
}

/// What a command comes to over a source and a device, where `sim` writes to a log.
pub fn decide_logged<S: Source, P: Plant, K: Sink + Drop, W: Watch + Drop>(
    alloc: Global,
    asked: Option<Quiet>,
    source: &mut S,
    plant: P,
    sink: K,
    watcher: W,
) -> LoggedDecision<P, K>
    requires range { IfSome asked (λ c. IsWithinRange (quiet_command c)) }
    requires fresh { IsFresh ⟦<K as Sink>⟧ sink }
    ensures came { CameTo
        (call_of (option_map quiet_command asked)
        (source_use ⟦<S as Source>⟧ source.old source.new)
        (left_of (plant_use ⟦<P as Plant>⟧ plant result.decision.plant) result.decision.journal.entries))
        result.decision.finding }
    ensures logged { WasUsed ⟦<K as Sink>⟧ sink
        (PlayedInLog ⟦<K as Sink>⟧
        (call_of (option_map quiet_command asked)
        (source_use ⟦<S as Source>⟧ source.old source.new)
        (left_of (plant_use ⟦<P as Plant>⟧ plant result.decision.plant) result.decision.journal.entries))
        result.decision.finding)
        result.decision.finding result.decision.journal.entries result.log }
    ensures untouched { asks_for_input (option_map quiet_command asked) ≡ false → source.new ≡ source.old }
    ensures count { S.faults source.old ≤ S.faults source.new }
{
    match asked {
        Some(Quiet::OverInput(OverInput::OverPlan(OverPlan::Sim(seed)))) => {
            decide_sim(alloc, seed, source, plant, sink, watcher)
        }
        asked => LoggedDecision {
            decision: decide(alloc, asked, source, plant),
            log: LogUse::Untouched(sink),
        },
    }
}

/// Plays in threads the script in these bytes. It need not return.
#[tactic(auto, using(crate::proofs::GatesTold::idle_told))]
fn play_script<
    P: Plant + Send,
    K: Sink + Drop + Send,
    W: Watch + Drop + Send,
    G: ToldGate + Sync,
    R: Threads + Wait + Sync,
>(
    rt: &R,
    alloc: Global,
    command: Threaded,
    bytes: &[u8],
    plant: P,
    sink: K,
    watcher: W,
    gate: &G,
) -> LoggedDecision<P, K>
    requires range { IsWithinRange (threaded_command command) }
    requires fresh { IsFresh ⟦<K as Sink>⟧ sink }
    ensures comes { InputComesTo (threaded_command command) bytes.now result.decision.finding
        (left_of (plant_use ⟦<P as Plant>⟧ plant result.decision.plant) result.decision.journal.entries) }
    ensures logged { WasUsed ⟦<K as Sink>⟧ sink
        (ScriptInLog ⟦<K as Sink>⟧ (threaded_command command) bytes.now
        (left_of (plant_use ⟦<P as Plant>⟧ plant result.decision.plant) result.decision.journal.entries)
        result.decision.finding)
        result.decision.finding result.decision.journal.entries result.log }
    ensures told { IsToldByRun (Some (threaded_command command)) (G.was_told gate.now) (G.was_handed gate.now) result.decision.journal.entries }
{
    match plan_of(alloc, bytes) {
        Ok(plan) => match command {
            Threaded::Run => run_logged(rt, alloc, plan, plant, sink, watcher, gate),
            Threaded::Pool(workers) => {
                pool_logged(rt, alloc, plan, workers, plant, sink, watcher, gate)
            }
        },
        Err(NoPlan::Refused(refusal)) => unplayed(alloc, Finding::Refused(refusal), plant, sink),
        Err(NoPlan::OutOfMemory) => unplayed(alloc, Finding::OutOfMemory, plant, sink),
    }
}

/// What a command comes to that is played in threads, over a source and a device, where it writes to a log. It need not return.
#[tactic(auto, using(crate::proofs::CommandParts::threaded_reads, crate::proofs::CommandParts::threaded_most, crate::proofs::GatesTold::idle_told))]
fn play_read<
    S: Source,
    P: Plant + Send,
    K: Sink + Drop + Send,
    W: Watch + Drop + Send,
    G: ToldGate + Sync,
    R: Threads + Wait + Sync,
>(
    rt: &R,
    alloc: Global,
    command: Threaded,
    source: &mut S,
    plant: P,
    sink: K,
    watcher: W,
    gate: &G,
) -> LoggedDecision<P, K>
    requires range { IsWithinRange (threaded_command command) }
    requires fresh { IsFresh ⟦<K as Sink>⟧ sink }
    ensures came { CameTo
        (call_of (Some (threaded_command command))
        (source_use ⟦<S as Source>⟧ source.old source.new)
        (left_of (plant_use ⟦<P as Plant>⟧ plant result.decision.plant) result.decision.journal.entries))
        result.decision.finding }
    ensures logged { WasUsed ⟦<K as Sink>⟧ sink
        (PlayedInLog ⟦<K as Sink>⟧
        (call_of (Some (threaded_command command))
        (source_use ⟦<S as Source>⟧ source.old source.new)
        (left_of (plant_use ⟦<P as Plant>⟧ plant result.decision.plant) result.decision.journal.entries))
        result.decision.finding)
        result.decision.finding result.decision.journal.entries result.log }
    ensures told { IsToldByRun (Some (threaded_command command)) (G.was_told gate.now) (G.was_handed gate.now) result.decision.journal.entries }
    ensures count { S.faults source.old ≤ S.faults source.new }
{
    match read_all(alloc, source, MOST_SCRIPT_BYTES) {
        Ok(bytes) => play_script(
            rt,
            alloc,
            command,
            bytes.as_slice(),
            plant,
            sink,
            watcher,
            gate,
        ),
        Err(error) => unplayed(alloc, unread(error), plant, sink),
    }
}

/// The same of what was asked for, which may be no such command. It need not return.
#[tactic(auto, using(crate::proofs::GatesTold::idle_told))]
pub fn decide_logged_in_threads<
    S: Source,
    P: Plant + Send,
    K: Sink + Drop + Send,
    W: Watch + Drop + Send,
    G: ToldGate + Sync,
    R: Threads + Wait + Sync,
>(
    rt: &R,
    alloc: Global,
    asked: Option<Threaded>,
    source: &mut S,
    plant: P,
    sink: K,
    watcher: W,
    gate: &G,
) -> LoggedDecision<P, K>
    requires range { IfSome asked (λ c. IsWithinRange (threaded_command c)) }
    requires fresh { IsFresh ⟦<K as Sink>⟧ sink }
    ensures came { CameTo
        (call_of (option_map threaded_command asked)
        (source_use ⟦<S as Source>⟧ source.old source.new)
        (left_of (plant_use ⟦<P as Plant>⟧ plant result.decision.plant) result.decision.journal.entries))
        result.decision.finding }
    ensures logged { WasUsed ⟦<K as Sink>⟧ sink
        (PlayedInLog ⟦<K as Sink>⟧
        (call_of (option_map threaded_command asked)
        (source_use ⟦<S as Source>⟧ source.old source.new)
        (left_of (plant_use ⟦<P as Plant>⟧ plant result.decision.plant) result.decision.journal.entries))
        result.decision.finding)
        result.decision.finding result.decision.journal.entries result.log }
    ensures told { IsToldByRun (option_map threaded_command asked) (G.was_told gate.now) (G.was_handed gate.now)
        result.decision.journal.entries }
    ensures count { S.faults source.old ≤ S.faults source.new }
{
    match asked {
        None => unplayed(alloc, Finding::Usage, plant, sink),
        Some(command) => play_read(rt, alloc, command, source, plant, sink, watcher, gate),
    }
}
