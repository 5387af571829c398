//! A call of `caa` over a device of lines.

ghost use Rattle.std.specs.Prelude.{map, string_bytes, IfOk};
ghost use Rattle.entry_log.specs.Logs.{IsFresh};
ghost use Rattle.caa_commands.specs.Commands.{command_of};
ghost use Rattle.caa_commands.specs.Logging.{LogAnswers, TellsAlike};
ghost use Rattle.caa_commands.specs.OutsideUse.{call_over, sink_use};
ghost use Rattle.caa_bridge.specs.Wire.{IsMadeFor, Serves, served_of};

use caa_base::outside::gate::EmptyGate;
use caa_base::outside::memory::SureSource;
use caa_base::outside::plant::Plant;
use caa_base::outside::sink::Sink;
use caa_base::outside::source::Source;
use caa_base::written::entry::OutOfMemory;
use caa_commands::logged_top::{LoggedEnd, top_logged, top_logged_quiet};
use caa_commands::scripts::{NoPlan, plan_of};
use caa_commands::top::asks_for_threads;
use entry_log::watched::Watch;
use line_plant::noted::Noted;
use line_plant::plant::LinePlant;
use place_plan::plans::plan::Plan;
use std::alloc::Global;
use std::io::Write;
use std::sync::Wait;
use std::thread::Threads;

/// Serves the words, in threads where they ask for that.
fn call<
    S: Source,
    K: Sink + Drop + Send,
    A: Source + Drop + Send,
    C: Sink + Drop + Send,
    O: Write + Drop + Send,
    W: Watch + Drop + Send,
    R: Threads + Wait + Sync,
>(
    rt: &R,
    alloc: Global,
    words: &[String],
    source: &mut S,
    sink: K,
    device: Noted<A, C, O>,
    watcher: W,
) -> LoggedEnd<Noted<A, C, O>, K>
    requires fresh { IsFresh ⟦<K as Sink>⟧ sink }
    requires alike { TellsAlike ⟦<K as Sink>⟧ }
    ensures answer { ∥ LogAnswers
        (call_over ⟦<S as Source>⟧ ⟦<Noted<A, C, O> as Plant>⟧ (served_of (command_of (map string_bytes words.now)))
        source.old source.new device result.plant result.journal.entries)
        (sink_use ⟦<K as Sink>⟧ sink result.sink)
        result.status ∥₁ }
{
    if asks_for_threads(words) {
        top_logged(rt, alloc, words, source, sink, device, watcher, &EmptyGate)
    } else {
        top_logged_quiet(alloc, words, source, sink, device, watcher)
    }
}

/// What is left of a call: how it ended, and the plan of its script, if that has one.
#[derive(Drop)]
pub struct Serving<P, K> {
    pub end: LoggedEnd<P, K>,
    pub plan: Option<Plan>,
}

/// A device with the objects of the script of these bytes, and the plan of that, if it has one. It is given up when a play has failed,
/// unless it goes on.
fn device_for<A: Source + Drop, C: Sink + Drop, O: Write + Drop>(
    alloc: Global,
    script: &[u8],
    answers: A,
    commands: C,
    operator: O,
    goes_on: bool,
) -> Result<(Option<Plan>, Noted<A, C, O>), OutOfMemory>
    ensures { IfOk result (λ made. IsMadeFor script.now goes_on (A.left answers) (C.held commands) made.0 made.1.plant) }
{
    let plan = match plan_of(alloc, script) {
        Ok(plan) => Some(plan),
        Err(NoPlan::Refused(_refusal)) => None,
        Err(NoPlan::OutOfMemory) => return Err(OutOfMemory),
    };
    let plant = match &plan {
        Some(plan) => LinePlant::for_plan(alloc, plan, goes_on, answers, commands)?,
        None => LinePlant::new(alloc, Vec::new(alloc), Vec::new(alloc), answers, commands),
    };
    Ok((plan, Noted::new(plant, operator)))
}

/// Serves the words as `caa` does, over a device of lines that it makes for the script of these bytes, and writes the journal of `sim`,
/// `run` and `pool` as it is played.
///
/// What the device was ever asked for, by the use that the call made of it, is what was sent on its wire, line by line, with the names
/// of the script's objects, whose plan is handed back; and just what was done was answered `well` there. Once a play has failed, it does nothing more, and `stop`
/// is sent, unless it goes on. The call need not return. Where no memory is found for the device, nothing was asked.
pub fn serve<
    K: Sink + Drop + Send,
    A: Source + Drop + Send,
    C: Sink + Drop + Send,
    O: Write + Drop + Send,
    W: Watch + Drop + Send,
    R: Threads + Wait + Sync,
>(
    rt: &R,
    alloc: Global,
    words: &[String],
    script: &[u8],
    answers: A,
    commands: C,
    operator: O,
    goes_on: bool,
    sink: K,
    watcher: W,
) -> Result<Serving<Noted<A, C, O>, K>, OutOfMemory>
    requires fresh { IsFresh ⟦<K as Sink>⟧ sink }
    requires alike { TellsAlike ⟦<K as Sink>⟧ }
    ensures { IfOk result (λ s. ∥ Serves ⟦<SureSource as Source>⟧ ⟦<Noted<A, C, O> as Plant>⟧ ⟦<A as Source>⟧ ⟦<C as Sink>⟧ (λ p. p.plant)
        (command_of (map string_bytes words.now)) script.now goes_on (A.left answers) (C.held commands) s.plan s.end.plant s.end.journal.entries
        (sink_use ⟦<K as Sink>⟧ sink s.end.sink) s.end.status ∥₁) }
{
    let (plan, device) = device_for(alloc, script, answers, commands, operator, goes_on)?;
    let mut source = SureSource::new(alloc, script)?;
    let end = call(rt, alloc, words, &mut source, sink, device, watcher);
    end.plant.plant.sent();
    Ok(Serving { end, plan })
}
