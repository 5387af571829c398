//! A loop of our own over a machine: all participants are asked in a round, and each entry is written as it is made.

ghost use Rattle.std.specs.Prelude.{◌≡◌, ◌<◌, length, IfSome};
ghost use Rattle.caa_base.specs.declared.written.entry.Kind.TheVariants as kind;
ghost use Rattle.place_plan.specs.RulesOfJournals.WellFormed.{IsWellFormed};

use caa_base::outside::gate::Gate;
use caa_base::outside::reading::write_all;
use caa_base::outside::sink::Sink;
use caa_base::written::entry::{Entry, Failed, OutOfMemory, Participant};
use caa_base::written::work::WorkDone;
use journal_laws::is_well_formed;
use journal_text::texts::text_writer::push_entry;
use place_plan::plans::plan::Plan;
use place_plan::rules::machine::{Answer, Machine};

/// The next entry of a participant, where it may make one now. Where that is a work, it is done here, once the gate was told of it.
fn next_entry<M: Machine, G: Gate>(machine: &mut M, by: Participant, gate: &G) -> Option<Entry>
    requires { by < length (M.plan_of machine.old).participants }
    ensures plan { M.plan_of machine.new ≡ M.plan_of machine.old }
    ensures formed { IfSome result (IsWellFormed (M.plan_of machine.new)) }
    ensures told { IfSome result (λ e. e.kind ≡ kind.Work → G.was_told gate.now e.by e.place) }
{
    is_well_formed(machine.plan());
    match machine.next(by, None) {
        Answer::Did(entry) => Some(entry),
        Answer::Work {
            place,
            rounds,
            from,
        } => {
            gate.work(by, place);
            Some(machine.work(by, place, &WorkDone::make(from, rounds)))
        }
        Answer::NotYet | Answer::Over => None,
    }
}

/// Writes the line of an entry.
fn log<K: Sink>(sink: &mut K, line: &mut Vec<u8>, plan: &Plan, entry: &Entry) -> Result<(), Failed>
    requires { IsWellFormed plan.now entry.now }
{
    line.clear();
    match push_entry(line, plan, entry) {
        Ok(()) => write_all(sink, line.as_slice()),
        Err(OutOfMemory) => Err(Failed),
    }
}

/// Asks each participant once.
fn round<M: Machine, G: Gate, K: Sink>(
    machine: &mut M,
    gate: &G,
    line: &mut Vec<u8>,
    sink: &mut K,
) -> Result<(), Failed>
    ensures { M.plan_of machine.new ≡ M.plan_of machine.old }
{
    for by in 0..machine.plan().participants() {
        if let Some(entry) = next_entry(machine, by, gate) {
            log(sink, line, machine.plan(), &entry)?;
        }
    }
    Ok(())
}

/// Plays a machine to its end, and writes each entry as it is made. It stops where a line can't be written.
pub fn play_in_rounds<M: Machine, G: Gate, K: Sink>(
    machine: &mut M,
    gate: &G,
    line: &mut Vec<u8>,
    sink: &mut K,
) -> Result<(), Failed> {
    // As long as somebody isn't over, each round makes an entry, and a journal has no more of them than the plan's bound.
    for _ in 0..machine.plan().bound() {
        if machine.complete() {
            break;
        }
        round(machine, gate, line, sink)?;
    }
    Ok(())
}
