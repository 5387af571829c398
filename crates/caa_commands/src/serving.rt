//! What the commands come to over the input, before anything is written.

ghost use Rattle.std.specs.Prelude.{◌≡◌, ◌<◌, ◌≤◌, ◌^◌, Some, true, false, option_map, IfSome};
ghost use Rattle.caa_base.specs.Written.Limits.{most_audit_bytes};
ghost use Rattle.journal_text.specs.Texts.Naming.{is_well_named};
ghost use Rattle.message_plays.specs.Texts.{IsPlayedByMessages};
ghost use Rattle.caa_commands.specs.declared.command.Command.{Command};
ghost use Rattle.caa_commands.specs.Commands.{asks_for_input, IsWithinRange};
ghost use Rattle.caa_commands.specs.OutsideUse.{source_use, plant_use, left_of, call_of};
ghost use Rattle.caa_commands.specs.Calls.{AuditComesTo, Prints, PlanComesTo, InputComesTo, unread_finding, CameTo};
ghost use Rattle.caa_commands.specs.Gates.{IsToldByRun};
ghost use Rattle.caa_commands.specs.Inputs.{most_bytes, script_in};
ghost use Rattle.caa_commands.specs.inner.Parts.{plan_command, input_command, quiet_command, threaded_command};

use crate::cells::work;
use crate::command::{OverInput, OverPlan, Quiet, Threaded};
use crate::fault::{Fault, Refusal};
use crate::finding::Finding;
use crate::graphs::graph_text;
use crate::judging::{Judgement, judge};
use crate::playing::{Decision, pool_plan, run_plan, simulate};
use crate::scripts::{NoPlan, counts_of, plan_of};
use action_script::script_error::ScriptCause;
use action_script::words::journal_start::find_journal;
use caa_base::outside::plant::Plant;
use caa_base::outside::reading::{ReadError, read_all};
use caa_base::outside::source::Source;
use caa_base::written::limits::{MOST_AUDIT_BYTES, MOST_AUDITED, MOST_SCRIPT_BYTES};
use message_plays::messages_text;
use place_plan::plans::plan::Plan;
use role_driver::ToldGate;
use script_checker::check_error::CheckCause;
use std::alloc::Global;
use std::sync::Wait;
use std::thread::Threads;

/// Tells how large the plan of a script is.
fn check<P: Plant>(alloc: Global, bytes: &[u8], plant: P) -> Decision<P>
    ensures { InputComesTo Command.Check bytes.now result.finding
        (left_of (plant_use ⟦<P as Plant>⟧ plant result.plant) result.journal.entries) }
{
    match counts_of(alloc, bytes) {
        Ok(counts) => Decision::idle(alloc, Finding::Checked(counts), plant),
        Err(NoPlan::Refused(refusal)) => Decision::idle(alloc, Finding::Refused(refusal), plant),
        Err(NoPlan::OutOfMemory) => Decision::idle(alloc, Finding::OutOfMemory, plant),
    }
}

/// Makes the graph of all sets of at most so many of the exceptions that a script declares.
fn make_graph<P: Plant>(alloc: Global, bytes: &[u8], most: u32, plant: P) -> Decision<P>
    requires some { 1 ≤ most }
    requires few { most ≤ 7 }
    ensures { InputComesTo (Command.Graph most) bytes.now result.finding
        (left_of (plant_use ⟦<P as Plant>⟧ plant result.plant) result.journal.entries) }
{
    match graph_text(alloc, bytes, most) {
        Ok(text) => Decision::idle(alloc, Finding::Printed(text), plant),
        Err(NoPlan::Refused(refusal)) => Decision::idle(alloc, Finding::Refused(refusal), plant),
        Err(NoPlan::OutOfMemory) => Decision::idle(alloc, Finding::OutOfMemory, plant),
    }
}

/// Judges the journal that stands after the script in these bytes, which are all that was read.
fn judge_after<P: Plant>(alloc: Global, plan: &Plan, bytes: &[u8], plant: P) -> Decision<P>
    requires { is_well_named plan.now ≡ true }
    ensures { AuditComesTo plan.now bytes.now result.finding
        (left_of (plant_use ⟦<P as Plant>⟧ plant result.plant) result.journal.entries) }
{
    let start = find_journal(bytes);
    match judge(alloc, plan, &bytes[start.offset..]) {
        Judgement::Lawful(journal) => Decision {
            finding: Finding::Legal {
                entries: journal.len(),
            },
            plant,
            journal,
        },
        Judgement::Illegal { number } => {
            let line = start.lines + number;
            Decision::idle(alloc, Finding::Illegal { line }, plant)
        }
        Judgement::TooMany => {
            let refusal = Refusal {
                line: start.lines + (MOST_AUDITED + 2),
                fault: Fault::of_line(alloc, CheckCause::Limit),
            };
            Decision::idle(alloc, Finding::Refused(refusal), plant)
        }
        Judgement::OutOfMemory => Decision::idle(alloc, Finding::OutOfMemory, plant),
    }
}

/// Lets the members of a plan's first place agree by messages.
fn agree<P: Plant>(alloc: Global, plan: &Plan, seed: u32, plant: P) -> Decision<P>
    requires { seed < 2 ^ 31 }
    ensures { Prints (IsPlayedByMessages plan.now seed) result.finding
        (left_of (plant_use ⟦<P as Plant>⟧ plant result.plant) result.journal.entries) }
{
    let finding = match messages_text(alloc, plan, seed) {
        Ok(text) => Finding::Printed(text),
        Err(_) => Finding::OutOfMemory,
    };
    Decision::idle(alloc, finding, plant)
}

/// Serves a command over a plan, and over all bytes that were read.
fn serve_plan<P: Plant>(
    alloc: Global,
    command: OverPlan,
    plan: Plan,
    bytes: &[u8],
    plant: P,
) -> Decision<P>
    requires range { IsWithinRange (plan_command command) }
    requires named { is_well_named plan ≡ true }
    ensures { PlanComesTo (plan_command command) plan bytes.now result.finding
        (left_of (plant_use ⟦<P as Plant>⟧ plant result.plant) result.journal.entries) }
{
    match command {
        OverPlan::Sim(seed) => simulate(alloc, plan, seed, plant),
        OverPlan::Audit => judge_after(alloc, &plan, bytes, plant),
        OverPlan::Messages(seed) => agree(alloc, &plan, seed, plant),
    }
}

/// Which of the bytes that were read are the script.
fn script_in(command: OverPlan, bytes: &[u8]) -> &[u8]
    ensures { result.now ≡ script_in (plan_command command) bytes.now }
{
    match command {
        OverPlan::Audit => &bytes[..find_journal(bytes).offset],
        OverPlan::Sim(_) | OverPlan::Messages(_) => bytes,
    }
}

/// Serves a command over the plan of the script among the bytes that were read.
fn serve_script<P: Plant>(alloc: Global, command: OverPlan, bytes: &[u8], plant: P) -> Decision<P>
    requires range { IsWithinRange (plan_command command) }
    ensures { InputComesTo (plan_command command) bytes.now result.finding
        (left_of (plant_use ⟦<P as Plant>⟧ plant result.plant) result.journal.entries) }
{
    match plan_of(alloc, script_in(command, bytes)) {
        Ok(plan) => serve_plan(alloc, command, plan, bytes, plant),
        Err(NoPlan::Refused(refusal)) => Decision::idle(alloc, Finding::Refused(refusal), plant),
        Err(NoPlan::OutOfMemory) => Decision::idle(alloc, Finding::OutOfMemory, plant),
    }
}

/// Serves a command over the bytes that were read.
fn serve<P: Plant>(alloc: Global, command: OverInput, bytes: &[u8], plant: P) -> Decision<P>
    requires range { IsWithinRange (input_command command) }
    ensures { InputComesTo (input_command command) bytes.now result.finding
        (left_of (plant_use ⟦<P as Plant>⟧ plant result.plant) result.journal.entries) }
{
    match command {
        OverInput::Check => check(alloc, bytes, plant),
        OverInput::Graph(most) => make_graph(alloc, bytes, most, plant),
        OverInput::OverPlan(command) => serve_script(alloc, command, bytes, plant),
    }
}

/// How many bytes the input of a command may have.
fn most_bytes(command: OverInput) -> u64
    ensures value { result ≡ most_bytes (input_command command) }
    ensures small { result ≤ most_audit_bytes }
{
    match command {
        OverInput::OverPlan(OverPlan::Audit) => MOST_AUDIT_BYTES,
        OverInput::Check
        | OverInput::Graph(_)
        | OverInput::OverPlan(OverPlan::Sim(_) | OverPlan::Messages(_)) => MOST_SCRIPT_BYTES,
    }
}

/// What a call comes to whose input wasn't read to its end.
pub fn unread(error: ReadError) -> Finding
    ensures { result ≡ unread_finding error }
{
    match error {
        ReadError::Fault => Finding::SourceFault,
        ReadError::TooLong => Finding::Refused(Refusal {
            line: 0,
            fault: Fault::Text(ScriptCause::TooLong),
        }),
        ReadError::OutOfMemory => Finding::OutOfMemory,
    }
}

/// What a command comes to over a source and a device.
#[tactic(auto, using(crate::proofs::CommandParts::input_reads))]
pub fn decide<S: Source, P: Plant>(
    alloc: Global,
    asked: Option<Quiet>,
    source: &mut S,
    plant: P,
) -> Decision<P>
    requires range { IfSome asked (λ c. IsWithinRange (quiet_command c)) }
    ensures came { CameTo
        (call_of (option_map quiet_command asked)
        (source_use ⟦<S as Source>⟧ source.old source.new)
        (left_of (plant_use ⟦<P as Plant>⟧ plant result.plant) result.journal.entries))
        result.finding }
    ensures untouched { asks_for_input (option_map quiet_command asked) ≡ false → source.new ≡ source.old }
    ensures count { S.faults source.old ≤ S.faults source.new }
{
    let command = match asked {
        None => return Decision::idle(alloc, Finding::Usage, plant),
        Some(Quiet::Cell(cycles)) => return work(alloc, cycles, plant),
        Some(Quiet::OverInput(command)) => command,
    };
    match read_all(alloc, source, most_bytes(command)) {
        Ok(bytes) => serve(alloc, command, bytes.as_slice(), plant),
        Err(error) => Decision::idle(alloc, unread(error), plant),
    }
}

/// Plays in threads the script in these bytes. It need not return.
#[tactic(auto, using(crate::proofs::GatesTold::idle_told))]
fn play_in_threads<P: Plant + Send, G: ToldGate + Sync, R: Threads + Wait + Sync>(
    rt: &R,
    alloc: Global,
    command: Threaded,
    bytes: &[u8],
    plant: P,
    gate: &G,
) -> Decision<P>
    requires range { IsWithinRange (threaded_command command) }
    ensures comes { InputComesTo (threaded_command command) bytes.now result.finding
        (left_of (plant_use ⟦<P as Plant>⟧ plant result.plant) result.journal.entries) }
    ensures told { IsToldByRun (Some (threaded_command command)) (G.was_told gate.now) (G.was_handed gate.now) result.journal.entries }
{
    match plan_of(alloc, bytes) {
        Ok(plan) => match command {
            Threaded::Run => run_plan(rt, alloc, plan, plant, gate),
            Threaded::Pool(workers) => pool_plan(rt, alloc, plan, workers, plant, gate),
        },
        Err(NoPlan::Refused(refusal)) => Decision::idle(alloc, Finding::Refused(refusal), plant),
        Err(NoPlan::OutOfMemory) => Decision::idle(alloc, Finding::OutOfMemory, plant),
    }
}

/// What a command comes to that is played in threads, over a source and a device. It need not return.
#[tactic(auto, using(crate::proofs::CommandParts::threaded_reads, crate::proofs::CommandParts::threaded_most, crate::proofs::GatesTold::idle_told))]
fn play_read<S: Source, P: Plant + Send, G: ToldGate + Sync, R: Threads + Wait + Sync>(
    rt: &R,
    alloc: Global,
    command: Threaded,
    source: &mut S,
    plant: P,
    gate: &G,
) -> Decision<P>
    requires range { IsWithinRange (threaded_command command) }
    ensures came { CameTo
        (call_of (Some (threaded_command command))
        (source_use ⟦<S as Source>⟧ source.old source.new)
        (left_of (plant_use ⟦<P as Plant>⟧ plant result.plant) result.journal.entries))
        result.finding }
    ensures told { IsToldByRun (Some (threaded_command command)) (G.was_told gate.now) (G.was_handed gate.now) result.journal.entries }
    ensures count { S.faults source.old ≤ S.faults source.new }
{
    match read_all(alloc, source, MOST_SCRIPT_BYTES) {
        Ok(bytes) => play_in_threads(rt, alloc, command, bytes.as_slice(), plant, gate),
        Err(error) => Decision::idle(alloc, unread(error), plant),
    }
}

/// The same of what was asked for, which may be no such command. It need not return.
#[tactic(auto, using(crate::proofs::GatesTold::idle_told))]
pub fn decide_in_threads<S: Source, P: Plant + Send, G: ToldGate + Sync, R: Threads + Wait + Sync>(
    rt: &R,
    alloc: Global,
    asked: Option<Threaded>,
    source: &mut S,
    plant: P,
    gate: &G,
) -> Decision<P>
    requires range { IfSome asked (λ c. IsWithinRange (threaded_command c)) }
    ensures came { CameTo
        (call_of (option_map threaded_command asked)
        (source_use ⟦<S as Source>⟧ source.old source.new)
        (left_of (plant_use ⟦<P as Plant>⟧ plant result.plant) result.journal.entries))
        result.finding }
    ensures told { IsToldByRun (option_map threaded_command asked) (G.was_told gate.now) (G.was_handed gate.now)
        result.journal.entries }
    ensures count { S.faults source.old ≤ S.faults source.new }
{
    match asked {
        None => Decision::idle(alloc, Finding::Usage, plant),
        Some(command) => play_read(rt, alloc, command, source, plant, gate),
    }
}
