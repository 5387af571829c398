//! The production cell that is built in: what its script comes to.

ghost use Rattle.std.specs.Prelude.{◌<◌, ◌≤◌, ◌⊎◌, IfOk};
ghost use Rattle.cell_workload.specs.CellScript.{cell_script, most_cycles};
ghost use Rattle.caa_commands.specs.OutsideUse.{plant_use, left_of};
ghost use Rattle.caa_commands.specs.Calls.{IsWorked, IsNotWorked};
ghost use Rattle.caa_commands.specs.Scripts.{IsOnlyPlan};

use crate::finding::Finding;
use crate::playing::{Decision, play_cell};
use crate::scripts::{NoPlan, plan_of_script};
use caa_base::outside::plant::Plant;
use caa_base::written::entry::OutOfMemory;
use cell_workload::cell;
use place_plan::plans::plan::Plan;
use std::alloc::Global;

/// The plan of the script of a cell that works for so many cycles. No line of that script is refused.
fn cell_plan(alloc: Global, cycles: u32) -> Result<Plan, OutOfMemory>
    requires some { 1 ≤ cycles }
    requires few { cycles ≤ most_cycles }
    ensures { IfOk result (IsOnlyPlan (cell_script cycles)) }
{
    let script = cell(alloc, cycles)?;
    match plan_of_script(alloc, &script) {
        Ok(plan) => Ok(plan),
        Err(NoPlan::OutOfMemory) => Err(OutOfMemory),
        Err(NoPlan::Refused(_)) => unreachable!(),
    }
}

/// Lets a cell work for so many cycles over a device, and tells the summary of its journal. Nothing is read for that.
pub fn work<P: Plant>(alloc: Global, cycles: u32, plant: P) -> Decision<P>
    requires some { 1 ≤ cycles }
    requires few { cycles ≤ most_cycles }
    ensures { IsWorked cycles result.finding (left_of (plant_use ⟦<P as Plant>⟧ plant result.plant) result.journal.entries)
        ⊎ IsNotWorked result.finding (left_of (plant_use ⟦<P as Plant>⟧ plant result.plant) result.journal.entries) }
{
    match cell_plan(alloc, cycles) {
        Ok(plan) => play_cell(alloc, plan, cycles, plant),
        Err(OutOfMemory) => Decision::idle(alloc, Finding::OutOfMemory, plant),
    }
}
