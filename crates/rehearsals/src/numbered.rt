//! A plan played by the schedule of a number, over a device.

ghost use Rattle.std.specs.Prelude.{◌≡◌, ◌+◌, ◌-◌, ◌^◌, ◌<◌, IfOk, IfSome};
ghost use Rattle.journal_replay.specs.Device.{HasDrills};
ghost use Rattle.place_plan.specs.RulesOfJournals.Journals.{IsLegal, IsComplete, faults_in};
ghost use Rattle.place_plan.specs.RulesOfJournals.WellFormed.{AllWellFormed};

use action_core::Hall;
use caa_base::outside::plant::Plant;
use caa_base::written::entry::OutOfMemory;
use caa_base::written::journal::Journal;
use journal_laws::is_well_formed;
use place_plan::plans::plan::Plan;
use play_orders::playing::play_by;
use play_orders::schedule::Schedule;
use std::alloc::Global;

/// A plan with a journal of it.
#[derive(Drop)]
pub struct Played {
    pub plan: Plan,
    pub journal: Journal,
}

/// Plays a plan to its end by a schedule, over a device, which is given back with the journal.
fn play<P: Plant + Drop>(
    alloc: Global,
    plan: Plan,
    schedule: Schedule,
    plant: P,
) -> Result<(Played, P), OutOfMemory>
    ensures plan { IfOk result (λ told. told.0.plan ≡ plan) }
    ensures legal { IfOk result (λ told. IsLegal plan told.0.journal.entries) }
    ensures complete { IfOk result (λ told. IsComplete plan told.0.journal.entries) }
    ensures entries { IfOk result (λ told. AllWellFormed told.0.plan told.0.journal.entries) }
    ensures faults { IfOk result (λ told. P.faults told.1 < 2 ^ 64 - 1 → P.faults told.1 ≡ P.faults plant + faults_in told.0.journal.entries) }
    ensures drilling { IfOk result (λ told. IfSome (P.drilling told.1) (HasDrills plan told.0.journal.entries)) }
{
    is_well_formed(&plan);
    let mut order = schedule;
    let hall = match Hall::open(alloc, plan, plant) {
        Ok(hall) => hall,
        Err(_) => return Err(OutOfMemory),
    };
    let (plan, plant, journal) = play_by(hall, &mut order).into_parts();
    Ok((Played { plan, journal }, plant))
}

/// How many entries the fair schedule of number 0 makes over a device.
pub fn usual_length<P: Plant + Drop>(
    alloc: Global,
    plan: Plan,
    plant: P,
) -> Result<(Plan, u32), OutOfMemory>
    ensures { IfOk result (λ found. found.0 ≡ plan) }
{
    let (played, _) = play(alloc, plan, Schedule::fair(0), plant)?;
    let Played { plan, journal } = played;
    Ok((plan, journal.len().min(u64::from(u32::MAX)) as u32))
}

/// Plays a plan to its end by the schedule of a number, over a device, which is given back; `length` is the usual one.
///
/// The journal is legal and complete. The device counted a fault more for each put and restore of it that was refused, as long as
/// its count isn't at its end. Where it tells its drills they are those of the plan, and it refused just what they name. Plan and
/// device are lost where no memory is found, or where the device can't be laid out.
pub fn play_numbered<P: Plant + Drop>(
    alloc: Global,
    plan: Plan,
    number: u32,
    length: u32,
    plant: P,
) -> Result<(Played, P), OutOfMemory>
    ensures plan { IfOk result (λ told. told.0.plan ≡ plan) }
    ensures legal { IfOk result (λ told. IsLegal plan told.0.journal.entries) }
    ensures complete { IfOk result (λ told. IsComplete plan told.0.journal.entries) }
    ensures entries { IfOk result (λ told. AllWellFormed told.0.plan told.0.journal.entries) }
    ensures faults { IfOk result (λ told. P.faults told.1 < 2 ^ 64 - 1 → P.faults told.1 ≡ P.faults plant + faults_in told.0.journal.entries) }
    ensures drilling { IfOk result (λ told. IfSome (P.drilling told.1) (HasDrills plan told.0.journal.entries)) }
{
    let schedule = Schedule::numbered(alloc, number, plan.participants(), length)?;
    play(alloc, plan, schedule, plant)
}
