//! A plan that is played by the schedules from 1 on, and what its journals show.

ghost use Rattle.std.specs.Prelude.{◌≡◌, ◌≤◌, ◌<◌, ◌+◌, IfOk};
ghost use Rattle.place_plan.specs.RulesOfJournals.Attempts.{IsDrilled};
ghost use Rattle.place_plan.specs.RulesOfJournals.Journals.{IsLegal, IsComplete};
ghost use Rattle.rehearsals.specs.Tallies.{Rehearsed};

use crate::facts::facts_of;
use crate::numbered::{Played, play_numbered, usual_length};
use crate::paths::paths_of;
use crate::tally::Tally;
use caa_base::outside::memory::MemPlant;
use caa_base::written::entry::{Drill, Kind, OutOfMemory, Outcome, Place};
use caa_base::written::journal::Journal;
use place_plan::plans::plan::Plan;
use std::alloc::Global;

/// What a rehearsal came to.
#[derive(Drop)]
pub struct Rehearsal {
    pub plan: Plan,
    /// For each place the one that stands for its path.
    pub paths: Vec<Place>,
    pub tally: Tally,
    /// How many entries the longest journal has.
    pub longest: u64,
    /// Whether some play of some journal failed.
    pub has_failed: bool,
}

/// The drills of a plan.
pub fn drills_of(alloc: Global, plan: &Plan) -> Result<Vec<Drill>, OutOfMemory> {
    let mut drills = Vec::new(alloc);
    for index in 0..plan.drills() {
        drills.push(plan.drill(index))?;
    }
    Ok(drills)
}

/// Whether a play of a journal failed.
pub fn has_failed_play(plan: &Plan, journal: &Journal) -> bool {
    journal.as_slice().iter().any(|entry| {
        entry.kind == Kind::End
            && entry.mark == Outcome::Failed.mark().0
            && plan.parent(entry.place).is_none()
    })
}

/// How many entries the fair schedule of number 0 makes, with the plan's own drills.
fn own_length(alloc: Global, plan: Plan) -> Result<(Plan, u32), OutOfMemory>
    ensures { IfOk result (λ found. found.0 ≡ plan) }
{
    usual_length(alloc, plan, MemPlant::new(false))
}

/// Plays a plan by the schedule of a number, with its own drills.
fn play_own(alloc: Global, plan: Plan, number: u32, length: u32) -> Result<Played, OutOfMemory>
    ensures plan { IfOk result (λ played. played.plan ≡ plan) }
    ensures legal { IfOk result (λ played. IsLegal plan played.journal.entries) }
    ensures complete { IfOk result (λ played. IsComplete plan played.journal.entries) }
    ensures drilled { IfOk result (λ played. IsDrilled plan played.journal.entries) }
{
    let told = play_numbered(alloc, plan, number, length, MemPlant::new(false))?;
    let (played, _) = told;
    Ok(played)
}

/// Takes note of what a journal shows, which is the next after those that were noted.
fn note_journal(
    alloc: Global,
    tally: Tally,
    plan: &Plan,
    paths: &[Place],
    journal: &Journal,
) -> Result<Tally, OutOfMemory>
    requires few { tally.noted < 1000000 }
    requires counts { Rehearsed plan.now paths.now tally.rows tally.noted }
    requires legal { IsLegal plan.now journal.now.entries }
    requires complete { IsComplete plan.now journal.now.entries }
    requires drilled { IsDrilled plan.now journal.now.entries }
    ensures noted { IfOk result (λ after. after.noted ≡ tally.noted + 1) }
    ensures counts { IfOk result (λ after. Rehearsed plan.now paths.now after.rows (tally.noted + 1)) }
{
    let facts = facts_of(alloc, plan, paths, journal)?;
    tally.note(&facts)
}

/// Plays the schedule of the next number, and takes note of its journal.
fn rehearse_once(
    alloc: Global,
    rehearsal: Rehearsal,
    number: u32,
    length: u32,
) -> Result<Rehearsal, OutOfMemory>
    requires few { rehearsal.tally.noted < 1000000 }
    requires counts { Rehearsed rehearsal.plan rehearsal.paths.items rehearsal.tally.rows rehearsal.tally.noted }
    ensures plan { IfOk result (λ after. after.plan ≡ rehearsal.plan) }
    ensures noted { IfOk result (λ after. after.tally.noted ≡ rehearsal.tally.noted + 1) }
    ensures counts { IfOk result (λ after. Rehearsed after.plan after.paths.items after.tally.rows after.tally.noted) }
{
    let Rehearsal {
        plan,
        paths,
        tally,
        longest,
        has_failed,
    } = rehearsal;
    let Played { plan, journal } = play_own(alloc, plan, number, length)?;
    let tally = note_journal(alloc, tally, &plan, &paths, &journal)?;
    let has_failed = has_failed || has_failed_play(&plan, &journal);
    Ok(Rehearsal {
        plan,
        paths,
        tally,
        longest: longest.max(journal.len()),
        has_failed,
    })
}

/// Plays a plan by so many schedules, the first of number 1, with its own drills.
pub fn rehearse(alloc: Global, plan: Plan, count: u32) -> Result<Rehearsal, OutOfMemory>
    requires few { count ≤ 1000000 }
    ensures plan { IfOk result (λ rehearsal. rehearsal.plan ≡ plan) }
    ensures noted { IfOk result (λ rehearsal. rehearsal.tally.noted ≡ count) }
    ensures counts { IfOk result (λ rehearsal. Rehearsed plan rehearsal.paths.items rehearsal.tally.rows count) }
{
    let (plan, length) = own_length(alloc, plan)?;
    let paths = paths_of(alloc, &plan)?;
    let mut rehearsal = Rehearsal {
        plan,
        paths,
        tally: Tally::new(alloc),
        longest: 0,
        has_failed: false,
    };
    for number in 0..count {
        rehearsal = rehearse_once(alloc, rehearsal, number.saturating_add(1), length)?;
    }
    Ok(rehearsal)
}
