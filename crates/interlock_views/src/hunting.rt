//! The hunt for journals that break rules: a plan is played in many orders, and with puts that the device refuses.

ghost use Rattle.std.specs.Prelude.{◌≡◌, IfOk, OnOk};
ghost use Rattle.place_plan.specs.RulesOfJournals.Journals.{IsLegal, IsComplete};
ghost use Rattle.place_plan.specs.RulesOfJournals.WellFormed.{AllWellFormed};
ghost use Rattle.interlock_views.specs.Hunts.{IsHunt, HuntsOn};
ghost use Rattle.interlock_views.specs.inner.Judging.{IsAdded, AreJudged, IsJudgedSo};

use crate::found::{Found, judge};
use crate::puts::{LATER, Later, puts_of, refused_with};
use crate::reading::RuleLine;
use caa_base::written::entry::{Drill, Entry, Object, OutOfMemory};
use caa_base::written::journal::Journal;
use interlock_rules::monitor::takes;
use place_plan::plans::plan::Plan;
use rehearsals::numbered::{Played, play_numbered, usual_length};
use rehearsals::refusing::{Refusals, RefusingPlant, Trouble};
use std::alloc::Global;

/// In how many orders the plan is played without a fault.
const ORDERS: u32 = 20;

/// In how many of these each put is refused.
const REFUSED_ORDERS: u32 = 4;

/// Who is told how far a hunt has come.
pub trait HuntProgress {
    /// So many of these plays were made, with so many entries.
    fn tell(&mut self, plays: u32, most: u32, entries: u64);
}

/// How far a hunt has come.
#[derive(Drop)]
pub struct Hunt {
    pub plan: Plan,
    /// The objects of which the device takes each put.
    pub taken: Vec<Object>,
    /// The rules that no journal so far breaks.
    pub unbroken: Vec<RuleLine>,
    /// Those that one does.
    pub found: Vec<Found>,
    /// How many journals were played, and how many entries they have.
    pub plays: u32,
    pub entries: u64,
}

/// How long a hunt is, and how its plays are had.
#[derive(Clone, Copy)]
struct Way {
    /// How many journals are played at most.
    most: u32,
    /// How many entries the fair order of number 0 makes.
    length: u32,
}

/// An order, and the puts of its journal without a fault that may be refused.
#[derive(Drop)]
struct Base {
    schedule: u32,
    puts: Vec<Drill>,
}

/// A play of a hunt: the number of its order, and the puts that the device refuses.
#[derive(Drop)]
struct Try {
    schedule: u32,
    refused: Vec<Drill>,
}

impl Hunt {
    /// Whether it is over: each rule is broken, or there were as many plays as there may be.
    fn is_over(&self, way: Way) -> bool {
        self.unbroken.is_empty() || self.plays >= way.most
    }
}

/// A rule after a play of a hunt.
#[derive(Drop)]
enum Judged {
    /// The journal doesn't break it.
    Unbroken(RuleLine),
    Found(Found),
}

/// What a play of a hunt comes to for a rule. Told as broken is only what breaks in a journal where the device takes what it has to.
fn judge_line(
    alloc: Global,
    plan: &Plan,
    taken: &[Object],
    line: RuleLine,
    tried: &Try,
    entries: &[Entry],
) -> Result<Judged, OutOfMemory>
    requires entries { AllWellFormed plan.now entries.now }
    requires legal { IsLegal plan.now entries.now }
    requires complete { IsComplete plan.now entries.now }
    ensures { IfOk result (IsJudgedSo taken.now plan.now entries.now line) }
{
    let Some(broken) = judge(alloc, plan, &line.rule, entries)? else {
        return Ok(Judged::Unbroken(line));
    };
    if !takes(taken, entries) {
        return Ok(Judged::Unbroken(line));
    }
    let refused = tried.refused.clone()?;
    Ok(Judged::Found(Found {
        line,
        broken,
        schedule: tried.schedule,
        refused,
    }))
}

/// The rules of a hunt: those that no journal breaks so far, and those that one does.
#[derive(Drop)]
struct Lines {
    unbroken: Vec<RuleLine>,
    found: Vec<Found>,
}

/// Adds a rule after a play.
fn add_judged(lines: &mut Lines, judged: Judged) -> Result<(), OutOfMemory>
    ensures { OnOk result (IsAdded lines.old judged lines.new) }
{
    match judged {
        Judged::Unbroken(line) => lines.unbroken.push(line)?,
        Judged::Found(found) => lines.found.push(found)?,
    }
    Ok(())
}

/// Judges a journal of a hunt by each rule that is unbroken.
fn judge_lines(
    alloc: Global,
    plan: &Plan,
    taken: &[Object],
    lines: Lines,
    tried: &Try,
    entries: &[Entry],
) -> Result<Lines, OutOfMemory>
    requires entries { AllWellFormed plan.now entries.now }
    requires legal { IsLegal plan.now entries.now }
    requires complete { IsComplete plan.now entries.now }
    ensures { IfOk result (AreJudged taken.now plan.now entries.now lines) }
{
    let Lines { unbroken, found } = lines;
    let mut after = Lines {
        unbroken: Vec::new(alloc),
        found,
    };
    for line in unbroken {
        let judged = judge_line(alloc, plan, taken, line, tried, entries)?;
        add_judged(&mut after, judged)?;
    }
    Ok(after)
}

/// A hunt after a play, and the journal of it.
#[derive(Drop)]
struct Ran {
    hunt: Hunt,
    journal: Journal,
}

/// A device that refuses these puts, and no others.
fn refusing(alloc: Global, drills: Vec<Drill>) -> RefusingPlant {
    let refusals = Refusals {
        drills,
        trouble: Trouble::Nothing,
    };
    RefusingPlant::new(alloc, refusals)
}

/// Plays once, and judges the journal by each rule that is unbroken.
fn play(alloc: Global, hunt: Hunt, way: Way, tried: &Try) -> Result<Ran, OutOfMemory>
    ensures { IfOk result (λ ran. HuntsOn hunt ran.hunt) }
{
    let Hunt {
        plan,
        taken,
        unbroken,
        found,
        plays,
        entries,
    } = hunt;
    let plant = refusing(alloc, tried.refused.clone()?);
    let (played, _) = play_numbered(alloc, plan, tried.schedule, way.length, plant)?;
    let Played { plan, journal } = played;
    let before = Lines { unbroken, found };
    let Lines { unbroken, found } = judge_lines(
        alloc,
        &plan,
        &taken,
        before,
        tried,
        journal.as_slice(),
    )?;
    let hunt = Hunt {
        plan,
        taken,
        unbroken,
        found,
        plays: plays.saturating_add(1),
        entries: entries.saturating_add(journal.len()),
    };
    Ok(Ran { hunt, journal })
}

// ---- orders

/// A hunt with the orders that were played without a fault.
#[derive(Drop)]
struct Ordered {
    hunt: Hunt,
    bases: Vec<Base>,
}

/// Plays the order of this number without a fault.
fn play_order(
    alloc: Global,
    ordered: Ordered,
    way: Way,
    schedule: u32,
) -> Result<Ordered, OutOfMemory>
    ensures { IfOk result (λ after. HuntsOn ordered.hunt after.hunt) }
{
    let Ordered { hunt, mut bases } = ordered;
    if hunt.is_over(way) {
        return Ok(Ordered { hunt, bases });
    }
    let tried = Try {
        schedule,
        refused: Vec::new(alloc),
    };
    let Ran { hunt, journal } = play(alloc, hunt, way, &tried)?;
    if schedule <= REFUSED_ORDERS {
        let puts = puts_of(alloc, &hunt.plan, &hunt.taken, &journal)?;
        bases.push(Base { schedule, puts })?;
    }
    Ok(Ordered { hunt, bases })
}

/// Plays the first orders without a fault.
fn play_orders(alloc: Global, hunt: Hunt, way: Way) -> Result<Ordered, OutOfMemory>
    ensures { IfOk result (λ after. HuntsOn hunt after.hunt) }
{
    let mut ordered = Ordered {
        hunt,
        bases: Vec::new(alloc),
    };
    for index in 0..ORDERS {
        ordered = play_order(alloc, ordered, way, index + 1)?;
    }
    Ok(ordered)
}

// ---- refused puts

/// Refuses a put of an order with these later ones of its object.
fn refuse_put(
    alloc: Global,
    hunt: Hunt,
    way: Way,
    schedule: u32,
    put: Drill,
    later: &Later,
) -> Result<Hunt, OutOfMemory>
    ensures { IfOk result (HuntsOn hunt) }
{
    if hunt.is_over(way) {
        return Ok(hunt);
    }
    let tried = Try {
        schedule,
        refused: refused_with(alloc, put, later)?,
    };
    let ran = play(alloc, hunt, way, &tried)?;
    Ok(ran.hunt)
}

/// Refuses each put of an order with these later ones of its object. Who waits is told how far it has come.
fn refuse_order<P: HuntProgress>(
    alloc: Global,
    hunt: Hunt,
    way: Way,
    base: &Base,
    later: &Later,
    progress: &mut P,
) -> Result<Hunt, OutOfMemory>
    ensures { IfOk result (HuntsOn hunt) }
{
    let mut hunt = hunt;
    for put in &base.puts {
        hunt = refuse_put(alloc, hunt, way, base.schedule, *put, later)?;
        progress.tell(hunt.plays, way.most, hunt.entries);
    }
    Ok(hunt)
}

/// Refuses each put of each of these orders with these later ones of its object.
fn refuse_orders<P: HuntProgress>(
    alloc: Global,
    hunt: Hunt,
    way: Way,
    bases: &[Base],
    later: &Later,
    progress: &mut P,
) -> Result<Hunt, OutOfMemory>
    ensures { IfOk result (HuntsOn hunt) }
{
    let mut hunt = hunt;
    for base in bases {
        hunt = refuse_order(alloc, hunt, way, base, later, progress)?;
    }
    Ok(hunt)
}

/// Refuses each put of each of these orders: alone, and with some of the next three of its object.
fn refuse_all<P: HuntProgress>(
    alloc: Global,
    hunt: Hunt,
    way: Way,
    bases: &[Base],
    progress: &mut P,
) -> Result<Hunt, OutOfMemory>
    ensures { IfOk result (HuntsOn hunt) }
{
    let mut hunt = hunt;
    for later in LATER.as_slice() {
        hunt = refuse_orders(alloc, hunt, way, bases, later, progress)?;
    }
    Ok(hunt)
}

/// Hunts for journals that break rules: plays a plan without its drills, in many orders, and with puts refused that need not be taken,
/// until each rule is broken or there were so many plays.
///
/// The plan and the objects that are taken are handed back with what was found. All is lost where no memory is found.
pub fn hunt_in<P: HuntProgress>(
    alloc: Global,
    plan: Plan,
    taken: Vec<Object>,
    rules: Vec<RuleLine>,
    most: u32,
    progress: &mut P,
) -> Result<Hunt, OutOfMemory>
    ensures plan { IfOk result (λ hunt. hunt.plan ≡ plan) }
    ensures taken { IfOk result (λ hunt. hunt.taken ≡ taken) }
    ensures hunt { IfOk result (IsHunt rules.items) }
{
    let (plan, length) = usual_length(alloc, plan, refusing(alloc, Vec::new(alloc)))?;
    let way = Way { most, length };
    let start = Hunt {
        plan,
        taken,
        unbroken: rules,
        found: Vec::new(alloc),
        plays: 0,
        entries: 0,
    };
    let Ordered { hunt, bases } = play_orders(alloc, start, way)?;
    refuse_all(alloc, hunt, way, &bases, progress)
}
