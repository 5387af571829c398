//! Each put of the journals of a plan is refused in turn, and what comes of it is told.

ghost use Rattle.std.specs.Prelude.{◌≡◌, ◌≤◌, ◌+◌, [], IfOk, OnOk, length};
ghost use Rattle.std.specs.List.{All};
ghost use Rattle.place_plan.specs.Plans.Places.{top_of};
ghost use Rattle.place_plan.specs.RulesOfJournals.Journals.{IsLegal, IsComplete, faults_in};
ghost use Rattle.fault_trials.specs.Classes.{class_of};
ghost use Rattle.fault_trials.specs.Measures.{IsMeasured};
ghost use Rattle.fault_trials.specs.Puts.{IsPutAt};
ghost use Rattle.fault_trials.specs.Tables.{Grown, Added, IsTried, AllTried, IsWhole, Tabled, TriesAt};

use crate::backs::Backs;
use crate::effects::{Effect, Refused, effect_of};
use crate::measure::Measure;
use crate::modes::{Class, Example, Mode, Spot, Tried};
use crate::once_plant::OncePlant;
use crate::puts::{Put, put_at};
use crate::try_error::TryError;
use crate::twins::refuses;
use caa_base::outside::memory::SurePlant;
use caa_base::written::entry::{Drill, Exception, Kind, Object, OutOfMemory};
use caa_base::written::journal::Journal;
use place_plan::plans::plan::Plan;
use rehearsals::facts::tries_put;
use rehearsals::numbered::{Played, play_numbered, usual_length};
use rehearsals::paths::number_of;
use rehearsals::refusing::{Refusals, RefusingPlant, Trouble};
use std::alloc::Global;

/// Entries that the journals of all tries may have together.
const MOST_TRIED: u64 = 2_000_000_000;

/// A line of the table: one try.
#[derive(Clone, Copy)]
pub struct Line {
    pub spot: Spot,
    pub mode: Mode,
    /// The second put that was refused, where it was one of a body or a handler.
    pub second: Option<Spot>,
    pub class: Class,
    /// Where its effect stands among the effects.
    pub effect: usize,
    /// How the try is had again.
    pub example: Example,
}

/// An exception that was resolved in places of an action.
#[derive(Clone, Copy, PartialEq, Eq)]
pub struct Began {
    pub action: u32,
    pub exception: Exception,
}

/// What was played.
#[derive(Drop)]
pub struct Counts {
    pub resolved: Vec<Began>,
    pub backs: Backs,
    /// How many puts stood in the journals without a fault.
    pub puts: u64,
    pub playings: u64,
    pub entries: u64,
}

/// What all tries came to.
#[derive(Drop)]
pub struct Findings {
    pub lines: Vec<Line>,
    pub effects: Vec<Effect>,
    pub counts: Counts,
}

/// How tries are made and judged.
#[derive(Drop)]
pub struct Bench {
    /// How many entries the fair schedule of number 0 makes.
    pub length: u32,
    /// Whether two puts of bodies and handlers are refused, too.
    pub has_pairs: bool,
    pub measure: Measure,
}

/// A table of tries, with how they were made.
#[derive(Drop)]
pub struct Trial {
    pub bench: Bench,
    pub findings: Findings,
}

/// A journal without a fault, of the schedule of this number.
#[derive(Drop)]
pub struct Base {
    pub number: u32,
    pub journal: Journal,
}

/// Who is told how far the tries have come.
pub trait Progress {
    /// So many of these schedules are done, and all journals so far had so many entries.
    fn tell(&mut self, done: u32, schedules: u32, entries: u64);
}

/// What the device refuses in a try.
fn refusals_of(alloc: Global, tried: Tried) -> Result<Refusals, OutOfMemory> {
    let mut drills = Vec::new(alloc);
    let trouble = match tried {
        Tried::One(drill) => {
            drills.push(drill)?;
            Trouble::Nothing
        }
        Tried::Two(drill, other) => {
            drills.push(drill)?;
            drills.push(other)?;
            Trouble::Nothing
        }
        Tried::From(drill) => Trouble::Stuck(drill),
        Tried::All(from) => Trouble::Dead(from),
    };
    Ok(Refusals { drills, trouble })
}

/// Adds an exception that was resolved, unless it is among these.
fn add_began(resolved: &mut Vec<Began>, began: Began) -> Result<(), OutOfMemory> {
    if !resolved.iter().any(|other| *other == began) {
        resolved.push(began)?;
    }
    Ok(())
}

impl Counts {
    /// Nothing was played.
    fn new(alloc: Global) -> Self {
        Counts {
            resolved: Vec::new(alloc),
            backs: Backs::new(alloc),
            puts: 0,
            playings: 0,
            entries: 0,
        }
    }

    /// Takes note of what a journal sets back. Its order is looked at only where one put is refused at most.
    fn note_backs(
        &mut self,
        alloc: Global,
        plan: &Plan,
        journal: &Journal,
        is_single: bool,
    ) -> Result<(), OutOfMemory> {
        if is_single {
            self.backs.note_crossings(plan, journal)?;
        }
        self.backs.note_leavings(alloc, plan, journal)
    }

    /// Counts a journal, and takes note of what it resolves and sets back.
    fn note(
        &mut self,
        alloc: Global,
        plan: &Plan,
        journal: &Journal,
        is_single: bool,
    ) -> Result<(), OutOfMemory> {
        self.playings = self.playings.saturating_add(1);
        self.entries = self.entries.saturating_add(journal.len());
        self.note_backs(alloc, plan, journal, is_single)?;
        for entry in journal.as_slice() {
            if entry.kind == Kind::Resolve && entry.place < plan.places() {
                let began = Began {
                    action: plan.action_of(entry.place),
                    exception: entry.arg,
                };
                add_began(&mut self.resolved, began)?;
            }
        }
        Ok(())
    }
}

/// Plays the schedule of a number with these puts refused, more than one.
fn play(
    alloc: Global,
    plan: Plan,
    bench: &Bench,
    example: Example,
    counts: &mut Counts,
) -> Result<Played, OutOfMemory>
    ensures plan { IfOk result (λ played. played.plan ≡ plan) }
    ensures legal { IfOk result (λ played. IsLegal plan played.journal.entries) }
    ensures complete { IfOk result (λ played. IsComplete plan played.journal.entries) }
{
    let plant = RefusingPlant::new(alloc, refusals_of(alloc, example.refused)?);
    let told = play_numbered(alloc, plan, example.schedule, bench.length, plant)?;
    let (played, _) = told;
    counts.note(alloc, &played.plan, &played.journal, false)?;
    Ok(played)
}

/// Plays the schedule of a number with this put refused, and no other.
fn play_once(
    alloc: Global,
    plan: Plan,
    bench: &Bench,
    number: u32,
    drill: Drill,
    counts: &mut Counts,
) -> Result<Played, OutOfMemory>
    ensures plan { IfOk result (λ played. played.plan ≡ plan) }
    ensures legal { IfOk result (λ played. IsLegal plan played.journal.entries) }
    ensures complete { IfOk result (λ played. IsComplete plan played.journal.entries) }
    ensures few { IfOk result (λ played. faults_in played.journal.entries ≤ 1) }
{
    let plant = OncePlant::new(drill);
    let told = play_numbered(alloc, plan, number, bench.length, plant)?;
    let (played, _) = told;
    counts.note(alloc, &played.plan, &played.journal, true)?;
    Ok(played)
}

/// Where such an effect stands among these, if it does.
fn place_of(effects: &[Effect], effect: &Effect) -> Option<usize> {
    for (index, other) in effects.iter().enumerate() {
        if other.is_as(effect) {
            return Some(index);
        }
    }
    None
}

/// Where an effect stands among these; it is added where it doesn't.
fn add_effect(effects: &mut Vec<Effect>, effect: Effect) -> Result<usize, OutOfMemory> {
    if let Some(index) = place_of(effects, &effect) {
        return Ok(index);
    }
    let index = effects.len();
    effects.push(effect)?;
    Ok(index)
}

/// How a put is refused, with what else, and of which put the effect is told.
#[derive(Clone, Copy)]
struct Way {
    spot: Spot,
    mode: Mode,
    second: Option<Spot>,
    example: Example,
    told: Refused,
}

/// Adds the line of a try.
fn note(
    alloc: Global,
    played: &Played,
    measure: &Measure,
    way: &Way,
    findings: &mut Findings,
) -> Result<(), OutOfMemory>
    ensures { OnOk result (Added findings.old.lines.items findings.new.lines.items way.now.spot way.now.mode (class_of played.now.plan measure.now played.now.journal.entries (top_of played.now.plan way.now.told.place))) }
{
    let entries = played.journal.as_slice();
    let effect = effect_of(alloc, &played.plan, measure, entries, way.told)?;
    let class = effect.class;
    let effect = add_effect(&mut findings.effects, effect)?;
    findings.lines.push(Line {
        spot: way.spot,
        mode: way.mode,
        second: way.second,
        class,
        effect,
        example: way.example,
    })?;
    Ok(())
}

/// A put that is refused by itself, or with puts of which no effect is told.
fn alone(put: &Put, number: u32, mode: Mode, refused: Tried) -> Way
    ensures spot { result.spot ≡ put.now.spot }
    ensures mode { result.mode ≡ mode }
    ensures place { result.told.place ≡ put.now.entry.place }
{
    Way {
        spot: put.spot,
        mode,
        second: None,
        example: Example {
            schedule: number,
            refused,
        },
        told: Refused {
            spot: put.spot,
            place: put.entry.place,
            index: put.index,
        },
    }
}

/// Whether a spot is a restore.
fn is_back(spot: Spot) -> bool {
    match spot {
        Spot::Back {
            action: _,
            object: _,
        } => true,
        Spot::Step {
            action: _,
            role: _,
            handler: _,
            step: _,
        } => false,
    }
}

/// How a put is refused with a later one, if the two count.
fn way_of_two(put: &Put, other: &Put, number: u32, has_pairs: bool) -> Option<Way> {
    let refused = Tried::Two(put.drill, other.drill);
    if is_back(other.spot) {
        return Some(alone(put, number, Mode::AndRestore, refused));
    }
    if !has_pairs || is_back(put.spot) {
        return None;
    }
    let later = alone(other, number, Mode::Pair, refused);
    Some(Way {
        spot: put.spot,
        mode: Mode::Pair,
        second: Some(other.spot),
        example: later.example,
        told: later.told,
    })
}

/// Makes a try, and adds its line.
fn try_way(
    alloc: Global,
    plan: Plan,
    bench: &Bench,
    way: &Way,
    findings: &mut Findings,
) -> Result<Plan, TryError>
    ensures plan { IfOk result (λ after. after ≡ plan) }
    ensures grown { OnOk result (Grown findings.old.lines.items findings.new.lines.items) }
{
    let played = play(alloc, plan, bench, way.example, &mut findings.counts)?;
    note(alloc, &played, &bench.measure, way, findings)?;
    Ok(played.plan)
}

/// Refuses a put of a journal alone, and adds its line. The journal of the try is looked at: it refuses just this put.
fn try_once(
    alloc: Global,
    plan: Plan,
    bench: &Bench,
    base: &Base,
    put: &Put,
    findings: &mut Findings,
) -> Result<Played, TryError>
    requires { IsPutAt plan base.now.journal.entries put.now.index put.now }
    ensures plan { IfOk result (λ played. played.plan ≡ plan) }
    ensures legal { IfOk result (λ played. IsLegal plan played.journal.entries) }
    ensures grown { OnOk result (Grown findings.old.lines.items findings.new.lines.items) }
    ensures tried { OnOk result (IsTried plan bench.now.measure findings.new.lines.items base.now.journal.entries put.now.index put.now.entry) }
{
    let way = alone(put, base.number, Mode::Once, Tried::One(put.drill));
    let played = play_once(
        alloc,
        plan,
        bench,
        base.number,
        put.drill,
        &mut findings.counts,
    )?;
    if !refuses(base.journal.as_slice(), played.journal.as_slice(), put) {
        return Err(TryError::WentAnotherWay);
    }
    note(alloc, &played, &bench.measure, &way, findings)?;
    Ok(played)
}

/// Refuses a put with all later ones of its object, and with all later ones.
fn try_more(
    alloc: Global,
    plan: Plan,
    bench: &Bench,
    number: u32,
    put: &Put,
    findings: &mut Findings,
) -> Result<Plan, TryError>
    ensures plan { IfOk result (λ after. after ≡ plan) }
    ensures grown { OnOk result (Grown findings.old.lines.items findings.new.lines.items) }
{
    let stuck = alone(put, number, Mode::Stuck, Tried::From(put.drill));
    let plan = try_way(alloc, plan, bench, &stuck, findings)?;
    let dead = alone(put, number, Mode::Dead, Tried::All(put.count));
    try_way(alloc, plan, bench, &dead, findings)
}

/// Refuses a put with another one of its try, if the two count.
fn try_pair(
    alloc: Global,
    plan: Plan,
    bench: &Bench,
    other: Option<Way>,
    findings: &mut Findings,
) -> Result<Plan, TryError>
    ensures plan { IfOk result (λ after. after ≡ plan) }
    ensures grown { OnOk result (Grown findings.old.lines.items findings.new.lines.items) }
{
    match other {
        Some(way) => try_way(alloc, plan, bench, &way, findings),
        None => Ok(plan),
    }
}

/// How a put is refused with the put that is the entry of this index of its try, if there is one and the two count.
fn way_at(plan: &Plan, journal: &Journal, index: usize, put: &Put, ask: Asked) -> Option<Way>
    requires { IsLegal plan.now journal.now.entries }
{
    let other = put_at(plan, journal.as_slice(), index)?;
    way_of_two(put, &other, ask.number, ask.has_pairs)
}

/// The schedule of a try, and whether pairs of puts are refused.
#[derive(Clone, Copy)]
struct Asked {
    number: u32,
    has_pairs: bool,
}

/// Refuses a put and, in turn, each later one of its try that counts beside it.
fn try_two(
    alloc: Global,
    plan: Plan,
    bench: &Bench,
    number: u32,
    put: &Put,
    journal: &Journal,
    findings: &mut Findings,
) -> Result<Plan, TryError>
    requires { IsLegal plan journal.now.entries }
    ensures plan { IfOk result (λ after. after ≡ plan) }
    ensures grown { OnOk result (Grown findings.old.lines.items findings.new.lines.items) }
{
    let ask = Asked {
        number,
        has_pairs: bench.has_pairs,
    };
    let mut plan = plan;
    for index in put.index.saturating_add(1)..journal.as_slice().len() {
        let way = way_at(&plan, journal, index, put, ask);
        plan = try_pair(alloc, plan, bench, way, findings)?;
    }
    Ok(plan)
}

/// Refuses a put of a journal in each mode.
fn refuse(
    alloc: Global,
    plan: Plan,
    bench: &Bench,
    base: &Base,
    put: &Put,
    findings: &mut Findings,
) -> Result<Plan, TryError>
    requires { IsPutAt plan base.now.journal.entries put.now.index put.now }
    ensures plan { IfOk result (λ after. after ≡ plan) }
    ensures grown { OnOk result (Grown findings.old.lines.items findings.new.lines.items) }
    ensures tried { OnOk result (IsTried plan bench.now.measure findings.new.lines.items base.now.journal.entries put.now.index put.now.entry) }
{
    findings.counts.puts = findings.counts.puts.saturating_add(1);
    let tried = try_once(alloc, plan, bench, base, put, findings)?;
    let Played { plan, journal } = tried;
    let more = try_more(alloc, plan, bench, base.number, put, findings)?;
    try_two(alloc, more, bench, base.number, put, &journal, findings)
}

/// Refuses the put that is the entry of this index of a journal, if it is one.
fn refuse_at(
    alloc: Global,
    plan: Plan,
    bench: &Bench,
    base: &Base,
    index: usize,
    findings: &mut Findings,
) -> Result<Plan, TryError>
    requires { IsLegal plan base.now.journal.entries }
    ensures plan { IfOk result (λ after. after ≡ plan) }
    ensures grown { OnOk result (Grown findings.old.lines.items findings.new.lines.items) }
    ensures tried { OnOk result (TriesAt plan bench.now.measure findings.new.lines.items base.now.journal.entries index) }
{
    match put_at(&plan, base.journal.as_slice(), index) {
        Some(put) => refuse(alloc, plan, bench, base, &put, findings),
        None => Ok(plan),
    }
}

/// Refuses each put of a journal in turn.
fn refuse_all(
    alloc: Global,
    plan: Plan,
    bench: &Bench,
    base: &Base,
    findings: &mut Findings,
) -> Result<Plan, TryError>
    requires { IsLegal plan base.now.journal.entries }
    ensures plan { IfOk result (λ after. after ≡ plan) }
    ensures grown { OnOk result (Grown findings.old.lines.items findings.new.lines.items) }
    ensures tried { OnOk result (AllTried plan bench.now.measure findings.new.lines.items base.now.journal.entries) }
{
    let mut plan = plan;
    for index in 0..base.journal.as_slice().len() {
        plan = refuse_at(alloc, plan, bench, base, index, findings)?;
    }
    Ok(plan)
}

/// Refuses each put of these journals in turn.
fn refuse_bases<P: Progress>(
    alloc: Global,
    plan: Plan,
    bench: &Bench,
    bases: &[Base],
    findings: &mut Findings,
    progress: &mut P,
) -> Result<Plan, TryError>
    requires { All (IsWhole plan) bases.now }
    ensures plan { IfOk result (λ after. after ≡ plan) }
    ensures tried { OnOk result (All (λ base. AllTried plan bench.now.measure findings.new.lines.items base.journal.entries) bases.now) }
{
    let mut plan = plan;
    let schedules = number_of(bases.len());
    for (index, base) in bases.iter().enumerate() {
        plan = refuse_all(alloc, plan, bench, base, findings)?;
        progress.tell(
            number_of(index).saturating_add(1),
            schedules,
            findings.counts.entries,
        );
    }
    Ok(plan)
}

/// The journals that a plan is played to without a fault, and how its plays end by them.
#[derive(Drop)]
struct Bases {
    plan: Plan,
    bases: Vec<Base>,
    measure: Measure,
    counts: Counts,
}

/// Plays the schedule of a number without a fault, and adds its journal.
fn play_base(
    alloc: Global,
    known: Bases,
    number: u32,
    fair_length: u32,
) -> Result<Bases, OutOfMemory>
    requires whole { All (IsWhole known.plan) known.bases.items }
    requires measured { IsMeasured known.plan known.measure known.bases.items }
    ensures plan { IfOk result (λ after. after.plan ≡ known.plan) }
    ensures all { IfOk result (λ after. length after.bases.items ≡ length known.bases.items + 1) }
    ensures whole { IfOk result (λ after. All (IsWhole after.plan) after.bases.items) }
    ensures measured { IfOk result (λ after. IsMeasured after.plan after.measure after.bases.items) }
    ensures off { IfOk result (λ after. after.measure.off ≡ known.measure.off) }
    ensures counted { IfOk result (λ after. after.measure.counted ≡ known.measure.counted) }
{
    let Bases {
        plan,
        mut bases,
        mut measure,
        mut counts,
    } = known;
    let told = play_numbered(alloc, plan, number, fair_length, SurePlant::new())?;
    let (played, _) = told;
    measure.note(alloc, &played.plan, played.journal.as_slice())?;
    counts.note(alloc, &played.plan, &played.journal, true)?;
    let Played { plan, journal } = played;
    bases.push(Base { number, journal })?;
    Ok(Bases {
        plan,
        bases,
        measure,
        counts,
    })
}

/// Plays a plan by so many schedules without a fault.
fn play_bases(
    alloc: Global,
    known: Bases,
    schedules: u32,
    fair_length: u32,
) -> Result<Bases, OutOfMemory>
    requires none { known.bases.items ≡ [] }
    requires lefts { known.measure.lefts ≡ [] }
    requires ways { known.measure.ways ≡ [] }
    ensures plan { IfOk result (λ after. after.plan ≡ known.plan) }
    ensures all { IfOk result (λ after. length after.bases.items ≡ schedules) }
    ensures whole { IfOk result (λ after. All (IsWhole after.plan) after.bases.items) }
    ensures measured { IfOk result (λ after. IsMeasured after.plan after.measure after.bases.items) }
    ensures off { IfOk result (λ after. after.measure.off ≡ known.measure.off) }
    ensures counted { IfOk result (λ after. after.measure.counted ≡ known.measure.counted) }
{
    let mut known = known;
    for index in 0..schedules {
        known = play_base(alloc, known, index.saturating_add(1), fair_length)?;
    }
    Ok(known)
}

/// How many entries the tries of a journal have, about: four journals for each put, or with pairs as many as there are puts.
fn cost_of(base: &Base, has_pairs: bool) -> u64 {
    let mut puts = 0u64;
    for entry in base.journal.as_slice() {
        if tries_put(entry) {
            puts = puts.saturating_add(1);
        }
    }
    let tries = if has_pairs {
        puts.saturating_mul(puts.max(4))
    } else {
        puts.saturating_mul(4)
    };
    tries.saturating_mul(base.journal.len())
}

/// How many of the first of these journals can be tried.
fn most_bases(bases: &[Base], has_pairs: bool) -> u32 {
    let mut cost = 0u64;
    let mut most = 0u32;
    for base in bases {
        cost = cost.saturating_add(cost_of(base, has_pairs));
        if cost > MOST_TRIED {
            return most;
        }
        most = most.saturating_add(1);
    }
    most
}

/// What is asked of the tries.
#[derive(Drop)]
pub struct Question {
    pub schedules: u32,
    /// The objects that have to be off; where there are none, all have.
    pub off: Vec<Object>,
    /// The objects that an `add` step writes.
    pub counted: Vec<Object>,
    /// Whether two puts are refused, too.
    pub has_pairs: bool,
}

/// Plays a plan by so many schedules without its drills, from number 1 on, refuses each put of these journals in turn, and plays the
/// schedule again.
///
/// The plan is given back with the table. It is lost where no memory is found, where the tries would be too many, and where a schedule
/// went another way before the put that was refused.
pub fn try_faults<P: Progress>(
    alloc: Global,
    plan: Plan,
    question: Question,
    progress: &mut P,
) -> Result<(Plan, Trial), TryError>
    ensures plan { IfOk result (λ found. found.0 ≡ plan) }
    ensures tabled { IfOk result (λ found. Tabled plan question found.1.bench.measure found.1.findings.lines.items) }
{
    let Question {
        schedules,
        off,
        counted,
        has_pairs,
    } = question;
    let found = usual_length(alloc, plan, SurePlant::new())?;
    let (plan, length) = found;
    let measure = Measure::new(alloc, off, counted);
    let known = Bases {
        plan,
        bases: Vec::new(alloc),
        measure,
        counts: Counts::new(alloc),
    };
    let played = play_bases(alloc, known, schedules, length)?;
    let Bases {
        plan,
        bases,
        measure,
        counts,
    } = played;
    let most = most_bases(&bases, has_pairs);
    if most < schedules {
        return Err(TryError::TooMany { most });
    }
    let bench = Bench {
        length,
        has_pairs,
        measure,
    };
    let mut findings = Findings {
        lines: Vec::new(alloc),
        effects: Vec::new(alloc),
        counts,
    };
    let after = refuse_bases(alloc, plan, &bench, &bases, &mut findings, progress)?;
    Ok((after, Trial { bench, findings }))
}
