ghost use Rattle.std.specs.Prelude.{◌≡◌, ◌<◌, ◌≤◌, ◌+◌, ◌-◌, ◌^◌, ◌∷◌, ◌++◌, [], length, reverse, true, false, not, is_some, is_ok, IfOk, IfErr, IfSome, OnOk, OnErr, IsTrue, ◌↔◌, ◌⊎◌, if◌then◌else◌};
ghost use Rattle.caa_base.specs.Outside.Counts.{CountsFault};
ghost use Rattle.place_plan.specs.Plans.Bound.{bound};
ghost use Rattle.place_plan.specs.RulesOfJournals.Rules.{MayFollow};
ghost use Rattle.place_plan.specs.RulesOfJournals.Journals.{LegalPast, IsLegal, is_fault, faults_in};
ghost use Rattle.place_plan.specs.RulesOfJournals.Machine.{Answers, made_fault};
ghost use Rattle.place_plan.specs.RulesOfJournals.Attempts.{is_attempt};
ghost use Rattle.place_plan.specs.RulesOfJournals.Entries.{is_of};
ghost use Rattle.caa_base.specs.declared.written.entry.Kind.TheVariants as kind;
ghost use Rattle.place_plan.proofs.OnJournals.LegalProp.{LegalPast-prop};
ghost use Rattle.journal_replay.specs.Device.{HasValues, HasDrills, attempts_in, history_after, laying, WasOnlyLaid};
ghost use Rattle.journal_replay.specs.inner.DeviceOfHall.{FitsJournal};
ghost use Rattle.caa_base.specs.declared.outside.plant.Asked.TheVariants as asked;
ghost use Rattle.caa_base.specs.Outside.PlantState.{is_refused, is_drilled, after_put, after_try, after_asked};
ghost use Rattle.journal_replay.specs.Opening.{is_plant_fault};
ghost use Rattle.std.proofs.Math.Nat.{le_of_eq};
ghost use Rattle.std.proofs.Common.{sym};
ghost use Rattle.journal_laws.specs.Due.{as_refused};
ghost use Rattle.journal_replay.specs.IsDue.{DeviceDecides};
ghost use Rattle.journal_replay.specs.Moves.{MayWorkNow, IsMove};

use crate::audit::all_are_over;
use crate::look_back::LookBack;
use crate::moves::{Move, Work, refused};
use crate::past::Past;
use crate::questions::gathers;
use crate::records::Records;
use crate::rule::move_of;
use caa_base::outside::plant::{Plant, PlantError};
use caa_base::written::entry::{
    Drill, Entry, Failed, Kind, Object, OutOfMemory, Participant, Place,
};
use caa_base::written::journal::Journal;
use caa_base::written::work::WorkDone;
use journal_laws::{is_bounded, is_well_formed, last_put_is_value};
use place_plan::plans::plan::Plan;
use place_plan::rules::machine::{Answer, Machine};
use std::alloc::Global;
use thiserror::Error;

/// Why a hall couldn't be opened.
#[derive(Clone, Copy, Debug, PartialEq, Eq, Error)]
pub enum OpenCause {
    /// The plant refused to be laid out.
    #[error("the plant refused to be laid out")]
    PlantFault,
    /// No memory was found.
    #[error("out of memory")]
    OutOfMemory,
}

impl From<PlantError> for OpenCause {
    ghost use Rattle.caa_base.specs.declared.outside.plant.PlantError.{PlantError};
    ghost use Rattle.journal_replay.specs.Opening.{cause_of};

    ghost from_gives = { λ error cause. cause ≡ cause_of error };

    fn from(error: PlantError) -> Self {
        match error {
            PlantError::Failed => OpenCause::PlantFault,
            PlantError::OutOfMemory => OpenCause::OutOfMemory,
        }
    }
}

/// A refused opening, with the plant that was handed in.
#[derive(Drop)]
pub struct OpenError<P> {
    pub cause: OpenCause,
    /// The plant that was handed in. Nothing is said of its values once it was asked to be laid out.
    pub plant: P,
}

/// A machine that plays by the records that it keeps of its journal.
///
/// Its plant was asked just what the journal says: once for each write, for each restore and for each refused put, in order; and it was
/// told of each entry, right when it was made.
#[derive(Drop)]
pub struct Played<P: Plant, R: Records> {
    plan: Plan,
    plant: P,
    journal: Journal,
    records: R,
    base: u64,
    ghost legal: { LegalPast plan (reverse journal.entries) } by { LegalPast-prop plan (reverse journal.entries) },
    ghost room: { bound plan ≤ journal.room },
    ghost stands: { R.stand_for records plan (reverse journal.entries) } by { R.one_way records plan (reverse journal.entries) },
    ghost device: { FitsJournal plan base journal.entries (record {
      history = P.history plant;
      faults = P.faults plant;
      calls = P.calls plant;
      room = P.room plant;
      objects = P.objects plant;
      state = P.state plant;
      drilling = P.drilling plant;
    }) },
}

/// A machine that keeps nothing but its journal, and looks back over it at each question.
pub type PlainHall<P> = Played<P, LookBack>;

/// The puts that the device is to refuse.
fn drills_of(alloc: Global, plan: &Plan) -> Result<Vec<Drill>, OutOfMemory>
    ensures { IfOk result (λ drills. drills.items ≡ plan.now.drills) }
{
    let mut drills = Vec::new(alloc);
    for index in 0..plan.drills() {
        drills.push(plan.drill(index))?;
    }
    Ok(drills)
}

/// Lays out a plant for a plan, with the first values of its objects and with its drills. There is room for a put at each entry
/// that a journal of the plan can have.
fn lay_out<P: Plant>(alloc: Global, plan: &Plan, plant: &mut P) -> Result<(), PlantError>
    ensures laid { OnOk result (FitsJournal plan.now (P.faults plant.old) [] (record {
      history = P.history plant.new;
      faults = P.faults plant.new;
      calls = P.calls plant.new;
      room = P.room plant.new;
      objects = P.objects plant.new;
      state = P.state plant.new;
      drilling = P.drilling plant.new;
    })) }
    ensures history { OnOk result (P.history plant.new ≡ history_after plan.now [] (P.history plant.old)) }
    ensures asked { OnErr result (WasOnlyLaid plan.now (P.history plant.old) (P.history plant.new)) }
    ensures unasked { OnErr result (P.calls plant.new ≡ P.calls plant.old) }
    ensures tells_state { is_some (P.state plant.new) ≡ is_some (P.state plant.old) }
    ensures tells_drilling { is_some (P.drilling plant.new) ≡ is_some (P.drilling plant.old) }
    ensures lay_faults { CountsFault (is_refused result) (P.lay_faults plant.old) (P.lay_faults plant.new) }
    ensures faults { P.faults plant.new ≡ P.faults plant.old }
    ensures constants { P.constants plant.new ≡ P.constants plant.old }
{
    let values = plan.initials(alloc)?;
    let drills = drills_of(alloc, plan)?;
    plant.lay(alloc, values.as_slice(), drills.as_slice(), plan.bound())
}

/// An empty journal with room for a whole play, and the records of it.
fn begin<R: Records>(alloc: Global, plan: &Plan) -> Result<(Journal, R), OutOfMemory>
    ensures entries { IfOk result (λ begun. begun.0.entries ≡ []) }
    ensures room { IfOk result (λ begun. begun.0.room ≡ bound plan.now) }
    ensures stands { IfOk result (λ begun. R.stand_for begun.1 plan.now []) }
{
    let journal = Journal::with_room(alloc, plan.bound())?;
    let records = R::open(alloc, plan)?;
    Ok((journal, records))
}

/// Asks a plant for a put, once, and tells it the entry for its answer.
#[tactic(auto, using(crate::proofs::Telling::goes_on_telling))]
fn answer_of<P: Plant>(plant: &mut P, well: Entry) -> Entry
    requires room { P.calls plant.old < P.room plant.old }
    requires laid { well.arg < P.objects plant.old }
    requires taken { is_fault well ≡ false }
    requires refused { is_fault (as_refused well.kind well) ≡ true }
    ensures either { (result ≡ well) ⊎ (result ≡ as_refused well.kind well) }
    ensures state { P.state plant.new ≡ (if is_fault result then P.state plant.old else after_put (P.state plant.old) well.arg well.value) }
    ensures drilling { P.drilling plant.new ≡ after_try (P.drilling plant.old) well.arg }
    ensures history { P.history plant.new ≡ after_asked
        (after_asked (P.history plant.old) (asked.Put well.arg well.value (is_of kind.Restore well) (not (is_fault result))))
        (asked.Entered result) }
    ensures lay_faults { P.lay_faults plant.new ≡ P.lay_faults plant.old }
    ensures tells_state { is_some (P.state plant.new) ≡ is_some (P.state plant.old) }
    ensures tells_drilling { is_some (P.drilling plant.new) ≡ is_some (P.drilling plant.old) }
    ensures drilled { IfSome (P.drilling plant.old) (λ d. is_fault result ≡ is_drilled d well.arg) }
    ensures calls { P.calls plant.new ≡ P.calls plant.old + 1 }
    ensures room { P.room plant.new ≡ P.room plant.old }
    ensures objects { P.objects plant.new ≡ P.objects plant.old }
    ensures constants { P.constants plant.new ≡ P.constants plant.old }
    ensures count { CountsFault (is_fault result) (P.faults plant.old) (P.faults plant.new) }
{
    let answer = match well.kind {
        Kind::Restore => plant.restore(well.arg, well.value),
        _ => plant.put(well.arg, well.value),
    };
    let entry = match answer {
        Ok(()) => well,
        Err(Failed) => refused(well),
    };
    plant.entered(&entry);
    entry
}

/// Whether the hint is of these rounds and this start.
fn fits(hint: &WorkDone, work: &Work) -> bool
    ensures { IsTrue result ↔ ((hint.now.rounds ≡ work.now.rounds) × (hint.now.from ≡ work.now.from)) }
{
    hint.rounds() == work.rounds && hint.from() == work.from
}

impl<P: Plant, R: Records> Played<P, R> {
    ghost use Rattle.journal_replay.specs.Hall.{plan_in, plant_in, journal_in, base_in, room_in};

    /// A machine at the beginning of a plan, over a plant.
    ///
    /// All its memory is taken here: the journal has room for as many entries as the plan allows, the records are opened, and the
    /// plant is laid out with the initial values, the plan's drills and room for as many puts. `PlantFault` comes only where the plant
    /// refused to be laid out, and its count of that rose. Both errors hand the plant back, which was asked for no put, and at most
    /// once to be laid out.
    pub fn open(alloc: Global, plan: Plan, plant: P) -> Result<Played<P, R>, OpenError<P>>
        ensures plan { IfOk result (λ hall. plan_in hall ≡ plan) }
        ensures journal { IfOk result (λ hall. journal_in hall ≡ []) }
        ensures history { IfOk result (λ hall. (base_in hall).history ≡ P.history plant) }
        ensures constants { IfOk result (λ hall. (base_in hall).constants ≡ P.constants plant) }
        ensures base { IfOk result (λ hall. (base_in hall).faults ≡ P.faults plant) }
        ensures lay_base { IfOk result (λ hall. (base_in hall).lay_faults ≡ P.lay_faults plant) }
        ensures count { IfOk result (λ hall. P.faults (plant_in hall) ≡ P.faults plant) }
        ensures lay_count { IfOk result (λ hall. P.lay_faults (plant_in hall) ≡ P.lay_faults plant) }
        ensures state { IfOk result (λ hall. is_some (P.state (plant_in hall)) ≡ is_some (P.state plant)) }
        ensures drilling { IfOk result (λ hall. is_some (P.drilling (plant_in hall)) ≡ is_some (P.drilling plant)) }
        ensures room { IfOk result (λ hall. room_in hall ≡ bound plan) }
        ensures cause { IfErr result (λ error. CountsFault (is_plant_fault error.cause) (P.lay_faults plant) (P.lay_faults error.plant)) }
        ensures asked { IfErr result (λ error. WasOnlyLaid plan (P.history plant) (P.history error.plant)) }
        ensures kept { IfErr result (λ error. P.faults error.plant ≡ P.faults plant) }
        ensures kept_constants { IfErr result (λ error. P.constants error.plant ≡ P.constants plant) }
        ensures kept_state { IfErr result (λ error. is_some (P.state error.plant) ≡ is_some (P.state plant)) }
        ensures kept_drilling { IfErr result (λ error. is_some (P.drilling error.plant) ≡ is_some (P.drilling plant)) }
        ensures unasked { IfErr result (λ error. P.calls error.plant ≡ P.calls plant) }
    {
        let mut plant = plant;
        let base = plant.faults();
        let (journal, records) = match begin(alloc, &plan) {
            Ok(begun) => begun,
            Err(OutOfMemory) => {
                return Err(OpenError {
                    cause: OpenCause::OutOfMemory,
                    plant,
                });
            }
        };
        match lay_out(alloc, &plan, &mut plant) {
            Ok(()) => Ok(Played {
                plan,
                plant,
                journal,
                records,
                base,
            }),
            Err(error) => Err(OpenError {
                cause: OpenCause::from(error),
                plant,
            }),
        }
    }

    /// The plant, which was laid out for the plan.
    pub fn plant(&self) -> &P
        ensures { result.now ≡ plant_in self.now }
    {
        &self.plant
    }

    /// The plan, the plant and the journal, which is legal for the plan. It takes no memory.
    ///
    /// The plant was asked as often since it was laid out as the journal has writes, refused puts and restores. Where it tells all
    /// that ever came to it, that is what came before, one laying out, and each entry, behind the put that it answers for. It has counted
    /// one fault more for each refused put and restore of the journal, as long as its count doesn't stand at its end. Where it
    /// tells its values they are those by the journal, and where it tells its drills it refused just what they name.
    pub fn into_parts(self) -> (Plan, P, Journal)
        ensures plan { result.0 ≡ plan_in self }
        ensures plant { result.1 ≡ plant_in self }
        ensures journal { result.2.entries ≡ journal_in self }
        ensures legal { IsLegal result.0 result.2.entries }
        ensures faults { P.faults result.1 < 2 ^ 64 - 1 → P.faults result.1 ≡ (base_in self).faults + faults_in result.2.entries }
        ensures lay_faults { P.lay_faults result.1 ≡ (base_in self).lay_faults }
        ensures calls { P.calls result.1 ≡ attempts_in result.2.entries }
        ensures history { P.history result.1 ≡ history_after result.0 result.2.entries (base_in self).history }
        ensures state { IfSome (P.state result.1) (HasValues result.0 result.2.entries) }
        ensures drilling { IfSome (P.drilling result.1) (HasDrills result.0 result.2.entries) }
        ensures constants { P.constants result.1 ≡ (base_in self).constants }
        ensures tells_state { is_some (P.state result.1) ≡ (base_in self).tells_values }
        ensures tells_drilling { is_some (P.drilling result.1) ≡ (base_in self).tells_drills }
    {
        let Played {
            plan,
            plant,
            journal,
            records: _,
            base: _,
        } = self;
        (plan, plant, journal)
    }

    /// Adds an entry that doesn't ask the device, and tells the device of it.
    #[inline(always)]
    fn add(&mut self, entry: Entry)
        requires may { MayFollow (plan_in self.old) (reverse (journal_in self.old)) entry }
        requires plain { is_attempt entry ≡ false }
        ensures plan { plan_in self.new ≡ plan_in self.old }
        ensures base { base_in self.new ≡ base_in self.old }
        ensures faults { P.faults (plant_in self.new) ≡ P.faults (plant_in self.old) }
        ensures journal { journal_in self.new ≡ journal_in self.old ++ entry ∷ [] }
    {
        is_bounded(&self.plan);
        last_put_is_value(&self.plan);
        self.records
            .note(&self.plan, self.journal.as_slice(), &entry);
        self.journal.push(entry);
        self.plant.entered(&entry);
    }

    /// Asks the device for a put, once, and adds the entry for its answer.
    fn ask(&mut self, well: Entry) -> Entry
        requires may { DeviceDecides (plan_in self.old) (reverse (journal_in self.old)) well.by well (as_refused well.kind well) }
        ensures plan { plan_in self.new ≡ plan_in self.old }
        ensures base { base_in self.new ≡ base_in self.old }
        ensures journal { journal_in self.new ≡ journal_in self.old ++ result ∷ [] }
        ensures answer { (result ≡ well) ⊎ (result ≡ as_refused well.kind well) }
        ensures count { CountsFault (is_fault result) (P.faults (plant_in self.old)) (P.faults (plant_in self.new)) }
    {
        is_bounded(&self.plan);
        is_well_formed(&self.plan);
        last_put_is_value(&self.plan);
        let entry = answer_of(&mut self.plant, well);
        self.records
            .note(&self.plan, self.journal.as_slice(), &entry);
        self.journal.push(entry);
        entry
    }

    /// Adds the work entry that is next, where the hint brings it, and asks for it otherwise.
    #[inline(always)]
    fn take_work(&mut self, by: Participant, work: Work, hint: Option<WorkDone>) -> Answer
        requires may { MayWorkNow (plan_in self.old) (reverse (journal_in self.old)) by work }
        ensures plan { plan_in self.new ≡ plan_in self.old }
        ensures base { base_in self.new ≡ base_in self.old }
        ensures faults { P.faults (plant_in self.new) ≡ P.faults (plant_in self.old) }
        ensures unrefused { made_fault result ≡ false }
        ensures answer { Answers (plan_in self.old) (journal_in self.old) (journal_in self.new) by hint result }
    {
        match hint {
            Some(done) if fits(&done, &work) => {
                let entry = work.mixed(by, &done);
                self.add(entry);
                Answer::Did(entry)
            }
            _ => Answer::Work {
                place: work.place,
                rounds: work.rounds,
                from: work.from,
            },
        }
    }
}

impl<P: Plant, R: Records> Played<P, R> {
    ghost use Rattle.journal_replay.specs.Hall.{plan_in, journal_in};
    ghost use Rattle.journal_replay.specs.PastParts.{plan_of, entries_of};

    /// What came before.
    #[inline(always)]
    fn past(&self) -> Past<'_, R>
        ensures plan { plan_of result ≡ plan_in self.now }
        ensures entries { entries_of result ≡ reverse (journal_in self.now) }
    {
        Past {
            plan: &self.plan,
            records: &self.records,
            journal: self.journal.as_slice(),
        }
    }

    /// What a participant does in its turn.
    #[inline(always)]
    fn move_of(&self, by: Participant) -> Move
        ensures { IsMove (plan_in self.now) (reverse (journal_in self.now)) by result }
    {
        move_of(&self.past(), by)
    }
}

impl<P: Plant, R: Records> Machine for Played<P, R> {
    ghost use Rattle.journal_replay.specs.Hall.{plan_in, plant_in, journal_in, base_in};

    ghost plan_of = { plan_in };

    ghost journal_of = { journal_in };

    ghost base_of = { base_in };

    ghost count_of = { λ hall. P.faults (plant_in hall) };

    ghost legal = { λ hall. hall.legal };

    ghost counted = { λ hall. hall.device.begun };

    ghost faulted = { λ hall below. le_of_eq (sym (hall.device.counted below)) };

    fn plan(&self) -> &Plan {
        &self.plan
    }

    /// Makes the one legal entry of a participant. The device is asked once where it decides, and else not at all.
    #[inline(always)]
    fn next(&mut self, by: Participant, hint: Option<WorkDone>) -> Answer
        requires { by < length (plan_in self.old).participants }
        ensures plan { plan_in self.new ≡ plan_in self.old }
        ensures base { base_in self.new ≡ base_in self.old }
        ensures count { CountsFault (made_fault result) (P.faults (plant_in self.old)) (P.faults (plant_in self.new)) }
        ensures answer { Answers (plan_in self.old) (journal_in self.old) (journal_in self.new) by hint result }
    {
        match self.move_of(by) {
            Move::Mix(work) => self.take_work(by, work, hint),
            Move::Wait(_) => Answer::NotYet,
            Move::Over => Answer::Over,
            Move::Make(entry) => {
                self.add(entry);
                Answer::Did(entry)
            }
            Move::Put(well) => Answer::Did(self.ask(well)),
        }
    }

    fn work(&mut self, by: Participant, place: Place, done: &WorkDone) -> Entry {
        let work = Work {
            place,
            rounds: done.rounds(),
            from: done.from(),
        };
        let entry = work.mixed(by, done);
        self.add(entry);
        entry
    }

    fn journal_len(&self) -> u64 {
        is_bounded(self.plan());
        self.journal.len()
    }

    fn entry(&self, index: u64) -> Entry {
        self.journal.get(index)
    }

    fn complete(&self) -> bool {
        all_are_over(&self.past())
    }

    fn gathers(&self, entry: &Entry) -> bool {
        gathers(&self.past(), entry)
    }

    fn value(&self, object: Object) -> i64 {
        R::value_at(&self.past(), object)
    }
}
