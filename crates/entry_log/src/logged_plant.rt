//! A device that writes the journal of its play as it moves. It takes no memory, so none can be wanting while it plays.

ghost use Rattle.std.specs.Prelude.{◌≡◌, ◌<◌, ◌+◌, [], ◌∷◌, ◌++◌, length, true, false, is_some, is_ok, is_err, if◌then◌else◌, map, IfSome, OnOk, OnErr};
ghost use Rattle.caa_base.specs.declared.outside.plant.Asked.TheVariants as asked;
ghost use Rattle.caa_base.specs.Outside.Counts.{CountsFault};
ghost use Rattle.caa_base.specs.Outside.PlantState.{after_lay, after_put, after_drills, after_try, after_asked, is_drilled, is_refused};
ghost use Rattle.place_plan.specs.RulesOfJournals.WellFormed.{AllWellFormed};
ghost use Rattle.journal_text.specs.Texts.Naming.{is_well_named};
ghost use Rattle.entry_log.specs.declared.line_log.LogStage.TheVariants as stage;
ghost use Rattle.entry_log.specs.Live.{IsLive, after_moment, entries_with, opening_of};
ghost use Rattle.entry_log.specs.LineLogs.{Tells};
ghost use Rattle.entry_log.specs.LoggedPlants.{IsOnlyPlanOf, constants_of, objects_of};

use crate::course::{Course, Note, Notice};
use crate::line_log::{LineLog, LogStage};
use crate::watched::Watch;
use caa_base::outside::plant::{Plant, PlantError};
use caa_base::outside::sink::Sink;
use caa_base::written::entry::{Drill, Entry, Failed, Object};
use place_plan::plans::plan::Plan;
use std::alloc::Global;
use std::marker::Model;

/// A device that writes the line of each entry to a sink, when it is told of that, before it is asked for another put. The first line
/// is written once the device was laid out.
///
/// Where a write fails, nothing more is written, and the device goes on. The watcher sees each entry behind its line, also then.
#[derive(Drop)]
pub struct LoggedPlant<P: Plant, K: Sink, W> {
    script: Vec<u8>,
    plan: Plan,
    plant: P,
    log: LineLog<K>,
    course: Course<K>,
    watcher: W,
}

impl<P: Plant, K: Sink, W> Model for LoggedPlant<P, K, W> {
    ghost use Rattle.entry_log.specs.Live.{opening_of};
    ghost use Rattle.entry_log.specs.LoggedPlants.{LoggedDevice};
    ghost use Rattle.entry_log.specs.inner.Keeping.{Keeps};
    ghost use Rattle.std.specs.Prelude.{◌≡◌, true};
    ghost use Rattle.journal_text.specs.Texts.Naming.{is_well_named};

    ghost Value = { LoggedDevice P K };

    ghost view = { λ p. record {
      script = p.script.items;
      plan = p.plan;
      plant = p.plant;
      log = p.log;
      opening = opening_of ⟦<K as Sink>⟧ p.course.opened;
      course = p.course.seen;
    } };

    ghost invariant = { λ p. (is_well_named p.plan ≡ true)
        × ∥ Keeps ⟦<P as Plant>⟧ ⟦<K as Sink>⟧ p.script.items p.plan p.plant p.log p.course ∥₁ };
}

/// A device that was played, and its log, to which nobody adds entries any more. What came to the device contracts see still, and what
/// the sink of the log was then.
#[derive(Drop)]
pub struct ClosedLog<P, K> {
    pub plant: P,
    pub plan: Plan,
    pub log: LineLog<K>,
    course: Course<K>,
}

impl<P, K> Model for ClosedLog<P, K> {
    ghost use Rattle.entry_log.specs.LoggedPlants.{ClosedDevice};

    ghost Value = { ClosedDevice P K };

    ghost view = { λ c. record { plant = c.plant; plan = c.plan; log = c.log; course = c.course.seen } };
}

impl<P: Plant, K: Sink, W: Watch + Drop> LoggedPlant<P, K, W> {
    /// A device that writes to this sink what becomes of the plan of this script. Nothing came to it yet, and nothing is written.
    pub fn new(script: Vec<u8>, plan: Plan, plant: P, sink: K, watcher: W) -> Self
        requires script { IsOnlyPlanOf script.items plan }
        requires named { is_well_named plan ≡ true }
        requires unasked { IfSome (P.history plant) (λ all. all ≡ []) }
        ensures script { result.script ≡ script.items }
        ensures plan { result.plan ≡ plan }
        ensures plant { result.plant ≡ plant }
        ensures sink { result.log.sink ≡ sink }
        ensures opening { result.opening ≡ opening_of ⟦<K as Sink>⟧ sink }
        ensures none { result.course ≡ [] }
    {
        LoggedPlant {
            script,
            plan,
            plant,
            course: Course::over(&sink),
            log: LineLog {
                sink,
                stage: LogStage::Unopened,
            },
            watcher,
        }
    }

    /// How far the log has come.
    pub fn stage(&self) -> LogStage
        ensures { result ≡ self.now.log.stage }
    {
        self.log.stage
    }

    /// What is so of the log at all times: its course is all that came to the device, by the plan of its script; and where each entry
    /// of which the device was told is well formed, the log is live in it, and tells of those entries.
    pub fn is_live(&self)
        ensures script { ∥ IsOnlyPlanOf self.now.script self.now.plan ∥₁ }
        ensures all { ∥ IfSome (P.history self.now.plant) (λ all. all ≡ map (λ m. m.came) self.now.course) ∥₁ }
        ensures live { ∥ (AllWellFormed self.now.plan (entries_with [] self.now.course)
            → IsLive ⟦<K as Sink>⟧ self.now.plan self.now.opening [] self.now.course) ∥₁ }
        ensures told { ∥ (AllWellFormed self.now.plan (entries_with [] self.now.course)
            → Tells ⟦<K as Sink>⟧ self.now.plan self.now.opening self.now.log (entries_with [] self.now.course)) ∥₁ }
    {
        let _ = &self.course;
    }

    /// The device and its log, with the plan by which that was written.
    pub fn close(self) -> ClosedLog<P, K>
        ensures plant { result.plant ≡ self.plant }
        ensures plan { result.plan ≡ self.plan }
        ensures log { result.log ≡ self.log }
        ensures course { result.course ≡ self.course }
    {
        let LoggedPlant {
            script: _,
            plan,
            plant,
            log,
            course,
            watcher: _,
        } = self;
        ClosedLog {
            plant,
            plan,
            log,
            course,
        }
    }
}

impl<P: Plant, K: Sink, W: Watch> Plant for LoggedPlant<P, K, W> {
    ghost lay_faults = { λ p. P.lay_faults p.plant };

    ghost faults = { λ p. P.faults p.plant };

    ghost state = { λ p. P.state p.plant };

    ghost drilling = { λ p. P.drilling p.plant };

    ghost history = { λ p. P.history p.plant };

    ghost calls = { λ p. P.calls p.plant };

    ghost room = { λ p. P.room p.plant };

    ghost objects = { λ p. objects_of ⟦<P as Plant>⟧ p };

    ghost constants = { λ p. constants_of ⟦<P as Plant>⟧ p };

    fn lay(
        &mut self,
        alloc: Global,
        values: &[i64],
        drills: &[Drill],
        puts: u64,
    ) -> Result<(), PlantError>
        ensures course { self.new.course ≡ after_moment self.old.course (asked.Laid values.now drills.now puts (is_ok result)) self.old.log.sink }
        ensures unlaid { is_ok result ≡ false → self.new.log ≡ self.old.log }
        ensures begun { is_ok result ≡ true → self.new.log.stage ≡ stage.Unopened → ⊥ }
        ensures state { OnOk result (P.state self.new.plant ≡ after_lay (P.state self.old.plant) values.now) }
        ensures drilling { OnOk result (P.drilling self.new.plant ≡ after_drills (P.drilling self.old.plant) drills.now (length values.now)) }
        ensures calls { OnOk result (P.calls self.new.plant ≡ 0) }
        ensures room { OnOk result (P.room self.new.plant ≡ puts) }
        ensures objects { OnOk result (objects_of ⟦<P as Plant>⟧ self.new ≡ length values.now) }
        ensures refused { OnErr result (P.calls self.new.plant ≡ P.calls self.old.plant) }
        ensures history { P.history self.new.plant ≡ after_asked (P.history self.old.plant) (asked.Laid values.now drills.now puts (is_ok result)) }
        ensures tells_state { is_some (P.state self.new.plant) ≡ is_some (P.state self.old.plant) }
        ensures tells_drilling { is_some (P.drilling self.new.plant) ≡ is_some (P.drilling self.old.plant) }
        ensures count { CountsFault (is_refused result) (P.lay_faults self.old.plant) (P.lay_faults self.new.plant) }
        ensures put_faults { P.faults self.new.plant ≡ P.faults self.old.plant }
        ensures constants { constants_of ⟦<P as Plant>⟧ self.new ≡ constants_of ⟦<P as Plant>⟧ self.old }
    {
        let laid = self.plant.lay(alloc, values, drills, puts);
        let done = laid.is_ok();
        self.course = self.course.then(&Notice {
            note: Note::Laid {
                values,
                drills,
                puts,
                done,
            },
            sink: &self.log.sink,
        });
        self.log.begin_if(done);
        laid
    }

    fn put(&mut self, object: Object, value: i64) -> Result<(), Failed>
        requires room { P.calls self.old.plant < P.room self.old.plant }
        requires laid { object < objects_of ⟦<P as Plant>⟧ self.old }
        ensures course { self.new.course ≡ after_moment self.old.course (asked.Put object value false (is_ok result)) self.old.log.sink }
        ensures log { self.new.log ≡ self.old.log }
        ensures done { OnOk result (P.state self.new.plant ≡ after_put (P.state self.old.plant) object value) }
        ensures failed { OnErr result (P.state self.new.plant ≡ P.state self.old.plant) }
        ensures drilled { IfSome (P.drilling self.old.plant) (λ d. is_err result ≡ is_drilled d object) }
        ensures drilling { P.drilling self.new.plant ≡ after_try (P.drilling self.old.plant) object }
        ensures history { P.history self.new.plant ≡ after_asked (P.history self.old.plant) (asked.Put object value false (is_ok result)) }
        ensures calls { P.calls self.new.plant ≡ P.calls self.old.plant + 1 }
        ensures room { P.room self.new.plant ≡ P.room self.old.plant }
        ensures objects { objects_of ⟦<P as Plant>⟧ self.new ≡ objects_of ⟦<P as Plant>⟧ self.old }
        ensures count { CountsFault (is_err result) (P.faults self.old.plant) (P.faults self.new.plant) }
        ensures lay_faults { P.lay_faults self.new.plant ≡ P.lay_faults self.old.plant }
        ensures constants { constants_of ⟦<P as Plant>⟧ self.new ≡ constants_of ⟦<P as Plant>⟧ self.old }
    {
        let answer = self.plant.put(object, value);
        self.course = self.course.then(&Notice {
            note: Note::Put {
                object,
                value,
                back: false,
                done: answer.is_ok(),
            },
            sink: &self.log.sink,
        });
        answer
    }

    fn restore(&mut self, object: Object, value: i64) -> Result<(), Failed>
        requires room { P.calls self.old.plant < P.room self.old.plant }
        requires laid { object < objects_of ⟦<P as Plant>⟧ self.old }
        ensures course { self.new.course ≡ after_moment self.old.course (asked.Put object value true (is_ok result)) self.old.log.sink }
        ensures log { self.new.log ≡ self.old.log }
        ensures done { OnOk result (P.state self.new.plant ≡ after_put (P.state self.old.plant) object value) }
        ensures failed { OnErr result (P.state self.new.plant ≡ P.state self.old.plant) }
        ensures drilled { IfSome (P.drilling self.old.plant) (λ d. is_err result ≡ is_drilled d object) }
        ensures drilling { P.drilling self.new.plant ≡ after_try (P.drilling self.old.plant) object }
        ensures history { P.history self.new.plant ≡ after_asked (P.history self.old.plant) (asked.Put object value true (is_ok result)) }
        ensures calls { P.calls self.new.plant ≡ P.calls self.old.plant + 1 }
        ensures room { P.room self.new.plant ≡ P.room self.old.plant }
        ensures objects { objects_of ⟦<P as Plant>⟧ self.new ≡ objects_of ⟦<P as Plant>⟧ self.old }
        ensures count { CountsFault (is_err result) (P.faults self.old.plant) (P.faults self.new.plant) }
        ensures lay_faults { P.lay_faults self.new.plant ≡ P.lay_faults self.old.plant }
        ensures constants { constants_of ⟦<P as Plant>⟧ self.new ≡ constants_of ⟦<P as Plant>⟧ self.old }
    {
        let answer = self.plant.restore(object, value);
        self.course = self.course.then(&Notice {
            note: Note::Put {
                object,
                value,
                back: true,
                done: answer.is_ok(),
            },
            sink: &self.log.sink,
        });
        answer
    }

    fn entered(&mut self, entry: &Entry)
        ensures course { self.new.course ≡ after_moment self.old.course (asked.Entered entry.now) self.old.log.sink }
        ensures state { P.state self.new.plant ≡ P.state self.old.plant }
        ensures drilling { P.drilling self.new.plant ≡ P.drilling self.old.plant }
        ensures history { P.history self.new.plant ≡ after_asked (P.history self.old.plant) (asked.Entered entry.now) }
        ensures calls { P.calls self.new.plant ≡ P.calls self.old.plant }
        ensures room { P.room self.new.plant ≡ P.room self.old.plant }
        ensures objects { objects_of ⟦<P as Plant>⟧ self.new ≡ objects_of ⟦<P as Plant>⟧ self.old }
        ensures faults { P.faults self.new.plant ≡ P.faults self.old.plant }
        ensures lay_faults { P.lay_faults self.new.plant ≡ P.lay_faults self.old.plant }
        ensures constants { constants_of ⟦<P as Plant>⟧ self.new ≡ constants_of ⟦<P as Plant>⟧ self.old }
    {
        self.plant.entered(entry);
        self.course = self.course.then(&Notice {
            note: Note::Entered { entry },
            sink: &self.log.sink,
        });
        self.log.add(&self.plan, entry);
        self.watcher.saw(&self.plan, entry);
    }

    fn lay_faults(&self) -> u64 {
        self.plant.lay_faults()
    }

    fn faults(&self) -> u64 {
        self.plant.faults()
    }
}
