ghost use Rattle.std.specs.Prelude.{◌≡◌, ◌∷◌, [], true, reverse, IfOk};
ghost use Rattle.role_states.specs.inner.Standing.{is_step};
ghost use Rattle.place_plan.specs.RulesOfJournals.Rules.{MayFollow};
ghost use Rattle.place_plan.specs.RulesOfJournals.Journals.{LegalPast};
ghost use Rattle.action_core.specs.inner.KeptPast.{StandsFor as TablesStand};

use crate::noting::{is_handling, note_frames, note_recoveries, note_versions};
use crate::people::People;
use crate::saying::note_endings;
use crate::stages::Stages;
use action_endings::Endings;
use caa_base::written::entry::{Entry, Kind, OutOfMemory};
use journal_replay::questions::ends_in_silence;
use object_versions::Versions;
use place_plan::plans::plan::Plan;
use resolution_core::Resolver;
use role_states::Frames;
use std::alloc::Global;
use std::marker::Model;

mod kept_records;

/// The records of a past that the fast core keeps: six tables, which look back nowhere.
#[derive(Drop)]
pub struct Tables {
    frames: Frames,
    versions: Versions,
    recoveries: Resolver,
    endings: Endings,
    stages: Stages,
    people: People,
}

impl Model for Tables {
    ghost use Rattle.action_core.specs.inner.KeptPast.{Kept};

    ghost Value = { Kept };

    ghost view = { λ t. record {
      frames = t.frames;
      versions = t.versions;
      recoveries = t.recoveries;
      endings = t.endings;
      stages = t.stages;
      people = t.people;
    } };
}

impl Tables {
    /// The tables of no entries. At `Err` no memory was found.
    pub fn open(alloc: Global, plan: &Plan) -> Result<Tables, OutOfMemory>
        ensures { IfOk result (λ tables. TablesStand plan.now [] tables) }
    {
        Ok(Tables {
            frames: Frames::open(alloc, plan)?,
            versions: Versions::open(alloc, plan)?,
            recoveries: Resolver::open(alloc, plan)?,
            endings: Endings::open(alloc, plan)?,
            stages: Stages::open(alloc, plan)?,
            people: People::open(alloc, plan)?,
        })
    }

    /// Takes an entry in. It takes no memory.
    ///
    /// A step changes the frame of its maker, and a write the value of its object too; nothing else is looked at for one.
    #[inline(always)]
    pub fn note(&mut self, plan: &Plan, journal: &[Entry], entry: &Entry)
        requires stands { TablesStand plan.now (reverse journal.now) self.old }
        requires legal { LegalPast plan.now (reverse journal.now) }
        requires may { MayFollow plan.now (reverse journal.now) entry.now }
        ensures { TablesStand plan.now (entry.now ∷ reverse journal.now) self.new }
    {
        match entry.kind {
            Kind::Read | Kind::Work | Kind::Write | Kind::Check => {
                self.note_step(plan, journal, entry)
            }
            _ => self.note_rest(plan, journal, entry),
        }
    }

    /// Takes a step in.
    #[inline(always)]
    fn note_step(&mut self, plan: &Plan, journal: &[Entry], entry: &Entry)
        requires stands { TablesStand plan.now (reverse journal.now) self.old }
        requires legal { LegalPast plan.now (reverse journal.now) }
        requires may { MayFollow plan.now (reverse journal.now) entry.now }
        requires step { is_step entry.now.kind ≡ true }
        ensures { TablesStand plan.now (entry.now ∷ reverse journal.now) self.new }
    {
        plan.is_closed();
        note_frames(&mut self.frames, plan, journal, entry, false);
        note_versions(&mut self.versions, plan, journal, entry);
    }

    /// Takes in an entry that is no step.
    #[inline(never)]
    fn note_rest(&mut self, plan: &Plan, journal: &[Entry], entry: &Entry)
        requires stands { TablesStand plan.now (reverse journal.now) self.old }
        requires legal { LegalPast plan.now (reverse journal.now) }
        requires may { MayFollow plan.now (reverse journal.now) entry.now }
        ensures { TablesStand plan.now (entry.now ∷ reverse journal.now) self.new }
    {
        plan.is_closed();
        let silent = ends_in_silence(plan, entry.place, self.stages.stage(entry.place).ended);
        let handled = is_handling(&self.frames, plan, journal, entry);
        note_endings(&mut self.endings, plan, journal, entry, handled);
        note_recoveries(&mut self.recoveries, plan, journal, entry, handled);
        note_frames(&mut self.frames, plan, journal, entry, silent);
        note_versions(&mut self.versions, plan, journal, entry);
        self.stages.note(entry);
        self.people.note(plan, journal, entry);
    }
}
