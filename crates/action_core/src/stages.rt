ghost use Rattle.std.specs.Prelude.{◌≡◌, ◌<◌, ◌||◌, ◌∷◌, [], List, length, slice_set, Option, Some, if◌then◌else◌, IfOk};
ghost use Rattle.caa_base.specs.declared.written.entry.Entry.{Entry as EntryValue};
ghost use Rattle.caa_base.specs.declared.written.entry.Kind.TheVariants as kind;
ghost use Rattle.place_plan.specs.Plans.PlanValue.{Plan as PlanValue};
ghost use Rattle.place_plan.specs.RulesOfJournals.Entries.{is_of};
ghost use Rattle.place_plan.specs.RulesOfJournals.Whereabouts.{outcome_at};
ghost use Rattle.action_core.specs.inner.KeptStages.{at, StageOfEach};

use crate::stage::Stage;
use caa_base::written::entry::{Entry, Kind, OutOfMemory, Outcome, Place};
use place_plan::plans::plan::Plan;
use std::alloc::Global;
use std::marker::Model;

/// How far each place has come, seen as the list of it.
#[derive(Drop)]
pub struct Stages {
    places: Vec<Stage>,
}

impl Model for Stages {
    ghost use Rattle.std.specs.Prelude.{List};
    ghost use Rattle.action_core.specs.declared.stage.Stage.{Stage as StageValue};

    ghost Value = { List StageValue };

    ghost view = { λ s. s.places.items };
}

/// A place that hasn't started.
const UNSTARTED: Stage = Stage {
    started: false,
    undoing: false,
    ended: None,
};

/// How far the place of an entry has come with it.
fn stage_after(entry: &Entry, stage: Stage) -> Stage
    ensures started { result.started ≡ (is_of kind.Start entry.now || stage.started) }
    ensures undoing { result.undoing ≡ (is_of kind.Undo entry.now || stage.undoing) }
    ensures ended { result.ended ≡ (if is_of kind.End entry.now then Some (outcome_at entry.now) else stage.ended) }
{
    match entry.kind {
        Kind::Start => Stage {
            started: true,
            ..stage
        },
        Kind::Undo => Stage {
            undoing: true,
            ..stage
        },
        Kind::End => Stage {
            ended: Some(Outcome::of_mark(entry.mark, entry.arg)),
            ..stage
        },
        _ => stage,
    }
}

impl Stages {
    /// No place has started. At `Err` no memory was found.
    pub fn open(alloc: Global, plan: &Plan) -> Result<Stages, OutOfMemory>
        ensures { IfOk result (λ stages. StageOfEach plan.now [] stages) }
    {
        let places = vec![in alloc; UNSTARTED; plan.places() as usize]?;
        Ok(Stages { places })
    }

    /// How far a place has come.
    #[inline(always)]
    pub fn stage(&self, place: Place) -> Stage
        ensures { result ≡ at self.now place }
    {
        match self.places.get(place as usize) {
            Some(stage) => *stage,
            None => UNSTARTED,
        }
    }

    /// Puts another stage in the place of one.
    fn set(&mut self, place: Place, stage: Stage)
        requires { place < length self.old }
        ensures { self.new ≡ slice_set self.old place stage }
    {
        self.places[place as usize] = stage;
    }

    /// Takes an entry in.
    pub fn note(&mut self, entry: &Entry)
        requires { entry.now.place < length self.old }
        ensures { (plan : PlanValue) (past : List EntryValue) → StageOfEach plan past self.old
            → StageOfEach plan (entry.now ∷ past) self.new }
    {
        let stage = stage_after(entry, self.stage(entry.place));
        self.set(entry.place, stage);
    }
}
