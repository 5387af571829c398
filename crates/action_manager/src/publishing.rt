//! The list of what a play changes has room for the objects of any place, which is taken when the manager is opened. Where a
//! publication finds no memory the entry stays made, the view is stale, and what was published before stays a beginning of what
//! all ended plays would have published.

ghost use Rattle.std.specs.Prelude.{◌≡◌, ◌<◌, [], ◌∷◌, List, length, map, reverse, replicate, IfOk, vec_capacity};
ghost use Rattle.caa_base.specs.declared.written.entry.Entry.{Entry as JournalEntry};
ghost use Rattle.place_plan.specs.Plans.Places.{initials_of};
ghost use Rattle.place_plan.specs.RulesOfJournals.Journals.{plays_ended};
ghost use Rattle.shared_views.specs.Publications.{Begins};
ghost use Rattle.shared_views.specs.Committing.{placeless};
ghost use Rattle.action_manager.specs.Publishing.{values_of, Publishes, HasRoom, book_of, new_observer};

use caa_base::written::entry::{Entry, Object, OutOfMemory, Place};
use journal_laws::is_well_formed;
use place_plan::plans::plan::Plan;
use place_plan::rules::machine::Machine;
use place_plan::rules::one_entry::ends_play;
use shared_views::{CommittedWriter, Observer};
use std::alloc::Global;
use std::sync::Wait;

/// Publishes the values of a play's objects as the play ends.
pub struct Publishing {
    pub(crate) writer: CommittedWriter,
    pub(crate) changes: Vec<(Object, i64)>,
    alloc: Global,
}

/// How many objects a place has at most.
fn most_objects(plan: &Plan) -> usize
    ensures { HasRoom plan.now result }
{
    let mut most = 0;
    for place in 0..plan.places() {
        let count = plan.objects_of(place).len();
        if most < count {
            most = count;
        }
    }
    most
}

/// Room for the changes of any play.
fn room_for(alloc: Global, plan: &Plan) -> Result<Vec<(Object, i64)>, OutOfMemory>
    ensures { IfOk result (λ v. HasRoom plan.now (vec_capacity v)) }
{
    Ok(Vec::with_capacity(alloc, most_objects(plan))?)
}

impl Publishing {
    /// What publishes the plays of a plan, of which none has ended, and so many observers of it.
    pub fn open<R: Wait>(
        rt: &R,
        alloc: Global,
        plan: &Plan,
        observers: u32,
    ) -> Result<(Publishing, Vec<Observer>), OutOfMemory>
        ensures room { IfOk result (λ r. HasRoom plan.now (vec_capacity r.0.changes)) }
        ensures publishes { IfOk result (λ r. (past : List JournalEntry)
            → plays_ended plan.now past ≡ [] → Publishes plan.now past r.0.writer) }
        ensures observers { IfOk result (λ r. map placeless r.1.items ≡ replicate observers (new_observer plan.now (book_of r.0))) }
    {
        let changes = room_for(alloc, plan)?;
        let (writer, seats) = CommittedWriter::open(rt, alloc, plan, observers)?;
        let publishing = Publishing {
            writer,
            changes,
            alloc,
        };
        Ok((publishing, seats))
    }

    /// The values of the objects of a place, by the machine's journal.
    fn collect<M: Machine>(&mut self, machine: &M, place: Place)
        requires place { place < length (M.plan_of machine.now).places }
        requires room { HasRoom (M.plan_of machine.now) (vec_capacity self.old.changes) }
        ensures writer { self.new.writer ≡ self.old.writer }
        ensures room { vec_capacity self.new.changes ≡ vec_capacity self.old.changes }
        ensures changes { self.new.changes.items ≡ values_of (M.plan_of machine.now) (reverse (M.journal_of machine.now)) place }
    {
        machine.plan().is_closed();
        self.changes.clear();
        let objects = machine.plan().objects_of(place);
        for index in 0..objects.len() {
            let object = objects[index];
            self.changes.push_reserved((object, machine.value(object)));
        }
    }

    /// Takes in the entry that a machine made last, and publishes where it ends a play.
    pub fn take_in<M: Machine, R: Wait>(&mut self, rt: &R, machine: &M, entry: Entry)
        requires last { (past : List JournalEntry) × (reverse (M.journal_of machine.now) ≡ entry ∷ past) }
        requires room { HasRoom (M.plan_of machine.now) (vec_capacity self.old.changes) }
        requires initials { self.old.writer.initials ≡ initials_of (M.plan_of machine.now) }
        ensures room { vec_capacity self.new.changes ≡ vec_capacity self.old.changes }
        ensures book { book_of self.new ≡ book_of self.old }
        ensures publishes { (past : List JournalEntry) → reverse (M.journal_of machine.now) ≡ entry ∷ past
            → Publishes (M.plan_of machine.now) past self.old.writer
            → Publishes (M.plan_of machine.now) (entry ∷ past) self.new.writer }
    {
        is_well_formed(machine.plan());
        if ends_play(machine.plan(), &entry) {
            self.collect(machine, entry.place);
            machine.plan().is_closed();
            let _ = self.writer.publish(rt, self.alloc, self.changes.as_slice());
        }
    }

    /// A law: what an observer of its list knows begins what the writer has entered. Nothing changes.
    pub fn knows_no_more(&mut self, observer: &Observer)
        requires ours { observer.now.known.book ≡ book_of self.old }
        ensures same { self.new ≡ self.old }
        ensures begins { Begins observer.now.known self.old.writer.entered }
    {
        self.writer.knows_no_more(observer);
    }

    /// The writer alone.
    pub fn into_writer(self) -> CommittedWriter
        ensures { result ≡ self.writer }
    {
        let Publishing {
            writer,
            changes: _,
            alloc: _,
        } = self;
        writer
    }
}
