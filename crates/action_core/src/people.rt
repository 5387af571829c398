ghost use Rattle.std.specs.Prelude.{◌≡◌, true, false, ◌<◌, ◌≤◌, ◌+◌, ◌∷◌, [], List, length, reverse, slice_set, IfOk};
ghost use Rattle.place_plan.specs.RulesOfJournals.Rules.{MayFollow};
ghost use Rattle.place_plan.specs.RulesOfJournals.Journals.{LegalPast};
ghost use Rattle.action_core.specs.inner.KeptPeople.{at, opens_play, refused_after, IsNext, PersonOfEach};

use crate::person::Person;
use caa_base::written::entry::{Entry, Kind, OutOfMemory, Participant};
use place_plan::plans::plan::Plan;
use std::alloc::Global;
use std::marker::Model;

/// What is kept of all participants besides their frames, seen as the list of it.
#[derive(Drop)]
pub struct People {
    people: Vec<Person>,
}

impl Model for People {
    ghost use Rattle.std.specs.Prelude.{List};
    ghost use Rattle.action_core.specs.declared.person.Person.{Person as PersonValue};

    ghost Value = { List PersonValue };

    ghost view = { λ p. p.people.items };
}

/// The number of the first play from this one on in which a participant has a role; the number of plays where there is none.
fn turn_from(plan: &Plan, by: Participant, low: u32) -> u32
    requires { low ≤ length plan.now.plays }
    ensures { IsNext plan.now by low result }
{
    for number in low..plan.plays() {
        if plan.role_of(plan.play(number), by).is_some() {
            return number;
        }
    }
    plan.plays()
}

/// The turn of the maker of an entry with it.
fn turn_after(plan: &Plan, entry: &Entry, turn: u32) -> u32
    requires { opens_play plan.now entry.now ≡ true → turn < length plan.now.plays }
    ensures goes_on { opens_play plan.now entry.now ≡ true → IsNext plan.now entry.now.by (turn + 1) result }
    ensures stays { opens_play plan.now entry.now ≡ false → result ≡ turn }
{
    match entry.kind {
        Kind::Arrive => match plan.parent(entry.place) {
            None => {
                // The plays of a plan are fewer than 2 ^ 32, so the next number is one too.
                let _ = plan.plays();
                turn_from(plan, entry.by, turn + 1)
            }
            Some(_) => turn,
        },
        _ => turn,
    }
}

/// Whether a put of the maker of an entry was refused since it last began a handler, with the entry.
fn refused_after(entry: &Entry, refused: bool) -> bool
    ensures { result ≡ refused_after entry.now refused }
{
    match entry.kind {
        Kind::PutFault => true,
        Kind::Handle => false,
        _ => refused,
    }
}

/// What is kept of somebody who isn't there.
const NOBODY: Person = Person {
    turn: 0,
    refused: false,
};

impl People {
    /// Nobody has arrived anywhere. At `Err` no memory was found.
    pub fn open(alloc: Global, plan: &Plan) -> Result<People, OutOfMemory>
        ensures { IfOk result (λ people. PersonOfEach plan.now [] people) }
    {
        let mut people = Vec::new(alloc);
        for by in 0..plan.participants() {
            people.push(Person {
                turn: turn_from(plan, by, 0),
                refused: false,
            })?;
        }
        Ok(People { people })
    }

    /// What is kept of a participant.
    #[inline(always)]
    pub fn person(&self, by: Participant) -> Person
        ensures { result ≡ at self.now by }
    {
        match self.people.get(by as usize) {
            Some(person) => *person,
            None => NOBODY,
        }
    }

    /// Puts something else in the place of what is kept of a participant.
    fn set(&mut self, by: Participant, person: Person)
        requires { by < length self.old }
        ensures { self.new ≡ slice_set self.old by person }
    {
        self.people[by as usize] = person;
    }

    /// Takes an entry in.
    pub fn note(&mut self, plan: &Plan, journal: &[Entry], entry: &Entry)
        requires stands { PersonOfEach plan.now (reverse journal.now) self.old }
        requires legal { LegalPast plan.now (reverse journal.now) }
        requires may { MayFollow plan.now (reverse journal.now) entry.now }
        ensures { PersonOfEach plan.now (entry.now ∷ reverse journal.now) self.new }
    {
        plan.is_closed();
        let person = self.person(entry.by);
        let turn = turn_after(plan, entry, person.turn);
        let refused = refused_after(entry, person.refused);
        self.set(entry.by, Person { turn, refused });
    }
}
