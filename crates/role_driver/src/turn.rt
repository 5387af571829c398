ghost use Rattle.std.specs.Prelude.{◌≡◌, ◌<◌, ◌≤◌, ◌+◌, ◌%◌, true, false, length, MatchOption};
ghost use Rattle.place_plan.specs.RulesOfJournals.Journals.{IsComplete};
ghost use Rattle.role_driver.specs.Schedule.{Acts, IsKept, TakesTurn};
ghost use Rattle.role_driver.specs.Working.{TellsPlaces};
ghost use Rattle.role_driver.specs.inner.Sleeping.{AllSleep};

use crate::mixing::mix_in_place;
use action_manager::unwoken;
use caa_base::outside::gate::Gate;
use caa_base::written::entry::{Entry, Participant};
use core_words::crew::{Crew, is_in, with};
use journal_laws::{goes_on, sleeps_on};
use place_plan::rules::machine::{Answer, Machine};

/// Lets a participant make its entry, if it has one, and gives it. Mixing work is done here, once the gate was called.
fn act<M: Machine, G: Gate>(machine: &mut M, by: Participant, gate: &G) -> Option<Entry>
    requires { by < length (M.plan_of machine.old).participants }
    ensures plan { M.plan_of machine.new ≡ M.plan_of machine.old }
    ensures base { M.base_of machine.new ≡ M.base_of machine.old }
    ensures count { M.count_of machine.old ≤ M.count_of machine.new }
    ensures acts { MatchOption result
        (IsKept (M.plan_of machine.old) (M.journal_of machine.old) (M.journal_of machine.new) by)
        (Acts (M.plan_of machine.old) (M.journal_of machine.old) (M.journal_of machine.new) by) }
    ensures told { TellsPlaces (G.was_told gate.now) (M.journal_of machine.old) (M.journal_of machine.new) }
{
    match machine.next(by, None) {
        Answer::Did(entry) => Some(entry),
        Answer::NotYet | Answer::Over => None,
        Answer::Work {
            place,
            rounds,
            from,
        } => {
            let done = mix_in_place(gate, by, place, from, rounds);
            Some(machine.work(by, place, &done))
        }
    }
}

/// The participant from whom one goes round that begins at this number, of so many participants; where there is nobody, any.
fn first_asked(first: u32, participants: u32) -> Participant
    ensures below { 0 < participants → result < participants }
    ensures value { 0 < participants → result ≡ first % participants }
{
    if participants == 0 {
        return 0;
    }
    first % participants
}

/// The participant that is asked after so many others, going round from this one, of so many participants.
fn participant_asked(start: Participant, others: u32, participants: u32) -> Participant
    requires start { start < participants }
    requires others { others < participants }
    ensures below { result < participants }
    ensures value { result ≡ (start + others) % participants }
{
    let left = participants - start;
    if others < left {
        start + others
    } else {
        others - left
    }
}

/// Makes the entry of the first participant that has one, going round from this number.
///
/// Nobody is asked of the crew that sleeps: none of it has an entry. Who is asked and has none sleeps until an entry may wake it.
/// The answer is whether somebody had an entry: where nobody has one, all plays are over, and nothing was made.
pub(crate) fn take_turn<M: Machine, G: Gate>(
    machine: &mut M,
    first: u32,
    asleep: &mut Crew,
    gate: &G,
) -> bool
    requires sleep { AllSleep (M.plan_of machine.old) (M.journal_of machine.old) asleep.old }
    ensures plan { M.plan_of machine.new ≡ M.plan_of machine.old }
    ensures base { M.base_of machine.new ≡ M.base_of machine.old }
    ensures count { M.count_of machine.old ≤ M.count_of machine.new }
    ensures turn { result ≡ true → TakesTurn (M.plan_of machine.old) (M.journal_of machine.old) (M.journal_of machine.new) first }
    ensures done { result ≡ false → IsComplete (M.plan_of machine.old) (M.journal_of machine.old)
        × (M.journal_of machine.new ≡ M.journal_of machine.old) }
    ensures sleep { AllSleep (M.plan_of machine.new) (M.journal_of machine.new) asleep.new }
    ensures told { TellsPlaces (G.was_told gate.now) (M.journal_of machine.old) (M.journal_of machine.new) }
{
    goes_on(machine.plan());
    machine.plan().is_closed();
    let participants = machine.plan().participants();
    let start = first_asked(first, participants);
    for others in 0..participants {
        let by = participant_asked(start, others, participants);
        if is_in(*asleep, by) {
            continue;
        }
        match act(machine, by, gate) {
            Some(entry) => {
                sleeps_on(machine.plan());
                *asleep = unwoken(machine, &entry, *asleep);
                return true;
            }
            None => *asleep = with(*asleep, by),
        }
    }
    if machine.complete() {
        return false;
    }
    unreachable!()
}
