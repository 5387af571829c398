ghost use Rattle.std.specs.Prelude.{◌≡◌, ℕ, true, ◌<◌, ◌≤◌, length, MatchOption};
ghost use Rattle.cover_table.specs.Cover.{has_bit};
ghost use Rattle.place_plan.specs.RulesOfJournals.Journals.{IsLegal, IsComplete};
ghost use Rattle.play_orders.specs.Asking.{AllSleep, Acts, IsKept, WasAdded, WakesNobody};

use crate::order::Order;
use caa_base::written::entry::{Entry, Kind, Participant};
use caa_base::written::work::WorkDone;
use core_words::crew::{Crew, nobody, with};
use journal_laws::{goes_on, is_bounded, sleeps_on};
use place_plan::rules::machine::{Answer, Machine};

/// Lets a participant make its entry, if it has one, and gives it. Mixing work is done here.
fn act<M: Machine>(machine: &mut M, by: Participant) -> Option<Entry>
    requires { by < length (M.plan_of machine.old).participants }
    ensures plan { M.plan_of machine.new ≡ M.plan_of machine.old }
    ensures base { M.base_of machine.new ≡ M.base_of machine.old }
    ensures count { M.count_of machine.old ≤ M.count_of machine.new }
    ensures acts { MatchOption result
        (IsKept (M.plan_of machine.old) (M.journal_of machine.old) (M.journal_of machine.new) by)
        (Acts (M.plan_of machine.old) (M.journal_of machine.old) (M.journal_of machine.new) by) }
{
    match machine.next(by, None) {
        Answer::Did(entry) => Some(entry),
        Answer::NotYet | Answer::Over => None,
        Answer::Work {
            place,
            rounds,
            from,
        } => {
            let done = WorkDone::make(from, rounds);
            Some(machine.work(by, place, &done))
        }
    }
}

/// Those of a sleeping crew who sleep on after an entry: all, where it changes nothing for others, and else nobody.
fn sleeping_on(entry: &Entry, crew: Crew) -> Crew
    ensures { (t : ℕ) → has_bit result t ≡ true → (has_bit crew t ≡ true) × WakesNobody entry.now t }
{
    match entry.kind {
        Kind::Start
        | Kind::Read
        | Kind::Work
        | Kind::Write
        | Kind::Check
        | Kind::Resolve
        | Kind::Handle
        | Kind::Undo
        | Kind::Restore => crew,
        _ => nobody(),
    }
}

/// Makes the entry of the first participant that has one, of those whom an order names one after the other.
///
/// Nobody is asked of the crew that sleeps: none of it has an entry. Who is asked and has none sleeps until an entry may wake it.
fn take_turn<M: Machine, O: Order>(machine: &mut M, order: &mut O, asleep: &mut Crew)
    requires unfinished { IsComplete (M.plan_of machine.old) (M.journal_of machine.old) → ⊥ }
    requires sleep { AllSleep (M.plan_of machine.old) (M.journal_of machine.old) asleep.old }
    ensures plan { M.plan_of machine.new ≡ M.plan_of machine.old }
    ensures base { M.base_of machine.new ≡ M.base_of machine.old }
    ensures count { M.count_of machine.old ≤ M.count_of machine.new }
    ensures added { WasAdded (M.plan_of machine.old) (M.journal_of machine.old) (M.journal_of machine.new) }
    ensures sleep { AllSleep (M.plan_of machine.new) (M.journal_of machine.new) asleep.new }
{
    goes_on(machine.plan());
    machine.plan().is_closed();
    let participants = machine.plan().participants();
    'asking: loop {
        let by = order.pick(*asleep, participants);
        if let Some(entry) = act(machine, by) {
            sleeps_on(machine.plan());
            *asleep = sleeping_on(&entry, *asleep);
            order.went(by);
            return;
        }
        *asleep = with(*asleep, by);
    }
}

/// Plays a machine to its end, by an order. It takes no memory.
///
/// For each entry those who have none are passed over: the first whom the order names and who has one makes it. A piece of mixing
/// work is done in the turn that needs it. What the machine did before is kept.
pub fn play_by<M: Machine, O: Order>(mut machine: M, order: &mut O) -> M
    ensures plan { M.plan_of result ≡ M.plan_of machine }
    ensures base { M.base_of result ≡ M.base_of machine }
    ensures count { M.count_of machine ≤ M.count_of result }
    ensures legal { IsLegal (M.plan_of machine) (M.journal_of result) }
    ensures complete { IsComplete (M.plan_of machine) (M.journal_of result) }
{
    let mut asleep = nobody();
    while !machine.complete() {
        take_turn(&mut machine, order, &mut asleep);
        is_bounded(machine.plan());
    }
    machine
}
