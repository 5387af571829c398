ghost use Rattle.std.specs.Prelude.{◌≡◌, length, map, reverse, All};
ghost use mathlib.Core.List.{IsPrefix};
ghost use Rattle.place_plan.specs.RulesOfJournals.Journals.{IsLegal, IsComplete};
ghost use Rattle.action_manager.specs.Publishing.{Publishes};
ghost use Rattle.action_manager.specs.Managers.{plan_in, handed_in, book_in, IsSeatIn};
ghost use Rattle.action_manager.specs.Seats.{participant_of, Accounts, HaveAll};
ghost use Rattle.role_driver.specs.SeatsDriven.{IsDone};
ghost use Rattle.role_driver.specs.VectorRoom.{HasRoomFor};

use crate::driving::drive;
use crate::told_gate::ToldGate;
use action_manager::{Closed, Manager, Seat};
use place_plan::rules::machine::Machine;
use std::sync::Wait;

/// Drives each seat to its end, one after another.
pub fn drive_each<M: Machine, G: ToldGate, R: Wait>(
    rt: &R,
    manager: &Manager<M>,
    seats: Vec<Seat<M>>,
    mut driven: Vec<Seat<M>>,
    gate: &G,
) -> Vec<Seat<M>>
    requires room { HasRoomFor (length seats.items) driven }
    requires opened { All (λ s. IsSeatIn M.base_of manager.now s) seats.items }
    ensures done { All (λ s. IsDone M.base_of manager.now s) result.items }
    ensures same { map participant_of result.items ≡ map participant_of seats.items }
{
    for seat in seats {
        driven.push_reserved(drive(rt, manager, seat, gate));
    }
    driven
}

/// Gives the machine and the writer back, once each participant's seat is there and is over; then the machine is complete.
pub fn close_done<M: Machine>(manager: Manager<M>, seats: Vec<Seat<M>>) -> Closed<M>
    requires done { All (λ s. IsDone M.base_of manager s) seats.items }
    requires all { HaveAll (length (plan_in manager).participants) seats.items }
    ensures plan { M.plan_of result.machine ≡ plan_in manager }
    ensures base { M.base_of result.machine ≡ M.base_of (handed_in manager) }
    ensures begins { IsPrefix (M.journal_of (handed_in manager)) (M.journal_of result.machine) }
    ensures legal { IsLegal (plan_in manager) (M.journal_of result.machine) }
    ensures complete { IsComplete (plan_in manager) (M.journal_of result.machine) }
    ensures book { result.writer.publications.book ≡ book_in manager }
    ensures published { Publishes (plan_in manager) (reverse (M.journal_of result.machine)) result.writer }
    ensures accounts { All (λ s. Accounts (M.journal_of result.machine) s) seats.items }
    ensures stale { result.stale ≡ result.writer.is_stale }
{
    match manager.close(seats) {
        Ok(closed) => closed,
        Err(_refused) => unreachable!(),
    }
}
