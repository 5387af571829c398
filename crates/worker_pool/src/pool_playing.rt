ghost use Rattle.std.specs.Prelude.{◌≡◌, ◌+◌, ◌≤◌, [], ◌++◌, length, map, reverse, All, IfOk, IfErr, vec_capacity};
ghost use Rattle.std.specs.List.{range_with_len, sum_by, flat_map};
ghost use mathlib.Core.List.{IsPrefix};
ghost use Rattle.place_plan.specs.RulesOfJournals.Journals.{IsLegal, IsComplete, plays_ended};
ghost use Rattle.action_manager.specs.Openings.{IsUnresolved};
ghost use Rattle.action_manager.specs.Managers.{plan_in, handed_in, IsSeatIn};
ghost use Rattle.action_manager.specs.Seats.{participant_of, HaveAll};
ghost use Rattle.role_driver.specs.SeatsDriven.{IsDone};
ghost use Rattle.role_driver.specs.VectorRoom.{HasRoomFor};
ghost use Rattle.worker_pool.specs.Hands.{number_of, opened_in};
ghost use Rattle.worker_pool.specs.Played.{HasNoLooks};
ghost use Rattle.worker_pool.specs.inner.Rooms.{IsRoomFor, IsRoomForAny};
ghost use Rattle.worker_pool.specs.inner.Workers.{AreFresh, AreBack};

use crate::hands::{Opening, Relay};
use crate::pool_room::PoolRoom;
use crate::worker::Workers;
use crate::worker_crew::{Member, join_all, start_all, work_handed_back};
use action_manager::{Closed, Manager, ManagerError, Opened, Seat};
use journal_text::looks::seens::Seens;
use place_plan::rules::machine::Machine;
use role_driver::ToldGate;
use role_driver::all_seats::{close_done, drive_each};
use role_driver::running::{Finished, RunError};
use std::alloc::Global;
use std::sync::Wait;
use std::sync::atomic::AtomicBool;
use std::thread;
use std::thread::Threads;

/// The workers of a relay, with room for the members of the crew, and for the workers when they come back.
#[derive(Drop)]
struct Crew<M> {
    workers: Workers<M>,
    members: Vec<Member<M>>,
    back: Workers<M>,
}

/// Lets each worker work in a thread of its own, until no seat is queued any more.
fn work_in_threads<M: Machine + Send, G: ToldGate + Sync, R: Threads + Wait + Sync>(
    rt: &R,
    manager: &Manager<M>,
    relay: &Relay<M>,
    crew: Crew<M>,
    handed_back: &[AtomicBool],
    gate: &G,
) -> Workers<M>
    requires relay { All (λ s. IsSeatIn M.base_of manager.now s) (opened_in relay.now) }
    requires workers { AreFresh relay.now crew.workers }
    requires members { HasRoomFor (length crew.workers.hands.items) crew.members }
    requires flags { length handed_back.now ≡ length crew.workers.hands.items }
    requires hands { HasRoomFor (length crew.workers.hands.items) crew.back.hands }
    requires kept { HasRoomFor (length crew.workers.hands.items) crew.back.kept }
    ensures back { AreBack relay.now result }
    ensures order { map number_of result.hands.items ≡ map number_of crew.workers.hands.items }
{
    let Crew {
        workers,
        members,
        back,
    } = crew;
    thread::scope(
        thread::scope_env(),
        rt,
        |scope| -> Workers<M>
            requires relay { All (λ s. IsSeatIn M.base_of manager.now s) (opened_in relay.now) }
            requires workers { AreFresh relay.now workers }
            requires members { HasRoomFor (length workers.hands.items) members }
            requires flags { length handed_back.now ≡ length workers.hands.items }
            requires hands { HasRoomFor (length workers.hands.items) back.hands }
            requires kept { HasRoomFor (length workers.hands.items) back.kept }
            ensures back { AreBack relay.entry.now result }
            ensures order { map number_of result.hands.items ≡ map number_of workers.hands.items }
        {
            let mut members = start_all(
                scope,
                rt,
                manager,
                relay,
                workers,
                members,
                handed_back,
                gate,
            );
            work_handed_back(rt, manager, relay, &mut members, gate);
            join_all(rt, relay, members, back)
        },
    )
}

/// Puts seats after others, where there is room for them.
fn append<M>(mut seats: Vec<Seat<M>>, kept: Vec<Seat<M>>) -> Vec<Seat<M>>
    requires room { length seats.items + length kept.items ≤ vec_capacity seats }
    ensures items { result.items ≡ seats.items ++ kept.items }
    ensures room { vec_capacity result ≡ vec_capacity seats }
{
    for seat in kept {
        seats.push_reserved(seat);
    }
    seats
}

/// The seats that were left in a relay, and those that its workers kept.
fn gather<M>(left: Vec<Seat<M>>, kept: Vec<Vec<Seat<M>>>) -> Vec<Seat<M>>
    requires { length left.items + sum_by (λ v. length v.items) kept.items ≤ vec_capacity left }
    ensures { result.items ≡ left.items ++ flat_map (λ v. v.items) kept.items }
{
    let mut seats = left;
    for more in kept {
        seats = append(seats, more);
    }
    seats
}

/// Plays the seats of a manager by a pool of workers, and gives them all back once they are over.
fn play_seats<M: Machine + Send, G: ToldGate + Sync, R: Threads + Wait + Sync>(
    rt: &R,
    alloc: Global,
    manager: &Manager<M>,
    seats: Vec<Seat<M>>,
    room: PoolRoom<M>,
    gate: &G,
) -> Vec<Seat<M>>
    requires seats { All (λ s. IsSeatIn M.base_of manager.now s) seats.items }
    requires order { map participant_of seats.items ≡ range_with_len 0 (length (plan_in manager.now).participants) }
    requires room { IsRoomFor (length (plan_in manager.now).participants) room }
    ensures done { All (λ s. IsDone M.base_of manager.now s) result.items }
    ensures all { HaveAll (length (plan_in manager.now).participants) result.items }
{
    let PoolRoom {
        relay,
        kept,
        members,
        handed_back,
        back,
        driven,
    } = room;
    let Opening { relay, hands } = relay.open(rt, alloc, seats);
    let crew = Crew {
        workers: Workers { hands, kept },
        members,
        back,
    };
    let Workers { hands, kept } = work_in_threads(
        rt,
        manager,
        &relay,
        crew,
        handed_back.as_slice(),
        gate,
    );
    let seats = match relay.close(rt, hands) {
        Ok(left) => gather(left, kept),
        Err(_out) => unreachable!(),
    };
    drive_each(rt, manager, seats, driven, gate)
}

/// Plays the seats of a manager by a pool of workers, where there is room for one. Without room there is no seat to play.
fn play_any<M: Machine + Send, G: ToldGate + Sync, R: Threads + Wait + Sync>(
    rt: &R,
    alloc: Global,
    manager: &Manager<M>,
    seats: Vec<Seat<M>>,
    room: Option<PoolRoom<M>>,
    gate: &G,
) -> Vec<Seat<M>>
    requires seats { All (λ s. IsSeatIn M.base_of manager.now s) seats.items }
    requires order { map participant_of seats.items ≡ range_with_len 0 (length (plan_in manager.now).participants) }
    requires room { IsRoomForAny (length (plan_in manager.now).participants) room }
    ensures done { All (λ s. IsDone M.base_of manager.now s) result.items }
    ensures all { HaveAll (length (plan_in manager.now).participants) result.items }
{
    match room {
        Some(room) => play_seats(rt, alloc, manager, seats, room, gate),
        None => seats,
    }
}

/// Plays the machine of a manager to its end by its seats, in order, where there is room for a pool.
fn play_opened<M: Machine + Send, G: ToldGate + Sync, R: Threads + Wait + Sync>(
    rt: &R,
    alloc: Global,
    opened: Opened<M>,
    room: Option<PoolRoom<M>>,
    gate: &G,
) -> Finished<M>
    requires seats { All (λ s. IsSeatIn M.base_of opened.manager s) opened.seats.items }
    requires order { map participant_of opened.seats.items ≡ range_with_len 0 (length (plan_in opened.manager).participants) }
    requires room { IsRoomForAny (length (plan_in opened.manager).participants) room }
    ensures plan { M.plan_of result.machine ≡ plan_in opened.manager }
    ensures base { M.base_of result.machine ≡ M.base_of (handed_in opened.manager) }
    ensures begins { IsPrefix (M.journal_of (handed_in opened.manager)) (M.journal_of result.machine) }
    ensures legal { IsLegal (plan_in opened.manager) (M.journal_of result.machine) }
    ensures complete { IsComplete (plan_in opened.manager) (M.journal_of result.machine) }
    ensures unseen { HasNoLooks result.seens }
{
    let Opened {
        manager,
        seats,
        observers: _,
    } = opened;
    let seats = play_any(rt, alloc, &manager, seats, room, gate);
    let Closed {
        machine,
        writer,
        stale: _,
    } = close_done(manager, seats);
    writer.end(rt);
    Finished {
        machine,
        seens: Some(Seens::empty(alloc)),
        refused: None,
    }
}

/// Plays a machine to its end by so many workers, from 1 to 16, each in a thread of its own. They take the seats of participants out
/// of one queue, and each of them has one seat at a time.
///
/// In its journal nothing may be resolved yet, and no play may have ended. The machine that comes back has a legal and complete
/// journal, which goes on from the old one; its plan and base are as they were. Nobody watches, so nothing was seen. A worker for
/// which no thread can be started works in that of the caller. At `Err` no memory was found before the first entry, and the machine
/// is as it was. It need not return.
pub fn pool<M: Machine + Send, G: ToldGate + Sync, R: Threads + Wait + Sync>(
    rt: &R,
    alloc: Global,
    machine: M,
    workers: u32,
    gate: &G,
) -> Result<Finished<M>, RunError<M>>
    requires one { 1 ≤ workers }
    requires few { workers ≤ 16 }
    requires unresolved { IsUnresolved (reverse (M.journal_of machine)) }
    requires none_ended { plays_ended (M.plan_of machine) (reverse (M.journal_of machine)) ≡ [] }
    ensures plan { IfOk result (λ f. M.plan_of f.machine ≡ M.plan_of machine) }
    ensures base { IfOk result (λ f. M.base_of f.machine ≡ M.base_of machine) }
    ensures begins { IfOk result (λ f. IsPrefix (M.journal_of machine) (M.journal_of f.machine)) }
    ensures legal { IfOk result (λ f. IsLegal (M.plan_of machine) (M.journal_of f.machine)) }
    ensures complete { IfOk result (λ f. IsComplete (M.plan_of machine) (M.journal_of f.machine)) }
    ensures unseen { IfOk result (λ f. HasNoLooks f.seens) }
    ensures refused { IfErr result (λ e. e.machine ≡ machine) }
{
    let count = machine.plan().participants() as usize;
    let Ok(room) = PoolRoom::take_any(alloc, count, workers) else {
        return Err(RunError { machine });
    };
    match Manager::open(rt, alloc, machine, 0) {
        Ok(opened) => Ok(play_opened(rt, alloc, opened, room, gate)),
        Err(ManagerError { machine }) => Err(RunError { machine }),
    }
}
