ghost use Rattle.std.specs.Prelude.{◌≡◌, ◌*◌, [], length, map, replicate, reverse, suc, All, None, is_some, is_none, IfSome, IfOk, IfErr};
ghost use Rattle.std.specs.List.{range_with_len};
ghost use mathlib.Core.List.{IsPrefix};
ghost use Rattle.place_plan.specs.Plans.Closed.{IsClosed};
ghost use Rattle.place_plan.specs.RulesOfJournals.Journals.{IsLegal, IsComplete, plays_ended};
ghost use Rattle.journal_text.specs.Watching.Looks.{AreOfPlan};
ghost use Rattle.journal_text.specs.Watching.Right.{first_wrong};
ghost use Rattle.action_manager.specs.Openings.{IsUnresolved};
ghost use Rattle.action_manager.specs.Publishing.{Publishes};
ghost use Rattle.action_manager.specs.Managers.{plan_in, handed_in};
ghost use Rattle.action_manager.specs.Seats.{participant_of};
ghost use Rattle.role_driver.specs.inner.CrewRooms.{IsRoomForAll};
ghost use Rattle.role_driver.specs.SeatsDriven.{IsServed, IsDone};
ghost use Rattle.role_driver.specs.Handling.{TellsHandlers};
ghost use Rattle.role_driver.specs.Working.{TellsWork};
ghost use Rattle.role_driver.specs.VectorRoom.{HasRoomFor};
ghost use Rattle.role_driver.specs.inner.Watchers.{task_of};
ghost use Rattle.shared_views.specs.Committing.{placeless};
ghost use Rattle.role_driver.specs.inner.WatchRooms.{IsRoomFor, observer_of};
ghost use Rattle.role_driver.specs.inner.Gathering.{task_by};

use crate::all_seats::close_done;
use crate::assigning::watchers_for;
use crate::crew_room::CrewRoom;
use crate::gathering::gather;
use crate::posts::{Watch, call_all_back, post_all, raise};
use crate::seat_crew::{SeatCrew, drive_handed_back, join_all, start_all};
use crate::told_gate::ToldGate;
use crate::watch_room::WatchRoom;
use crate::watcher::Watcher;
use action_manager::{Closed, Manager, ManagerError, Opened, Seat};
use journal_laws::is_well_formed;
use journal_text::looks::seens::Seens;
use place_plan::rules::machine::Machine;
use shared_views::{CommittedWriter, PublicationRefused};
use std::alloc::Global;
use std::sync::Wait;
use std::sync::atomic::AtomicBool;
use std::thread;
use std::thread::Threads;

/// A machine that was played to its end, and what was seen of the watched objects meanwhile.
pub struct Finished<M> {
    pub machine: M,
    /// What watchers saw. After `run` there is none just where a publication was refused; after a play without watchers it is empty.
    pub seens: Option<Seens>,
    /// The refusal of a publication, where one was refused.
    pub refused: Option<PublicationRefused>,
}

/// No memory was found. The machine comes back unchanged.
pub struct RunError<M> {
    pub machine: M,
}

/// Drives each seat in a thread of its own, and lets the watchers look in theirs until all of these have ended.
fn drive_in_threads<M: Machine + Send, G: ToldGate + Sync, R: Threads + Wait + Sync>(
    rt: &R,
    manager: &Manager<M>,
    crew: SeatCrew<M, G>,
    handed_back: &[AtomicBool],
    watch: Watch,
    over: &[AtomicBool],
    gate: &G,
) -> (Vec<Seat<M>>, Vec<Watcher>)
    requires room { HasRoomFor (length crew.seats.items) crew.members × HasRoomFor (length crew.seats.items) crew.back }
    requires flags { length handed_back.now ≡ length crew.seats.items }
    requires served { All (λ s. IsServed M.base_of M.journal_of G.was_told G.was_handed manager.now gate.now s) crew.seats.items }
    requires watch { HasRoomFor (length watch.watchers.items) watch.posts × HasRoomFor (length watch.watchers.items) watch.back }
    requires over { length over.now ≡ length watch.watchers.items }
    ensures done { All (λ s. IsDone M.base_of manager.now s) result.0.items }
    ensures served { All (λ s. IsServed M.base_of M.journal_of G.was_told G.was_handed manager.now gate.now s) result.0.items }
    ensures order { map participant_of result.0.items ≡ map participant_of crew.seats.items }
    ensures tasks { map task_of result.1.items ≡ map task_of watch.watchers.items }
{
    let SeatCrew {
        seats,
        members,
        back,
    } = crew;
    let Watch {
        watchers,
        posts,
        back: called,
    } = watch;
    thread::scope(
        thread::scope_env(),
        rt,
        |scope| -> (Vec<Seat<M>>, Vec<Watcher>)
            requires room { HasRoomFor (length seats.items) members × HasRoomFor (length seats.items) back }
            requires flags { length handed_back.now ≡ length seats.items }
            requires served { All (λ s. IsServed M.base_of M.journal_of G.was_told G.was_handed manager.now gate.now s) seats.items }
            requires watch { HasRoomFor (length watchers.items) posts × HasRoomFor (length watchers.items) called }
            requires over { length over.now ≡ length watchers.items }
            ensures done { All (λ s. IsDone M.base_of manager.entry.now s) result.0.items }
            ensures served { All
                (λ s. IsServed M.base_of M.journal_of G.was_told G.was_handed manager.entry.now gate.entry.now s) result.0.items }
            ensures order { map participant_of result.0.items ≡ map participant_of seats.items }
            ensures tasks { map task_of result.1.items ≡ map task_of watchers.items }
        {
            let news = manager.news();
            let posts = post_all(scope, rt, watchers, posts, news, over);
            let mut members = start_all(scope, rt, manager, seats, members, handed_back, gate);
            drive_handed_back(rt, manager, &mut members, gate);
            let seats = join_all(rt, manager, members, back, gate);
            raise(rt, news, over);
            (seats, call_all_back(rt, posts, called))
        },
    )
}

/// What all watchers saw, unless the writer is stale.
fn seens_of<M: Machine>(
    machine: &M,
    writer: &mut CommittedWriter,
    stale: bool,
    watchers: &mut Vec<Watcher>,
    seens: Seens,
) -> Option<Seens>
    requires stale { stale ≡ writer.old.is_stale }
    requires published { Publishes (M.plan_of machine.now) (reverse (M.journal_of machine.now)) writer.old }
    requires complete { IsComplete (M.plan_of machine.now) (M.journal_of machine.now) }
    requires tasks { map task_of watchers.old.items ≡ map (task_by writer.old) (M.plan_of machine.now).watches }
    requires seens { (seens.seens ≡ [])
        × (seens.room ≡ length (M.plan_of machine.now).watches * suc (length (M.plan_of machine.now).plays)) }
    ensures stale { is_none result ≡ stale }
    ensures of_plan { IfSome result (λ s. AreOfPlan (M.plan_of machine.now) s.seens) }
    ensures right { IfSome result (λ s. first_wrong (M.plan_of machine.now) (M.journal_of machine.now) s.seens ≡ None) }
{
    if stale {
        return None;
    }
    Some(gather(machine, writer, watchers, seens))
}

/// Plays the machine of a manager to its end by its seats, in order, and its observers, where there is room for all.
fn play_opened<M: Machine + Send, G: ToldGate + Sync, R: Threads + Wait + Sync>(
    rt: &R,
    opened: Opened<M>,
    crew_room: CrewRoom<M, G>,
    watch_room: WatchRoom,
    gate: &G,
) -> Finished<M>
    requires closed { IsClosed (plan_in opened.manager) }
    requires seats { All (λ s. IsServed M.base_of M.journal_of G.was_told G.was_handed opened.manager gate.now s) opened.seats.items }
    requires order { map participant_of opened.seats.items ≡ range_with_len 0 (length (plan_in opened.manager).participants) }
    requires observers { map placeless opened.observers.items
        ≡ replicate (length (plan_in opened.manager).watches) (observer_of opened.manager) }
    requires crew_room { IsRoomForAll (length (plan_in opened.manager).participants) crew_room }
    requires watch_room { IsRoomFor (plan_in opened.manager) watch_room }
    ensures plan { M.plan_of result.machine ≡ plan_in opened.manager }
    ensures base { M.base_of result.machine ≡ M.base_of (handed_in opened.manager) }
    ensures begins { IsPrefix (M.journal_of (handed_in opened.manager)) (M.journal_of result.machine) }
    ensures legal { IsLegal (plan_in opened.manager) (M.journal_of result.machine) }
    ensures complete { IsComplete (plan_in opened.manager) (M.journal_of result.machine) }
    ensures stale { is_none result.seens ≡ is_some result.refused }
    ensures of_plan { IfSome result.seens (λ s. AreOfPlan (plan_in opened.manager) s.seens) }
    ensures right { IfSome result.seens (λ s.
        first_wrong (plan_in opened.manager) (M.journal_of result.machine) s.seens ≡ None) }
    ensures told { TellsWork (G.was_told gate.now) (M.journal_of (handed_in opened.manager)) (M.journal_of result.machine) }
    ensures handed { TellsHandlers (G.was_handed gate.now) (M.journal_of (handed_in opened.manager)) (M.journal_of result.machine) }
{
    let Opened {
        manager,
        seats,
        observers,
    } = opened;
    let crew = SeatCrew {
        seats,
        members: crew_room.members,
        back: crew_room.back,
    };
    let watch = Watch {
        watchers: watchers_for(&manager, watch_room.blanks, observers, watch_room.watchers),
        posts: watch_room.posts,
        back: watch_room.back,
    };
    let (seats, mut watchers) = drive_in_threads(
        rt,
        &manager,
        crew,
        crew_room.handed_back.as_slice(),
        watch,
        watch_room.over.as_slice(),
        gate,
    );
    let Closed {
        machine,
        mut writer,
        stale,
    } = close_done(manager, seats);
    is_well_formed(machine.plan());
    let refused = writer.refusal();
    let seens = seens_of(
        &machine,
        &mut writer,
        stale,
        &mut watchers,
        watch_room.seens,
    );
    writer.end(rt);
    Finished {
        machine,
        seens,
        refused,
    }
}

/// Plays a machine to its end, each participant in a thread of its own, and lets a watcher look at each watched object in
/// another.
///
/// In its journal nothing may be resolved yet, and no play may have ended. The machine that comes back has a legal and complete
/// journal, which goes on from the old one; its plan and base are as they were. The gate was told of each work that the journal has
/// more, and of each handler that begins there. With it comes what was seen, right looks of that journal, or the refusal of a
/// publication for which no memory was found.
///
/// The caller itself takes the turns of participants for whom no thread can be started, round by round; a watcher without a thread
/// looks before the play and at its end. At `Err` no memory was found before the first entry, and the machine is as it was. It need
/// not return.
pub fn run<M: Machine + Send, G: ToldGate + Sync, R: Threads + Wait + Sync>(
    rt: &R,
    alloc: Global,
    machine: M,
    gate: &G,
) -> Result<Finished<M>, RunError<M>>
    requires unresolved { IsUnresolved (reverse (M.journal_of machine)) }
    requires none_ended { plays_ended (M.plan_of machine) (reverse (M.journal_of machine)) ≡ [] }
    ensures plan { IfOk result (λ f. M.plan_of f.machine ≡ M.plan_of machine) }
    ensures base { IfOk result (λ f. M.base_of f.machine ≡ M.base_of machine) }
    ensures begins { IfOk result (λ f. IsPrefix (M.journal_of machine) (M.journal_of f.machine)) }
    ensures legal { IfOk result (λ f. IsLegal (M.plan_of machine) (M.journal_of f.machine)) }
    ensures complete { IfOk result (λ f. IsComplete (M.plan_of machine) (M.journal_of f.machine)) }
    ensures stale { IfOk result (λ f. is_none f.seens ≡ is_some f.refused) }
    ensures of_plan { IfOk result (λ f. IfSome f.seens (λ s. AreOfPlan (M.plan_of machine) s.seens)) }
    ensures right { IfOk result (λ f.
        IfSome f.seens (λ s. first_wrong (M.plan_of machine) (M.journal_of f.machine) s.seens ≡ None)) }
    ensures told { IfOk result (λ f. TellsWork (G.was_told gate.now) (M.journal_of machine) (M.journal_of f.machine)) }
    ensures handed { IfOk result (λ f. TellsHandlers (G.was_handed gate.now) (M.journal_of machine) (M.journal_of f.machine)) }
    ensures refused { IfErr result (λ e. e.machine ≡ machine) }
{
    let count = machine.plan().participants() as usize;
    let watches = machine.plan().watches();
    machine.plan().is_closed();
    let Ok(crew_room) = CrewRoom::take(alloc, count) else {
        return Err(RunError { machine });
    };
    let Ok(watch_room) = WatchRoom::take(alloc, machine.plan()) else {
        return Err(RunError { machine });
    };
    match Manager::open(rt, alloc, machine, watches) {
        Ok(opened) => Ok(play_opened(rt, opened, crew_room, watch_room, gate)),
        Err(ManagerError { machine }) => Err(RunError { machine }),
    }
}
