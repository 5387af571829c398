ghost use Rattle.std.specs.Prelude.{◌≡◌, ◌<◌, ℕ, length, map, reverse, true, All, IfOk, IfErr, IsTrue};
ghost use Rattle.place_plan.specs.RulesOfJournals.Roles.{is_over};
ghost use Rattle.role_driver.specs.Handling.{TellsOwnHandlers};
ghost use Rattle.role_driver.specs.SeatsDriven.{IsServed, IsDone};
ghost use Rattle.role_driver.specs.Working.{TellsOwnWork};
ghost use Rattle.role_driver.specs.inner.Crew.{IsBack, IsMember, IsProgressOf, who_of};
ghost use Rattle.place_plan.specs.declared.rules.machine.Answer.TheVariants as answer;
ghost use Rattle.action_manager.specs.Managers.{plan_in, IsSeatIn};
ghost use Rattle.action_manager.specs.Seats.{participant_of, seen_by, IsBeside};
ghost use Rattle.role_driver.specs.VectorRoom.{HasRoomFor};

use crate::driving::{drive, turn_after};
use crate::flag::Flag;
use crate::told_gate::ToldGate;
use action_manager::{Manager, Seat};
use place_plan::rules::machine::{Answer, Machine};
use std::snapshot::Snapshot;
use std::sync::Wait;
use std::sync::atomic::AtomicBool;
use std::thread::{Promise, PromisedHandle, Scope, Threads};

/// The seat of the same participant comes back, of the manager of the seat that went: driven to its end, or untouched, where the
/// flag was seen raised. The gate was told of each work and each handler of its own.
#[derive(Drop)]
pub struct Belongs<M, F, G> {
    pub seat: Snapshot<Seat<M>>,
    pub handed_back: Snapshot<F>,
    pub gate: Snapshot<G>,
}

impl<M, F: Flag, G: ToldGate> Promise<Seat<M>> for Belongs<M, F, G> {
    ghost use Rattle.std.specs.Prelude.{◌≡◌};
    ghost use Rattle.action_manager.specs.Seats.{IsBeside, participant_of, seen_by};
    ghost use Rattle.role_driver.specs.Handling.{TellsOwnHandlers};
    ghost use Rattle.role_driver.specs.Working.{TellsOwnWork};
    ghost use Rattle.role_driver.specs.inner.Crew.{IsBack};

    ghost kept_by = { λ p r. IsBeside p.seat.value r × (participant_of r ≡ participant_of p.seat.value)
        × IsBack (F.was_raised p.handed_back.value) p.seat.value r
        × TellsOwnWork (G.was_told p.gate.value) (participant_of p.seat.value) (seen_by p.seat.value) (seen_by r)
        × TellsOwnHandlers (G.was_handed p.gate.value) (participant_of p.seat.value) (seen_by p.seat.value) (seen_by r) };
}

/// Drives a seat, unless it is handed back.
#[tactic(auto, using(action_manager::proofs::Beside::both_beside))]
fn drive_unless<M: Machine, G: ToldGate, R: Wait, F: Flag>(
    rt: &R,
    manager: &Manager<M>,
    seat: Seat<M>,
    handed_back: &F,
    gate: &G,
) -> Seat<M>
    requires opened { IsSeatIn M.base_of manager.now seat }
    ensures opened { IsSeatIn M.base_of manager.now result }
    ensures beside { IsBeside seat result }
    ensures same { participant_of result ≡ participant_of seat }
    ensures back { IsBack (F.was_raised handed_back.now) seat result }
    ensures told { TellsOwnWork (G.was_told gate.now) (participant_of seat) (seen_by seat) (seen_by result) }
    ensures handed { TellsOwnHandlers (G.was_handed gate.now) (participant_of seat) (seen_by seat) (seen_by result) }
{
    if handed_back.is_raised() {
        seat
    } else {
        drive(rt, manager, seat, gate)
    }
}

/// A thread for a seat, or the seat where none can be started. Then its flag is raised, so that the seat isn't driven here.
pub fn start<
    's,
    E,
    M: Machine + Send,
    G: ToldGate + Sync,
    R: Threads + Wait + Sync,
    F: Flag + Sync,
>(
    scope: &'s Scope<'s, E>,
    rt: &'s R,
    manager: &'s Manager<M>,
    seat: Seat<M>,
    handed_back: &'s F,
    gate: &'s G,
) -> Result<PromisedHandle<Seat<M>, Belongs<M, F, G>>, Seat<M>>
    requires served { IsServed M.base_of M.journal_of G.was_told G.was_handed manager.now gate.now seat }
    ensures ok { IfOk result (λ h.
        (IsServed M.base_of M.journal_of G.was_told G.was_handed manager.now gate.now h.promise.seat.value
        × (h.promise.gate.value ≡ gate.now))
        × (participant_of h.promise.seat.value ≡ participant_of seat)) }
    ensures err { IfErr result (λ s.
        IsServed M.base_of M.journal_of G.was_told G.was_handed manager.now gate.now s × (participant_of s ≡ participant_of seat)) }
{
    let promise = Belongs {
        seat: Snapshot::of(&seat),
        handed_back: Snapshot::of(handed_back),
        gate: Snapshot::of(gate),
    };
    match scope.spawn_with(
        promise,
        move || -> Seat<M>
            requires { IsSeatIn M.base_of manager.now seat }
            ensures { IsBeside seat result × (participant_of result ≡ participant_of seat)
                × IsBack (F.was_raised handed_back.entry.now) seat result
                × TellsOwnWork (G.was_told gate.entry.now) (participant_of seat) (seen_by seat) (seen_by result)
                × TellsOwnHandlers (G.was_handed gate.entry.now) (participant_of seat) (seen_by seat) (seen_by result) }
        { drive_unless(rt, manager, seat, handed_back, gate) },
    ) {
        Ok(child) => Ok(child),
        Err(refused) => {
            handed_back.raise();
            Err((refused.value)())
        }
    }
}

/// A thread that drives a seat, or the seat where none could be started.
pub type Member<M, G> = Result<PromisedHandle<Seat<M>, Belongs<M, AtomicBool, G>>, Seat<M>>;

/// Seats, with room for the members that drive them, and for the seats when they come back.
pub struct SeatCrew<M, G: ToldGate> {
    pub seats: Vec<Seat<M>>,
    pub members: Vec<Member<M, G>>,
    pub back: Vec<Seat<M>>,
}

/// Starts a thread for each seat.
pub fn start_all<'s, E, M: Machine + Send, G: ToldGate + Sync, R: Threads + Wait + Sync>(
    scope: &'s Scope<'s, E>,
    rt: &'s R,
    manager: &'s Manager<M>,
    seats: Vec<Seat<M>>,
    mut crew: Vec<Member<M, G>>,
    handed_back: &'s [AtomicBool],
    gate: &'s G,
) -> Vec<Member<M, G>>
    requires room { HasRoomFor (length seats.items) crew }
    requires flags { length handed_back.now ≡ length seats.items }
    requires served { All (λ s. IsServed M.base_of M.journal_of G.was_told G.was_handed manager.now gate.now s) seats.items }
    ensures crew { All (λ r. IsMember M.base_of M.journal_of G.was_told G.was_handed manager.now gate.now
        (λ h. (h.promise.seat.value, h.promise.gate.value)) r) result.items }
    ensures order { map (λ r. who_of (λ h. h.promise.seat.value) r) result.items ≡ map participant_of seats.items }
{
    for seat in seats {
        let flag = &handed_back[crew.len()];
        crew.push_reserved(start(scope, rt, manager, seat, flag, gate));
    }
    crew
}

/// One turn of a seat, and where it asks for work, a second one that brings it. Gives the answer of the last turn.
pub fn go_on<M: Machine, G: ToldGate, R: Wait>(
    rt: &R,
    manager: &Manager<M>,
    seat: &mut Seat<M>,
    gate: &G,
) -> Answer
    requires opened { IsSeatIn M.base_of manager.now seat.old }
    ensures opened { IsSeatIn M.base_of manager.now seat.new }
    ensures same { participant_of seat.new ≡ participant_of seat.old }
    ensures told { TellsOwnWork (G.was_told gate.now) (participant_of seat.old) (seen_by seat.old) (seen_by seat.new) }
    ensures handed { TellsOwnHandlers (G.was_handed gate.now) (participant_of seat.old) (seen_by seat.old) (seen_by seat.new) }
    ensures over { result ≡ answer.Over → is_over (plan_in manager.now) (reverse (seen_by seat.new)) (participant_of seat.old) ≡ true }
{
    let answer = turn_after(rt, manager, seat, Answer::NotYet, gate);
    match answer {
        Answer::Work { .. } => turn_after(rt, manager, seat, answer, gate),
        _ => answer,
    }
}

/// One turn of a member whose seat was handed back, and its answer. For a member with a thread nothing is done, as for a seat whose
/// participant is over.
fn turn_of<M: Machine, G: ToldGate, R: Wait>(
    rt: &R,
    manager: &Manager<M>,
    member: &mut Member<M, G>,
    gate: &G,
) -> Answer
    requires member { IsMember M.base_of M.journal_of G.was_told G.was_handed manager.now gate.now
        (λ h. (h.promise.seat.value, h.promise.gate.value)) member.old }
    ensures member { IsMember M.base_of M.journal_of G.was_told G.was_handed manager.now gate.now
        (λ h. (h.promise.seat.value, h.promise.gate.value)) member.new }
    ensures same { who_of (λ h. h.promise.seat.value) member.new ≡ who_of (λ h. h.promise.seat.value) member.old }
{
    match member {
        Ok(_) => Answer::Over,
        Err(seat) => go_on(rt, manager, seat, gate),
    }
}

/// What a round of turns came to.
#[derive(Clone, Copy)]
enum Progress {
    /// All participants are over.
    Over,
    /// Somebody made an entry.
    WentOn,
    /// Nobody made one. The first who isn't over stands at this index.
    Waits(usize),
}

impl Progress {
    /// What it came to with one answer more, of the seat at this index.
    fn with(self, answer: Answer, index: usize) -> Progress
        ensures { (count : ℕ) → IsProgressOf index self → index < count → IsProgressOf count result }
    {
        match answer {
            Answer::Over => self,
            Answer::Did(_) | Answer::Work { .. } => Progress::WentOn,
            Answer::NotYet => match self {
                Progress::Over => Progress::Waits(index),
                _ => self,
            },
        }
    }
}

/// One turn of each seat that was handed back, and what these came to.
fn round<M: Machine, G: ToldGate, R: Wait>(
    rt: &R,
    manager: &Manager<M>,
    crew: &mut Vec<Member<M, G>>,
    gate: &G,
) -> Progress
    requires crew { All (λ r. IsMember M.base_of M.journal_of G.was_told G.was_handed manager.now gate.now
        (λ h. (h.promise.seat.value, h.promise.gate.value)) r) crew.old.items }
    ensures crew { All (λ r. IsMember M.base_of M.journal_of G.was_told G.was_handed manager.now gate.now
        (λ h. (h.promise.seat.value, h.promise.gate.value)) r) crew.new.items }
    ensures order { map (λ r. who_of (λ h. h.promise.seat.value) r) crew.new.items
        ≡ map (λ r. who_of (λ h. h.promise.seat.value) r) crew.old.items }
    ensures progress { IsProgressOf (length crew.new.items) result }
{
    let mut progress = Progress::Over;
    for index in 0..crew.len() {
        let answer = turn_of(rt, manager, &mut crew[index], gate);
        progress = progress.with(answer, index);
    }
    progress
}

/// Waits past what a member has seen whose seat was handed back, until an entry may give an entry to anybody who had none.
fn wait_with<M: Machine, G: ToldGate, R: Wait>(
    rt: &R,
    manager: &Manager<M>,
    member: &mut Member<M, G>,
    _gate: &G,
)
    requires member { IsMember M.base_of M.journal_of G.was_told G.was_handed manager.now _gate.now
        (λ h. (h.promise.seat.value, h.promise.gate.value)) member.old }
    ensures member { IsMember M.base_of M.journal_of G.was_told G.was_handed manager.now _gate.now
        (λ h. (h.promise.seat.value, h.promise.gate.value)) member.new }
    ensures same { who_of (λ h. h.promise.seat.value) member.new ≡ who_of (λ h. h.promise.seat.value) member.old }
{
    if let Err(seat) = member {
        manager.wait_past_any(rt, seat);
    }
}

/// The same for the member at this index.
fn wait_at<M: Machine, G: ToldGate, R: Wait>(
    rt: &R,
    manager: &Manager<M>,
    crew: &mut Vec<Member<M, G>>,
    index: usize,
    gate: &G,
)
    requires index { index < length crew.old.items }
    requires crew { All (λ r. IsMember M.base_of M.journal_of G.was_told G.was_handed manager.now gate.now
        (λ h. (h.promise.seat.value, h.promise.gate.value)) r) crew.old.items }
    ensures crew { All (λ r. IsMember M.base_of M.journal_of G.was_told G.was_handed manager.now gate.now
        (λ h. (h.promise.seat.value, h.promise.gate.value)) r) crew.new.items }
    ensures order { map (λ r. who_of (λ h. h.promise.seat.value) r) crew.new.items
        ≡ map (λ r. who_of (λ h. h.promise.seat.value) r) crew.old.items }
{
    wait_with(rt, manager, &mut crew[index], gate);
}

/// Takes turns for the seats that were handed back, round by round, until all of these are over.
///
/// Where a round brings no entry, it sleeps with the seat that was asked first: whom an entry wakes after that seat had seen the
/// journal may be any of them.
pub fn drive_handed_back<M: Machine, G: ToldGate, R: Wait>(
    rt: &R,
    manager: &Manager<M>,
    crew: &mut Vec<Member<M, G>>,
    gate: &G,
)
    requires crew { All (λ r. IsMember M.base_of M.journal_of G.was_told G.was_handed manager.now gate.now
        (λ h. (h.promise.seat.value, h.promise.gate.value)) r) crew.old.items }
    ensures crew { All (λ r. IsMember M.base_of M.journal_of G.was_told G.was_handed manager.now gate.now
        (λ h. (h.promise.seat.value, h.promise.gate.value)) r) crew.new.items }
    ensures order { map (λ r. who_of (λ h. h.promise.seat.value) r) crew.new.items
        ≡ map (λ r. who_of (λ h. h.promise.seat.value) r) crew.old.items }
{
    for _ in rt.forever() {
        match round(rt, manager, crew, gate) {
            Progress::Over => return,
            Progress::WentOn => {}
            Progress::Waits(index) => wait_at(rt, manager, crew, index, gate),
        }
    }
    unreachable!()
}

/// The seat of a member, once its thread has ended, if it has one.
fn come_back<M: Machine, G: ToldGate, R: Threads>(
    rt: &R,
    _manager: &Manager<M>,
    member: Member<M, G>,
    _gate: &G,
) -> Seat<M>
    requires member { IsMember M.base_of M.journal_of G.was_told G.was_handed _manager.now _gate.now
        (λ h. (h.promise.seat.value, h.promise.gate.value)) member }
    ensures served { IsServed M.base_of M.journal_of G.was_told G.was_handed _manager.now _gate.now result }
    ensures same { participant_of result ≡ who_of (λ h. h.promise.seat.value) member }
{
    match member {
        Ok(child) => child.join(rt),
        Err(seat) => seat,
    }
}

/// The seat of a member, once it was driven to its end. Most threads have done that; here it is done where a seat came back untouched.
fn join_one<M: Machine, G: ToldGate, R: Threads + Wait>(
    rt: &R,
    manager: &Manager<M>,
    member: Member<M, G>,
    gate: &G,
) -> Seat<M>
    requires member { IsMember M.base_of M.journal_of G.was_told G.was_handed manager.now gate.now
        (λ h. (h.promise.seat.value, h.promise.gate.value)) member }
    ensures done { IsDone M.base_of manager.now result }
    ensures served { IsServed M.base_of M.journal_of G.was_told G.was_handed manager.now gate.now result }
    ensures same { participant_of result ≡ who_of (λ h. h.promise.seat.value) member }
{
    let seat = come_back(rt, manager, member, gate);
    drive(rt, manager, seat, gate)
}

/// The seats of all members, in order, once they were driven to their end.
pub fn join_all<M: Machine, G: ToldGate, R: Threads + Wait>(
    rt: &R,
    manager: &Manager<M>,
    crew: Vec<Member<M, G>>,
    mut seats: Vec<Seat<M>>,
    gate: &G,
) -> Vec<Seat<M>>
    requires room { HasRoomFor (length crew.items) seats }
    requires crew { All (λ r. IsMember M.base_of M.journal_of G.was_told G.was_handed manager.now gate.now
        (λ h. (h.promise.seat.value, h.promise.gate.value)) r) crew.items }
    ensures done { All (λ s. IsDone M.base_of manager.now s) result.items }
    ensures served { All (λ s. IsServed M.base_of M.journal_of G.was_told G.was_handed manager.now gate.now s) result.items }
    ensures order { map participant_of result.items ≡ map (λ r. who_of (λ h. h.promise.seat.value) r) crew.items }
{
    for member in crew {
        seats.push_reserved(join_one(rt, manager, member, gate));
    }
    seats
}
