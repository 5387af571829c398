ghost use Rattle.std.specs.Prelude.{◌≡◌, ◌≤◌, length, map, All, IfOk, IfErr};
ghost use Rattle.action_manager.specs.Managers.{IsSeatIn};
ghost use Rattle.role_driver.specs.VectorRoom.{HasRoomFor};
ghost use Rattle.worker_pool.specs.Hands.{IsHandOf, held_by, number_of, opened_in};
ghost use Rattle.worker_pool.specs.inner.Workers.{IsAtWork, IsMember, AreFresh, AreBack, number_by};

use crate::hands::{Hand, Relay};
use crate::worker::{Worker, Workers};
use crate::working::work;
use action_manager::{Manager, Seat};
use place_plan::rules::machine::Machine;
use role_driver::ToldGate;
use std::snapshot::Snapshot;
use std::sync::Wait;
use std::sync::atomic::{AtomicBool, Ordering};
use std::thread::{Promise, PromisedHandle, Scope, Threads};

/// A worker comes back whose hand has this number, with the seats that it keeps, all of this relay.
#[derive(Drop)]
pub struct Returns<M> {
    pub relay: Snapshot<Relay<M>>,
    pub number: u32,
}

impl<M> Promise<Worker<M>> for Returns<M> {
    ghost use Rattle.worker_pool.specs.inner.Workers.{IsAtWork};

    ghost kept_by = { λ p r. IsAtWork p.relay.value p.number r };
}

/// Lets a worker work, unless it is handed back.
fn work_unless<M: Machine, G: ToldGate, R: Wait>(
    rt: &R,
    manager: &Manager<M>,
    relay: &Relay<M>,
    mut worker: Worker<M>,
    handed_back: &AtomicBool,
    gate: &G,
) -> Worker<M>
    requires relay { All (λ s. IsSeatIn M.base_of manager.now s) (opened_in relay.now) }
    requires worker { IsAtWork relay.now (number_of worker.hand) worker }
    ensures { IsAtWork relay.now (number_of worker.hand) result }
{
    if !handed_back.load(Ordering::SeqCst) {
        work(rt, manager, relay, &mut worker, gate);
    }
    worker
}

/// A thread in which a worker works, or a worker for which none could be started.
pub type Member<M> = Result<PromisedHandle<Worker<M>, Returns<M>>, Worker<M>>;

/// A thread for a worker, or the worker where none can be started. Then its flag is raised, so that it doesn't work here.
fn start<'s, E, M: Machine + Send, G: ToldGate + Sync, R: Threads + Wait + Sync>(
    scope: &'s Scope<'s, E>,
    rt: &'s R,
    manager: &'s Manager<M>,
    relay: &'s Relay<M>,
    worker: Worker<M>,
    handed_back: &'s AtomicBool,
    gate: &'s G,
) -> Member<M>
    requires relay { All (λ s. IsSeatIn M.base_of manager.now s) (opened_in relay.now) }
    requires worker { IsAtWork relay.now (number_of worker.hand) worker }
    ensures ok { IfOk result (λ h. (h.promise.relay.value ≡ relay.now) × (h.promise.number ≡ number_of worker.hand)) }
    ensures err { IfErr result (λ w. IsAtWork relay.now (number_of worker.hand) w) }
{
    let promise = Returns {
        relay: Snapshot::of(relay),
        number: worker.hand.number(),
    };
    match scope.spawn_with(
        promise,
        move || -> Worker<M>
            requires relay { All (λ s. IsSeatIn M.base_of manager.now s) (opened_in relay.now) }
            requires worker { IsAtWork relay.now (number_of worker.hand) worker }
            ensures { IsAtWork relay.entry.now (number_of worker.hand) result }
        { work_unless(rt, manager, relay, worker, handed_back, gate) },
    ) {
        Ok(child) => Ok(child),
        Err(refused) => {
            handed_back.store(true, Ordering::SeqCst);
            Err((refused.value)())
        }
    }
}

/// Starts a thread for each hand, with one of the vectors for the seats that it keeps.
pub fn start_all<'s, E, M: Machine + Send, G: ToldGate + Sync, R: Threads + Wait + Sync>(
    scope: &'s Scope<'s, E>,
    rt: &'s R,
    manager: &'s Manager<M>,
    relay: &'s Relay<M>,
    workers: Workers<M>,
    mut members: Vec<Member<M>>,
    handed_back: &'s [AtomicBool],
    gate: &'s G,
) -> Vec<Member<M>>
    requires relay { All (λ s. IsSeatIn M.base_of manager.now s) (opened_in relay.now) }
    requires workers { AreFresh relay.now workers }
    requires room { HasRoomFor (length workers.hands.items) members }
    requires flags { length handed_back.now ≡ length workers.hands.items }
    ensures members { All (λ r. IsMember relay.now (λ h. h.promise.relay.value) r) result.items }
    ensures order { map (λ r. number_by (λ h. h.promise.number) r) result.items ≡ map number_of workers.hands.items }
{
    let Workers { hands, mut kept } = workers;
    for hand in hands {
        let Some(room) = kept.pop() else {
            unreachable!();
        };
        let worker = Worker { hand, kept: room };
        let flag = &handed_back[members.len()];
        members.push_reserved(start(scope, rt, manager, relay, worker, flag, gate));
    }
    members
}

/// Lets a worker work that has no thread.
fn work_here<M: Machine, G: ToldGate, R: Wait>(
    rt: &R,
    manager: &Manager<M>,
    relay: &Relay<M>,
    member: &mut Member<M>,
    gate: &G,
)
    requires relay { All (λ s. IsSeatIn M.base_of manager.now s) (opened_in relay.now) }
    requires member { IsMember relay.now (λ h. h.promise.relay.value) member.old }
    ensures member { IsMember relay.now (λ h. h.promise.relay.value) member.new }
    ensures same { number_by (λ h. h.promise.number) member.new ≡ number_by (λ h. h.promise.number) member.old }
{
    if let Err(worker) = member {
        work(rt, manager, relay, worker, gate);
    }
}

/// Lets the workers work that have no thread, one after another.
pub fn work_handed_back<M: Machine, G: ToldGate, R: Wait>(
    rt: &R,
    manager: &Manager<M>,
    relay: &Relay<M>,
    members: &mut Vec<Member<M>>,
    gate: &G,
)
    requires relay { All (λ s. IsSeatIn M.base_of manager.now s) (opened_in relay.now) }
    requires members { All (λ r. IsMember relay.now (λ h. h.promise.relay.value) r) members.old.items }
    ensures members { All (λ r. IsMember relay.now (λ h. h.promise.relay.value) r) members.new.items }
    ensures order { map (λ r. number_by (λ h. h.promise.number) r) members.new.items
        ≡ map (λ r. number_by (λ h. h.promise.number) r) members.old.items }
{
    for index in 0..members.len() {
        work_here(rt, manager, relay, &mut members[index], gate);
    }
}

/// The worker of a member, once its thread has ended.
fn join_one<M, R: Threads>(rt: &R, relay: &Relay<M>, member: Member<M>) -> Worker<M>
    requires { IsMember relay.now (λ h. h.promise.relay.value) member }
    ensures { IsAtWork relay.now (number_by (λ h. h.promise.number) member) result }
{
    match member {
        Ok(child) => child.join(rt),
        Err(worker) => worker,
    }
}

/// The workers of all members, in order.
pub fn join_all<M, R: Threads>(
    rt: &R,
    relay: &Relay<M>,
    members: Vec<Member<M>>,
    back: Workers<M>,
) -> Workers<M>
    requires members { All (λ r. IsMember relay.now (λ h. h.promise.relay.value) r) members.items }
    requires hands { HasRoomFor (length members.items) back.hands }
    requires kept { HasRoomFor (length members.items) back.kept }
    ensures back { AreBack relay.now result }
    ensures order { map number_of result.hands.items ≡ map (λ r. number_by (λ h. h.promise.number) r) members.items }
{
    let Workers {
        mut hands,
        mut kept,
    } = back;
    for member in members {
        let worker = join_one(rt, relay, member);
        hands.push_reserved(worker.hand);
        kept.push_reserved(worker.kept);
    }
    Workers { hands, kept }
}
