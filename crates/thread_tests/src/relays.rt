ghost use Rattle.std.specs.Prelude.{◌≡◌, ◌<◌, [], ◌∷◌, ◌++◌, length, All, IfOk};
ghost use Rattle.action_manager.specs.Managers.{IsSeatIn};
ghost use Rattle.action_manager.specs.Seats.{participant_of};
ghost use Rattle.worker_pool.specs.Relays.{AreBeside, IsOfTheirs};
ghost use Rattle.worker_pool.specs.Hands.{IsHandOf, IsOpened, held_by, opened_in};

use crate::machines::hall;
use action_manager::{Closed, Manager, ManagerError, Opened, Seat};
use place_plan::rules::machine::Machine;
use std::alloc::Global;
use std::process::Abort;
use std::sync::Wait;
use std::test::Fail;
use worker_pool::{Hand, HandsOut, Opening, Relay, RelayError};

/// Ann and bob play an action together, in which neither has anything to do.
const SCRIPT: &[u8] =
    b"participant ann\nparticipant bob\naction w\nroles r s\nend\nplay w ann bob\n";

/// A manager of a machine that has no entry yet, with its seats.
fn managed<M: Machine + Drop, R: Wait>(
    rt: &R,
    alloc: Global,
    machine: M,
) -> Result<(Manager<M>, Vec<Seat<M>>), Fail>
    requires none { M.journal_of machine ≡ [] }
    ensures { IfOk result (λ o. All (λ s. IsSeatIn M.base_of o.0 s) o.1.items) }
{
    match Manager::open(rt, alloc, machine, 0) {
        Ok(
            Opened {
                manager,
                seats,
                observers: _,
            },
        ) => Ok((manager, seats)),
        Err(ManagerError { machine: _ }) => Err(Fail::from("no memory")),
    }
}

/// A relay with these seats, and its one hand.
fn relayed<M, R: Wait + Abort>(rt: &R, alloc: Global, seats: Vec<Seat<M>>) -> (Relay<M>, Hand<M>)
    requires { AreBeside seats.items }
    ensures some { 0 < length seats.items }
    ensures opened { opened_in result.0 ≡ seats.items }
    ensures hand { IsHandOf result.0 result.1 }
    ensures empty { held_by result.1 ≡ [] }
{
    if seats.is_empty() {
        panic!(rt; "no seats");
    }
    let Opening { relay, mut hands } = match Relay::open(rt, alloc, seats, 1) {
        Ok(opening) => opening,
        Err(RelayError { seats: _ }) => panic!(rt; "no memory"),
    };
    match hands.pop() {
        Some(hand) => (relay, hand),
        None => panic!(rt; "no hand"),
    }
}

/// A seat that a relay gives.
fn taken<M, R: Wait + Abort>(rt: &R, relay: &Relay<M>, hand: &mut Hand<M>) -> Seat<M>
    requires { IsHandOf relay.now hand.old }
    ensures hand { IsHandOf relay.now hand.new }
    ensures opened { IsOpened relay.now result }
    ensures held { held_by hand.new ≡ held_by hand.old ++ participant_of result ∷ [] }
{
    match relay.take(rt, hand) {
        Some(seat) => seat,
        None => panic!(rt; "no seat"),
    }
}

/// Finds that a relay gives no seat.
fn gives_none<M, R: Wait + Abort>(rt: &R, relay: &Relay<M>, hand: &mut Hand<M>)
    requires { IsHandOf relay.now hand.old }
    ensures hand { IsHandOf relay.now hand.new }
    ensures held { held_by hand.new ≡ held_by hand.old }
{
    if let Some(_seat) = relay.take(rt, hand) {
        panic!(rt; "one seat more");
    }
}

/// Takes both seats of a relay, after which it gives none, puts one back, and takes that again.
fn takes_and_puts<M, R: Wait + Abort>(
    rt: &R,
    relay: &Relay<M>,
    hand: &mut Hand<M>,
) -> (Seat<M>, Seat<M>)
    requires { IsHandOf relay.now hand.old }
    ensures hand { IsHandOf relay.now hand.new }
    ensures opened { IsOpened relay.now result.0 × IsOpened relay.now result.1 }
{
    let first = taken(rt, relay, hand);
    let second = taken(rt, relay, hand);
    gives_none(rt, relay, hand);
    let by = second.participant();
    relay.put(rt, hand, second);
    let again = taken(rt, relay, hand);
    assert_eq!(rt; again.participant(), by);
    (first, again)
}

/// Lets two seats travel through a relay, and gives them back.
fn passed_on<M, R: Wait + Abort>(rt: &R, alloc: Global, seats: Vec<Seat<M>>) -> Vec<Seat<M>>
    requires { AreBeside seats.items }
    ensures some { 0 < length seats.items }
    ensures theirs { All (λ s. IsOfTheirs seats.items s) result.items }
{
    let (relay, mut hand) = relayed(rt, alloc, seats);
    let (first, again) = takes_and_puts(rt, &relay, &mut hand);
    let hands = vec![in alloc; hand].expect(rt, "no memory");
    let left = match relay.close(rt, hands) {
        Ok(left) => left,
        Err(
            HandsOut {
                relay: _,
                hands: _,
                missing: _,
            },
        ) => panic!(rt; "a hand is missing"),
    };
    assert_eq!(rt; left.len(), 0);
    vec![in alloc; first, again].expect(rt, "no memory")
}

/// The seats of a manager travel through a relay, and the manager is closed with what comes back.
fn seats_travel<M: Machine + Drop, R: Wait + Abort>(
    rt: &R,
    alloc: Global,
    machine: M,
) -> Result<(), Fail>
    requires { M.journal_of machine ≡ [] }
{
    let (manager, seats) = managed(rt, alloc, machine)?;
    match manager.close(passed_on(rt, alloc, seats)) {
        Ok(
            Closed {
                machine: _,
                writer,
                stale: _,
            },
        ) => writer.end(rt),
        Err(_missing) => panic!(rt; "a seat is missing"),
    }
    Ok(())
}

#[test]
fn relay_gives(rt: HostRuntime) -> Result<(), Fail> {
    let hall = hall(rt.alloc(), SCRIPT)?;
    seats_travel(&rt, rt.alloc(), hall)
}
