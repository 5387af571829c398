//! Those who were woken before they fall asleep.

ghost use Rattle.std.specs.Prelude.{All};
ghost use Rattle.action_manager.specs.Managers.{IsSeatIn};

use crate::driving::{closed, opened};
use crate::machines::hall;
use action_manager::{Closed, Manager, Seat};
use place_plan::rules::machine::Machine;
use std::sync::Wait;
use std::test::Fail;

/// Ann and bob play an action together, in which neither has anything to do.
const TOGETHER: &[u8] =
    b"participant ann\nparticipant bob\naction w\nroles r s\nend\nplay w ann bob\n";

/// What is done with a seat.
#[derive(Clone, Copy)]
enum Move {
    /// It takes a turn.
    Steps,
    /// It sleeps as a participant does.
    Sleeps,
    /// It sleeps as a worker does.
    SleepsForAll,
}

/// Does this with a seat, and gives how many entries it has seen then.
fn moved<M: Machine, R: Wait>(rt: &R, manager: &Manager<M>, seat: &mut Seat<M>, what: Move) -> u64
    requires { IsSeatIn M.base_of manager.now seat.old }
    ensures { IsSeatIn M.base_of manager.now seat.new }
{
    match what {
        Move::Steps => {
            manager.step(rt, seat, None);
        }
        Move::Sleeps => manager.wait_past(rt, seat),
        Move::SleepsForAll => manager.wait_past_any(rt, seat),
    }
    seat.seen()
}

/// The same with the seat at this index; nothing where there is none.
fn moved_at<M: Machine, R: Wait>(
    rt: &R,
    manager: &Manager<M>,
    seats: &mut Vec<Seat<M>>,
    index: usize,
    what: Move,
) -> Option<u64>
    requires { All (λ s. IsSeatIn M.base_of manager.now s) seats.old.items }
    ensures { All (λ s. IsSeatIn M.base_of manager.now s) seats.new.items }
{
    if index < seats.len() {
        Some(moved(rt, manager, &mut seats[index], what))
    } else {
        None
    }
}

/// Ann arrives, and has no entry until bob has arrived too. That wakes her before she has fallen asleep. So she doesn't sleep, neither
/// by herself nor with a worker; else this doesn't end.
#[test]
fn who_was_woken_before_does_not_sleep(rt: HostRuntime) -> Result<(), Fail> {
    for sleep in [Move::Sleeps, Move::SleepsForAll] {
        let (manager, mut seats, _observer) = opened(&rt, rt.alloc(), hall(rt.alloc(), TOGETHER)?)?;
        let arrived = moved_at(&rt, &manager, &mut seats, 0, Move::Steps);
        let waiting = moved_at(&rt, &manager, &mut seats, 0, Move::Steps);
        let other = moved_at(&rt, &manager, &mut seats, 1, Move::Steps);
        let woken = moved_at(&rt, &manager, &mut seats, 0, sleep);
        let Closed {
            machine: _,
            writer,
            stale: _,
        } = closed(&rt, manager, seats);
        writer.end(&rt);
        assert_eq!(rt;
            [arrived, waiting, other, woken],
            [Some(1), Some(1), Some(2), Some(2)]
        );
    }
    Ok(())
}
