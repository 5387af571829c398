//! A worker that finds the queue empty ends. Then each seat that is left is with another worker, and each has one at most. A
//! worker sleeps only once it has found more seats waiting than were opened, without an entry in between: each queued seat was
//! then taken by it, or by a worker that is awake. So whoever makes the next entry is with a worker that is awake. No contract
//! speaks of any of this.

ghost use Rattle.std.specs.Prelude.{◌≡◌, All};
ghost use Rattle.action_manager.specs.Managers.{IsSeatIn};
ghost use Rattle.action_manager.specs.Seats.{participant_of, seen_by};
ghost use Rattle.role_driver.specs.Handling.{TellsOwnHandlers};
ghost use Rattle.role_driver.specs.Working.{TellsOwnWork};
ghost use Rattle.worker_pool.specs.Hands.{number_of, opened_in};
ghost use Rattle.worker_pool.specs.inner.Workers.{IsAtWork};

use crate::hands::Relay;
use crate::worker::Worker;
use action_manager::{Manager, Seat};
use place_plan::rules::machine::{Answer, Machine};
use role_driver::ToldGate;
use role_driver::driving::turn_after;
use std::sync::Wait;

/// What became of a seat for now.
pub enum Rest {
    /// Its participant has no entry until others have made theirs.
    Waits,
    /// Its participant is over.
    Over,
}

/// Takes turns for a seat until its participant has no entry for now, or is over. Its work is mixed outside the turns.
fn step_while_due<M: Machine, G: ToldGate, R: Wait>(
    rt: &R,
    manager: &Manager<M>,
    seat: &mut Seat<M>,
    gate: &G,
) -> Rest
    requires opened { IsSeatIn M.base_of manager.now seat.old }
    ensures opened { IsSeatIn M.base_of manager.now seat.new }
    ensures same { participant_of seat.new ≡ participant_of seat.old }
    ensures told { TellsOwnWork (G.was_told gate.now) (participant_of seat.old) (seen_by seat.old) (seen_by seat.new) }
    ensures handed { TellsOwnHandlers (G.was_handed gate.now) (participant_of seat.old) (seen_by seat.old) (seen_by seat.new) }
{
    let mut answer = Answer::NotYet;
    for _ in rt.forever() {
        answer = turn_after(rt, manager, seat, answer, gate);
        match answer {
            Answer::Did(_) | Answer::Work { .. } => {}
            Answer::NotYet => return Rest::Waits,
            Answer::Over => return Rest::Over,
        }
    }
    unreachable!()
}

/// How many seats were found waiting, one after another, that had all seen so many entries.
#[derive(Drop)]
struct Fruitless {
    seats: usize,
    seen: u64,
}

impl Fruitless {
    /// None yet.
    fn new() -> Fruitless {
        Fruitless { seats: 0, seen: 0 }
    }

    /// One more waits, which has seen so many entries. Says how many there are now.
    fn add(&mut self, seen: u64) -> usize {
        if seen != self.seen {
            self.seats = 0;
            self.seen = seen;
        }
        self.seats = self.seats.saturating_add(1);
        self.seats
    }
}

/// Waits past what a waiting seat has seen, once more seats were found waiting than there are, while no entry was made.
fn wait_if_fruitless<M: Machine, R: Wait>(
    rt: &R,
    manager: &Manager<M>,
    relay: &Relay<M>,
    fruitless: &mut Fruitless,
    seat: &mut Seat<M>,
)
    requires opened { IsSeatIn M.base_of manager.now seat.old }
    ensures opened { IsSeatIn M.base_of manager.now seat.new }
    ensures same { participant_of seat.new ≡ participant_of seat.old }
{
    if fruitless.add(seat.seen()) > relay.seats() {
        manager.wait_past_any(rt, seat);
    }
}

/// Takes seats and takes turns for them, until none is queued. A seat that waits goes back; one whose participant is over is kept.
///
/// A worker that has found more seats waiting than there are, while no entry was made, sleeps until there is one. By then each seat
/// that was queued has been taken since the last entry, by this worker or by one that doesn't sleep.
pub fn work<M: Machine, G: ToldGate, R: Wait>(
    rt: &R,
    manager: &Manager<M>,
    relay: &Relay<M>,
    worker: &mut Worker<M>,
    gate: &G,
)
    requires relay { All (λ s. IsSeatIn M.base_of manager.now s) (opened_in relay.now) }
    requires worker { IsAtWork relay.now (number_of worker.old.hand) worker.old }
    ensures worker { IsAtWork relay.now (number_of worker.old.hand) worker.new }
{
    let mut fruitless = Fruitless::new();
    for _ in rt.forever() {
        match relay.take(rt, &mut worker.hand) {
            Some(mut seat) => match step_while_due(rt, manager, &mut seat, gate) {
                Rest::Waits => {
                    wait_if_fruitless(rt, manager, relay, &mut fruitless, &mut seat);
                    relay.put(rt, &mut worker.hand, seat);
                }
                Rest::Over => worker.kept.push_reserved(seat),
            },
            None => return,
        }
    }
    unreachable!()
}
