ghost use Rattle.std.specs.Prelude.{◌≡◌, ◌<◌, ◌≤◌, [], length};
ghost use Rattle.crossbeam_queue.specs.Passes.{ruled_capacity};

use crate::passing::{QueuePass, SeatQueue};
use action_manager::Seat;
use std::snapshot::Snapshot;

/// A queue through which the seats of a manager travel.
#[derive(Drop)]
pub struct Relay<M> {
    pub(crate) queue: SeatQueue<M>,
    pub(crate) hands: u32,
    pub(crate) opened: Snapshot<Vec<Seat<M>>>,
    ghost fits: { ruled_capacity queue ≡ length opened.value.items },
    ghost some: { 0 < length opened.value.items },
    ghost few: { (0 < hands) × (hands ≤ 17) },
}

/// The right to take seats from a relay and to put them back. It may go to another thread.
///
/// Contracts see which participants' seats it holds: those that it took and didn't put back.
pub struct Hand<M> {
    pub(crate) pass: QueuePass<M>,
    pub(crate) number: u32,
    /// Empty; the last hand has room for all seats in it.
    pub(crate) spare: Vec<Seat<M>>,
    ghost rests: { pass.me.1 ≡ [] },
}

/// A relay whose hand is let go can't be closed any more.
impl<M> Drop for Hand<M> {
    fn drop(self) {
        let Hand {
            pass,
            number: _,
            spare: _,
        } = self;
        let _badge = pass.into_badge();
    }
}

impl<M> Hand<M> {
    ghost use Rattle.worker_pool.specs.Hands.{number_of};

    /// Its number, counted from 0 among the hands of its relay.
    pub fn number(&self) -> u32
        ensures { result ≡ number_of self.now }
    {
        self.number
    }

    /// What it is made of.
    pub(crate) fn into_parts(self) -> (QueuePass<M>, u32, Vec<Seat<M>>)
        ensures { result ≡ (self.pass, self.number, self.spare) }
    {
        let Hand {
            pass,
            number,
            spare,
        } = self;
        (pass, number, spare)
    }
}

/// No memory was found. The seats come back.
pub struct RelayError<M> {
    pub seats: Vec<Seat<M>>,
}

/// A relay with its hands.
pub struct Opening<M> {
    pub relay: Relay<M>,
    pub hands: Vec<Hand<M>>,
}

/// A hand isn't among those handed in: the least number of such a hand, with the relay and the hands as they were.
pub struct HandsOut<M> {
    pub relay: Relay<M>,
    pub hands: Vec<Hand<M>>,
    pub missing: u32,
}
