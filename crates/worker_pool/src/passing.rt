use crate::hand_view::HandView;
use action_manager::Seat;
use crossbeam_queue::protocol::{Join, Lesson, Outcome, Protocol, Split};
use crossbeam_queue::{Pass, RuledArrayQueue};
use std::marker::PhantomData;

/// The rule of the queue: each seat that was opened stands once, in the queue or with one hand.
pub struct OnceEach<M> {
    machine: PhantomData<M>,
}

impl<M> Protocol<Seat<M>, HandView<M>> for OnceEach<M> {
    ghost use Rattle.worker_pool.specs.Relays.{RelayRule};
    ghost use Rattle.worker_pool.specs.inner.Steps.{first_hand};

    ghost holds = { RelayRule };

    ghost first = { first_hand };
}

/// A seat is opened.
pub struct Opens;

impl<M> Outcome<Seat<M>, HandView<M>> for Opens {
    ghost use Rattle.worker_pool.specs.inner.Steps.{Opened};

    ghost then = { Opened };
}

impl<M> Lesson<Seat<M>, HandView<M>> for Opens {
    ghost use Rattle.worker_pool.specs.inner.Steps.{IsNoLonger};

    ghost fact = { IsNoLonger };
}

/// A hand takes a seat.
pub struct Takes;

impl<M> Outcome<Seat<M>, HandView<M>> for Takes {
    ghost use Rattle.worker_pool.specs.inner.Steps.{Took};

    ghost then = { Took };
}

impl<M> Lesson<Seat<M>, HandView<M>> for Takes {
    ghost use Rattle.worker_pool.specs.Relays.{RuleHeldFor};

    ghost fact = { RuleHeldFor };
}

/// A hand puts a seat.
pub struct Puts;

impl<M> Outcome<Seat<M>, HandView<M>> for Puts {
    ghost use Rattle.worker_pool.specs.inner.Steps.{DidPut};

    ghost then = { DidPut };
}

impl<M> Lesson<Seat<M>, HandView<M>> for Puts {
    ghost use Rattle.worker_pool.specs.inner.Steps.{IsShort};

    ghost fact = { IsShort };
}

/// All hands are one: what is left lies in the queue.
pub struct Counts;

impl<M> Outcome<Seat<M>, HandView<M>> for Counts {
    ghost use Rattle.worker_pool.specs.inner.Steps.{Took};

    ghost then = { Took };
}

impl<M> Lesson<Seat<M>, HandView<M>> for Counts {
    ghost use Rattle.worker_pool.specs.inner.Steps.{AreAll};

    ghost fact = { AreAll };
}

/// A further hand, and the joining of two.
pub struct Cut;

impl<M> Split<HandView<M>> for Cut {
    ghost use Rattle.worker_pool.specs.inner.Steps.{left_hand, new_hand};

    ghost left = { left_hand };

    ghost right = { new_hand };
}

impl<M> Join<HandView<M>> for Cut {
    ghost use Rattle.worker_pool.specs.inner.Steps.{both_hands, spent_hand};

    ghost both = { both_hands };

    ghost spent = { spent_hand };
}

/// The queue that the seats of a relay travel through.
pub type SeatQueue<M> = RuledArrayQueue<Seat<M>, HandView<M>, OnceEach<M>>;

/// What a hand has of the queue.
pub type QueuePass<M> = Pass<Seat<M>, HandView<M>>;
