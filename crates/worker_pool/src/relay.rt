//! What was opened can't be named by the rule of the queue, which is a constant, so each hand knows it. Each hand has a part of
//! seventeen, or some, and only who has all parts may open a further seat; so what the hands know stays one. Who has all parts
//! again, once every hand is joined, knows that no other hand holds anything. There are at most sixteen workers; the seventeenth
//! part is for a hand of the caller's own.
//!
//! The seats that are left come back in the vector in which they were handed in. It lies with the hand of the greatest number, and
//! not in the relay: what threads share may have no vector of seats, since a seat may go from thread to thread but may not be
//! shared.

ghost use Rattle.std.specs.Prelude.{◌≡◌, ◌<◌, ◌≤◌, ◌+◌, ◌-◌, ◌↔◌, ℕ, List, [], ◌∷◌, ◌++◌, length, map, All, Contains, IfOk, IfErr, OnOk, IfSome, IfNone, vec_capacity, slice_index_or};
ghost use Rattle.worker_pool.specs.declared.hands.Hand.{Hand as HandOf};
ghost use Rattle.std.specs.List.{sum_by, range_with_len};
ghost use Rattle.crossbeam_queue.specs.Passes.{view, IsPassOf, ruled_capacity};
ghost use Rattle.action_manager.specs.Seats.{participant_of};
ghost use Rattle.role_driver.specs.VectorRoom.{HasRoomFor};
ghost use Rattle.worker_pool.specs.SeatLists.{without};
ghost use Rattle.worker_pool.specs.Relays.{weight_of, AreBeside, all_parts};
ghost use Rattle.worker_pool.specs.Hands.{opened_in, hands_of, held_by, parts_by, weight_by, number_of, IsHandOf, IsOpened, WasEmptyFor, EachStandsOnce, has_hand, HaveAll, IsLeastMissing};
ghost use Rattle.worker_pool.specs.inner.Steps.{first_hand, full_hand};

use crate::hands::{Hand, HandsOut, Opening, Relay, RelayError};
use crate::passing::{Counts, Cut, Opens, Puts, QueuePass, Takes};
use crate::relay_room::RelayRoom;
use action_manager::Seat;
use std::alloc::Global;
use std::sync::Wait;

impl<M> Relay<M> {
    /// A relay with these seats in it, which are of one manager, and so many hands, from 1 to 17, which are numbered from 0 and
    /// hold nothing.
    ///
    /// At `Err` no memory was found, and the seats come back as they were. It may wait.
    pub fn open<R: Wait>(
        rt: &R,
        alloc: Global,
        seats: Vec<Seat<M>>,
        hands: u32,
    ) -> Result<Opening<M>, RelayError<M>>
        requires some { 0 < length seats.items }
        requires beside { AreBeside seats.items }
        requires one { 1 ≤ hands }
        requires few { hands ≤ 17 }
        ensures opened { IfOk result (λ o. opened_in o.relay ≡ seats.items) }
        ensures count { IfOk result (λ o. hands_of o.relay ≡ hands) }
        ensures order { IfOk result (λ o. map number_of o.hands.items ≡ range_with_len 0 hands) }
        ensures hands { IfOk result (λ o. All (λ h. IsHandOf o.relay h × (held_by h ≡ [])) o.hands.items) }
        ensures refused { IfErr result (λ e. e.seats.items ≡ seats.items) }
    {
        match RelayRoom::take(alloc, seats.len(), hands) {
            Ok(room) => Ok(room.open(rt, alloc, seats)),
            Err(_) => Err(RelayError { seats }),
        }
    }

    /// Queues all seats, in order, and gives their vector back, which is empty.
    pub(crate) fn fill<R: Wait>(
        &self,
        rt: &R,
        mut pass: QueuePass<M>,
        mut seats: Vec<Seat<M>>,
    ) -> (QueuePass<M>, Vec<Seat<M>>)
        requires pass { IsPassOf self.now.queue pass × (view pass ≡ first_hand) }
        requires opened { self.now.opened.value.items ≡ seats.items }
        requires beside { AreBeside seats.items }
        ensures pass { IsPassOf self.now.queue result.0 }
        ensures view { view result.0 ≡ full_hand self.now.opened.value.items }
        ensures spare { (result.1.items ≡ []) × (length self.now.opened.value.items ≤ vec_capacity result.1) }
    {
        seats.reverse();
        while let Some(seat) = seats.pop() {
            match self.queue.push_as::<Opens, R>(rt, &mut pass, seat) {
                Ok(()) => {}
                Err(_refused) => unreachable!(),
            }
        }
        (pass, seats)
    }

    /// Makes the hands, the last of which keeps the vector in which the seats were.
    pub(crate) fn deal(
        &self,
        alloc: Global,
        mut pass: QueuePass<M>,
        spare: Vec<Seat<M>>,
        mut hands: Vec<Hand<M>>,
    ) -> Vec<Hand<M>>
        requires pass { IsPassOf self.now.queue pass }
        requires view { view pass ≡ full_hand self.now.opened.value.items }
        requires spare { (spare.items ≡ []) × (length self.now.opened.value.items ≤ vec_capacity spare) }
        requires room { HasRoomFor self.now.hands hands }
        ensures order { map number_of result.items ≡ range_with_len 0 self.now.hands }
        ensures hands { All (λ h. IsHandOf self.now h × (held_by h ≡ [])) result.items }
    {
        let last = self.hands - 1;
        for number in 0..last {
            hands.push_reserved(Hand {
                pass: self.queue.another::<Cut>(&mut pass),
                number,
                spare: Vec::new(alloc),
            });
        }
        hands.push_reserved(Hand {
            pass,
            number: last,
            spare,
        });
        hands
    }

    /// How many seats were opened.
    pub fn seats(&self) -> usize
        ensures { result ≡ length (opened_in self.now) }
    {
        self.queue.capacity()
    }

    /// Takes a seat, which the hand holds from then on. None comes only where no seat was queued at one moment of the call.
    ///
    /// The seat is of the manager of those that were opened. It need not return.
    pub fn take<R: Wait>(&self, rt: &R, hand: &mut Hand<M>) -> Option<Seat<M>>
        requires hand { IsHandOf self.now hand.old }
        ensures hand { IsHandOf self.now hand.new }
        ensures number { number_of hand.new ≡ number_of hand.old }
        ensures theirs { IfSome result (λ s. IsOpened self.now s) }
        ensures held { IfSome result (λ s. held_by hand.new ≡ held_by hand.old ++ participant_of s ∷ []) }
        ensures room { IfSome result (λ s. length (held_by hand.old) < length (opened_in self.now)) }
        ensures none { IfNone result (held_by hand.new ≡ held_by hand.old) }
        ensures empty { IfNone result (WasEmptyFor hand.old) }
    {
        match self.queue.pop_as::<Takes, R>(rt, &mut hand.pass) {
            Some(seat) => Some(seat),
            None => None,
        }
    }

    /// Puts a seat back that the hand holds, and that it holds no more from then on. There is room for it.
    ///
    /// It need not return.
    pub fn put<R: Wait>(&self, rt: &R, hand: &mut Hand<M>, seat: Seat<M>)
        requires hand { IsHandOf self.now hand.old }
        requires holds { Contains (held_by hand.old) (participant_of seat) }
        requires opened { IsOpened self.now seat }
        ensures hand { IsHandOf self.now hand.new }
        ensures number { number_of hand.new ≡ number_of hand.old }
        ensures held { held_by hand.new ≡ without (participant_of seat) (held_by hand.old) }
    {
        match self.queue.push_as::<Puts, R>(rt, &mut hand.pass, seat) {
            Ok(()) => {}
            Err(_refused) => unreachable!(),
        }
    }

    /// The least number of a hand that isn't in the list.
    fn missing(&self, hands: &[Hand<M>]) -> Option<u32>
        ensures some { IfSome result (λ k. IsLeastMissing self.now.hands hands.now k) }
        ensures none { IfNone result (HaveAll self.now.hands hands.now) }
    {
        for number in 0..self.hands {
            if !has_hand(hands, number) {
                return Some(number);
            }
        }
        None
    }

    /// Gives back the seats that are left, where every hand is in the list, in the vector that the relay was opened with.
    ///
    /// The participants of these seats and those that the hands hold are just the ones that were opened, each once. At `Err` a hand
    /// is missing: the least number of such a hand is named, and relay and hands are as they were. It takes no memory, and need
    /// not return.
    pub fn close<R: Wait>(self, rt: &R, hands: Vec<Hand<M>>) -> Result<Vec<Seat<M>>, HandsOut<M>>
        requires hands { All (λ h. IsHandOf self h) hands.items }
        ensures all { OnOk result (HaveAll (hands_of self) hands.items) }
        ensures theirs { IfOk result (λ s. All (λ x. IsOpened self x) s.items) }
        ensures once { IfOk result (λ s. EachStandsOnce (opened_in self) s.items hands.items) }
        ensures room { IfOk result (λ s. length (opened_in self) ≤ vec_capacity s) }
        ensures missing { IfErr result (λ e. IsLeastMissing (hands_of self) hands.items e.missing) }
        ensures same { IfErr result (λ e. (e.relay ≡ self) × (e.hands.items ≡ hands.items)) }
    {
        match self.missing(hands.as_slice()) {
            Some(missing) => Err(HandsOut {
                relay: self,
                hands,
                missing,
            }),
            None => Ok(self.shut(rt, hands)),
        }
    }

    /// The seats that are left, where no hand is missing.
    fn shut<R: Wait>(self, rt: &R, mut hands: Vec<Hand<M>>) -> Vec<Seat<M>>
        requires hands { All (λ h. IsHandOf self h) hands.items }
        requires all { HaveAll self.hands hands.items }
        ensures theirs { All (λ x. IsOpened self x) result.items }
        ensures once { EachStandsOnce (opened_in self) result.items hands.items }
        ensures room { length (opened_in self) ≤ vec_capacity result }
    {
        let at = self.last_at(hands.as_slice());
        let (mut pass, _number, seats) = hands.swap_remove(at).into_parts();
        self.gather(&mut pass, hands);
        self.empty(rt, pass, seats)
    }

    /// Where the hand with the greatest number stands.
    fn last_at(&self, hands: &[Hand<M>]) -> usize
        requires all { HaveAll self.now.hands hands.now }
        ensures within { result < length hands.now }
        ensures last { (d : HandOf M) → (slice_index_or hands.now result d).number + 1 ≡ self.now.hands }
    {
        let last = self.hands - 1;
        for (index, hand) in hands.iter().enumerate() {
            if hand.number == last {
                return index;
            }
        }
        unreachable!()
    }

    /// A pass takes in those of other hands.
    fn gather(&self, pass: &mut QueuePass<M>, mut others: Vec<Hand<M>>)
        requires pass { IsPassOf self.now.queue pass.old }
        requires opened { (view pass.old).opened ≡ self.now.opened.value.items }
        requires parts { 0 < (view pass.old).parts }
        requires others { All (λ h. IsHandOf self.now h) others.items }
        ensures pass { IsPassOf self.now.queue pass.new }
        ensures opened { (view pass.new).opened ≡ self.now.opened.value.items }
        ensures parts { (view pass.new).parts ≡ (view pass.old).parts + sum_by parts_by others.items }
        ensures held { (h : ℕ → ℕ) →
            sum_by h (view pass.new).held ≡ sum_by h (view pass.old).held + sum_by (weight_by h) others.items }
    {
        while let Some(hand) = others.pop() {
            let (other, _number, _spare) = hand.into_parts();
            self.queue.absorb::<Cut>(pass, other);
        }
    }

    /// Takes all seats that are queued.
    fn empty<R: Wait>(self, rt: &R, mut pass: QueuePass<M>, mut seats: Vec<Seat<M>>) -> Vec<Seat<M>>
        requires pass { IsPassOf self.queue pass }
        requires opened { (view pass).opened ≡ self.opened.value.items }
        requires parts { all_parts ≤ (view pass).parts }
        requires room { (seats.items ≡ []) × (length self.opened.value.items ≤ vec_capacity seats) }
        ensures theirs { All (λ x. IsOpened self x) result.items }
        ensures once { (h : ℕ → ℕ) → weight_of h (opened_in self) ≡ weight_of h result.items + sum_by h (view pass).held }
        ensures room { length (opened_in self) ≤ vec_capacity result }
    {
        for _ in rt.forever() {
            match self.queue.pop_as::<Counts, R>(rt, &mut pass) {
                Some(seat) => seats.push_reserved(seat),
                None => {
                    let _badge = pass.into_badge();
                    return seats;
                }
            }
        }
        unreachable!()
    }
}

/// Whether some hand in the list has this number.
fn has_hand<M>(hands: &[Hand<M>], number: u32) -> bool
    ensures { result ≡ has_hand number hands.now }
{
    hands.iter().any(|hand| hand.number == number)
}
