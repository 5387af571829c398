ghost use Rattle.std.specs.Prelude.{◌≡◌, ◌<◌, ◌≤◌, [], length, map, All, IfOk};
ghost use Rattle.std.specs.List.{range_with_len};
ghost use Rattle.worker_pool.specs.Relays.{AreBeside};
ghost use Rattle.worker_pool.specs.Hands.{opened_in, hands_of, held_by, number_of, IsHandOf};
ghost use Rattle.worker_pool.specs.inner.Rooms.{IsRelayRoomFor};

use crate::hands::{Opening, Relay};
use crate::passing::SeatQueue;
use crate::relay_room::RelayRoom;
use action_manager::Seat;
use std::alloc::{AllocError, Global};
use std::snapshot::Snapshot;
use std::sync::Wait;

impl<M> RelayRoom<M> {
    /// Takes the memory for so many seats and hands.
    pub fn take(alloc: Global, seats: usize, hands: u32) -> Result<RelayRoom<M>, AllocError>
        requires some { 0 < seats }
        ensures { IfOk result (λ r. IsRelayRoomFor seats hands r) }
    {
        let room = Vec::with_capacity(alloc, hands as usize)?;
        let (queue, pass) = SeatQueue::ruled(alloc, seats)?;
        Ok(RelayRoom {
            queue,
            pass,
            hands: room,
            count: hands,
        })
    }

    /// A relay with these seats in it, and its hands, which are numbered from 0 and hold nothing.
    pub fn open<R: Wait>(self, rt: &R, alloc: Global, seats: Vec<Seat<M>>) -> Opening<M>
        requires some { 0 < length seats.items }
        requires beside { AreBeside seats.items }
        requires one { 1 ≤ self.count }
        requires few { self.count ≤ 17 }
        requires room { IsRelayRoomFor (length seats.items) self.count self }
        ensures opened { opened_in result.relay ≡ seats.items }
        ensures count { hands_of result.relay ≡ self.count }
        ensures order { map number_of result.hands.items ≡ range_with_len 0 self.count }
        ensures hands { All (λ h. IsHandOf result.relay h × (held_by h ≡ [])) result.hands.items }
    {
        let opened = Snapshot::of(&seats);
        let (queue, pass, hands, count) = self.into_parts();
        let relay = Relay {
            queue,
            hands: count,
            opened,
        };
        let (pass, spare) = relay.fill(rt, pass, seats);
        let hands = relay.deal(alloc, pass, spare, hands);
        Opening { relay, hands }
    }
}
