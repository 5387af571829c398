ghost use Rattle.std.specs.Prelude.{◌≡◌, ◌<◌, ◌≤◌, [], length, All, IfOk, vec_capacity};

use crate::relay_room::RelayRoom;
use crate::worker::Workers;
use crate::worker_crew::Member;
use action_manager::Seat;
use role_driver::lowered_flags;
use std::alloc::{AllocError, Global};
use std::sync::atomic::AtomicBool;

/// All the memory that a pool needs where there is a participant.
#[derive(Drop)]
pub struct PoolRoom<M> {
    pub relay: RelayRoom<M>,
    pub kept: Vec<Vec<Seat<M>>>,
    pub members: Vec<Member<M>>,
    pub handed_back: Vec<AtomicBool>,
    pub back: Workers<M>,
    pub driven: Vec<Seat<M>>,
}

/// An empty vector for each worker, with room for all seats.
fn vectors<M>(alloc: Global, seats: usize, workers: u32) -> Result<Vec<Vec<Seat<M>>>, AllocError>
    ensures many { IfOk result (λ vs. length vs.items ≡ workers) }
    ensures room { IfOk result (λ vs. All (λ v. (v.items ≡ []) × (vec_capacity v ≡ seats)) vs.items) }
{
    let mut kept = Vec::new(alloc);
    for _worker in 0..workers {
        kept.push(Vec::with_capacity(alloc, seats)?)?;
    }
    Ok(kept)
}

impl<M> PoolRoom<M> {
    ghost use Rattle.worker_pool.specs.inner.Rooms.{IsRoomFor, IsRoomForAny};

    /// Takes the memory for so many seats and workers.
    fn take(alloc: Global, seats: usize, workers: u32) -> Result<PoolRoom<M>, AllocError>
        requires some { 0 < seats }
        requires one { 1 ≤ workers }
        requires few { workers ≤ 16 }
        ensures { IfOk result (λ r. IsRoomFor seats r) }
    {
        let count = workers as usize;
        Ok(PoolRoom {
            kept: vectors(alloc, seats, workers)?,
            members: Vec::with_capacity(alloc, count)?,
            handed_back: lowered_flags(alloc, count)?,
            back: Workers {
                hands: Vec::with_capacity(alloc, count)?,
                kept: Vec::with_capacity(alloc, count)?,
            },
            driven: Vec::with_capacity(alloc, seats)?,
            relay: RelayRoom::take(alloc, seats, workers)?,
        })
    }

    /// Takes the memory for so many seats and workers; none is needed without seats.
    pub fn take_any(
        alloc: Global,
        seats: usize,
        workers: u32,
    ) -> Result<Option<PoolRoom<M>>, AllocError>
        requires one { 1 ≤ workers }
        requires few { workers ≤ 16 }
        ensures { IfOk result (λ r. IsRoomForAny seats r) }
    {
        if seats == 0 {
            return Ok(None);
        }
        Ok(Some(PoolRoom::take(alloc, seats, workers)?))
    }
}
