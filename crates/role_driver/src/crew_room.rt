ghost use Rattle.std.specs.Prelude.{IfOk};

use crate::flag::lowered_flags;
use crate::seat_crew::Member;
use crate::told_gate::ToldGate;
use action_manager::Seat;
use std::alloc::{AllocError, Global};
use std::sync::atomic::AtomicBool;

/// All the memory that the drivers of the seats of a machine need.
#[derive(Drop)]
pub struct CrewRoom<M, G: ToldGate> {
    pub members: Vec<Member<M, G>>,
    pub back: Vec<Seat<M>>,
    pub handed_back: Vec<AtomicBool>,
}

impl<M, G: ToldGate> CrewRoom<M, G> {
    ghost use Rattle.role_driver.specs.inner.CrewRooms.{IsRoomForAll};

    /// Takes the memory for so many seats.
    pub fn take(alloc: Global, count: usize) -> Result<CrewRoom<M, G>, AllocError>
        ensures { IfOk result (λ r. IsRoomForAll count r) }
    {
        Ok(CrewRoom {
            members: Vec::with_capacity(alloc, count)?,
            back: Vec::with_capacity(alloc, count)?,
            handed_back: lowered_flags(alloc, count)?,
        })
    }
}
