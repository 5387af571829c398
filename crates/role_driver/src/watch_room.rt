ghost use Rattle.std.specs.Prelude.{◌≡◌, IfOk};

use crate::flag::lowered_flags;
use crate::posts::Post;
use crate::watcher::Watcher;
use caa_base::written::entry::{Object, OutOfMemory};
use journal_text::looks::seens::Seens;
use place_plan::plans::plan::Plan;
use shared_views::Reading;
use std::alloc::{AllocError, Global};
use std::sync::atomic::AtomicBool;

/// Room for what is read of one object.
#[derive(Drop)]
pub struct Blank {
    pub object: Object,
    pub seen: Vec<Reading>,
}

/// All the memory that the watchers of a plan need.
#[derive(Drop)]
pub struct WatchRoom {
    pub blanks: Vec<Blank>,
    pub watchers: Vec<Watcher>,
    pub posts: Vec<Post>,
    pub back: Vec<Watcher>,
    pub over: Vec<AtomicBool>,
    pub seens: Seens,
}

impl WatchRoom {
    ghost use Rattle.std.specs.Prelude.{map};
    ghost use Rattle.role_driver.specs.inner.WatchRooms.{IsRoomFor};

    /// A blank for each watch, with room for a reading at each end of a play and one more.
    fn blanks(alloc: Global, plan: &Plan) -> Result<Vec<Blank>, AllocError>
        ensures { IfOk result (λ v. map (λ b. b.object) v.items ≡ plan.now.watches) }
    {
        let readings = plan.plays() as usize + 1;
        let mut blanks = Vec::new(alloc);
        for watch in 0..plan.watches() {
            let object = plan.watch(watch);
            let seen = Vec::with_capacity(alloc, readings)?;
            blanks.push(Blank { object, seen })?;
        }
        Ok(blanks)
    }

    /// Takes the memory.
    pub fn take(alloc: Global, plan: &Plan) -> Result<WatchRoom, OutOfMemory>
        ensures { IfOk result (λ r. IsRoomFor plan.now r) }
    {
        let count = plan.watches() as usize;
        let looks = u64::from(plan.watches()) * (u64::from(plan.plays()) + 1);
        Ok(WatchRoom {
            blanks: WatchRoom::blanks(alloc, plan)?,
            watchers: Vec::with_capacity(alloc, count)?,
            posts: Vec::with_capacity(alloc, count)?,
            back: Vec::with_capacity(alloc, count)?,
            over: lowered_flags(alloc, count)?,
            seens: Seens::with_room(alloc, looks)?,
        })
    }
}
