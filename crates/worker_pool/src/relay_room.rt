ghost use Rattle.std.specs.Prelude.{◌≡◌, []};

use crate::hands::Hand;
use crate::passing::{QueuePass, SeatQueue};

/// All the memory that a relay needs.
pub struct RelayRoom<M> {
    pub queue: SeatQueue<M>,
    pub pass: QueuePass<M>,
    pub hands: Vec<Hand<M>>,
    pub count: u32,
    pub ghost rests: { pass.me.1 ≡ [] },
}

/// A room that isn't used goes with all that is in it.
impl<M> Drop for RelayRoom<M> {
    fn drop(self) {
        let RelayRoom {
            queue: _,
            pass,
            hands: _,
            count: _,
        } = self;
        let _badge = pass.into_badge();
    }
}

impl<M> RelayRoom<M> {
    /// What it is made of.
    pub fn into_parts(self) -> (SeatQueue<M>, QueuePass<M>, Vec<Hand<M>>, u32)
        ensures { result ≡ (self.queue, self.pass, self.hands, self.count) }
    {
        let RelayRoom {
            queue,
            pass,
            hands,
            count,
        } = self;
        (queue, pass, hands, count)
    }
}
