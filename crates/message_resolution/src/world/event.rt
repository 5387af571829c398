ghost use Rattle.std.specs.Prelude.{◌≡◌};

use caa_base::written::entry::Exception;

/// One event of a history.
#[derive(Clone, Copy, Debug, PartialEq, Eq)]
pub enum Event {
    /// A member raises an exception.
    Raise { by: u32, exception: Exception },
    /// The network delivers a message to a member. Messages are numbered from 0, as they were sent.
    Deliver { to: u32, message: u32 },
}

impl Event {
    ghost use Rattle.message_resolution.specs.inner.Deliveries.{is_delivery};

    /// Whether it delivers this message to this member.
    pub fn delivers(&self, member: u32, number: u32) -> bool
        ensures { result ≡ is_delivery member number self.now }
    {
        match *self {
            Event::Raise { .. } => false,
            Event::Deliver { to, message } => to == member && message == number,
        }
    }
}
