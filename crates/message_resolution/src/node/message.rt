ghost use Rattle.std.specs.Prelude.{◌≡◌, ◌↔◌, IsTrue};

use caa_base::written::entry::Exception;
use exception_graph::Graph;

/// What a member sends to all others.
#[derive(Clone, Copy, Debug, PartialEq, Eq)]
pub enum Message {
    /// The sender raised this exception.
    Raised { from: u32, exception: Exception },
    /// The sender was told that something was raised, and raises nothing itself.
    Suspended { from: u32 },
    /// The sender has heard all others, and this is the least exception that covers all that was
    /// raised.
    Resolved { from: u32, exception: Exception },
}

impl Message {
    ghost use Rattle.message_resolution.specs.Members.Nodes.{IsMessage, sender_of};

    /// Who sent it.
    pub fn sender(&self) -> u32
        ensures { result ≡ sender_of self.now }
    {
        match *self {
            Message::Raised { from, .. }
            | Message::Suspended { from }
            | Message::Resolved { from, .. } => from,
        }
    }

    /// Whether its sender is one of so many members and its exception, if it has one, is one of the
    /// graph. A network may bring what isn't.
    pub fn is_of(&self, graph: &Graph, count: u32) -> bool
        ensures { IsTrue result ↔ IsMessage graph.now count self.now }
    {
        match *self {
            Message::Raised { from, exception } | Message::Resolved { from, exception } => {
                from < count && exception < graph.count()
            }
            Message::Suspended { from } => from < count,
        }
    }
}
