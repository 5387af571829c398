ghost use Rattle.std.specs.Prelude.{◌≡◌, ◌≢◌, ◌<◌, ◌≤◌, ◌++◌, ◌∷◌, ◌||◌, nat_lt, [], ℕ, List, length, slice_set, All, Contains, IfOk, IfSome, IfNone, MatchOption};
ghost use Rattle.std.specs.List.{list_all};
ghost use Rattle.cover_table.specs.Cover.{CoverOrder, IsLeastCover};
ghost use Rattle.message_resolution.specs.Members.LocalEvents.{LocalEvent, raises, receives};
ghost use Rattle.message_resolution.specs.Members.Repeated.{ChangesNothing};
ghost use Rattle.message_resolution.specs.declared.node.message.Message.{Message as AnyMessage};
ghost use Rattle.message_resolution.specs.Members.Nodes.{IsCoverOf, IsMessage, IsNodeOf, Meets, StandsFor, messages_of, listed, most_members, sender_of};
ghost use Rattle.message_resolution.specs.inner.TakingIn.{IsResolutionOf, Resolves, Suspends, TakesIn};

pub mod message;
pub mod sent;
pub mod state;

use crate::node::message::Message;
use crate::node::sent::Sent;
use crate::node::state::State;
use caa_base::written::entry::{Exception, OutOfMemory};
use core_words::joining::joined;
use exception_graph::Graph;
use std::alloc::Global;
use std::marker::Model;

/// One member: what it knows of what was raised, and what it sends.
///
/// A node keeps no history. It is told of each event of its member, answers what is to be sent to
/// all other members, and stays right however often, and in whatever order, messages reach it.
#[derive(Drop)]
pub struct Node {
    me: u32,
    count: u32,
    state: State,
    /// Whom this member has heard; itself it has heard from the first.
    heard: Vec<bool>,
    /// The least exception that covers what it raised and was told of.
    cover: Option<Exception>,
    has_greater: bool,
    has_resolved: bool,
    decided: Option<Exception>,
}

impl Model for Node {
    ghost use Rattle.message_resolution.specs.Members.Nodes.{Known};

    ghost Value = { Known };

    ghost view = { λ n. record {
      me = n.me;
      count = n.count;
      state = n.state;
      heard = n.heard.items;
      cover = n.cover;
      has_greater = n.has_greater;
      has_resolved = n.has_resolved;
      decided = n.decided;
    } };
}

/// The least exception that covers one more and what was covered before.
fn cover_with(graph: &Graph, cover: Option<Exception>, exception: Exception) -> Exception
    requires in_range { exception < graph.now.count }
    requires cover_in { IfSome cover (λ c. c < graph.now.count) }
    ensures { (xs : List ℕ) → All (λ x. x < graph.now.count) xs → IsCoverOf graph.now xs cover
        → IsLeastCover graph.now (exception ∷ xs) result }
{
    graph.is_sound();
    joined(graph, cover, exception)
}

/// What is sent at one event: a word, if one is said, and then a resolution.
fn sent_with(word: Option<Message>, resolved: Option<Message>) -> Sent
    ensures messages { messages_of result ≡ listed word ++ listed resolved }
    ensures lone { IfNone result.first (result.second ≡ None) }
{
    match word {
        Some(_) => Sent {
            first: word,
            second: resolved,
        },
        None => Sent {
            first: resolved,
            second: None,
        },
    }
}

impl Node {
    /// The node of member `me` among so many, before anything was raised.
    pub fn open(alloc: Global, me: u32, count: u32) -> Result<Node, OutOfMemory>
        requires member { me < count }
        requires few { count ≤ most_members }
        ensures me { IfOk result (λ node. node.me ≡ me) }
        ensures count { IfOk result (λ node. node.count ≡ count) }
        ensures stands { (order : CoverOrder) → IfOk result (StandsFor order []) }
    {
        let mut heard = vec![in alloc; false; count as usize]?;
        heard[me as usize] = true;
        Ok(Node {
            me,
            count,
            state: State::Normal,
            heard,
            cover: None,
            has_greater: false,
            has_resolved: false,
            decided: None,
        })
    }

    /// The member raises an exception. What is answered is to be sent to all others, in order.
    ///
    /// A node is handed the same graph at each call.
    pub fn raise(&mut self, graph: &Graph, exception: Exception) -> Sent
        requires normal { self.old.state ≡ State.Normal }
        requires in_range { exception < graph.now.count }
        requires node { IsNodeOf graph.now self.old }
        ensures { Meets graph.now (raises exception) self.old self.new result }
    {
        graph.is_sound();
        let word = self.take_raise(graph, exception);
        let resolved = self.resolve();
        sent_with(word, resolved)
    }

    /// A message of another member is delivered. What is answered is to be sent to all others, in
    /// order.
    pub fn receive(&mut self, graph: &Graph, message: Message) -> Sent
        requires other { sender_of message ≢ self.old.me }
        requires in_range { IsMessage graph.now self.old.count message }
        requires node { IsNodeOf graph.now self.old }
        ensures { Meets graph.now (receives message) self.old self.new result }
    {
        graph.is_sound();
        let word = self.take_message(graph, message);
        let resolved = self.resolve();
        sent_with(word, resolved)
    }

    /// How far the member is.
    pub fn state(&self) -> State
        ensures { result ≡ self.now.state }
    {
        self.state
    }

    /// The exception that the member has decided, if it has decided one.
    pub fn decided(&self) -> Option<Exception>
        ensures { result ≡ self.now.decided }
    {
        self.decided
    }

    /// Takes a raise in, and says it.
    fn take_raise(&mut self, graph: &Graph, exception: Exception) -> Option<Message>
        requires normal { self.old.state ≡ State.Normal }
        requires in_range { exception < graph.now.count }
        requires node { IsNodeOf graph.now self.old }
        ensures { TakesIn graph.now (raises exception) self.old self.new result }
    {
        self.state = State::Raised(exception);
        self.cover = Some(cover_with(graph, self.cover, exception));
        Some(Message::Raised {
            from: self.me,
            exception,
        })
    }

    /// Takes a message in, and says so where it is the first to tell of a raise.
    fn take_message(&mut self, graph: &Graph, message: Message) -> Option<Message>
        requires other { sender_of message ≢ self.old.me }
        requires in_range { IsMessage graph.now self.old.count message }
        requires node { IsNodeOf graph.now self.old }
        ensures { TakesIn graph.now (receives message) self.old self.new result }
    {
        match message {
            Message::Raised { from, exception } => self.take_raised(graph, from, exception),
            Message::Suspended { from } => {
                self.heard[from as usize] = true;
                None
            }
            Message::Resolved { exception, .. } => {
                self.decided = Some(exception);
                None
            }
        }
    }

    /// Takes in that another member has raised an exception.
    fn take_raised(&mut self, graph: &Graph, from: u32, exception: Exception) -> Option<Message>
        requires other { from ≢ self.old.me }
        requires member { from < self.old.count }
        requires in_range { exception < graph.now.count }
        requires node { IsNodeOf graph.now self.old }
        ensures { TakesIn graph.now (receives (Message.Raised from exception)) self.old self.new result }
    {
        self.heard[from as usize] = true;
        self.cover = Some(cover_with(graph, self.cover, exception));
        self.has_greater = self.is_below(from);
        self.suspend()
    }

    /// Whether this raiser, or one of before, has a greater number.
    fn is_below(&self, from: u32) -> bool
        ensures { result ≡ (nat_lt self.now.me from || self.now.has_greater) }
    {
        self.me < from || self.has_greater
    }

    /// Says that the member is suspended, where it was neither that nor had raised.
    fn suspend(&mut self) -> Option<Message>
        ensures { Suspends self.old self.new result }
    {
        match self.state {
            State::Normal => {
                self.state = State::Suspended;
                Some(Message::Suspended { from: self.me })
            }
            _ => None,
        }
    }

    /// Whether each other member was heard.
    fn has_heard_all(&self) -> bool
        ensures { result ≡ list_all (λ b. b) self.now.heard }
    {
        self.heard.iter().all(|heard| *heard)
    }

    /// What the member resolves to now, if it may resolve and hasn't.
    fn resolution(&self) -> Option<Exception>
        ensures { IsResolutionOf self.now result }
    {
        let State::Raised(_) = self.state else {
            return None;
        };
        if self.has_greater || self.has_resolved || !self.has_heard_all() {
            return None;
        }
        self.cover
    }

    /// Resolves, where it may and hasn't.
    fn resolve(&mut self) -> Option<Message>
        ensures { Resolves self.old self.new result }
    {
        match self.resolution() {
            Some(exception) => {
                self.has_resolved = true;
                self.decided = Some(exception);
                Some(Message::Resolved {
                    from: self.me,
                    exception,
                })
            }
            None => None,
        }
    }
}

/// A law: a message that is delivered to a member once more changes nothing. The member sends nothing in answer, and whatever it
/// meets later, it sends and decides what it would have without.
pub fn delivered_again(_graph: &Graph)
    ensures { (count me : ℕ) (m : AnyMessage) (past : List LocalEvent) → Contains past (receives m)
        → ChangesNothing _graph.now count me m past }
{}
