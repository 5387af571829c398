ghost use Rattle.std.specs.Prelude.{◌≡◌, ◌≢◌, ◌<◌, ◌≤◌, ◌+◌, ◌*◌, ◌∷◌, ◌++◌, ◌↔◌, [], ℕ, List, Contains, IsTrue, IfOk, Some, length, reverse, slice_get, vec_len, vec_capacity};
ghost use Rattle.std.specs.List.{list_any};
ghost use Rattle.cover_table.specs.Cover.{CoverOrder, IsSound};
ghost use Rattle.message_resolution.specs.Members.Nodes.{listed, messages_of, most_members};
ghost use Rattle.message_resolution.specs.Histories.Courses.{course_of, member_of};
ghost use Rattle.message_resolution.specs.Histories.Legal.{IsInRange, LegalPast, MayCome, is_from_other, is_legal_event};
ghost use Rattle.message_resolution.specs.Histories.Settling.{Settles};
ghost use Rattle.message_resolution.specs.Histories.Worlds.{IsNodeAt};
ghost use Rattle.message_resolution.specs.inner.Deliveries.{is_delivery};
ghost use Rattle.message_resolution.specs.inner.Rows.{DeliversDue, DeliversRow};
ghost use Rattle.message_resolution.specs.inner.Runs.{AreFreshNodes, MayMeetAt, NodesMeet};

use crate::node::Node;
use crate::node::message::Message;
use crate::node::sent::Sent;
use crate::node::state::State;
use crate::world::event::Event;
use caa_base::written::entry::OutOfMemory;
use exception_graph::Graph;
use std::alloc::Global;
use std::marker::Model;

/// A legal history as it runs: its events, the messages that they sent, and a node for each member.
#[derive(Drop)]
pub struct Run {
    graph: Graph,
    count: u32,
    events: Vec<Event>,
    messages: Vec<Message>,
    nodes: Vec<Node>,
}

impl Model for Run {
    ghost use Rattle.std.specs.Prelude.{reverse, vec_capacity};
    ghost use Rattle.message_resolution.specs.inner.Rows.{DeliversDue, DeliversRow};
    ghost use Rattle.message_resolution.specs.inner.Runs.{HoldsRun, RunView};

    ghost Value = { RunView };

    ghost view = { λ r. record { order = r.graph; count = r.count; past = reverse r.events.items; event_room = vec_capacity r.events } };

    ghost invariant = { λ r. HoldsRun r.graph r.count (reverse r.events.items) r.messages.items r.nodes.items (vec_capacity r.messages) };
}

/// The node of each of so many members, before anything was raised.
fn open_nodes(alloc: Global, count: u32) -> Result<Vec<Node>, OutOfMemory>
    requires few { count ≤ most_members }
    ensures many { IfOk result (λ nodes. length nodes.items ≡ count) }
    ensures nodes { IfOk result (λ nodes. AreFreshNodes count nodes.items) }
{
    let mut nodes = Vec::with_capacity(alloc, count as usize)?;
    for me in 0..count {
        nodes.push_reserved(Node::open(alloc, me, count)?);
    }
    Ok(nodes)
}

/// Tells the member of an event of it.
fn tell(graph: &Graph, messages: &Vec<Message>, nodes: &mut Vec<Node>, event: Event) -> Sent
    requires member { member_of event < length nodes.old.items }
    requires legal { MayMeetAt graph.now messages.now.items nodes.old.items event }
    ensures { NodesMeet graph.now messages.now.items nodes.old.items nodes.new.items event result }
{
    match event {
        Event::Raise { by, exception } => nodes[by as usize].raise(graph, exception),
        Event::Deliver { to, message } => nodes[to as usize].receive(
            graph,
            messages[message as usize],
        ),
    }
}

/// Puts a message, if there is one, behind the others.
fn append_one(messages: &mut Vec<Message>, message: Option<Message>)
    requires { vec_len messages.old + length (listed message) ≤ vec_capacity messages.old }
    ensures items { messages.new.items ≡ messages.old.items ++ listed message }
    ensures room { vec_capacity messages.new ≡ vec_capacity messages.old }
{
    if let Some(message) = message {
        messages.push_reserved(message);
    }
}

/// Puts what was sent at an event behind the earlier messages.
fn append(messages: &mut Vec<Message>, sent: Sent)
    requires { vec_len messages.old + length (messages_of sent) ≤ vec_capacity messages.old }
    ensures items { messages.new.items ≡ messages.old.items ++ messages_of sent }
    ensures room { vec_capacity messages.new ≡ vec_capacity messages.old }
{
    append_one(messages, sent.first);
    append_one(messages, sent.second);
}

/// Whether an event delivers a message to a member.
fn has_delivery(events: &Vec<Event>, to: u32, message: u32) -> bool
    ensures { result ≡ list_any (is_delivery to message) events.now.items }
{
    events.iter().any(|event| event.delivers(to, message))
}

impl Run {
    /// A run without events, and with room for so many.
    pub fn open(
        alloc: Global,
        graph: Graph,
        count: u32,
        event_room: usize,
    ) -> Result<Run, OutOfMemory>
        requires few { count ≤ most_members }
        ensures order { IfOk result (λ run. run.order ≡ graph) }
        ensures count { IfOk result (λ run. run.count ≡ count) }
        ensures past { IfOk result (λ run. run.past ≡ []) }
        ensures room { IfOk result (λ run. event_room ≤ run.event_room) }
    {
        let nodes = open_nodes(alloc, count)?;
        let events = Vec::with_capacity(alloc, event_room)?;
        let messages = Vec::with_capacity(alloc, 2 * count as usize)?;
        Ok(Run {
            graph,
            count,
            events,
            messages,
            nodes,
        })
    }

    /// Whether an event may come now.
    pub fn is_legal(&self, event: Event) -> bool
        requires in_range { IsInRange self.now.order self.now.count event }
        ensures { result ≡ is_legal_event (course_of self.now.order self.now.count self.now.past) event }
    {
        match event {
            Event::Raise { by, .. } => matches!(self.nodes[by as usize].state(), State::Normal),
            Event::Deliver { to, message } => self.is_from_other(to, message),
        }
    }

    /// Whether there is a message of this number, and of another sender.
    pub fn is_from_other(&self, to: u32, message: u32) -> bool
        ensures { result ≡ is_from_other to (slice_get (course_of self.now.order self.now.count self.now.past).messages message) }
    {
        match self.messages.get(message as usize) {
            Some(message) => message.sender() != to,
            None => false,
        }
    }

    /// Whether a message was ever delivered to a member.
    pub fn was_delivered(&self, to: u32, message: u32) -> bool
        ensures { IsTrue result ↔ Contains self.now.past (Event.Deliver to message) }
    {
        has_delivery(&self.events, to, message)
    }

    /// Lets a legal event come.
    pub fn advance(&mut self, event: Event)
        requires legal { MayCome self.old.order self.old.count self.old.past event }
        requires room { length self.old.past < self.old.event_room }
        ensures { self.new ≡ record self.old { past = event ∷ self.old.past } }
    {
        self.graph.is_sound();
        let sent = tell(&self.graph, &self.messages, &mut self.nodes, event);
        append(&mut self.messages, sent);
        self.events.push_reserved(event);
    }

    /// How many members there are.
    pub fn count(&self) -> u32
        ensures result { result ≡ self.now.count }
        ensures few { result ≤ most_members }
    {
        self.count
    }

    /// The history is legal, and its exceptions are those of a sound graph.
    pub fn is_sound(&self)
        ensures sound { IsSound self.now.order }
        ensures legal { LegalPast self.now.order self.now.count self.now.past }
    {
        self.graph.is_sound();
        let _ = &self.nodes;
    }

    /// How many events there are.
    pub fn len(&self) -> usize
        ensures { result ≡ length self.now.past }
    {
        self.events.len()
    }

    /// An event, counted from the oldest.
    pub fn event(&self, index: usize) -> Event
        requires { index < length self.now.past }
        ensures { slice_get (reverse self.now.past) index ≡ Some result }
    {
        self.events[index]
    }

    /// How many messages were sent.
    pub fn sent(&self) -> usize
        ensures sent { result ≡ length (course_of self.now.order self.now.count self.now.past).messages }
        ensures few { result ≤ 2 * self.now.count }
    {
        self.messages.len()
    }

    /// A message that was sent.
    pub fn message(&self, index: usize) -> Message
        requires { index < length (course_of self.now.order self.now.count self.now.past).messages }
        ensures { slice_get (course_of self.now.order self.now.count self.now.past).messages index ≡ Some result }
    {
        self.messages[index]
    }

    /// The node of a member.
    pub fn node(&self, by: u32) -> &Node
        requires { by < self.now.count }
        ensures { IsNodeAt self.now.order self.now.count self.now.past by result.now }
    {
        &self.nodes[by as usize]
    }

    /// Delivers a message to a member, where that is due.
    fn deliver_due(&mut self, to: u32, message: u32)
        requires member { to < self.old.count }
        requires room { length self.old.past < self.old.event_room }
        ensures { DeliversDue self.old self.new message to }
    {
        self.is_sound();
        if self.is_from_other(to, message) && !self.was_delivered(to, message) {
            self.advance(Event::Deliver { to, message });
        }
    }

    /// Delivers a message to each member to which that is due, the least first.
    fn deliver_to_all(&mut self, message: u32)
        requires { length self.old.past + self.old.count ≤ self.old.event_room }
        ensures { DeliversRow self.old self.new message self.old.count }
    {
        for to in 0..self.count {
            self.deliver_due(to, message);
        }
    }

    /// Delivers all that is due, the least message first.
    pub fn settle(&mut self)
        requires { length self.old.past + 2 * self.old.count * self.old.count ≤ self.old.event_room }
        ensures order { self.new.order ≡ self.old.order }
        ensures count { self.new.count ≡ self.old.count }
        ensures room { self.new.event_room ≡ self.old.event_room }
        ensures long { length self.new.past ≤ length self.old.past + 2 * self.old.count * self.old.count }
        ensures settles { Settles self.old.order self.old.count self.old.past self.new.past }
    {
        for message in 0..2 * self.count {
            self.deliver_to_all(message);
        }
        self.is_sound();
    }
}
