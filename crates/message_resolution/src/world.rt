ghost use Rattle.std.specs.Prelude.{◌≡◌, ◌≢◌, ◌<◌, ◌≤◌, ◌∷◌, ◌↔◌, [], ℕ, Contains, IfOk, IfSome, OnOk, OnErr, IsErr, true, false, length, reverse, slice_get};
ghost use Rattle.message_resolution.specs.Members.LocalEvents.{own};
ghost use Rattle.message_resolution.specs.Members.Answers.{decisions};
ghost use Rattle.message_resolution.specs.Members.Nodes.{IsOneOf, most_members};
ghost use Rattle.message_resolution.specs.Histories.Agreement.{DecidersAgree, IsAgreedForGood};
ghost use Rattle.message_resolution.specs.Histories.Courses.{all_raised, course_of};
ghost use Rattle.message_resolution.specs.Histories.Legal.{IsInRange, LegalPast, is_legal_event};
ghost use Rattle.message_resolution.specs.Histories.Settling.{AllHaveDecided, IsSettled, Settles};
ghost use Rattle.message_resolution.specs.Histories.Worlds.{IsNodeAt, most_room};

pub mod event;
mod run;

use crate::node::Node;
use crate::node::message::Message;
use crate::node::state::State;
use crate::world::event::Event;
use crate::world::run::Run;
use caa_base::written::entry::{Exception, OutOfMemory};
use exception_graph::Graph;
use std::alloc::Global;
use std::marker::Model;
use thiserror::Error;

/// An event may not come now.
#[derive(Clone, Copy, Debug, PartialEq, Eq, Error)]
#[error("the event is not legal")]
pub struct NotLegal;

/// All members and their network, as one legal history of events.
///
/// A world plays what its members and the network do, one event at a time. It stores the history.
#[derive(Drop)]
pub struct World {
    run: Run,
    room: u32,
}

impl Model for World {
    ghost use Rattle.message_resolution.specs.Histories.Worlds.{WorldView};

    ghost Value = { WorldView };

    ghost use Rattle.message_resolution.specs.inner.HeldWorlds.{HoldsWorld};

    ghost view = { λ w. record { order = w.run.order; count = w.run.count; room = w.room; past = w.run.past } };

    ghost invariant = { λ w. HoldsWorld w.run w.room };
}

impl World {
    /// A world of so many members in which nothing has happened. All memory is taken here: that for
    /// `room` events, for all that [`settle`](World::settle) can add, and for every message.
    pub fn open(alloc: Global, graph: Graph, count: u32, room: u32) -> Result<World, OutOfMemory>
        requires some { 0 < count }
        requires few { count ≤ most_members }
        requires room { room ≤ most_room }
        ensures { IfOk result (λ world. world ≡ record { order = graph; count = count; room = room; past = [] }) }
    {
        let event_room = room as usize + 2 * count as usize * count as usize;
        let run = Run::open(alloc, graph, count, event_room)?;
        Ok(World { run, room })
    }

    /// How many members there are.
    pub fn count(&self) -> u32
        ensures { result ≡ self.now.count }
    {
        self.run.count()
    }

    /// What has happened is legal.
    pub fn is_legal(&self)
        ensures { LegalPast self.now.order self.now.count self.now.past }
    {
        self.run.is_sound();
    }

    /// How many events have happened.
    pub fn len(&self) -> u32
        ensures { result ≡ length self.now.past }
    {
        self.run.len() as u32
    }

    /// An event, counted from the oldest.
    pub fn event(&self, index: u32) -> Event
        requires { index < length self.now.past }
        ensures { slice_get (reverse self.now.past) index ≡ Some result }
    {
        self.run.event(index as usize)
    }

    /// Lets an event happen, where it is legal now; else nothing changes.
    ///
    /// What members have decided they agree on for good: nothing is raised after the first decision.
    pub fn step(&mut self, event: Event) -> Result<(), NotLegal>
        requires in_range { IsInRange self.old.order self.old.count event }
        requires room { length self.old.past < self.old.room }
        ensures ok { OnOk result (self.new ≡ record self.old { past = event ∷ self.old.past }) }
        ensures err { OnErr result (self.new ≡ self.old) }
        ensures refused { IsErr result
            ↔ (is_legal_event (course_of self.old.order self.old.count self.old.past) event ≡ false) }
        ensures agreed { DecidersAgree self.new.order self.new.count self.new.past }
    {
        self.run.is_sound();
        if !self.run.is_legal(event) {
            return Err(NotLegal);
        }
        self.run.advance(event);
        Ok(())
    }

    /// Delivers each message to each other member to which it was never delivered: the least message
    /// first, and that to the least member first, until there is none.
    ///
    /// Where anything was raised, every member has decided then; else nothing changes.
    pub fn settle(&mut self)
        ensures others { self.new ≡ record self.old { past = self.new.past } }
        ensures settles { Settles self.old.order self.old.count self.old.past self.new.past }
        ensures decided { all_raised self.old.past ≢ [] → AllHaveDecided self.old.order self.old.count self.new.past }
        ensures unchanged { all_raised self.old.past ≡ [] → self.new.past ≡ self.old.past }
    {
        self.run.is_sound();
        if self.run.len() <= self.room as usize {
            self.run.settle();
        }
    }

    /// How many messages were sent.
    pub fn sent(&self) -> u32
        ensures { result ≡ length (course_of self.now.order self.now.count self.now.past).messages }
    {
        self.run.sent() as u32
    }

    /// A message that was sent, by its number.
    pub fn message(&self, index: u32) -> Message
        requires { index < length (course_of self.now.order self.now.count self.now.past).messages }
        ensures { slice_get (course_of self.now.order self.now.count self.now.past).messages index ≡ Some result }
    {
        self.run.message(index as usize)
    }

    /// The exception that a member has raised, if it has raised one.
    pub fn raised(&self, by: u32) -> Option<Exception>
        requires { by < self.now.count }
        ensures { IsOneOf (own ((course_of self.now.order self.now.count self.now.past).local by)) result }
    {
        match self.run.node(by).state() {
            State::Raised(exception) => Some(exception),
            _ => None,
        }
    }

    /// The exception that a member has decided, if it has decided one. It is the least one that covers
    /// all that was raised, all members that ever decide agree on it, and nothing more is raised.
    pub fn decided(&self, by: u32) -> Option<Exception>
        requires { by < self.now.count }
        ensures decided { IsOneOf
            (decisions self.now.order self.now.count by ((course_of self.now.order self.now.count self.now.past).local by)) result }
        ensures agreed { IfSome result (IsAgreedForGood self.now.order self.now.count self.now.past) }
    {
        self.run.is_sound();
        self.run.node(by).decided()
    }

    /// The node of a member.
    pub fn node(&self, by: u32) -> &Node
        requires { by < self.now.count }
        ensures { IsNodeAt self.now.order self.now.count self.now.past by result.now }
    {
        self.run.node(by)
    }
}
