ghost use Rattle.std.specs.Prelude.{◌≡◌, ◌<◌, ◌≤◌, IfOk};

use caa_base::written::entry::{Exception, OutOfMemory};
use exception_graph::{Graph, GraphError};
use message_resolution::{Message, Node, Sent, State};
use std::alloc::{AllocError, Global};
use std::marker::Model;
use std::test::Fail;

const MID: u32 = 1;

const LEFT: u32 = 2;

const RIGHT: u32 = 3;

const MEMBERS: u32 = 2;

/// Universal; mid, over left and right.
fn tree(alloc: Global) -> Result<Graph, GraphError>
    ensures { IfOk result (λ graph. graph.count ≡ 4) }
{
    Graph::build(alloc, 4, &[(MID, LEFT), (MID, RIGHT)])
}

/// A member as it stands in a controller of its own: its node, and a copy of the graph.
#[derive(Drop)]
struct Controller {
    me: u32,
    graph: Graph,
    node: Node,
}

impl Model for Controller {
    ghost use Rattle.std.specs.Prelude.{◌≡◌, ◌<◌, ℕ};

    ghost Value = { ℕ };

    ghost use Rattle.message_resolution.specs.Members.Nodes.{IsNodeOf};

    ghost view = { λ c. c.me };

    ghost invariant = { λ c. IsNodeOf c.graph c.node × (c.node.me ≡ c.me) × (c.node.count ≡ 2) };
}

const NOTHING: Sent = Sent {
    first: None,
    second: None,
};

impl Controller {
    fn open(alloc: Global, me: u32, graph: Graph) -> Result<Controller, OutOfMemory>
        requires { me < MEMBERS }
    {
        let node = Node::open(alloc, me, MEMBERS)?;
        Ok(Controller { me, graph, node })
    }

    /// Raises, unless the member has raised or was told of a raise.
    fn raise(&mut self, exception: Exception) -> Sent {
        if !matches!(self.node.state(), State::Normal) || exception >= self.graph.count() {
            return NOTHING;
        }
        self.node.raise(&self.graph, exception)
    }

    /// Takes what the network brings. What isn't of this exchange, or is the member's own, is left.
    fn arrives(&mut self, message: Message) -> Sent {
        if message.sender() == self.me || !message.is_of(&self.graph, MEMBERS) {
            return NOTHING;
        }
        self.node.receive(&self.graph, message)
    }
}

/// A network of which nothing is known: here it loses four messages in five, and brings the others twice.
#[derive(Drop)]
struct Network {
    said: Vec<Message>,
    carried: u32,
}

impl Network {
    /// Who has said something says it again and again, since no message need arrive.
    fn say(&mut self, sent: Sent) -> Result<(), AllocError> {
        for message in [sent.first, sent.second] {
            if let Some(message) = message {
                self.said.push(message)?;
            }
        }
        Ok(())
    }

    /// Whether it carries a message this time.
    fn carries(&mut self) -> bool {
        self.carried = self.carried.wrapping_add(1);
        self.carried % 5 == 0
    }
}

/// All that was said so far is said again, the newest first, to one member.
fn say_all_again(network: &mut Network, to: &mut Controller) -> Result<(), AllocError> {
    let so_far = network.said.clone()?;
    for message in so_far.iter().rev() {
        if network.carries() {
            for _ in 0..2 {
                let sent = to.arrives(*message);
                network.say(sent)?;
            }
        }
    }
    Ok(())
}

/// Two controllers, each with a graph of its own.
fn both(alloc: Global) -> Result<(Controller, Controller), Fail> {
    let graph = tree(alloc)?;
    let ann = Controller::open(alloc, 0, graph.copy(alloc)?)?;
    let bob = Controller::open(alloc, 1, graph)?;
    Ok((ann, bob))
}

/// Both raise, and then say all again, time after time.
fn talk(
    network: &mut Network,
    ann: &mut Controller,
    bob: &mut Controller,
) -> Result<(), AllocError> {
    network.say(ann.raise(LEFT))?;
    network.say(bob.raise(RIGHT))?;
    for _ in 0..12 {
        say_all_again(network, ann)?;
        say_all_again(network, bob)?;
    }
    Ok(())
}

#[test]
fn agree_over_a_network_that_loses_and_doubles(rt: HostRuntime) -> Result<(), Fail> {
    let (mut ann, mut bob) = both(rt.alloc())?;
    let mut network = Network {
        said: Vec::new(rt.alloc()),
        carried: 0,
    };
    talk(&mut network, &mut ann, &mut bob)?;
    assert_eq!(rt; ann.node.decided(), Some(MID));
    assert_eq!(rt; bob.node.decided(), Some(MID));
    assert_eq!(rt; network.said.len(), 3);
    Ok(())
}
