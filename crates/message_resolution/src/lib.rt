//! Resolution by messages: members that share no memory agree on the least exception that covers
//! all that was raised, over a network that loses, repeats and reorders.
#![tactic(auto)]

mod node;
mod world;

pub use node::message::Message;
pub use node::sent::Sent;
pub use node::state::State;
pub use node::{Node, delivered_again};
pub use world::event::Event;
pub use world::{NotLegal, World};
