use crate::node::message::Message;

/// The messages that one event of a member sends, in order. A lone one is the first.
#[derive(Clone, Copy)]
pub struct Sent {
    /// What is sent first, if anything is.
    pub first: Option<Message>,
    /// What is sent after it.
    pub second: Option<Message>,
}
