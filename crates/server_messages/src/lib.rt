//! Messages of the language server protocol: how they are parted in a stream, what is read of them, and how answers are written.
#![tactic(auto)]

pub mod calls;
pub mod framing;
pub mod replies;
