//! A play by messages: the roles of a plan's first place raise what their bodies begin with, and agree over a network of which a
//! seed says what it delivers.
#![tactic(auto)]

mod texts;
mod turns;
mod wishes;

pub use texts::messages_text;
