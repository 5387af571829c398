//! The text of a journal, both ways, and what watchers saw while it was made.
#![tactic(auto)]

pub mod looks;
pub mod texts;
