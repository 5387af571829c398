//! What the text of a script and its plan tell of each action: what can be raised in it, what each handler comes to, and how it can end.
#![tactic(auto)]

pub mod covering;
pub mod outlooks;
pub mod programs;
pub mod sources;
pub mod table;
pub mod undone;
pub mod ways;
