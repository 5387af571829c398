//! Journals entry by entry: where each participant is, what it may do by the rules, and what it waits for.
#![tactic(auto)]

pub mod fronts;
pub mod spots;
pub mod states;
pub mod wanted;
pub mod words;
