//! Orders in which a machine may be played: who is asked next, by a number that such an order is drawn from.
#![tactic(auto)]

pub mod draws;
pub mod order;
pub mod playing;
pub mod schedule;
#[cfg(test)]
mod tests;
