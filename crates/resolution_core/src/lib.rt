//! What was raised in each place, as a least cover that goes on, and whom it halted.
#![tactic(auto)]

mod recovery;
mod resolver;

pub use recovery::Recovery;
pub use resolver::Resolver;
