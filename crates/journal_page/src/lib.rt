//! One page for a script with a journal: what its script shows of each entry, and who stands where after it.
#![tactic(auto)]

pub mod page;
pub mod stances;
pub(crate) mod texts;
pub mod turns;
