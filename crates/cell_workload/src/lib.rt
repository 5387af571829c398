//! The production cell as a workload: a script of any number of cycles, and the summary of a journal of it.
#![tactic(auto)]

mod actions;
mod counting;
mod names;
mod outside;
mod script;

pub use counting::summary;
pub use script::{MOST_CYCLES, cell};
