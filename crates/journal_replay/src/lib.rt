//! The core: which entry is due, the machine that makes it, and the audit, by whatever is kept of a journal. The plain one keeps
//! nothing, and looks back over the entries at each question.
#![tactic(auto)]

pub mod answer;
pub mod audit;
pub mod hall;
pub mod look_back;
pub mod moves;
pub mod past;
pub mod programs;
pub mod questions;
pub mod records;
pub mod rule;
