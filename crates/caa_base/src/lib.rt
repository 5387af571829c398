//! What all of `caa` speaks of: entries and journals, names, mixing work, and the outside as traits.
#![tactic(auto)]

pub mod outside;
pub mod written;
