//! The page of a script: its text, its table, its graphs drawn in layers, and a journal behind it.
#![tactic(auto)]

pub mod graphs;
pub mod paging;
