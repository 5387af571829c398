//! Graphs without rings as drawings: nodes in layers, each edge from a layer down to a lower one.
#![tactic(auto)]

pub mod edges;
pub mod layers;
pub mod spots;
