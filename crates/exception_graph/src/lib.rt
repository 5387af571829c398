//! Graphs of exceptions: which covers which, and the least that covers what was raised.
#![tactic(auto)]

mod closing;
mod cycles;
mod graph;
mod graph_error;

pub use graph::Graph;
pub use graph_error::GraphError;
