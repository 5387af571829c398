//! Graphs of sets: from primitive exceptions the graph of all their sets of a few members.
#![tactic(auto)]

mod count;
mod pairs;
mod set_graph;
mod sets;

pub use count::count_exceptions;
pub use pairs::make_pairs;
pub use set_graph::{MakeError, SetGraph};
pub use sets::{Set, make_table};
