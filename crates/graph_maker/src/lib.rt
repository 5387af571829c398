//! Graphs of sets: from a script of primitive exceptions the script of the graph of all their sets of a few members.
#![tactic(auto)]

mod forms;
mod made_error;
mod making;
mod refusals;
mod set_names;
mod shape;

pub use made_error::{MadeCause, MadeError};
pub use making::make_script;
pub use set_graphs::{MakeError, Set, SetGraph};
