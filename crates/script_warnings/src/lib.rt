//! What its author may not have meant in a script, read off the text and its plan. Nothing is refused for it.
#![tactic(auto)]

mod bodies;
mod graphs;
mod handlers;
mod moves;
mod objects;
mod plays;
mod restores;
pub mod rule;
mod subject;
mod tells;
mod uses;
pub mod warnings;
