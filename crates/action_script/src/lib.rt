//! The text of a script, both ways: it is read by the grammar, or its first fault is named; and a script is printed so that it
//! reads back.
#![tactic(auto)]

pub mod forms;
pub mod lines;
pub mod script_error;
pub mod words;
