//! What is told of refused puts: the table of failure modes and their effects.
#![tactic(auto)]

pub mod asking;
pub mod fault_page;
mod rows;
mod set_back;
mod spots;
mod tables;
mod two_puts;
