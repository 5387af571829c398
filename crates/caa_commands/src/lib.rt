//! The commands of the program `caa`: which words ask for what, what each comes to, and what is printed. The top calls serve them.
#![tactic(auto)]

mod cells;
mod command;
mod fault;
mod finding;
mod graphs;
mod judging;
mod logged_playing;
mod logged_serving;
pub mod logged_top;
mod logging;
mod playing;
pub mod scripts;
mod serving;
pub mod status;
pub mod top;
