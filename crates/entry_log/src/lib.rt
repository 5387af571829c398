//! A machine that tells a log of each entry as it is made, and a log that writes the lines of entries to a sink.
#![tactic(auto)]

mod course;
pub mod file_sink;
pub mod line_log;
pub mod log;
pub mod logged;
pub mod logged_plant;
pub mod sink_log;
pub mod watched;
