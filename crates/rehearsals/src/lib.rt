//! What the journals of a plan show, played by the schedules of one number after another.
#![tactic(auto)]

pub mod facts;
pub mod keys;
pub mod numbered;
pub mod paths;
pub mod refusing;
pub mod rehearsing;
pub mod tally;
pub mod tries;
