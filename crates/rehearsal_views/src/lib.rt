//! What is told of plays before the machine moves: what comes by many schedules, and the journal of a single one.
#![tactic(auto)]

pub mod asking;
pub mod plan_names;
pub mod playing_page;
pub mod rehearsal_page;
