//! Interlocks: rules on what never is, and where a journal breaks one first.
#![tactic(auto)]

pub mod monitor;
pub mod places;
pub mod rules;
pub mod watch;
