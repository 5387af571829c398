//! Failure modes of a device and their effects: each put of the journals of a plan is refused in turn.
#![tactic(auto)]

pub mod backs;
pub mod effects;
pub mod endings;
pub mod measure;
pub mod modes;
pub mod once_plant;
pub mod puts;
pub mod trials;
pub mod try_error;
pub mod twins;
