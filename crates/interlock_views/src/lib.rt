//! Interlocks in a file of rules: how they are read, hunted for, and told.
#![tactic(auto)]

pub mod asking;
pub mod found;
pub mod hunting;
mod misread;
mod puts;
pub mod reading;
mod telling;
mod words;
