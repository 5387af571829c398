//! The text of a page: what is the same in each, and between it data, in which no byte stands as it was given that could end it.
#![tactic(auto)]

pub mod fixed;
pub mod parts;
