//! Tables of what can come in the places of each action of a plan.
#![tactic(auto)]

pub mod checking;
pub mod endings;
pub mod never;
pub mod order;
pub mod search;
pub mod sources;
pub mod steps;
pub mod table;
pub mod telling;
