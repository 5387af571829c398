//! The checks of a script, and the plan that it comes to.
#![tactic(auto)]

pub mod action;
pub mod check_error;
pub mod compile;
pub mod declared;
pub mod drill_list;
mod ending;
mod graph;
pub mod lines;
pub mod lookups;
mod naming;
pub mod number_list;
pub mod one_plan;
pub mod open_action;
pub mod open_graph;
pub mod own_names;
pub mod plan_counts;
pub mod refused;
pub mod role_list;
mod saying;
pub mod table;
mod top;
