//! Plans of coordinated atomic actions, the rules that a journal of a plan keeps, and the trait of a machine that plays one.
#![tactic(auto)]

pub mod drafts;
pub mod plans;
pub mod rules;
