//! What machines and their tables count with: crews of participants, and least covers that go on.
#![tactic(auto)]

pub mod crew;
pub mod joining;
