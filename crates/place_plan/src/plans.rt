//! Plans: the places into which the plays of a draft unfold, and how many there are.

pub mod action_size;
pub(crate) mod alternates;
pub(crate) mod bound;
pub(crate) mod places;
pub mod plan;
pub mod tables;
pub mod unfolded;
pub(crate) mod unfolding;
