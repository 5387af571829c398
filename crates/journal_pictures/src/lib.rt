//! Journals for people: a picture of one, and one told in sentences.
#![tactic(auto)]

pub mod chart;
pub(crate) mod closing;
pub(crate) mod frame;
pub(crate) mod layout;
pub mod marks;
pub(crate) mod render;
pub mod shapes;
pub(crate) mod signs;
pub(crate) mod stays;
pub mod story;
pub mod stretches;
pub(crate) mod tellings;
pub(crate) mod words;
