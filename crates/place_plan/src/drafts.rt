//! Drafts: what a plan is made of, and the rules that a draft keeps.

pub mod close;
pub(crate) mod depth;
pub mod differing;
pub mod draft;
pub mod draft_rows;
pub(crate) mod fitting;
pub mod object_list;
pub(crate) mod ranges;
pub mod uses;
