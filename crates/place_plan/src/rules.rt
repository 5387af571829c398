//! The rules of a journal, as far as code asks them, and what a machine is.

pub mod machine;
pub(crate) mod member;
pub mod one_entry;
pub mod value;
pub mod well_formed;
