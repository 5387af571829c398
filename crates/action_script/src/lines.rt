//! Lines: their kinds, what their words are asked to be, and how a script is read line by line.

pub(crate) mod asked;
pub mod field;
pub mod kind;
pub mod reader;
pub(crate) mod script_line;
pub mod sort;
