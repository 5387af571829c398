//! Forms: what lines say, the script that they make, and its text.

pub mod form;
pub mod printer;
pub mod script;
pub mod uses;
