//! A script as an editor has it: its text, positions in the text as the language server protocol counts them, and edits.
#![tactic(auto)]

pub mod document;
pub mod positions;
pub mod walk;
