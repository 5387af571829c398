//! Which names of a script mean the same, by what the checks take each of them for; and what a script is with one of them changed.
#![tactic(auto)]

pub mod declared_words;
pub mod occurrences;
pub mod renaming;
pub mod scope;
pub mod spans;
pub mod thing;
