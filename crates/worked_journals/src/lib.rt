//! Journals worked by hand from the rules. Each is shown legal and complete by computing, and spoiled ones are shown illegal.
//! Wrong rules are shown to let a journal through that breaks a law.
//!
//! All of it stands in *proofs/*, a file for each journal. Nothing stands on this crate.
#![tactic(auto)]
