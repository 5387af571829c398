//! A journal as a trace of Chrome's, which Perfetto opens: a thread for each participant, and numbers of entries as times.
#![tactic(auto)]

mod events;
mod stretches;
pub mod trace;
