//! The tests of sources and sinks that fail, of the texts of errors, and of agreement by messages over a network that loses them, over
//! public calls.
#![tactic(auto)]

#[cfg(test)]
mod errors;
#[cfg(test)]
mod network;
#[cfg(test)]
mod reading;
#[cfg(test)]
mod standard;
