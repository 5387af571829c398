//! The tests of the top calls of the program: plays in threads of their own and in pools, over a gate that sees who works, and sources
//! and sinks that fail.
#![tactic(auto)]

#[cfg(test)]
mod calls;
#[cfg(test)]
mod pools;
#[cfg(test)]
mod sleepers;
#[cfg(test)]
mod top_calls;
