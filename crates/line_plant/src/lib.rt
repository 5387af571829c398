//! A device that is spoken to in lines: whatever answers on a reader what is asked of it on a writer.
#![tactic(auto)]

pub mod flushed;
pub mod heard;
pub mod hearing;
mod lines;
pub mod names;
pub mod noted;
pub mod plant;
#[cfg(test)]
mod tests;
mod told;
mod wire;
