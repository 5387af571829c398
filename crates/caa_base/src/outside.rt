//! The outside as traits, what stands for it in memory, and the adapters of the standard streams.

pub mod count;
pub mod gate;
pub mod memory;
pub mod one_byte;
pub mod plant;
pub mod reading;
pub mod sink;
pub mod source;
pub mod standard;
