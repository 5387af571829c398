use thiserror::Error;

/// Why a graph of exceptions is refused.
#[derive(Clone, Copy, Debug, PartialEq, Eq, Error)]
pub enum GraphError {
    /// The declared pairs run in a circle; `at` is the least exception that stands in one.
    #[error("exception {at} covers another that covers it")]
    Cycle { at: u32 },
    /// `a` and `b` are the first exceptions without a least common cover.
    #[error("exceptions {a} and {b} have no least common cover")]
    NoLeast { a: u32, b: u32 },
    /// There are more exceptions than a graph may have.
    #[error("{count} exceptions are too many for a graph")]
    TooMany { count: u32 },
    /// No memory was found.
    #[error("out of memory")]
    OutOfMemory,
}
