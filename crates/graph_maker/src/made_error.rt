use thiserror::Error;

/// What is wrong with a script of primitive exceptions.
#[derive(Clone, Copy, Debug, PartialEq, Eq, Error)]
pub enum MadeCause {
    /// 1: the line isn't one of a graph with exceptions alone, or such a line is lacking.
    #[error("bad line")]
    BadLine,
    /// 11: the exception is declared already, is `universal`, or has a name that is made for a set.
    #[error("twice")]
    Twice,
    /// 19: the exception is one too many, or the graph has more sets than a graph may have exceptions.
    #[error("limit")]
    Limit,
    /// No memory was found.
    #[error("out of memory")]
    OutOfMemory,
}

/// Why no graph is made of a script: its first line that is refused, or want of memory.
#[derive(Clone, Copy, Debug, PartialEq, Eq, Error)]
#[error("line {line}: {cause}")]
pub struct MadeError {
    /// The number of the line in the text, counted from 1; 0 where memory was lacking.
    pub line: u32,
    pub cause: MadeCause,
}
