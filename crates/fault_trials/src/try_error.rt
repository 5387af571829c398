use caa_base::written::entry::OutOfMemory;
use thiserror::Error;

/// Why tries of faults came to nothing.
#[derive(Clone, Copy, Debug, PartialEq, Eq, Error)]
pub enum TryError {
    /// No memory was found.
    #[error("out of memory")]
    OutOfMemory,
    /// The journals of all tries would have too many entries: those of so many schedules can be had.
    #[error("only {most} schedules can be tried")]
    TooMany { most: u32 },
    /// A schedule went another way before the put that was refused. That is a mistake of this program.
    #[error("a schedule went another way")]
    WentAnotherWay,
}

impl From<OutOfMemory> for TryError {
    fn from(_error: OutOfMemory) -> Self {
        TryError::OutOfMemory
    }
}
