//! What a graph to be drawn has, and why it isn't drawn.

ghost use Rattle.std.specs.Prelude.{◌≡◌};

use std::alloc::{AllocError, AllocFailed};
use thiserror::Error;

/// An edge, from a node down to another. Nodes are counted from 0.
#[derive(Clone, Copy, Debug, PartialEq, Eq)]
pub struct Edge {
    pub upper: usize,
    pub lower: usize,
}

/// Why a graph isn't drawn.
#[derive(Clone, Copy, Debug, PartialEq, Eq, Error)]
pub enum DrawError {
    /// Some edges lead round in a ring, so that not all can lead down.
    #[error("the edges lead round in a ring")]
    Ringed,
    /// No memory was found.
    #[error("out of memory")]
    OutOfMemory,
}

impl From<AllocError> for DrawError {
    ghost use Rattle.graph_drawing.specs.declared.edges.DrawError.TheVariants as error;

    ghost from_gives = { λ _ e. e ≡ error.OutOfMemory };

    fn from(_: AllocError) -> Self {
        DrawError::OutOfMemory
    }
}

impl<T: Drop> From<AllocFailed<T>> for DrawError {
    ghost use Rattle.graph_drawing.specs.declared.edges.DrawError.TheVariants as error;

    ghost from_gives = { λ _ e. e ≡ error.OutOfMemory };

    fn from(_: AllocFailed<T>) -> Self {
        DrawError::OutOfMemory
    }
}
