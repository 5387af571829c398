//! What a line in an action, its bodies and its handlers is refused for, and what it adds to the action.

pub(crate) mod adding;
pub(crate) mod causes;
pub mod named;
mod nests;
pub(crate) mod program;
mod roles;
