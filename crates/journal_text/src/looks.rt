//! What watchers saw, and whether it is right.

pub(crate) mod play_values;
pub mod right;
pub(crate) mod seen_line;
pub mod seens;
