//! How each place comes to its end: which verdicts count, who has given up, and how far its undo has come.
#![tactic(auto)]

mod ending;
mod endings;
mod said;

pub use ending::Ending;
pub use endings::Endings;
pub use said::Said;
