//! What an engineer is told of a script: why it is refused, who handles what, and its graphs as pictures.
#![tactic(auto)]

pub mod characters;
pub mod covers;
pub mod dot;
pub mod explaining;
mod graph_faults;
pub mod line_table;
pub mod looking;
pub mod misread;
pub mod page;
mod said_twice;
mod scene;
mod shapes;
mod sizes;
pub mod source;
mod unfilled;
pub mod unknown;
