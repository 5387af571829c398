//! Machines that are played by a pool of workers: fewer threads than participants, to whom the seats travel through a queue.
#![tactic(auto)]

mod hand_view;
mod hands;
mod passing;
mod pool_crossing;
mod pool_playing;
mod pool_room;
mod relay;
mod relay_opening;
mod relay_room;
mod worker;
mod worker_crew;
mod working;

pub use hands::{Hand, HandsOut, Opening, Relay, RelayError};
pub use pool_crossing::crosses_threads;
pub use pool_playing::pool;
