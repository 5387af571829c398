//! A machine that several threads step, one turn at a time.
#![tactic(auto)]

mod crossing;
mod door;
mod home;
mod housed;
mod lock;
mod lock_view;
mod manager;
mod news;
mod publishing;
mod publishing_law;
mod seat;
mod sleepers;
mod turns;

pub use crossing::crosses_threads;
pub use manager::{Closed, Manager, ManagerError, Opened, StillOut};
pub use news::News;
pub use publishing_law::{publishes_committed, readings_are_committed};
pub use seat::{NoNote, Seat};
pub use sleepers::unwoken;
