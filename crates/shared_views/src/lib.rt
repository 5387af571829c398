//! What running threads may see without taking turns: the exception to which each place was resolved, with the notes of it, and
//! the committed values of the objects.
#![tactic(auto)]

mod board;
mod bulletin;
mod cells;
mod committed_writer;
mod notes;
mod observed;
mod observer;
mod publication_refused;
mod publications;
mod send_sync;

pub use bulletin::{Announcement, Bulletin};
pub use cells::{Announcer, ResolutionCells};
pub use committed_writer::{CommittedWriter, PublishError};
pub use notes::{NoteRefused, PlaceNote};
pub use observed::{ReadRefused, Reading, reading_stands};
pub use observer::Observer;
pub use publication_refused::PublicationRefused;
pub use publications::Publications;
pub use send_sync::{may_cross, may_share};
