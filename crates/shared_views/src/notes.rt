ghost use Rattle.std.specs.Prelude.{◌≡◌};

use caa_base::written::entry::Place;
use once_cell::race::Note;
use std::marker::Model;
use thiserror::Error;

/// What its owner has learnt of the cell of one place: nothing, or the exception that stands there for good.
///
/// Contracts see the place, the name of its cell, and what is known of it.
#[derive(Drop)]
pub struct PlaceNote {
    pub(crate) place: Place,
    pub(crate) note: Note<u32>,
}

impl Model for PlaceNote {
    ghost use Rattle.shared_views.specs.Noted.{Noted};

    ghost Value = { Noted };

    ghost view = { λ n. record { place = n.place; cell = n.note.cell; known = n.note.known } };
}

/// The cell of a place refused what was to be announced. This crate alone makes one.
#[derive(Clone, Copy, Debug, PartialEq, Eq, Error)]
#[error("the cell of place {place} refused what was to be announced")]
pub struct NoteRefused {
    place: Place,
}

impl NoteRefused {
    ghost use Rattle.shared_views.specs.RefusedNotes.{place_refused};

    /// Of this place.
    pub(crate) fn of(place: Place) -> NoteRefused
        ensures { place_refused result ≡ place }
    {
        NoteRefused { place }
    }

    /// The place whose cell refused.
    pub fn place(&self) -> Place
        ensures { result ≡ place_refused self.now }
    {
        self.place
    }
}
