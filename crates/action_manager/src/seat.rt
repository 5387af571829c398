//! The token of a seat names the type of what lies in the slot, and a token can be dropped only where such a thing could be. A
//! writer can't be dropped: it is ended. So a seat that is let go turns its token into a badge, which names no slot.

ghost use Rattle.std.specs.Prelude.{◌≡◌, [], length};
ghost use Rattle.action_manager.specs.OwnEntries.{entries_by};

use crate::housed::Housed;
use crate::turns::Token;
use caa_base::written::entry::Participant;
use shared_views::{Announcement, NoteRefused, PlaceNote};
use std::mem;
use thiserror::Error;

/// The right of one participant to take turns. It may go to another thread.
pub struct Seat<M> {
    pub(crate) token: Token<Housed<M>>,
    pub(crate) participant: Participant,
    pub(crate) seen: u64,
    pub(crate) made: u64,
    pub(crate) told: Announcement,
    ghost who: { participant ≡ token.me.0.who },
    ghost so_long: { seen ≡ length token.me.0.seen },
    ghost so_many: { made ≡ length (entries_by participant token.me.0.seen) },
    ghost empty_handed: { token.me.1 ≡ [] },
}

/// A seat that is let go holds nothing out of the slot, so no machine is let go with it.
impl<M> Drop for Seat<M> {
    fn drop(self) {
        let Seat {
            token,
            participant: _,
            seen: _,
            made: _,
            told: _,
        } = self;
        let _badge = token.into_badge();
    }
}

/// Why a seat has no note to give.
#[derive(Debug, Drop, Error)]
pub enum NoNote {
    /// It made no step, its last one wasn't a Resolve or a Handle, or that note was taken.
    #[error("no note is due")]
    NotDue,
    /// The cell of the place refused the announcement.
    #[error("{0}")]
    Refused(NoteRefused),
}

impl<M> Seat<M> {
    ghost use Rattle.action_manager.specs.Seats.{participant_of, seen_by, told_to, token_of};
    ghost use Rattle.action_manager.specs.Tidings.{Takes};
    ghost use Rattle.shared_views.specs.declared.bulletin.Announcement.TheVariants.{Nothing};

    /// Whose seat it is.
    pub fn participant(&self) -> Participant
        ensures { result ≡ participant_of self.now }
    {
        self.participant
    }

    /// How many entries it has seen.
    pub fn seen(&self) -> u64
        ensures { result ≡ length (seen_by self.now) }
    {
        self.seen
    }

    /// How many entries of its participant it has seen.
    pub fn made(&self) -> u64
        ensures { result ≡ length (entries_by (participant_of self.now) (seen_by self.now)) }
    {
        self.made
    }

    /// Takes the note that the last step left: of the place of its Resolve or Handle, knowing the exception.
    ///
    /// The seat has none afterwards, whatever the answer, and is else as it was.
    pub fn take_note(&mut self) -> Result<PlaceNote, NoNote>
        ensures taken { Takes (told_to self.old) result }
        ensures left { told_to self.new ≡ Nothing }
        ensures same { (token_of self.new ≡ token_of self.old) × (participant_of self.new ≡ participant_of self.old) }
    {
        match mem::replace(&mut self.told, Announcement::Nothing) {
            Announcement::Nothing => Err(NoNote::NotDue),
            Announcement::Noted(note) => Ok(note),
            Announcement::Refused(refused) => Err(NoNote::Refused(refused)),
        }
    }

    /// Its place at the table; the rest goes.
    pub(crate) fn into_token(self) -> Token<Housed<M>>
        ensures { result ≡ token_of self }
    {
        let Seat {
            token,
            participant: _,
            seen: _,
            made: _,
            told: _,
        } = self;
        token
    }
}
