ghost use Rattle.std.specs.Prelude.{◌≡◌, ◌<◌, ℕ, true, false, List, ◌∷◌, length, slice_index_or, slice_set, replicate, IfOk};
ghost use Rattle.caa_base.specs.declared.written.entry.Entry.{Entry as JournalEntry};

use crate::cells::{Announcer, ResolutionCells};
use crate::notes::{NoteRefused, PlaceNote};
use caa_base::written::entry::{Entry, Exception, Kind, OutOfMemory, Place};
use std::alloc::Global;
use std::snapshot::Snapshot;

/// What was announced of one place.
#[derive(Drop)]
pub enum Announcement {
    /// It isn't resolved yet.
    Nothing,
    /// Its cell holds the exception that this note knows.
    Noted(PlaceNote),
    /// Its cell refused.
    Refused(NoteRefused),
}

/// What keeps up with the resolutions of a journal: the announcer, and for each place what was told of it.
#[derive(Drop)]
pub struct Bulletin {
    pub(crate) announcer: Announcer,
    pub(crate) told: Vec<Announcement>,
    pub(crate) cells: Snapshot<ResolutionCells>,
}

impl Bulletin {
    ghost use Rattle.shared_views.specs.Telling.{cells_of, IsFresh, IsSet, IsTold, told_at, SaysTheSame, KeepsUp, Suits, TellsOf};

    /// A bulletin by which nothing was told, with the announcer that was opened with these cells.
    pub fn open(
        alloc: Global,
        cells: &ResolutionCells,
        announcer: Announcer,
    ) -> Result<Bulletin, OutOfMemory>
        requires ours { announcer ≡ replicate (length cells.now) true }
        ensures cells { IfOk result (λ b. cells_of b ≡ cells.now) }
        ensures fresh { IfOk result (λ b. IsFresh b) }
    {
        let mut told = Vec::new(alloc);
        for _ in 0..cells.places() {
            told.push(Announcement::Nothing)?;
        }
        Ok(Bulletin {
            announcer,
            told,
            cells: Snapshot::of(cells),
        })
    }

    /// Announces the exception to which a place was resolved.
    pub fn announce(&mut self, cells: &ResolutionCells, place: Place, exception: Exception)
        requires ours { cells_of self.old ≡ cells.now }
        requires set { IsSet self.old }
        requires place { place < length cells.now }
        requires fresh { slice_index_or self.old.announcer place false ≡ true }
        ensures cells { cells_of self.new ≡ cells.now }
        ensures used { self.new.announcer ≡ slice_set self.old.announcer place false }
        ensures told { (t : Announcement)
            × (self.new.told.items ≡ slice_set self.old.told.items place t) × IsTold cells.now place exception t }
    {
        let mut note = cells.note(place);
        let told = match cells.announce(&mut self.announcer, &mut note, exception) {
            Ok(()) => Announcement::Noted(note),
            Err(refused) => Announcement::Refused(refused),
        };
        self.told[place as usize] = told;
    }

    /// What was told of a place that was resolved, for one who is to have it.
    pub fn share(&mut self, cells: &ResolutionCells, place: Place) -> Announcement
        requires ours { cells_of self.old ≡ cells.now }
        requires set { IsSet self.old }
        requires place { place < length cells.now }
        requires told { (x : ℕ) × IsTold cells.now place x (told_at self.old place) }
        ensures same { SaysTheSame self.old self.new }
        ensures told { (x : ℕ) → IsTold cells.now place x (told_at self.old place) → IsTold cells.now place x result }
    {
        self.told[place as usize].share(cells, place)
    }

    /// Takes in an entry that was made: a Resolve is announced.
    ///
    /// Of a Resolve and of a Handle comes what was told of the place: a note that knows the exception, or the refusal of its
    /// cell; of all others nothing.
    pub fn take_in(&mut self, cells: &ResolutionCells, entry: Entry) -> Announcement
        requires ours { cells_of self.old ≡ cells.now }
        requires follows { (past : List JournalEntry) × KeepsUp past self.old × Suits cells.now past entry }
        ensures cells { cells_of self.new ≡ cells.now }
        ensures keeps_up { (past : List JournalEntry)
            → KeepsUp past self.old → Suits cells.now past entry → KeepsUp (entry ∷ past) self.new }
        ensures told { TellsOf entry.kind cells.now entry result }
    {
        match entry.kind {
            Kind::Resolve => {
                self.announce(cells, entry.place, entry.arg);
                self.share(cells, entry.place)
            }
            Kind::Handle => self.share(cells, entry.place),
            _ => Announcement::Nothing,
        }
    }
}

impl Announcement {
    ghost use Rattle.shared_views.specs.Telling.{IsTold};

    /// The same once more, where something was told of the place.
    fn share(&mut self, cells: &ResolutionCells, place: Place) -> Announcement
        requires place { place < length cells.now }
        requires told { (x : ℕ) × IsTold cells.now place x self.old }
        ensures same { self.new ≡ self.old }
        ensures told { (x : ℕ) → IsTold cells.now place x self.old → IsTold cells.now place x result }
    {
        match self {
            Announcement::Nothing => unreachable!(),
            Announcement::Noted(note) => match cells.share(note) {
                Ok(note) => Announcement::Noted(note),
                Err(refused) => Announcement::Refused(refused),
            },
            Announcement::Refused(refused) => Announcement::Refused(*refused),
        }
    }
}
