ghost use Rattle.std.specs.Prelude.{◌≡◌, ◌<◌, ℕ, true, false, length, slice_index_or, slice_set, replicate, IfOk, IfErr, IfSome, IfNone, Some, None};
ghost use Rattle.shared_views.specs.Noted.{IsOf};

use crate::bulletin::{Announcement, Bulletin};
use crate::notes::{NoteRefused, PlaceNote};
use crate::send_sync::{may_cross, may_share};
use caa_base::written::entry::{Exception, OutOfMemory, Place};
use once_cell::race::OnceBox;
use std::alloc::Global;
use std::marker::Model;

/// One cell for each place, which is set once, when the place is resolved, and then read by any thread without waiting.
///
/// Contracts see the names of the cells, which tell them from all others.
#[derive(Drop)]
pub struct ResolutionCells {
    cells: Vec<OnceBox<u32>>,
}

impl Model for ResolutionCells {
    ghost use Rattle.std.specs.Prelude.{ℕ, List, map};
    ghost use Rattle.once_cell.specs.Once.{cell_name};

    ghost Value = { List ℕ };

    ghost view = { λ c. map cell_name c.cells.items };
}

/// The right to set each cell once: a box for each place that wasn't announced yet. Contracts see for which places it is there.
#[derive(Drop)]
pub struct Announcer {
    boxes: Vec<Option<Box<u32>>>,
}

impl Model for Announcer {
    ghost use Rattle.std.specs.Prelude.{List, Bool, map, is_some};

    ghost Value = { List Bool };

    ghost view = { λ a. map is_some a.boxes.items };
}

impl ResolutionCells {
    ghost use Rattle.shared_views.specs.RefusedNotes.{place_refused};

    /// Empty cells for this many places, and the announcer with a box for each. All memory is taken here.
    pub fn open(alloc: Global, places: u32) -> Result<(ResolutionCells, Announcer), OutOfMemory>
        ensures { IfOk result (λ r. (length r.0 ≡ places) × (r.1 ≡ replicate places true)) }
    {
        let mut cells = Vec::new(alloc);
        let mut boxes = Vec::new(alloc);
        for _ in 0..places {
            cells.push(OnceBox::new(alloc))?;
            boxes.push(Some(Box::new(alloc, 0u32)?))?;
        }
        Ok((ResolutionCells { cells }, Announcer { boxes }))
    }

    /// For how many places there are cells.
    pub fn places(&self) -> usize
        ensures { result ≡ length self.now }
    {
        self.cells.len()
    }

    /// A note of a place that knows nothing.
    pub fn note(&self, place: Place) -> PlaceNote
        requires { place < length self.now }
        ensures { result ≡ record { place = place; cell = slice_index_or self.now place 0; known = None } }
    {
        PlaceNote {
            place,
            note: self.cells[place as usize].note(),
        }
    }

    /// Sets the cell of the note's place, once.
    ///
    /// At `Err` the cell was set already: the note then knows the exception that stands there, and nothing is announced for this
    /// place any more. What the note knew it knows for ever.
    pub fn announce(
        &self,
        announcer: &mut Announcer,
        note: &mut PlaceNote,
        exception: Exception,
    ) -> Result<(), NoteRefused>
        requires ours { IsOf self.now note.old × (length announcer.old ≡ length self.now) }
        requires fresh { slice_index_or announcer.old note.old.place false ≡ true }
        ensures place { (note.new.place ≡ note.old.place) × (note.new.cell ≡ note.old.cell) }
        ensures known { IfOk result (λ _. note.new.known ≡ Some exception) }
        ensures kept { IfSome note.old.known (λ k. note.new.known ≡ Some k) }
        ensures standing { IfErr result (λ _. (x : ℕ) × (note.new.known ≡ Some x)) }
        ensures refused { IfErr result (λ r. place_refused r ≡ note.old.place) }
        ensures used { announcer.new ≡ slice_set announcer.old note.old.place false }
    {
        let place = note.place as usize;
        let boxes = &mut announcer.boxes;
        let Some(mut boxed) = boxes[place].take() else {
            unreachable!()
        };
        *boxed = exception;
        let refused = NoteRefused::of(note.place);
        match self.cells[place].set_as(boxed, &mut note.note) {
            Ok(()) => Ok(()),
            Err(_) => Err(refused),
        }
    }

    /// The exception that the cell of the note's place holds. It waits for nobody, and the note knows it from then on.
    pub fn resolved(&self, note: &mut PlaceNote) -> Option<Exception>
        requires ours { IsOf self.now note.old }
        ensures place { (note.new.place ≡ note.old.place) × (note.new.cell ≡ note.old.cell) }
        ensures known { IfSome result (λ e. (note.new.known ≡ Some e) × IfSome note.old.known (λ k. k ≡ e)) }
        ensures unknown { IfNone result ((note.old.known ≡ None) × (note.new.known ≡ None)) }
    {
        let place = note.place as usize;
        match self.cells[place].get_as(&mut note.note) {
            Some(exception) => Some(*exception),
            None => None,
        }
    }

    /// A second note of the same place, which knows as much.
    ///
    /// A note is copied without asking its cell, so nothing refuses here today; a cell that could would be the one cause.
    pub fn share(&self, note: &mut PlaceNote) -> Result<PlaceNote, NoteRefused>
        requires ours { IsOf self.now note.old }
        ensures same { note.new ≡ note.old }
        ensures shared { IfOk result (λ n. n ≡ note.old) }
        ensures refused { IfErr result (λ r. place_refused r ≡ note.old.place) }
    {
        Ok(PlaceNote {
            place: note.place,
            note: note.note.again(),
        })
    }

    /// Two notes of one place never know different exceptions. The call changes nothing.
    pub fn agree(&self, one: &mut PlaceNote, other: &mut PlaceNote)
        requires ours { IsOf self.now one.old × IsOf self.now other.old × (one.old.place ≡ other.old.place) }
        ensures same { (one.new ≡ one.old) × (other.new ≡ other.old) }
        ensures agree { IfSome one.old.known (λ x. IfSome other.old.known (λ y. x ≡ y)) }
    {
        let copy = other.note.again();
        one.note.compare(copy);
    }
}

/// Threads may share the cells, and take notes, and what keeps up with a journal, with them.
pub fn crosses_threads(cells: &ResolutionCells, told: &Announcement, bulletin: &Bulletin) {
    may_share(cells);
    may_cross(told);
    may_cross(bulletin);
}
