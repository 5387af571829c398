//! The rule of the board doesn't know what a writer told. So `read` compares two numbers, and refuses a board with fewer
//! publications than the observer knows of. It meets none as long as `left_right` shows what was published last.

ghost use Rattle.std.specs.Prelude.{◌≡◌, ◌<◌, ◌+◌, ◌⊎◌, IsTrue, length, replicate, Some, IfSome, IfNone, IfOk, IfErr, OnOk, MatchOption};
ghost use Rattle.left_right.specs.Sides.{view};
ghost use Rattle.shared_views.specs.inner.Boards.{IsRight};
ghost use Rattle.shared_views.specs.Publications.{Begins};
ghost use Rattle.shared_views.specs.Committing.{Watching, IsReading, unplaced};

use crate::board::{Board, Looks, Published, Tells, View};
use crate::observed::{ReadRefused, Reading};
use crate::publications::{Publication, Publications};
use caa_base::written::entry::{Object, OutOfMemory};
use left_right::reader::Reader;
use left_right::writer::Writer;
use std::alloc::Global;
use std::marker::Model;

/// The writer of the board.
pub(crate) type BoardWriter = Writer<Board, Publication, View, Published>;

/// Reads committed values from any thread, and waits for nobody.
///
/// Contracts see the initial values, the publications that it has seen or was told of, and whether it has a place.
#[derive(Drop)]
pub struct Observer {
    reader: Option<Reader<Board, View, Published>>,
    initials: Vec<i64>,
    known: Publications,
}

impl Model for Observer {
    ghost use Rattle.shared_views.specs.Committing.{Watching};
    ghost use Rattle.shared_views.specs.inner.Seating.{watching_view, IsPlaced};

    ghost Value = { Watching };

    ghost view = { watching_view };

    ghost invariant = { IsPlaced };
}

impl Observer {
    /// An observer that has no place yet.
    fn apart(
        alloc: Global,
        initials: &[i64],
        publications: &Publications,
    ) -> Result<Observer, OutOfMemory>
        ensures { IfOk result (λ o. o ≡ unplaced initials.now publications.now) }
    {
        let mut copy = Vec::new(alloc);
        copy.extend_from_slice(initials)?;
        Ok(Observer {
            reader: None,
            initials: copy,
            known: publications.again(),
        })
    }

    /// So many observers that have no place yet.
    pub(crate) fn all_apart(
        alloc: Global,
        initials: &[i64],
        publications: &Publications,
        count: u32,
    ) -> Result<Vec<Observer>, OutOfMemory>
        ensures { IfOk result (λ v. v.items ≡ replicate count (unplaced initials.now publications.now)) }
    {
        let mut observers = Vec::new(alloc);
        for _ in 0..count {
            observers.push(Observer::apart(alloc, initials, publications)?)?;
        }
        Ok(observers)
    }

    /// Takes a place at the board, where `left_right` has one.
    pub(crate) fn take_place(&mut self, writer: &mut BoardWriter)
        requires writer { (view writer.old.desk.place).known ≡ Some writer.old.desk.shown.value.publications }
        requires book { writer.old.desk.shown.value.publications.book ≡ self.old.known.book }
        ensures same { (self.new.initials ≡ self.old.initials) × (self.new.known ≡ self.old.known) }
        ensures shown { (writer.new.desk.shown ≡ writer.old.desk.shown) × (writer.new.log ≡ writer.old.log)
            × (writer.new.behind ≡ writer.old.behind) }
        ensures writer { (view writer.new.desk.place).known ≡ Some writer.new.desk.shown.value.publications }
    {
        if let Ok(mut reader) = writer.factory().reader() {
            reader.learn::<Tells>(writer.tell::<Tells>());
            self.reader = Some(reader);
        }
    }

    /// The value of an object after all publications that the observer then knows of, which are no fewer than before, nor than the
    /// board showed at a look within this call.
    ///
    /// A refusal leaves what the observer knows as it was, and an observer without a place is always refused.
    pub fn read(&mut self, object: Object) -> Result<Reading, ReadRefused>
        requires object { object < length self.old.initials }
        ensures initials { self.new.initials ≡ self.old.initials }
        ensures place { self.new.is_placed ≡ self.old.is_placed }
        ensures placed { IfOk result (λ _. IsTrue self.old.is_placed) }
        ensures known { Begins self.old.known self.new.known }
        ensures read { IfOk result (λ r. IsReading self.new.initials self.new.known object r) }
        ensures refused { IfErr result (λ _. self.new.known ≡ self.old.known) }
        ensures looked { OnOk result (self.new.looks ≡ self.old.looks + 1) }
        ensures fresh { OnOk result (MatchOption self.new.shown ⊥ (λ k. Begins k self.new.known)) }
    {
        let Some(reader) = self.reader.take() else {
            return Err(ReadRefused::new());
        };
        let reading = match reader.enter_as::<Looks>() {
            Ok(reading) => reading,
            Err(reader) => {
                self.reader = Some(reader);
                return Err(ReadRefused::new());
            }
        };
        let found = self.look_at(reading.get(), object);
        self.reader = Some(reading.leave());
        found.ok_or_else(ReadRefused::new)
    }

    /// The value of an object on this board, unless the board is older than what the observer knows of.
    fn look_at(&mut self, board: &Board, object: Object) -> Option<Reading>
        requires object { object < length self.old.initials }
        requires right { IsRight board.now }
        requires book { board.now.publications.book ≡ self.old.known.book }
        ensures initials { self.new.initials ≡ self.old.initials }
        ensures place { self.new.is_placed ≡ self.old.is_placed }
        ensures known { Begins self.old.known self.new.known }
        ensures some { IfSome result (λ r. IsReading self.new.initials self.new.known object r) }
        ensures none { IfNone result (self.new ≡ self.old) }
        ensures reader { (self.new.looks ≡ self.old.looks) × (self.new.shown ≡ self.old.shown) }
        ensures all { IfSome result (λ _. Begins board.now.publications self.new.known) }
    {
        if board.publications.ends() < self.known.ends() {
            return None;
        }
        self.known = board.publications.longer(&self.known);
        Some(board.reading(object, &self.initials))
    }

    /// Learns what its writer told. From then on it reads no fewer publications.
    pub fn learn(&mut self, told: Publications)
        requires ours { told.book ≡ self.old.known.book }
        ensures initials { self.new.initials ≡ self.old.initials }
        ensures place { self.new.is_placed ≡ self.old.is_placed }
        ensures known { Begins self.old.known self.new.known }
        ensures told { Begins told self.new.known }
        ensures no_more { (self.new.known ≡ self.old.known) ⊎ (self.new.known ≡ told) }
    {
        self.known = self.known.longer(&told);
    }

    /// The publications that it knows of.
    pub(crate) fn known(&self) -> &Publications
        ensures { result.now ≡ self.now.known }
    {
        &self.known
    }
}
