//! The call of `left_right` that publishes takes its writer by value, and a committed writer has it behind a reference:
//! `replace_with` of the library `core` lends it. That a list which was just made isn't open yet no contract of `logbook` says; so
//! `Head::open` compares a word, and answers as where no memory is found if it were.

ghost use Rattle.std.specs.Prelude.{◌≡◌, ◌<◌, ◌∷◌, ◌++◌, [], true, false, All, length, map, replicate, drop, None, Some, IfOk, OnOk, MatchResult};
ghost use Rattle.left_right.specs.Sides.{view};
ghost use Rattle.shared_views.specs.inner.Boards.{IsRight, Follows};
ghost use Rattle.shared_views.specs.Publications.{Begins};
ghost use Rattle.shared_views.specs.Committing.{Committed, watching, placeless, IsReading, MayEnter};
ghost use Rattle.place_plan.specs.Plans.Places.{initials_of};

use crate::board::{Board, Looks};
use crate::observed::Reading;
use crate::observer::{BoardWriter, Observer};
use crate::publication_refused::PublicationRefused;
use crate::publications::{Head, Publications};
use crate::send_sync::may_cross;
use caa_base::written::entry::{Object, OutOfMemory};
use core::mem::replace_with;
use left_right::writer::Writer;
use place_plan::plans::plan::Plan;
use std::alloc::Global;
use std::marker::Model;
use std::sync::Wait;
use thiserror::Error;

/// Why nothing was published.
#[derive(Clone, Copy, Debug, PartialEq, Eq, Error)]
pub enum PublishError {
    /// No memory was found. From now on the view is stale.
    #[error("out of memory")]
    OutOfMemory,
    /// An earlier publication found no memory.
    #[error("the view is stale")]
    Stale,
}

/// Publishes the committed values of the objects, which its observers read.
///
/// Contracts see the initial values, all publications, whether the view is stale, and what was entered in the list. It isn't
/// dropped: `end` ends it.
pub struct CommittedWriter {
    writer: BoardWriter,
    head: Head,
    initials: Vec<i64>,
    refused: Option<PublicationRefused>,
}

impl Model for CommittedWriter {
    ghost use Rattle.shared_views.specs.Committing.{Committed};
    ghost use Rattle.shared_views.specs.inner.Seating.{committed, IsInOrder};

    ghost Value = { Committed };

    ghost view = { committed };

    ghost invariant = { IsInOrder };
}

/// A writer that shows a board of this many objects, on which nothing was published.
fn showing<R: Wait>(
    rt: &R,
    alloc: Global,
    objects: u32,
    publications: &Publications,
    observers: u32,
) -> Result<BoardWriter, OutOfMemory>
    requires none { publications.now.list ≡ [] }
    ensures given { IfOk result (λ w. w.desk.shown.value.given.items ≡ replicate objects None) }
    ensures publications { IfOk result (λ w. w.desk.shown.value.publications ≡ publications.now) }
    ensures right { IfOk result (λ w. IsRight w.desk.shown.value) }
    ensures known { IfOk result (λ w. (view w.desk.place).known ≡ Some publications.now) }
    ensures idle { IfOk result (λ w. drop w.behind w.log.items ≡ []) }
{
    let first = Board::blank(alloc, objects, publications.again())?;
    let second = Board::blank(alloc, objects, publications.again())?;
    let places = observers.max(1) as usize;
    let writer = Writer::new(alloc, first, second, places)?;
    let (writer, _shown) = writer.publish_as::<Looks, R>(rt);
    Ok(writer)
}

/// Gives each observer a place at the board, as far as there are any.
fn seat_all(writer: &mut BoardWriter, observers: &mut Vec<Observer>)
    requires writer { (view writer.old.desk.place).known ≡ Some writer.old.desk.shown.value.publications }
    requires book { All (λ o. o.known.book ≡ writer.old.desk.shown.value.publications.book) observers.old.items }
    ensures same { map placeless observers.new.items ≡ map placeless observers.old.items }
    ensures shown { (writer.new.desk.shown ≡ writer.old.desk.shown) × (writer.new.log ≡ writer.old.log)
        × (writer.new.behind ≡ writer.old.behind) }
{
    for index in 0..observers.len() {
        observers[index].take_place(writer);
    }
}

/// Shows observers what waits to be shown, which is one publication.
fn show<R: Wait>(writer: BoardWriter, rt: &R) -> (BoardWriter, ())
    requires right { IsRight writer.desk.shown.value }
    requires waits { (p : _) × (drop writer.behind writer.log.items ≡ p ∷ []) × Follows writer.desk.shown.value p }
    ensures right { IsRight result.0.desk.shown.value }
    ensures wide { length result.0.desk.shown.value.given.items ≡ length writer.desk.shown.value.given.items }
    ensures publications { (p : _) → drop writer.behind writer.log.items ≡ p ∷ []
        → result.0.desk.shown.value.publications ≡ p.publications }
    ensures idle { drop result.0.behind result.0.log.items ≡ [] }
{
    let (writer, _shown) = writer.publish_as::<Looks, R>(rt);
    (writer, ())
}

impl CommittedWriter {
    ghost use Rattle.std.specs.Prelude.{◌↔◌, IsTrue, is_err, is_some, Err};
    ghost use Rattle.shared_views.specs.declared.committed_writer.PublishError.TheVariants.{Stale};

    /// A writer that has published nothing, and so many observers.
    ///
    /// An observer to which `left_right` gave no place is refused each reading. It may wait.
    pub fn open<R: Wait>(
        rt: &R,
        alloc: Global,
        plan: &Plan,
        observers: u32,
    ) -> Result<(CommittedWriter, Vec<Observer>), OutOfMemory>
        ensures initials { IfOk result (λ r. r.0.initials ≡ initials_of plan.now) }
        ensures none { IfOk result (λ r. (r.0.publications.list ≡ []) × (r.0.entered ≡ r.0.publications)) }
        ensures fresh { IfOk result (λ r. r.0.is_stale ≡ false) }
        ensures observers { IfOk result (λ r. map placeless r.1.items ≡ replicate observers (watching r.0)) }
    {
        let initials = plan.initials(alloc)?;
        let head = Head::open()?;
        let publications = head.reached();
        let mut seats = Observer::all_apart(alloc, &initials, &publications, observers)?;
        let mut writer = showing(rt, alloc, plan.objects(), &publications, observers)?;
        seat_all(&mut writer, &mut seats);
        let committed = CommittedWriter {
            writer,
            head,
            initials,
            refused: None,
        };
        Ok((committed, seats))
    }

    /// Publishes these changes, which observers see all at one step.
    ///
    /// It waits for readings that are under way. Where it finds no memory, what observers read stays as it is for good: the view
    /// is stale. After 2^64 - 1 publications it answers as where no memory is found.
    pub fn publish<R: Wait>(
        &mut self,
        rt: &R,
        alloc: Global,
        changes: &[(Object, i64)],
    ) -> Result<(), PublishError>
        requires objects { All (λ c. c.0 < length self.old.initials) changes.now }
        ensures initials { self.new.initials ≡ self.old.initials }
        ensures book { self.new.publications.book ≡ self.old.publications.book }
        ensures published { MatchResult result
            (λ _. self.new.publications.list ≡ self.old.publications.list ++ changes.now ∷ [])
            (λ _. self.new.publications ≡ self.old.publications) }
        ensures entered { MatchResult result
            (λ _. self.new.entered ≡ self.new.publications)
            (λ _. MayEnter self.old.entered changes.now self.new.entered) }
        ensures marked { self.new.is_stale ≡ is_err result }
        ensures stale { (result ≡ Err Stale) ↔ IsTrue self.old.is_stale }
        ensures late { IsTrue self.old.is_stale → self.new ≡ self.old }
    {
        if self.is_stale() {
            return Err(PublishError::Stale);
        }
        match self.add(rt, alloc, changes) {
            Ok(()) => Ok(()),
            Err(OutOfMemory) => {
                self.refused = Some(PublicationRefused::new());
                Err(PublishError::OutOfMemory)
            }
        }
    }

    /// Adds a publication of these changes, and shows it.
    fn add<R: Wait>(
        &mut self,
        rt: &R,
        alloc: Global,
        changes: &[(Object, i64)],
    ) -> Result<(), OutOfMemory>
        requires objects { All (λ c. c.0 < length self.old.initials) changes.now }
        requires fresh { self.old.is_stale ≡ false }
        ensures initials { self.new.initials ≡ self.old.initials }
        ensures fresh { OnOk result (self.new.is_stale ≡ false) }
        ensures book { self.new.publications.book ≡ self.old.publications.book }
        ensures added { MatchResult result
            (λ _. self.new.publications.list ≡ self.old.publications.list ++ changes.now ∷ [])
            (λ _. self.new.publications ≡ self.old.publications) }
        ensures entered { MatchResult result
            (λ _. self.new.entered ≡ self.new.publications)
            (λ _. MayEnter self.old.entered changes.now self.new.entered) }
    {
        let mut list = Vec::new(alloc);
        list.extend_from_slice(changes)?;
        let publication = self.head.enter(list)?;
        match self.writer.append(publication) {
            Ok(()) => {
                replace_with(&mut self.writer, rt, show);
                Ok(())
            }
            Err(_refused) => {
                self.refused = Some(PublicationRefused::new());
                Err(OutOfMemory)
            }
        }
    }

    /// A law: what an observer of this writer knows begins what the writer has entered in its list, which are its publications
    /// unless it is stale. Nothing changes.
    pub fn knows_no_more(&mut self, observer: &Observer)
        requires ours { observer.now.known.book ≡ self.old.publications.book }
        ensures same { self.new ≡ self.old }
        ensures begins { Begins observer.now.known self.old.entered }
        ensures whole { self.old.is_stale ≡ false → self.old.entered ≡ self.old.publications }
    {
        self.head.knows_no_more(observer.known());
    }

    /// Tells an observer what was published.
    pub fn tell(&mut self) -> Publications
        ensures same { self.new ≡ self.old }
        ensures told { result ≡ self.old.publications }
    {
        self.writer.published().publications.again()
    }

    /// The value of an object after all publications.
    pub fn last(&self, object: Object) -> Reading
        requires { object < length self.now.initials }
        ensures { IsReading self.now.initials self.now.publications object result }
    {
        self.writer.published().reading(object, &self.initials)
    }

    /// Whether an earlier publication found no memory.
    pub fn is_stale(&self) -> bool
        ensures { result ≡ self.now.is_stale }
    {
        self.refused.is_some()
    }

    /// The refusal of a publication, which is there just where the view is stale.
    pub fn refusal(&self) -> Option<PublicationRefused>
        ensures { is_some result ≡ self.now.is_stale }
    {
        self.refused
    }

    /// Ends the writer. It waits for readings that are under way. Afterwards its observers may be refused.
    pub fn end<R: Wait>(self, rt: &R) {
        let CommittedWriter {
            writer,
            head: _head,
            initials: _initials,
            refused: _,
        } = self;
        drop(writer.take(rt));
    }
}

/// A writer, an observer and what the one tells the other may go to another thread.
pub fn crosses_threads(writer: &CommittedWriter, observer: &Observer, publications: &Publications) {
    may_cross(writer);
    may_cross(observer);
    may_cross(publications);
}
