//! What observers read while the writer goes on, and the rule by which they read it.
ghost use Rattle.std.specs.Prelude.{◌≡◌, ◌<◌, fold, length, replicate, IfOk, None};
ghost use Rattle.shared_views.specs.inner.Boards.{row_after};

use crate::observed::Reading;
use crate::publications::{Publication, Publications};
use atomic_table::{Join, Split};
use caa_base::written::entry::{Object, OutOfMemory};
use crossbeam_utils::rule::{Outcome, Protocol};
use left_right::Absorb;
use std::alloc::{AllocError, Global};

/// The last value that each object was given, if it was given one, and the publications that gave them.
#[derive(Drop)]
pub struct Board {
    pub(crate) given: Vec<Option<i64>>,
    pub(crate) publications: Publications,
}

/// The publications that a reader knows of, if any. No value of it is made.
pub struct View {
    pub known: Option<Publications>,
    pub looks: u64,
}

impl Board {
    ghost use Rattle.shared_views.specs.inner.Boards.{IsRight};
    ghost use Rattle.shared_views.specs.Committing.{IsReading};

    /// A board of this many objects, on which nothing was published.
    pub(crate) fn blank(
        alloc: Global,
        objects: u32,
        publications: Publications,
    ) -> Result<Board, OutOfMemory>
        ensures given { IfOk result (λ b. b.given.items ≡ replicate objects None) }
        ensures publications { IfOk result (λ b. b.publications ≡ publications) }
    {
        let mut given = Vec::new(alloc);
        for _ in 0..objects {
            given.push(None)?;
        }
        Ok(Board {
            given,
            publications,
        })
    }

    /// The value of an object after all publications on it.
    pub(crate) fn reading(&self, object: Object, initials: &[i64]) -> Reading
        requires object { object < length initials.now }
        requires right { IsRight self.now }
        ensures { IsReading initials.now self.now.publications object result }
    {
        let initial = initials[object as usize];
        let given = match self.given.get(object as usize) {
            Some(given) => *given,
            None => None,
        };
        Reading {
            ends: self.publications.ends(),
            value: given.unwrap_or(initial),
        }
    }
}

/// Gives these objects their new values.
fn give(given: &mut Vec<Option<i64>>, changes: &[(Object, i64)])
    ensures { given.new.items ≡ fold row_after given.old.items changes.now }
{
    for change in changes {
        let object = change.0 as usize;
        if object < given.len() {
            given[object] = Some(change.1);
        }
    }
}

impl Absorb<Publication> for Board {
    ghost use Rattle.shared_views.specs.inner.Boards.{shown, shown_after};

    type State = ([Option<i64>; 0], Publications);

    ghost state = { shown };

    ghost applied = { shown_after };

    ghost never_fails = { Unit {0} };

    fn absorb_first(&mut self, operation: &Publication, _other: &Board) -> Result<(), AllocError> {
        give(&mut self.given, &operation.changes);
        self.publications = operation.publications.again();
        Ok(())
    }
}

/// The rule of the board.
pub struct Published;

impl Protocol<Board, View> for Published {
    ghost use Rattle.std.specs.Prelude.{None};
    ghost use Rattle.shared_views.specs.inner.Boards.{Keeps};

    ghost holds = { Keeps };

    ghost first = { record { known = None; looks = 0 } };
}

/// What a reader sees, and what the writer shows.
pub struct Looks;

impl Outcome<Board, View> for Looks {
    ghost use Rattle.shared_views.specs.inner.Boards.{Sees};

    ghost then = { Sees };
}

/// What the writer tells a new reader.
pub struct Tells;

impl Split<View> for Tells {
    ghost left = { λ v. v };

    ghost right = { λ v. v };
}

impl Join<View> for Tells {
    ghost use Rattle.std.specs.Prelude.{None};

    ghost both = { λ v w. record { known = w.known; looks = v.looks } };

    ghost spent = { record { known = None; looks = 0 } };
}
