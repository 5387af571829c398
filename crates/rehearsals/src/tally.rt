ghost use Rattle.std.specs.Prelude.{◌≡◌, ◌≤◌, ◌<◌, ◌+◌, ◌-◌, ◌^◌, ℕ, [], length, OnOk, IfOk, IfSome, IfNone, slice_index_or, true, false};
ghost use Rattle.rehearsals.specs.Tallies.{AreWithin, count_of, is_same, is_shown, one_if};
ghost use Rattle.rehearsals.specs.declared.facts.Fact.{Fact as Shown};
ghost use Rattle.rehearsals.specs.declared.tally.Row.{Row as RowValue};
ghost use Rattle.rehearsals.specs.inner.Counting.{NoneAmong, bumped, counted};

use crate::facts::Fact;
use crate::keys::is_same;
use caa_base::written::entry::OutOfMemory;
use std::alloc::Global;
use std::marker::Model;

/// A fact, and which journals showed it.
#[derive(Clone, Copy)]
pub struct Row {
    pub fact: Fact,
    /// How many journals showed it.
    pub count: u32,
    /// The number of the first that did.
    pub first: u32,
    /// The number of the last that did.
    pub last: u32,
}

/// How many journals showed what, of those that were noted. They are numbered from 1.
#[derive(Drop)]
pub struct Tally {
    rows: Vec<Row>,
    noted: u32,
}

impl Model for Tally {
    ghost use Rattle.rehearsals.specs.Tallies.{AreWithin, Tally};

    ghost Value = { Tally };

    ghost view = { λ t. record { rows = t.rows.items; noted = t.noted } };

    ghost invariant = { λ t. AreWithin t.noted t.rows.items };
}

/// Where a fact stands first among these rows.
fn row_of(rows: &[Row], fact: Fact) -> Option<usize>
    ensures within { IfSome result (λ i. i < length rows.now) }
    ensures before { IfSome result (λ i. NoneAmong i rows.now fact) }
    ensures found { IfSome result (λ i. (d : RowValue) → is_same fact (slice_index_or rows.now i d).fact ≡ true) }
    ensures absent { IfNone result (NoneAmong (length rows.now) rows.now fact) }
{
    for (index, row) in rows.iter().enumerate() {
        if is_same(fact, row.fact) {
            return Some(index);
        }
    }
    None
}

/// A row whose fact the journal of this number shows: it is counted once for each journal.
fn bumped(row: Row, number: u32) -> Row
    requires { row.count < 2 ^ 32 - 1 }
    ensures { result ≡ bumped number row }
{
    if row.last == number {
        row
    } else {
        Row {
            count: row.count + 1,
            last: number,
            ..row
        }
    }
}

/// Counts a fact for the journal of this number, unless it was counted for it.
fn count(rows: &mut Vec<Row>, fact: Fact, number: u32) -> Result<(), OutOfMemory>
    requires within { AreWithin number rows.old.items }
    requires few { number < 2 ^ 32 - 1 }
    ensures { OnOk result (rows.new.items ≡ counted number fact rows.old.items) }
{
    match row_of(rows, fact) {
        Some(index) => {
            let row = rows[index];
            rows[index] = bumped(row, number);
        }
        None => rows.push(Row {
            fact,
            count: 1,
            first: number,
            last: number,
        })?,
    }
    Ok(())
}

impl Tally {
    /// No journal was noted.
    pub fn new(alloc: Global) -> Self
        ensures rows { result.rows ≡ [] }
        ensures noted { result.noted ≡ 0 }
    {
        Tally {
            rows: Vec::new(alloc),
            noted: 0,
        }
    }

    /// The facts that were shown, in the order in which they first were.
    pub fn rows(&self) -> &[Row]
        ensures { result.now ≡ self.now.rows }
    {
        self.rows.as_slice()
    }

    /// How many journals were noted.
    pub fn noted(&self) -> u32
        ensures { result ≡ self.now.noted }
    {
        self.noted
    }

    /// The row of a fact, if some journal showed it.
    pub fn row(&self, fact: &Fact) -> Option<&Row> {
        let index = row_of(&self.rows, *fact)?;
        self.rows.as_slice().get(index)
    }

    /// Takes note of what the next journal shows. Each fact is counted once, however often it stands there.
    ///
    /// Where no memory is found, the tally says nothing of what was counted.
    pub fn note(self, facts: &[Fact]) -> Result<Self, OutOfMemory>
        requires few { self.noted < 2 ^ 32 - 2 }
        ensures counts { IfOk result (λ tally. (f : Shown) → count_of tally.rows f ≡ count_of self.rows f + one_if (is_shown facts.now f)) }
        ensures noted { IfOk result (λ tally. tally.noted ≡ self.noted + 1) }
    {
        let Tally { mut rows, noted } = self;
        let number = noted + 1;
        for fact in facts {
            count(&mut rows, *fact, number)?;
        }
        Ok(Tally {
            rows,
            noted: number,
        })
    }
}
