ghost use Rattle.std.specs.Prelude.{◌≡◌, ◌↔◌, ◌<◌, ◌++◌, ◌∷◌, [], slice_index_or, length, OnOk, IfSome, IsSome};
ghost use Rattle.std.specs.Borrow.{sem};
ghost use Rattle.script_checker.specs.inner.Lending.{LendsRow};

use std::alloc::{AllocError, Global};
use std::marker::Model;

/// A table that grows at its end, seen as the list of its rows.
#[derive(Drop)]
pub struct Table<T> {
    rows: Vec<T>,
}

impl<T> Model for Table<T> {
    ghost use Rattle.std.specs.Prelude.{List};

    ghost Value = { List T };

    ghost view = { λ t. t.rows.items };
}

impl<T> Table<T> {
    /// A table without rows.
    pub fn new(alloc: Global) -> Self
        ensures { result ≡ [] }
    {
        Table {
            rows: Vec::new(alloc),
        }
    }

    /// Adds a row at the end.
    pub fn push(&mut self, row: T) -> Result<(), AllocError>
    where
        T: Drop,
        ensures { OnOk result (self.new ≡ self.old ++ row ∷ []) }
    {
        self.rows.push(row)?;
        Ok(())
    }

    /// All rows, in order.
    pub fn as_slice(&self) -> &[T]
        ensures { result.now ≡ self.now }
    {
        self.rows.as_slice()
    }

    /// A row to be changed, where there is one of this number.
    pub fn get_mut(&mut self, number: usize) -> Option<&mut T>
        ensures* lends { sem 𝓛 (LendsRow T.row self.entry number result) }
        ensures found { IsSome result ↔ (number < length self.old) }
        ensures row { IfSome result (λ row. row.now ≡ slice_index_or self.old number row.now) }
    {
        self.rows.get_mut(number)
    }

    /// The rows as a vector.
    pub fn into_vec(self) -> Vec<T>
        ensures { result.items ≡ self }
    {
        self.rows
    }
}
