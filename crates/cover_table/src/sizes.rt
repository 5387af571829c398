//! A table that knows its size when it runs is one of five, and where such a choice stands it takes the room of the largest, 18
//! KB, though the table of eight numbers has 200 bytes. A script may have 256 graphs, most of them small, so a graph keeps one of
//! five boxes.

ghost use Rattle.std.specs.Prelude.{◌≡◌, ◌<◌, ◌≤◌, ◌↔◌, ℕ, ◌∷◌, [], length, All, IfOk, IfErr, OnOk, IsErrOf};
ghost use Rattle.cover_table.specs.Cover.{covers, order_of, order_of_rows, IsLeastCover, IsOrder, IsSound, IsFirstWithoutLeast, most_exceptions};
ghost use Rattle.cover_table.specs.SizedTables.{least_size, LacksTable};

use crate::joins::JoinTable;
use crate::order::{NoLeast, Order, Row};
use std::alloc::{AllocError, Global};
use std::marker::Model;
use thiserror::Error;

/// A table of least covers of the least size that holds its order.
#[derive(Drop)]
enum Sized {
    UpTo8(JoinTable<8>),
    UpTo16(JoinTable<16>),
    UpTo32(JoinTable<32>),
    UpTo64(JoinTable<64>),
    UpTo128(JoinTable<128>),
}

/// The same in memory of its own, which is as much as a table of its size needs.
#[derive(Drop)]
enum SizedBox {
    UpTo8(Box<JoinTable<8>>),
    UpTo16(Box<JoinTable<16>>),
    UpTo32(Box<JoinTable<32>>),
    UpTo64(Box<JoinTable<64>>),
    UpTo128(Box<JoinTable<128>>),
}

/// The sizes of tables, the least first.
///
/// `with` asks a table, whatever its size; `same` makes a table of the same size of it; `fitting`
/// makes one of the least size that holds `count` numbers, or hands on why there is none; `of_size`
/// does so for a size that is given.
macro_rules! sizes {
    (with $sizes:ident, $sized:expr, $table:ident => $answer:expr) => {
        match $sized {
            $sizes::UpTo8($table) => $answer,
            $sizes::UpTo16($table) => $answer,
            $sizes::UpTo32($table) => $answer,
            $sizes::UpTo64($table) => $answer,
            $sizes::UpTo128($table) => $answer,
        }
    };
    (same $sizes:ident, $sized:expr, $table:ident => $answer:expr) => {
        match $sized {
            $sizes::UpTo8($table) => $sizes::UpTo8($answer),
            $sizes::UpTo16($table) => $sizes::UpTo16($answer),
            $sizes::UpTo32($table) => $sizes::UpTo32($answer),
            $sizes::UpTo64($table) => $sizes::UpTo64($answer),
            $sizes::UpTo128($table) => $sizes::UpTo128($answer),
        }
    };
    (fitting $any:ident, $sizes:ident, $count:expr, $table:expr) => {
        if $count <= 8 {
            sizes!(of_size $any, $sizes, UpTo8, $table)
        } else if $count <= 16 {
            sizes!(of_size $any, $sizes, UpTo16, $table)
        } else if $count <= 32 {
            sizes!(of_size $any, $sizes, UpTo32, $table)
        } else if $count <= 64 {
            sizes!(of_size $any, $sizes, UpTo64, $table)
        } else {
            sizes!(of_size $any, $sizes, UpTo128, $table)
        }
    };
    (of_size $any:ident, $sizes:ident, $size:ident, $table:expr) => {
        match $table {
            Ok(table) => Ok($any {
                sized: $sizes::$size(table),
            }),
            Err(lacking) => Err(lacking),
        }
    };
}

/// A table of least covers that knows its size when it runs, seen as the order.
///
/// It has room for 8, 16, 32, 64 or 128 numbers: the first of these that its order fits in. Where it
/// stands it takes as much memory as the largest; many that are to be kept are better boxed, as
/// [`BoxedTable`].
#[derive(Drop)]
pub struct AnyTable {
    sized: Sized,
}

impl Model for AnyTable {
    ghost use Rattle.cover_table.specs.Cover.{CoverOrder};

    ghost Value = { CoverOrder };

    ghost use Rattle.cover_table.specs.inner.TablesOfSizes.{order_of_sized, HasLeastSize};

    ghost view = { λ t. order_of_sized t.sized };

    ghost invariant = { λ t. HasLeastSize t.sized };
}

/// A table of least covers in memory of its own, seen as the order.
#[derive(Drop)]
pub struct BoxedTable {
    sized: SizedBox,
}

impl Model for BoxedTable {
    ghost use Rattle.cover_table.specs.Cover.{CoverOrder};

    ghost Value = { CoverOrder };

    ghost use Rattle.cover_table.specs.inner.TablesOfSizes.{order_of_boxed};

    ghost view = { λ t. order_of_boxed t.sized };
}

/// Why an order has no table in memory of its own.
#[derive(Clone, Copy, Debug, PartialEq, Eq, Error)]
pub enum TableError {
    /// `a` and `b` are the first numbers without a least cover.
    #[error("{a} and {b} have no least common cover")]
    NoLeast { a: u32, b: u32 },
    /// No memory was found.
    #[error("out of memory")]
    OutOfMemory,
}

/// An order with these rows and empty ones past them.
fn padded<const N: usize>(rows: &[Row]) -> Order<N>
    requires limit { N ≤ most_exceptions }
    requires fits { length rows.now ≤ N }
    ensures { order_of result.count result.rows ≡ order_of_rows rows.now }
{
    let mut padded = [0; N];
    padded[..rows.len()].copy_from_slice(rows);
    Order {
        count: rows.len() as u32,
        rows: padded,
    }
}

/// The table of this size of the order that these rows tell.
fn table_of<const N: usize>(rows: &[Row]) -> Result<JoinTable<N>, NoLeast>
    requires limit { N ≤ most_exceptions }
    requires fits { length rows.now ≤ N }
    requires order { IsOrder (order_of_rows rows.now) }
    ensures same { IfOk result (λ table. table ≡ order_of_rows rows.now) }
    ensures sound { OnOk result (IsSound (order_of_rows rows.now)) }
    ensures no_least { (a b : ℕ) →
        IsErrOf result (record { a = a; b = b }) ↔ IsFirstWithoutLeast (order_of_rows rows.now) a b }
{
    JoinTable::from_order(&padded(rows))
}

/// The table of this size of the order that these rows tell, in memory of its own.
fn boxed_of<const N: usize>(alloc: Global, rows: &[Row]) -> Result<Box<JoinTable<N>>, TableError>
    requires limit { N ≤ most_exceptions }
    requires fits { length rows.now ≤ N }
    requires order { IsOrder (order_of_rows rows.now) }
    ensures same { IfOk result (λ table. table.value ≡ order_of_rows rows.now) }
    ensures sound { OnOk result (IsSound (order_of_rows rows.now)) }
    ensures refused { IfErr result (LacksTable (order_of_rows rows.now)) }
{
    match table_of(rows) {
        Ok(table) => match Box::new(alloc, table) {
            Ok(boxed) => Ok(boxed),
            Err(_) => Err(TableError::OutOfMemory),
        },
        Err(NoLeast { a, b }) => Err(TableError::NoLeast { a, b }),
    }
}

impl AnyTable {
    /// The table of an order on `count` numbers, one row for each.
    ///
    /// Where two numbers have no least cover, the first two such are named.
    pub fn from_rows(count: u32, rows: &[Row]) -> Result<AnyTable, NoLeast>
        requires limit { count ≤ most_exceptions }
        requires rows { length rows.now ≡ count }
        requires order { IsOrder (order_of_rows rows.now) }
        ensures same { IfOk result (λ table. table ≡ order_of_rows rows.now) }
        ensures sound { OnOk result (IsSound (order_of_rows rows.now)) }
        ensures no_least { (a b : ℕ) →
            IsErrOf result (record { a = a; b = b }) ↔ IsFirstWithoutLeast (order_of_rows rows.now) a b }
    {
        sizes!(fitting AnyTable, Sized, count, table_of(rows))
    }

    /// How many numbers the order has.
    pub fn count(&self) -> u32
        ensures { result ≡ self.now.count }
    {
        sizes!(with Sized, &self.sized, table => table.count())
    }

    /// How many numbers the table has room for.
    pub fn size(&self) -> usize
        ensures { result ≡ least_size self.now.count }
    {
        sizes!(with Sized, &self.sized, table => table.size())
    }

    /// Whether `a` covers `b`.
    pub fn covers(&self, a: u32, b: u32) -> bool
        requires a_in { a < self.now.count }
        requires b_in { b < self.now.count }
        ensures { result ≡ covers self.now a b }
    {
        sizes!(with Sized, &self.sized, table => table.covers(a, b))
    }

    /// The least cover of two numbers, by one look-up.
    pub fn join(&self, a: u32, b: u32) -> u32
        requires a_in { a < self.now.count }
        requires b_in { b < self.now.count }
        ensures { IsLeastCover self.now (a ∷ b ∷ []) result }
    {
        sizes!(with Sized, &self.sized, table => table.join(a, b))
    }

    /// The least cover of a set of numbers, by one look-up for each.
    pub fn least(&self, set: &[u32]) -> u32
        requires some { 0 < length set.now }
        requires in_range { All (λ x. x < self.now.count) set.now }
        ensures { IsLeastCover self.now set.now result }
    {
        sizes!(with Sized, &self.sized, table => table.least(set))
    }

    /// An order that has a table is sound: each two of its numbers have a least cover.
    pub fn is_sound(&self)
        ensures sound { IsSound self.now }
        ensures few { self.now.count ≤ most_exceptions }
    {
        sizes!(with Sized, &self.sized, table => table.is_sound())
    }

    /// Another table of the same order.
    pub fn copy(&self) -> Self
        ensures { result ≡ self.now }
    {
        AnyTable {
            sized: sizes!(same Sized, &self.sized, table => table.copy()),
        }
    }
}

impl BoxedTable {
    /// The table of an order on `count` numbers, one row for each.
    ///
    /// Where two numbers have no least cover, the first two such are named. Memory is asked for once
    /// the table is made, so only an order that has one can come to `OutOfMemory`.
    pub fn from_rows(alloc: Global, count: u32, rows: &[Row]) -> Result<BoxedTable, TableError>
        requires limit { count ≤ most_exceptions }
        requires rows { length rows.now ≡ count }
        requires order { IsOrder (order_of_rows rows.now) }
        ensures same { IfOk result (λ table. table ≡ order_of_rows rows.now) }
        ensures sound { OnOk result (IsSound (order_of_rows rows.now)) }
        ensures refused { IfErr result (LacksTable (order_of_rows rows.now)) }
    {
        sizes!(fitting BoxedTable, SizedBox, count, boxed_of(alloc, rows))
    }

    /// How many numbers the order has.
    pub fn count(&self) -> u32
        ensures { result ≡ self.now.count }
    {
        sizes!(with SizedBox, &self.sized, table => table.count())
    }

    /// Whether `a` covers `b`.
    pub fn covers(&self, a: u32, b: u32) -> bool
        requires a_in { a < self.now.count }
        requires b_in { b < self.now.count }
        ensures { result ≡ covers self.now a b }
    {
        sizes!(with SizedBox, &self.sized, table => table.covers(a, b))
    }

    /// The least cover of a set of numbers, by one look-up for each.
    pub fn least(&self, set: &[u32]) -> u32
        requires some { 0 < length set.now }
        requires in_range { All (λ x. x < self.now.count) set.now }
        ensures { IsLeastCover self.now set.now result }
    {
        sizes!(with SizedBox, &self.sized, table => table.least(set))
    }

    /// An order that has a table is sound: each two of its numbers have a least cover.
    pub fn is_sound(&self)
        ensures sound { IsSound self.now }
        ensures few { self.now.count ≤ most_exceptions }
    {
        sizes!(with SizedBox, &self.sized, table => table.is_sound())
    }

    /// Another table of the same order.
    pub fn copy(&self, alloc: Global) -> Result<BoxedTable, AllocError>
        ensures { IfOk result (λ table. table ≡ self.now) }
    {
        let sized = sizes!(same SizedBox, &self.sized, table => Box::new(alloc, table.copy())?);
        Ok(BoxedTable { sized })
    }
}
