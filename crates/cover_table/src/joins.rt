//! A table turns its rows round first, so that each exception has the row of those that cover it. What covers two exceptions is
//! the common part of two rows, and their least cover is the one whose own row that is.
//!
//! Where one of the two covers the other it is found at once. Else the row with as many bits as the common part is tried first: in
//! an order no other can be right, so a search through all rows comes only where there is no least cover. Most exceptions have one
//! other next above them, with the same covers but themselves. Where that one has the lesser number its row of least covers is
//! copied, but for what the exception covers itself. Pairs are joined one by one for the rest. No guess needs a proof, since each
//! is tried: that the answer is right is proved, that it comes quickly is measured.

ghost use Rattle.std.specs.Prelude.{◌≡◌, ◌<◌, ◌≤◌, ◌↔◌, ℕ, ◌∷◌, [], length, slice_index, if◌then◌else◌, IfOk, IfErr, OnOk, IsErrOf, All};
ghost use Rattle.cover_table.specs.Cover.{covers, has_bit, most_exceptions, order_of, IsLeastCover, IsOrder, IsSound, IsFirstWithoutLeast};
ghost use Rattle.cover_table.specs.inner.Uppers.{FailsAt, IsJoin};

use crate::order::{MOST_EXCEPTIONS, NoLeast, Order, Row, has_bit, some_bit, without_bit};
use crate::uppers::{least_of_two, levels_of, next_above, uppers_of};
use std::marker::Model;

/// The least covers of each two numbers of an order, seen as the order.
#[derive(Drop)]
pub struct JoinTable<const N: usize> {
    count: u32,
    rows: [Row; N],
    joins: [[u8; N]; N],
}

impl<const N: usize> Model for JoinTable<N> {
    ghost use Rattle.cover_table.specs.Cover.{CoverOrder, order_of};
    ghost use Rattle.cover_table.specs.inner.Joins.{HoldsJoins};

    ghost Value = { CoverOrder };

    ghost view = { λ t. order_of t.count t.rows };

    ghost invariant = { λ t. HoldsJoins N t.count t.rows t.joins };
}

/// The least covers of `a` with each number, as the rows of what covers each tell them.
fn joins_of<const N: usize>(
    uppers: &[Row],
    levels: &[Row; MOST_EXCEPTIONS + 1],
    a: u32,
) -> Result<[u8; N], NoLeast>
    requires limit { N ≤ most_exceptions }
    requires fits { length uppers.now ≤ N }
    requires a_in { a < length uppers.now }
    ensures found { IfOk result (λ joins. (b : ℕ) → b < length uppers.now → IsJoin uppers.now a b (slice_index joins b)) }
    ensures lacks { IfErr result (λ e. (e.a ≡ a) × FailsAt uppers.now e.a e.b) }
{
    let mut joins = [0; N];
    for b in 0..uppers.len() as u32 {
        match least_of_two(uppers, levels, a, b) {
            Some(join) => joins[b as usize] = join as u8,
            None => return Err(NoLeast { a, b }),
        }
    }
    Ok(joins)
}

/// The least covers of `a` with each number, from those of the number next above it and the row of what `a` covers.
///
/// They are the same but with what `a` covers.
fn joins_below<const N: usize>(joins_above: &[u8; N], a: u32, row: Row) -> [u8; N]
    requires a_in { a < most_exceptions }
    ensures { (b : ℕ) → b < N → b < most_exceptions → slice_index result b ≡ (if has_bit row b then a else slice_index joins_above.now b) }
{
    let mut joins = *joins_above;
    let mut rest = row;
    while let Some(b) = some_bit(rest) {
        if (b as usize) < N {
            joins[b as usize] = a as u8;
        }
        rest = without_bit(rest, b);
    }
    joins
}

impl<const N: usize> JoinTable<N> {
    /// The table of an order on at most `N` numbers.
    ///
    /// Where two numbers have no least cover, the first two such are named.
    pub fn from_order(order: &Order<N>) -> Result<JoinTable<N>, NoLeast>
        requires limit { N ≤ most_exceptions }
        requires fits { order.now.count ≤ N }
        requires order { IsOrder (order_of order.now.count order.now.rows) }
        ensures same { IfOk result (λ table. table ≡ order_of order.now.count order.now.rows) }
        ensures sound { OnOk result (IsSound (order_of order.now.count order.now.rows)) }
        ensures no_least { (a b : ℕ) →
            IsErrOf result (record { a = a; b = b }) ↔ IsFirstWithoutLeast (order_of order.now.count order.now.rows) a b }
    {
        let all_uppers: [Row; N] = uppers_of(&order.rows[..order.count as usize]);
        let uppers = &all_uppers[..order.count as usize];
        let levels = levels_of(uppers);
        let mut joins = [[0; N]; N];
        for a in 0..order.count {
            joins[a as usize] = match next_above(uppers, &levels, a) {
                Some(above) => joins_below(&joins[above as usize], a, order.rows[a as usize]),
                None => joins_of(uppers, &levels, a)?,
            };
        }
        Ok(JoinTable {
            count: order.count,
            rows: order.rows,
            joins,
        })
    }

    /// How many numbers the order has.
    pub fn count(&self) -> u32
        ensures { result ≡ self.now.count }
    {
        self.count
    }

    /// How many numbers the table has room for.
    pub fn size(&self) -> usize
        ensures { result ≡ N }
    {
        N
    }

    /// Whether `a` covers `b`.
    pub fn covers(&self, a: u32, b: u32) -> bool
        requires a_in { a < self.now.count }
        requires b_in { b < self.now.count }
        ensures { result ≡ covers self.now a b }
    {
        has_bit(self.rows[a as usize], b)
    }

    /// The least cover of two numbers, by one look-up.
    pub fn join(&self, a: u32, b: u32) -> u32
        requires a_in { a < self.now.count }
        requires b_in { b < self.now.count }
        ensures { IsLeastCover self.now (a ∷ b ∷ []) result }
    {
        u32::from(self.joins[a as usize][b as usize])
    }

    /// The least cover of a set of numbers, by one look-up for each.
    pub fn least(&self, set: &[u32]) -> u32
        requires some { 0 < length set.now }
        requires in_range { All (λ x. x < self.now.count) set.now }
        ensures { IsLeastCover self.now set.now result }
    {
        let first = set[0];
        let rest = &set[1..];
        let mut least = first;
        for member in rest {
            least = u32::from(self.joins[least as usize][*member as usize]);
        }
        least
    }

    /// An order that has a table is sound: each two of its numbers have a least cover.
    pub fn is_sound(&self)
        ensures sound { IsSound self.now }
        ensures few { self.now.count ≤ most_exceptions }
    {
        let _ = &self.joins;
    }

    /// Another table of the same order.
    pub fn copy(&self) -> Self
        ensures { result ≡ self.now }
    {
        JoinTable {
            count: self.count,
            rows: self.rows,
            joins: self.joins,
        }
    }
}
