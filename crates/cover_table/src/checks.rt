ghost use Rattle.std.specs.Prelude.{◌<◌, ◌≤◌, ◌↔◌, length, IsTrue};
ghost use Rattle.cover_table.specs.inner.Checks.{CoversAllOf, IsRightAt, IsRightPair};
ghost use Rattle.cover_table.specs.Cover.{IsOrder, most_exceptions, order_of_rows};

use crate::order::{Row, has_bit};

/// Whether `a` covers all that `b` covers.
fn covers_all_of(rows: &[Row], a: u32, b: u32) -> bool
    requires few { length rows.now ≤ most_exceptions }
    requires a_in { a < length rows.now }
    requires b_in { b < length rows.now }
    ensures { IsTrue result ↔ CoversAllOf (order_of_rows rows.now) a b }
{
    for c in 0..rows.len() as u32 {
        if has_bit(rows[b as usize], c) && !has_bit(rows[a as usize], c) {
            return false;
        }
    }
    true
}

/// Whether `a` may cover `b`.
fn is_right_pair(rows: &[Row], a: u32, b: u32) -> bool
    requires few { length rows.now ≤ most_exceptions }
    requires a_in { a < length rows.now }
    requires b_in { b < length rows.now }
    ensures { IsTrue result ↔ IsRightPair (order_of_rows rows.now) a b }
{
    covers_all_of(rows, a, b) && (a == b || !has_bit(rows[b as usize], a))
}

/// Whether `a` covers itself, and whatever it covers rightly.
fn is_right_at(rows: &[Row], a: u32) -> bool
    requires few { length rows.now ≤ most_exceptions }
    requires a_in { a < length rows.now }
    ensures { IsTrue result ↔ IsRightAt (order_of_rows rows.now) a }
{
    for b in 0..rows.len() as u32 {
        if has_bit(rows[a as usize], b) && !is_right_pair(rows, a, b) {
            return false;
        }
    }
    has_bit(rows[a as usize], a)
}

/// Whether these rows are an order: the test of what a table asks of its rows.
pub fn is_order(rows: &[Row]) -> bool
    requires { length rows.now ≤ most_exceptions }
    ensures { IsTrue result ↔ IsOrder (order_of_rows rows.now) }
{
    for a in 0..rows.len() as u32 {
        if !is_right_at(rows, a) {
            return false;
        }
    }
    true
}
