ghost use Rattle.std.specs.Prelude.{◌≡◌, ◌==◌, ◌&&◌, ◌||◌, ℕ, ◌<◌, not, true, IfNone, IfSome};
ghost use Rattle.cover_table.specs.Cover.{has_bit, most_exceptions};

use thiserror::Error;

/// The exceptions that one exception covers, as a row of bits with one for each.
pub type Row = u128;

/// The most exceptions that an order has: as many as a row has bits.
pub const MOST_EXCEPTIONS: usize = 128;

/// Which exceptions cover which, as a square of bits with a row for each exception.
///
/// Only the first `count` rows tell something, and only by their first `count` bits; `N` is the
/// room that there is for rows.
#[derive(Clone, Copy)]
pub struct Order<const N: usize> {
    pub count: u32,
    pub rows: [Row; N],
}

/// Two exceptions that have no least common cover.
#[derive(Clone, Copy, Debug, PartialEq, Eq, Error)]
#[error("{a} and {b} have no least common cover")]
pub struct NoLeast {
    pub a: u32,
    pub b: u32,
}

/// Whether a row has this bit.
pub fn has_bit(row: Row, bit: u32) -> bool
    requires { bit < most_exceptions }
    ensures { result ≡ has_bit row bit }
{
    (row >> bit) & 1 == 1
}

/// A row with one more bit.
pub fn with_bit(row: Row, bit: u32) -> Row
    requires { bit < most_exceptions }
    ensures { (b : ℕ) → has_bit result b ≡ (b == bit || has_bit row b) }
{
    row | (1 << bit)
}

/// A row without one of its bits.
pub fn without_bit(row: Row, bit: u32) -> Row
    requires { bit < most_exceptions }
    ensures bits { (b : ℕ) → b < most_exceptions → has_bit result b ≡ (has_bit row b && not (b == bit)) }
    ensures less { has_bit row bit ≡ true → result < row }
{
    row & !(1 << bit)
}

/// Some bit of a row, where it has one.
pub fn some_bit(row: Row) -> Option<u32>
    ensures found { IfSome result (λ bit. (bit < most_exceptions) × (has_bit row bit ≡ true)) }
    ensures none { IfNone result (row ≡ 0) }
{
    if row == 0 {
        None
    } else {
        Some(row.trailing_zeros())
    }
}
