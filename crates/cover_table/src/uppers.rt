ghost use Rattle.std.specs.Prelude.{◌<◌, ◌≤◌, length, take, IfSome, IfNone};
ghost use Rattle.cover_table.specs.Cover.{most_exceptions};
ghost use Rattle.cover_table.specs.inner.Uppers.{AddsUpper, AreUppers, HasJoin, IsJoin, IsNextAbove};

use crate::order::{MOST_EXCEPTIONS, Row, some_bit, with_bit, without_bit};

/// Makes the rows of what covers each number tell that `a` covers what its row tells.
fn add_upper(uppers: &mut [Row], a: u32, row: Row)
    requires few { length uppers.old ≤ most_exceptions }
    requires a_in { a < most_exceptions }
    ensures { AddsUpper uppers.old uppers.new a row }
{
    let mut rest = row;
    while let Some(b) = some_bit(rest) {
        if (b as usize) < uppers.len() {
            uppers[b as usize] = with_bit(uppers[b as usize], a);
        }
        rest = without_bit(rest, b);
    }
}

/// For each number, the row of those that cover it.
pub fn uppers_of<const N: usize>(rows: &[Row]) -> [Row; N]
    requires limit { N ≤ most_exceptions }
    requires fits { length rows.now ≤ N }
    ensures { AreUppers rows.now (take (length rows.now) result) }
{
    let mut uppers = [0; N];
    for (a, row) in rows.iter().enumerate() {
        add_upper(&mut uppers, a as u32, *row);
    }
    uppers
}

/// Which numbers have how many covers: row n has a bit for each that has n.
///
/// The number that has just these covers is guessed from it, and each guess is tried. So nothing but time rests on it, and nothing is promised.
pub fn levels_of(uppers: &[Row]) -> [Row; MOST_EXCEPTIONS + 1]
    requires { length uppers.now ≤ most_exceptions }
{
    let mut levels = [0; MOST_EXCEPTIONS + 1];
    for (x, upper) in uppers.iter().enumerate() {
        let level = upper.count_ones() as usize;
        levels[level] = with_bit(levels[level], x as u32);
    }
    levels
}

/// Of these numbers, the one that has as many covers as there are of them.
///
/// In an order no other can have just these for its covers.
fn guess(levels: &[Row; MOST_EXCEPTIONS + 1], covers: Row) -> u32 {
    (covers & levels[covers.count_ones() as usize]).trailing_zeros()
}

/// The number next above `a`, where it comes before `a`: its covers and `a` are all that cover `a`.
pub fn next_above(uppers: &[Row], levels: &[Row; MOST_EXCEPTIONS + 1], a: u32) -> Option<u32>
    requires few { length uppers.now ≤ most_exceptions }
    requires a_in { a < length uppers.now }
    ensures { IfSome result (λ above. (above < a) × IsNextAbove uppers.now above a) }
{
    let above = guess(levels, without_bit(uppers[a as usize], a));
    if above < a && with_bit(uppers[above as usize], a) == uppers[a as usize] {
        Some(above)
    } else {
        None
    }
}

/// The least of the numbers that cover both `a` and `b`, where they have one.
///
/// Whatever covers it covers both, and the other way round: it has their common covers for its own.
/// Where one of the two covers the other it is the answer.
pub fn least_of_two(
    uppers: &[Row],
    levels: &[Row; MOST_EXCEPTIONS + 1],
    a: u32,
    b: u32,
) -> Option<u32>
    requires few { length uppers.now ≤ most_exceptions }
    requires a_in { a < length uppers.now }
    requires b_in { b < length uppers.now }
    ensures found { IfSome result (IsJoin uppers.now a b) }
    ensures lacks { IfNone result (¬ (HasJoin uppers.now a b)) }
{
    let common = uppers[a as usize] & uppers[b as usize];
    if uppers[a as usize] == common {
        return Some(a);
    }
    if uppers[b as usize] == common {
        return Some(b);
    }
    let guess = guess(levels, common);
    if uppers.get(guess as usize) == Some(&common) {
        return Some(guess);
    }
    let x = uppers.iter().position(|row| *row == common)?;
    Some(x as u32)
}
