ghost use Rattle.std.specs.Prelude.{◌≡◌, ◌==◌, ◌&&◌, ◌||◌, ◌<◌, ◌≤◌, ◌↔◌, ℕ, true, List, length, All};
ghost use Rattle.cover_table.specs.Cover.{has_bit, order_of_rows, most_exceptions};
ghost use Rattle.exception_graph.specs.Chains.{IsOrderOf};
ghost use Rattle.exception_graph.specs.inner.Closing.{AddsPair, AddsPairs, AreBare, AreClosedOver, AreExtended, StayBelow, TellChains, TellMore};

use cover_table::{Row, has_bit, with_bit};

/// A row, with what `more` has where the row has bit `over`.
fn extended(row: Row, over: u32, more: Row) -> Row
    requires { over < most_exceptions }
    ensures { (b : ℕ) → has_bit result b ≡ (has_bit row b || (has_bit row over && has_bit more b)) }
{
    if has_bit(row, over) { row | more } else { row }
}

/// Adds to each row that has bit `over` what the row of `over` has.
///
/// Where that row has its own bit alone it adds nothing.
fn extend_over(rows: &mut [Row], over: u32)
    requires few { length rows.old ≤ most_exceptions }
    requires over_in { over < length rows.old }
    ensures { AreExtended rows.old rows.new over }
{
    let more = rows[over as usize];
    if more == with_bit(0, over) {
        return;
    }
    for row in rows.iter_mut() {
        *row = extended(*row, over, more);
    }
}

/// Makes rows tell what they tell in any number of steps.
fn close(rows: &mut [Row])
    requires { length rows.old ≤ most_exceptions }
    ensures as_many { length rows.new ≡ length rows.old }
    ensures more { TellMore rows.old rows.new }
    ensures closed { AreClosedOver rows.new (length rows.new) }
    ensures chains { (pairs : List (ℕ × ℕ)) →
        TellChains (length rows.old) pairs rows.old → TellChains (length rows.old) pairs rows.new }
    ensures within { (count : ℕ) → StayBelow count rows.old → StayBelow count rows.new }
{
    for over in 0..rows.len() as u32 {
        extend_over(rows, over);
    }
}

/// A row of the first `count` exceptions.
fn full_row(count: u32) -> Row
    requires { count ≤ most_exceptions }
    ensures { (b : ℕ) → (has_bit result b ≡ true) ↔ (b < count) }
{
    let mut row = 0;
    for b in 0..count {
        row = with_bit(row, b);
    }
    row
}

/// The row of one of `count` exceptions before anything is declared: itself, or all of them for 0.
fn bare_row(a: u32, count: u32) -> Row
    requires few { count ≤ most_exceptions }
    requires a_in { a < count }
    ensures tells { (b : ℕ) → b < count → has_bit result b ≡ (a == 0 || b == a) }
    ensures within { (b : ℕ) → has_bit result b ≡ true → b < count }
{
    if a == 0 {
        full_row(count)
    } else {
        with_bit(0, a)
    }
}

/// Makes rows tell that each exception covers itself and 0 covers all, and nothing more.
fn make_bare(rows: &mut [Row])
    requires { length rows.old ≤ most_exceptions }
    ensures as_many { length rows.new ≡ length rows.old }
    ensures bare { AreBare rows.new }
    ensures within { StayBelow (length rows.new) rows.new }
{
    let count = rows.len() as u32;
    for (a, row) in rows.iter_mut().enumerate() {
        *row = bare_row(a as u32, count);
    }
}

/// Makes rows tell that `upper` covers `lower`.
fn add_pair(rows: &mut [Row], upper: u32, lower: u32)
    requires few { length rows.old ≤ most_exceptions }
    requires upper_in { upper < length rows.old }
    requires lower_in { lower < length rows.old }
    ensures { AddsPair rows.old rows.new upper lower }
{
    rows[upper as usize] = with_bit(rows[upper as usize], lower);
}

/// Makes rows tell of each of these pairs that its first covers its second.
fn add_pairs(rows: &mut [Row], pairs: &[(u32, u32)])
    requires few { length rows.old ≤ most_exceptions }
    requires in_range { All (λ p. (p.0 < length rows.old) × (p.1 < length rows.old)) pairs.now }
    ensures { AddsPairs rows.old rows.new pairs.now (length pairs.now) }
{
    for (upper, lower) in pairs {
        add_pair(rows, *upper, *lower);
    }
}

/// Makes rows tell just the chains of these pairs.
pub fn tell_chains(rows: &mut [Row], pairs: &[(u32, u32)])
    requires few { length rows.old ≤ most_exceptions }
    requires in_range { All (λ p. (p.0 < length rows.old) × (p.1 < length rows.old)) pairs.now }
    ensures as_many { length rows.new ≡ length rows.old }
    ensures chains { IsOrderOf (length rows.old) pairs.now (order_of_rows rows.new) }
    ensures transitive { AreClosedOver rows.new (length rows.new) }
{
    make_bare(rows);
    add_pairs(rows, pairs);
    close(rows);
}
