ghost use Rattle.std.specs.Prelude.{◌≡◌, ◌<◌, ◌≤◌, ◌↔◌, ℕ, length, true, IsTrue, IfNone, IfSome};
ghost use Rattle.cover_table.specs.Cover.{most_exceptions, order_of_rows, tells};
ghost use Rattle.exception_graph.specs.inner.Closing.{AreClosedOver};
ghost use Rattle.exception_graph.specs.inner.Cycles.{IsFirstMutual, IsMutual};

use cover_table::Row;

/// Whether `a` covers another exception that covers it, where none before `a` does.
///
/// In closed rows two such have the same row, and no others do. Since none before `a` does, the other comes after it.
fn is_mutual(rows: &[Row], a: u32) -> bool
    requires few { length rows.now ≤ most_exceptions }
    requires a_in { a < length rows.now }
    requires itself { (b : ℕ) → b < length rows.now → tells rows.now b b ≡ true }
    requires closed { AreClosedOver rows.now (length rows.now) }
    requires earlier { (b : ℕ) → b < a → ¬ (IsMutual (order_of_rows rows.now) b) }
    ensures { IsTrue result ↔ IsMutual (order_of_rows rows.now) a }
{
    for b in a + 1..rows.len() as u32 {
        if rows[b as usize] == rows[a as usize] {
            return true;
        }
    }
    false
}

/// The least exception that covers another which covers it.
pub fn first_in_cycle(rows: &[Row]) -> Option<u32>
    requires few { length rows.now ≤ most_exceptions }
    requires itself { (b : ℕ) → b < length rows.now → tells rows.now b b ≡ true }
    requires closed { AreClosedOver rows.now (length rows.now) }
    ensures found { IfSome result (λ at. IsFirstMutual (order_of_rows rows.now) at) }
    ensures none { IfNone result ((a : ℕ) → a < length rows.now → ¬ (IsMutual (order_of_rows rows.now) a)) }
{
    for a in 0..rows.len() as u32 {
        if is_mutual(rows, a) {
            return Some(a);
        }
    }
    None
}
