ghost use Rattle.std.specs.Prelude.{◌≡◌, ◌+◌};
ghost use Rattle.place_plan.specs.Plans.Weights.{counted, at};

use caa_base::written::limits::MOST_ACTIONS;

/// A number for each action of a draft.
pub(crate) type Table = [u64; MOST_ACTIONS];

/// The greatest number that is counted.
pub(crate) const MOST_COUNTED: u64 = 4_000_000_000;

/// The number at an index, or 0 past the end.
pub fn number_at(table: &[u64], index: u32) -> u64
    ensures { result ≡ at table.now index }
{
    match table.get(index as usize) {
        Some(number) => *number,
        None => 0,
    }
}

/// The sum, as far as it is counted.
pub fn counted_sum(left: u64, right: u64) -> u64
    ensures { result ≡ counted (left + right) }
{
    left.saturating_add(right).min(MOST_COUNTED)
}
