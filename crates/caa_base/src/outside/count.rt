//! Counts that stop at the last number that they can show.

ghost use Rattle.std.specs.Prelude.{◌≡◌};
ghost use Rattle.caa_base.specs.Outside.Counts.{counted_up};

/// A count of faults, calls or lines after one more; it stops at the last number, so it never begins anew.
pub fn counted_up(count: u64) -> u64
    ensures { result ≡ counted_up count }
{
    if count < u64::MAX { count + 1 } else { count }
}
