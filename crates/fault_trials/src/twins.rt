//! Whether a journal refuses just one put of another.

ghost use Rattle.std.specs.Prelude.{◌≡◌, ◌≤◌, ◌↔◌, true, IsTrue, length, take, slice_get};
ghost use Rattle.place_plan.specs.RulesOfJournals.Journals.{is_put};
ghost use Rattle.fault_trials.specs.Puts.{RefusedAt};

use crate::puts::Put;
use caa_base::written::entry::Entry;
use journal_replay::moves::refused;

/// Whether the entries say the same.
fn is_same(entry: &Entry, other: &Entry) -> bool
    ensures { IsTrue result ↔ (entry.now ≡ other.now) }
{
    *entry == *other
}

/// Whether two journals have the same first entries, so many.
fn begin_alike(some: &[Entry], others: &[Entry], count: usize) -> bool
    requires some { count ≤ length some.now }
    requires others { count ≤ length others.now }
    ensures { IsTrue result → take count some.now ≡ take count others.now }
{
    for index in 0..count {
        if !is_same(&some[index], &others[index]) {
            return false;
        }
    }
    true
}

/// Whether a journal refuses just this put of another: up to it they say the same.
pub fn refuses(base: &[Entry], tried: &[Entry], put: &Put) -> bool
    requires stands { slice_get base.now put.now.index ≡ Some put.now.entry }
    requires taken { is_put put.now.entry ≡ true }
    ensures { IsTrue result → RefusedAt base.now tried.now put.now.index put.now.entry }
{
    let index = put.index;
    if index >= base.len() || index >= tried.len() {
        return false;
    }
    begin_alike(base, tried, index) && is_same(&tried[index], &refused(put.entry))
}
