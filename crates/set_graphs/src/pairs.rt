ghost use Rattle.std.specs.Prelude.{◌≡◌, ◌==◌, ◌<◌, ◌≤◌, ◌++◌, ℕ, All, IfOk, OnOk, length, position};
ghost use Rattle.set_graphs.specs.Sets.{number_in, pairs_at, pairs_below};

use crate::sets::Set;
use cover_table::has_bit;
use std::alloc::{AllocError, Global};

/// Where a set first stands in a table.
fn place_in(table: &[Set], set: Set) -> Option<usize>
    ensures { result ≡ position (λ other. other == set) table.now }
{
    table.iter().position(|other| *other == set)
}

/// The number of a set in a table, or 0 where the table hasn't got it.
pub fn number_in(table: &[Set], set: Set) -> u32
    requires { length table.now ≤ 128 }
    ensures { result ≡ number_in table.now set }
{
    match place_in(table, set) {
        Some(place) => place as u32,
        None => 0,
    }
}

/// Adds the pairs of one exception: over each that lacks just one of its members, the greatest left out first.
fn push_pairs_at(
    pairs: &mut Vec<(u32, u32)>,
    table: &[Set],
    primitives: u32,
    exception: u32,
) -> Result<(), AllocError>
    requires few { length table.now ≤ 128 }
    requires in_range { exception < length table.now }
    requires primitives_fit { primitives < 128 }
    ensures { OnOk result (pairs.new.items ≡ pairs.old.items ++ pairs_at primitives table.now exception) }
{
    let set = table[exception as usize];
    for bit in (0..primitives).rev() {
        if has_bit(set, bit) {
            let lower = set - (1 << bit);
            if lower != 0 {
                pairs.push((exception, number_in(table, lower)))?;
            }
        }
    }
    Ok(())
}

/// The pairs of all exceptions of a table.
pub fn make_pairs(
    alloc: Global,
    table: &[Set],
    primitives: u32,
) -> Result<Vec<(u32, u32)>, AllocError>
    requires few { length table.now ≤ 128 }
    requires primitives_fit { primitives < 128 }
    ensures pairs { IfOk result (λ pairs. pairs.items ≡ pairs_below primitives table.now (length table.now)) }
    ensures in_range { IfOk result (λ pairs.
        All (λ p. (p.0 < length table.now) × (p.1 < length table.now)) pairs.items) }
{
    let mut pairs = Vec::new(alloc);
    for exception in 0..table.len() {
        push_pairs_at(&mut pairs, table, primitives, exception as u32)?;
    }
    Ok(pairs)
}
