ghost use Rattle.std.specs.Prelude.{◌≡◌, ◌<◌, ◌≤◌, ◌+◌, ◌-◌, ◌*◌, ◌^◌, ◌++◌, ℕ, map, OnOk, IfOk, length, unwrap_or};
ghost use Rattle.set_graphs.specs.Sets.{choose, sets, table};
ghost use Rattle.set_graphs.specs.inner.Moved.{moved_after};

use std::alloc::{AllocError, Global};

/// A set of primitives: bit i - 1 stands for primitive i.
pub type Set = u128;

/// Adds the sets of `size` of the `left` primitives from `next` on, each with the primitives of `before`.
fn push_sets(
    sets: &mut Vec<Set>,
    before: Set,
    next: u32,
    left: u32,
    size: u32,
) -> Result<(), AllocError>
    requires last { next + left ≤ 127 }
    requires low { before < 2 ^ next }
    ensures { OnOk result (sets.new.items ≡ sets.old.items ++ map (moved_after before next) (choose left size)) }
{
    if size == 0 {
        sets.push(before)?;
        return Ok(());
    }
    if left == 0 {
        return Ok(());
    }
    push_sets(sets, before + (1 << next), next + 1, left - 1, size - 1)?;
    push_sets(sets, before, next + 1, left - 1, size)
}

/// What each exception stands for, by its number.
pub fn make_table(alloc: Global, primitives: u32, most: u32) -> Result<Vec<Set>, AllocError>
    requires { primitives < 128 }
    ensures { IfOk result (λ made. made.items ≡ table primitives most) }
{
    let mut sets = Vec::new(alloc);
    sets.push(0)?;
    for size in 0..most {
        push_sets(&mut sets, 0, 0, primitives, size + 1)?;
    }
    Ok(sets)
}
