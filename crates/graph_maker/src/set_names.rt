//! Whether an exception's name is a made one is told by the name itself: its numbers are read, and have to ascend. A table of made
//! names wouldn't do, since the rule holds for scripts with far too many primitives for a table too.

ghost use Rattle.std.specs.Prelude.{◌≡◌, ◌<◌, ◌++◌, OnOk, IfOk};
ghost use Rattle.graph_maker.specs.SetNames.{are_members, dashed, is_made_name, set_name};

use action_script::words::word::natural_of;
use caa_base::written::entry::OutOfMemory;
use caa_base::written::name::Name;
use cover_table::has_bit;
use set_graphs::Set;
use std::alloc::Global;
use std::io::Write;

/// Adds a member to a name.
fn push_member(text: &mut Vec<u8>, number: u32) -> Result<(), OutOfMemory>
    ensures { OnOk result (text.new.items ≡ text.old.items ++ dashed number) }
{
    match write!(text, "-{number}") {
        Ok(()) => Ok(()),
        Err(_) => Err(OutOfMemory),
    }
}

/// The name that is made for a set of primitives: `s`, and the number of each member after a dash.
pub fn set_name(alloc: Global, primitives: u32, set: Set) -> Result<Name, OutOfMemory>
    requires { primitives < 128 }
    ensures { IfOk result (λ name. name ≡ set_name primitives set) }
{
    let mut text = Vec::from_slice(alloc, b"s")?;
    for bit in 0..primitives {
        if has_bit(set, bit) {
            push_member(&mut text, bit + 1)?;
        }
    }
    Name::from_bytes(alloc, &text)
}

/// Whether a text has between its dashes the ascending numbers of at least two and at most so many primitives.
fn are_members(text: &[u8], primitives: u64, most: u32) -> bool
    ensures { result ≡ are_members primitives most text.now }
{
    let mut last = 0;
    let mut count = 0;
    for word in text.split(|byte| *byte == b'-') {
        match natural_of(word, primitives) {
            Some(number) if number > last => last = number,
            _ => return false,
        }
        count += 1;
    }
    count >= 2 && count <= u64::from(most)
}

/// Whether a name is made for a set of at least two and at most so many of the primitives.
pub fn is_made_name(name: &[u8], primitives: u64, most: u32) -> bool
    ensures { result ≡ is_made_name primitives most name.now }
{
    match name.strip_prefix(b"s-".as_slice()) {
        Some(rest) => are_members(rest, primitives, most),
        None => false,
    }
}
