//! How much of each thing there may be at most.
//!
//! The same numbers stand as definitions, for contracts to cite.

ghost use Rattle.std.specs.Prelude.{◌≡◌, ◌↔◌, IsTrue};
ghost use Rattle.caa_base.specs.Written.Limits.{is_value, IsValue};

/// The value of an object or a register lies between this number below 0 and this number above.
pub const MOST_VALUE: i64 = 1_000_000_000_000;

/// The same without a sign: how far a value may be from 0.
pub const MOST_MAGNITUDE: u64 = MOST_VALUE as u64;

/// A count in a line of a script: rounds of one piece of work, or the number of the put that a drill refuses.
pub const MOST_COUNT: u32 = 1_000_000;

/// Bytes of a script.
pub const MOST_SCRIPT_BYTES: u64 = 1_048_576;

/// Bytes of a script with the text of a journal after it.
pub const MOST_AUDIT_BYTES: u64 = 268_435_456;

/// Bytes of a line, its line feed not counted.
pub const MOST_LINE_BYTES: usize = 16_384;

/// Bytes of a name.
pub const MOST_NAME_BYTES: usize = 32;

/// Participants of a script.
pub const MOST_PARTICIPANTS: usize = 64;

/// Objects of a script.
pub const MOST_OBJECTS: usize = 256;

/// Actions of a script.
pub const MOST_ACTIONS: usize = 256;

/// Graphs that a script declares.
pub const MOST_GRAPHS: usize = 256;

/// Roles of an action.
pub const MOST_ROLES: usize = 16;

/// Nested uses of an action.
pub const MOST_NESTS: usize = 256;

/// Actions of a nested use, its alternates.
pub const MOST_ALTERNATES: usize = 4;

/// Steps of a body or a handler.
pub const MOST_STEPS: usize = 256;

/// Watches of a script.
pub const MOST_WATCHES: usize = 16;

/// Drills of a script.
pub const MOST_DRILLS: usize = 1_000;

/// Places that stand round one another, the innermost counted.
pub const MOST_DEPTH: u32 = 8;

/// Places of a plan.
pub const MOST_PLACES: u64 = 65_536;

/// Entries of a journal.
pub const MOST_ENTRIES: u64 = 1_000_000;

/// Entries of a journal that is audited.
pub const MOST_AUDITED: u64 = 1_000_000;

/// Whether a number may be the value of an object or a register.
pub fn is_value(value: i64) -> bool
    ensures says { IsTrue result ↔ IsValue value }
    ensures tests { result ≡ is_value value }
{
    -MOST_VALUE <= value && value <= MOST_VALUE
}
