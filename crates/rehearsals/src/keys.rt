//! Facts as numbers, by which they are told apart.

ghost use Rattle.std.specs.Prelude.{◌≡◌, pos};
ghost use Rattle.rehearsals.specs.Tallies.{key_of, is_same_key, is_same};

use crate::facts::Fact;

/// A fact as numbers: its kind, and what it says. What a kind doesn't use is 0.
#[derive(Clone, Copy)]
pub struct Key {
    pub kind: u32,
    /// The path, or the object.
    pub of: u32,
    /// The role, or the mark of an outcome.
    pub more: u32,
    /// The exception.
    pub what: u32,
    pub value: i64,
}

/// A fact that has no value, as numbers.
fn plain_key(kind: u32, of: u32, more: u32, what: u32) -> Key
    ensures { result ≡ record { kind = kind; of = of; more = more; what = what; value = pos 0 } }
{
    Key {
        kind,
        of,
        more,
        what,
        value: 0,
    }
}

/// A fact as numbers.
pub fn key_of(fact: Fact) -> Key
    ensures { result ≡ key_of fact }
{
    match fact {
        Fact::Started(path) => plain_key(0, path, 0, 0),
        Fact::Resolved(path, exception) => plain_key(1, path, 0, exception),
        Fact::Handled(path, role, exception) => plain_key(2, path, role, exception),
        Fact::Ended(path, outcome) => {
            let (mark, exception) = outcome.mark();
            plain_key(3, path, mark, exception)
        }
        Fact::Last(object, value) => Key {
            kind: 4,
            of: object,
            more: 0,
            what: 0,
            value,
        },
    }
}

/// Whether two keys are the same.
fn is_same_key(some: Key, other: Key) -> bool
    ensures { result ≡ is_same_key some other }
{
    some.kind == other.kind
        && some.of == other.of
        && some.more == other.more
        && some.what == other.what
        && some.value == other.value
}

/// Whether two facts say the same.
pub fn is_same(some: Fact, other: Fact) -> bool
    ensures { result ≡ is_same some other }
{
    is_same_key(key_of(some), key_of(other))
}
