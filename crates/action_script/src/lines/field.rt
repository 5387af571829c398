use crate::lines::sort::Naming;
use caa_base::written::entry::Test;

/// What a word of a line is asked to be.
#[derive(Clone, Copy)]
pub enum Part {
    /// A name, and what it is for.
    Name(Naming),
    /// A number between `MOST_VALUE` below 0 and `MOST_VALUE` above.
    Value,
    /// A number from 1 to `MOST_COUNT`.
    Count,
    /// A number from 0 to `MOST_COUNT`.
    Rounds,
    /// One of the words `below`, `above` and `equal`.
    Test,
}

/// What a word of a line says.
#[derive(Clone, Copy)]
pub enum Field {
    /// The name of this number.
    Name(u32),
    /// A value.
    Value(i64),
    /// A count, or a number of rounds.
    Count(u32),
    /// A test.
    Test(Test),
}
