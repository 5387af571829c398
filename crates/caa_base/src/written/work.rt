ghost use Rattle.std.specs.Prelude.{◌≡◌, ◌<◌, ◌^◌};
ghost use Rattle.caa_base.specs.Written.Mixing.{mix, next_state, residue};

use std::marker::Model;

/// A piece of mixing work that was done, with its result.
///
/// Mixing stands for what a role computes. The state begins at a number modulo 2^31, and a round makes `1103515245 * state + 12345`
/// of it, modulo 2^31.
#[derive(Drop)]
pub struct WorkDone {
    from: i64,
    rounds: u32,
    result: i64,
}

impl Model for WorkDone {
    ghost use Rattle.caa_base.specs.Written.Mixing.{Worked, mix};
    ghost use Rattle.std.specs.Prelude.{◌≡◌};

    ghost Value = { Worked };

    ghost view = { λ w. record { from = w.from; rounds = w.rounds } };

    ghost invariant = { λ w. w.result ≡ mix w.from w.rounds };
}

impl WorkDone {
    /// Mixes a number for this many rounds.
    pub fn make(from: i64, rounds: u32) -> Self
        ensures from { result.from ≡ from }
        ensures rounds { result.rounds ≡ rounds }
    {
        WorkDone {
            from,
            rounds,
            result: mix(from, rounds),
        }
    }

    /// Where the mixing began.
    pub fn from(&self) -> i64
        ensures { result ≡ self.now.from }
    {
        self.from
    }

    /// How many rounds were made.
    pub fn rounds(&self) -> u32
        ensures { result ≡ self.now.rounds }
    {
        self.rounds
    }

    /// What came out.
    pub fn result(&self) -> i64
        ensures { result ≡ mix self.now.from self.now.rounds }
    {
        self.result
    }
}

/// The state after one round.
pub fn next_state(state: u32) -> u32
    requires { state < 2 ^ 31 }
    ensures small { result < 2 ^ 31 }
    ensures value { result ≡ next_state state }
{
    ((1_103_515_245 * u64::from(state) + 12_345) % 2_147_483_648) as u32
}

/// The least non-negative number that differs from this one by a multiple of 2^31.
fn residue(number: i64) -> u32
    ensures small { result < 2 ^ 31 }
    ensures value { result ≡ residue number (2 ^ 31) }
{
    number.rem_euclid(2_147_483_648) as u32
}

/// A number after this many rounds of mixing.
#[tactic(auto, unfolding(crate::specs::Written::Mixing::state_after))]
fn mix(number: i64, rounds: u32) -> i64
    ensures { result ≡ mix number rounds }
{
    let start = residue(number);
    let mut state = start;
    for _round in 0..rounds {
        state = next_state(state);
    }
    i64::from(state)
}
