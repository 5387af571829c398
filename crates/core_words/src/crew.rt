ghost use Rattle.std.specs.Prelude.{◌≡◌, ◌==◌, ◌||◌, ℕ, ◌<◌, false};
ghost use Rattle.std.specs.List.{list_all};
ghost use Rattle.cover_table.specs.Cover.{has_bit};

use caa_base::written::entry::Participant;

/// Some participants, with a bit for each. A plan has at most 64 of them.
pub type Crew = u64;

/// Nobody.
pub fn nobody() -> Crew
    ensures { (t : ℕ) → has_bit result t ≡ false }
{
    0
}

/// Whether a participant is among these.
#[inline(always)]
pub fn is_in(crew: Crew, by: Participant) -> bool
    ensures { result ≡ has_bit crew by }
{
    by < Crew::BITS && (crew >> by) & 1 == 1
}

/// These participants, and one more.
#[inline(always)]
pub fn with(crew: Crew, by: Participant) -> Crew
    requires { by < 64 }
    ensures { (t : ℕ) → has_bit result t ≡ ((by == t) || has_bit crew t) }
{
    crew | (1 << by)
}

/// Whether each of these roles is among those participants.
pub fn are_in(crew: Crew, roles: &[Participant]) -> bool
    ensures { result ≡ list_all (has_bit crew) roles.now }
{
    roles.iter().all(|by| is_in(crew, *by))
}
