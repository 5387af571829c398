ghost use Rattle.std.specs.Prelude.{◌≡◌, ◌<◌, ◌++◌, ◌∷◌, [], length};
ghost use Rattle.caa_base.specs.Written.Limits.{most_alternates};

use caa_base::written::entry::Place;
use caa_base::written::limits::MOST_ALTERNATES;
use std::marker::Model;

/// The places of a nested use, one for each of its actions, seen as the list of them.
#[derive(Drop)]
pub(crate) struct Alternates {
    places: [Place; MOST_ALTERNATES],
    count: usize,
}

impl Model for Alternates {
    ghost use Rattle.std.specs.Prelude.{List, ℕ, ◌≤◌, take};
    ghost use Rattle.caa_base.specs.Written.Limits.{most_alternates};

    ghost Value = { List ℕ };

    ghost view = { λ a. take a.count a.places };

    ghost invariant = { λ a. a.count ≤ most_alternates };
}

impl Alternates {
    /// No places.
    pub(crate) fn new() -> Alternates
        ensures { result ≡ [] }
    {
        Alternates {
            places: [0; MOST_ALTERNATES],
            count: 0,
        }
    }

    /// One place more, behind the others.
    pub(crate) fn push(&mut self, place: Place)
        requires { length self.old < most_alternates }
        ensures { self.new ≡ self.old ++ place ∷ [] }
    {
        self.places[self.count] = place;
        self.count += 1;
    }

    /// All places, in order.
    pub(crate) fn as_slice(&self) -> &[Place]
        ensures { result.now ≡ self.now }
    {
        &self.places[..self.count]
    }
}
