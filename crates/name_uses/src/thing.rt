//! What a name means.

ghost use Rattle.std.specs.Prelude.{◌≡◌};
ghost use Rattle.name_uses.specs.Things.{is_thing};

/// What a name of a script is declared as, and which one of these, counted from 0 in the order of their lines.
#[derive(Clone, Copy, Debug, PartialEq, Eq)]
pub enum Thing {
    Participant(usize),
    Object(usize),
    /// A graph; 0 is that of an action which names none.
    Graph(usize),
    Action(usize),
    /// Of this action, this role.
    Role(usize, usize),
    /// Of this action, this nested use.
    Nest(usize, usize),
    /// Of this graph, this exception; 0 is `universal`.
    Exception(usize, usize),
}

impl Thing {
    /// Whether this is the same thing.
    pub fn is(self, other: Thing) -> bool
        ensures { result ≡ is_thing self other }
    {
        match (self, other) {
            (Thing::Participant(number), Thing::Participant(second))
            | (Thing::Object(number), Thing::Object(second))
            | (Thing::Graph(number), Thing::Graph(second))
            | (Thing::Action(number), Thing::Action(second)) => number == second,
            (Thing::Role(owner, number), Thing::Role(other, second))
            | (Thing::Nest(owner, number), Thing::Nest(other, second))
            | (Thing::Exception(owner, number), Thing::Exception(other, second)) => {
                owner == other && number == second
            }
            _ => false,
        }
    }
}
