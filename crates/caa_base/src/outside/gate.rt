ghost use Rattle.std.specs.Prelude.{ℕ};

use crate::written::entry::{Exception, Participant, Place};

/// What is called whenever mixing work is about to begin, and whenever a handler is.
///
/// That a gate was told of a work is a fact of contracts that nothing but the call gives. So a contract may ask for it, and a
/// gate of one's own need not say what the fact is.
pub trait Gate {
    /// The gate was told that this participant is about to work in this place.
    ghost was_told: { Self → ℕ → ℕ → Type 0 } = { λ _ _ _. Unit {0} };

    /// This participant is about to work in this place.
    fn work(&self, by: Participant, place: Place)
        ensures { was_told self.now by place };

    /// This participant begins its handler for this exception in this place, as the cell of the place says.
    ///
    /// A gate that doesn't say otherwise takes no notice.
    fn handle(&self, _by: Participant, _place: Place, _exception: Exception) {}
}

/// A gate that does nothing.
#[derive(Clone, Copy, Debug, Default, PartialEq, Eq)]
pub struct EmptyGate;

impl Gate for EmptyGate {
    fn work(&self, _by: Participant, _place: Place) {}
}
