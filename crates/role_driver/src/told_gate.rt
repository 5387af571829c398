ghost use Rattle.std.specs.Prelude.{ℕ};

use caa_base::outside::gate::Gate;
use caa_base::written::entry::{Exception, Participant, Place};

/// Whoever is told of the works and the handlers that begin: each gate, by its `work` and its `handle`, and each type with an impl of
/// its own.
///
/// That somebody was told is a fact of contracts that nothing but the call gives. A work goes by a number of its own among what its
/// participant makes, so that each work needs its own call. A gate's fact of a work has no number, and it has none of handlers.
pub trait ToldGate {
    /// It was told that this participant is about to work in this place, after so many entries of its own.
    ghost was_told: { Self → ℕ → ℕ → ℕ → Type 0 } = { λ _ _ _ _. Unit {0} };

    /// It was told that this participant begins its handler in this place, for this exception.
    ghost was_handed: { Self → ℕ → ℕ → ℕ → Type 0 } = { λ _ _ _ _. Unit {0} };

    /// This participant is about to work in this place. So many entries of its own stand in the journal by now.
    fn begin_work(&self, by: Participant, place: Place, made: u64)
        ensures { was_told self.now by place made };

    /// This participant begins its handler in this place, for this exception.
    fn begin_handler(&self, by: Participant, place: Place, exception: Exception)
        ensures { was_handed self.now by place exception };
}

impl<G: Gate> ToldGate for G {
    ghost was_told = { λ gate by place _. G.was_told gate by place };

    fn begin_work(&self, by: Participant, place: Place, _made: u64) {
        self.work(by, place);
    }

    fn begin_handler(&self, by: Participant, place: Place, exception: Exception) {
        self.handle(by, place, exception);
    }
}
