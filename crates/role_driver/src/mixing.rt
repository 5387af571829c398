ghost use Rattle.std.specs.Prelude.{◌≡◌};

use crate::told_gate::ToldGate;
use caa_base::outside::gate::Gate;
use caa_base::written::entry::{Participant, Place};
use caa_base::written::work::WorkDone;

/// Does a piece of mixing work of a participant in a place, once the gate was told of it, and of how many entries of its own the
/// participant has made.
pub(crate) fn mix<G: ToldGate>(
    gate: &G,
    by: Participant,
    place: Place,
    made: u64,
    from: i64,
    rounds: u32,
) -> WorkDone
    ensures told { G.was_told gate.now by place made }
    ensures from { result.from ≡ from }
    ensures rounds { result.rounds ≡ rounds }
{
    gate.begin_work(by, place, made);
    WorkDone::make(from, rounds)
}

/// The same where nobody counts entries: the gate is told of the participant and the place.
pub(crate) fn mix_in_place<G: Gate>(
    gate: &G,
    by: Participant,
    place: Place,
    from: i64,
    rounds: u32,
) -> WorkDone
    ensures told { G.was_told gate.now by place }
    ensures from { result.from ≡ from }
    ensures rounds { result.rounds ≡ rounds }
{
    gate.work(by, place);
    WorkDone::make(from, rounds)
}
