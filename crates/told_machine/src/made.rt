ghost use Rattle.std.specs.Prelude.{◌≡◌, ◌<◌, ◌≤◌, ◌+◌, [], length, slice_index_or, slice_set, IfOk};
ghost use Rattle.told_machine.specs.Tickets.{made_by_each};

use caa_base::written::entry::{Entry, OutOfMemory, Participant};
use place_plan::plans::plan::Plan;
use std::alloc::Global;
use std::marker::Model;

/// How many entries each participant has made, seen as the list of these numbers.
#[derive(Drop)]
pub struct Made {
    counts: Vec<u64>,
}

impl Model for Made {
    ghost use Rattle.std.specs.Prelude.{ℕ, List};

    ghost Value = { List ℕ };

    ghost view = { λ m. m.counts.items };
}

impl Made {
    /// Nobody has made any. At `Err` no memory was found.
    pub(crate) fn none(alloc: Global, plan: &Plan) -> Result<Made, OutOfMemory>
        ensures { IfOk result (λ made. made ≡ made_by_each plan.now []) }
    {
        let counts = vec![in alloc; 0; plan.participants() as usize]?;
        Ok(Made { counts })
    }

    /// How many a participant has made.
    pub(crate) fn by(&self, by: Participant) -> u64
        requires { by < length self.now }
        ensures { result ≡ slice_index_or self.now by 0 }
    {
        self.counts[by as usize]
    }

    /// A participant makes one more, beside the entries so far.
    pub(crate) fn note(&mut self, by: Participant, journal: &[Entry])
        requires known { by < length self.old }
        requires few { slice_index_or self.old by 0 ≤ length journal.now }
        ensures { self.new ≡ slice_set self.old by (slice_index_or self.old by 0 + 1) }
    {
        // A slice has fewer than 2 ^ 63 entries, so one more can be counted.
        let _ = journal.len();
        self.counts[by as usize] += 1;
    }
}
