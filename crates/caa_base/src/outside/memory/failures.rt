ghost use Rattle.std.specs.Prelude.{◌≡◌, ◌↔◌, IfOk, IsTrue};
ghost use Rattle.caa_base.specs.Outside.Counts.{counted_up};
ghost use Rattle.caa_base.specs.Outside.Memory.{FailsNext};

use crate::outside::count::counted_up;
use crate::written::entry::OutOfMemory;
use std::alloc::Global;
use std::marker::Model;

/// Which calls are to fail, by their numbers from 1, and how many came and failed so far.
///
/// Both counts stop at their last number, which stands for all calls after it too.
#[derive(Drop)]
pub struct Failures {
    at: Vec<u64>,
    calls: u64,
    faults: u64,
}

impl Model for Failures {
    ghost use Rattle.caa_base.specs.Outside.Memory.{Failures as FailuresValue};

    ghost Value = { FailuresValue };

    ghost view = { λ f. record { at = f.at.items; calls = f.calls; faults = f.faults } };
}

impl Failures {
    /// The calls with these numbers fail, and none came yet.
    pub fn new(alloc: Global, at: &[u64]) -> Result<Self, OutOfMemory>
        ensures { IfOk result (λ failures. failures ≡ record { at = at.now; calls = 0; faults = 0 }) }
    {
        Ok(Failures {
            at: Vec::from_slice(alloc, at)?,
            calls: 0,
            faults: 0,
        })
    }

    /// Counts one more call, and says whether it is to fail.
    pub fn is_next(&mut self) -> bool
        ensures fails { IsTrue result ↔ FailsNext self.old }
        ensures after { self.new ≡ record self.old { calls = counted_up self.old.calls } }
    {
        self.calls = counted_up(self.calls);
        self.at.contains(&self.calls)
    }

    /// Counts one more fault.
    pub fn add_fault(&mut self)
        ensures { self.new ≡ record self.old { faults = counted_up self.old.faults } }
    {
        self.faults = counted_up(self.faults);
    }

    /// How many calls failed so far.
    pub fn faults(&self) -> u64
        ensures { result ≡ self.now.faults }
    {
        self.faults
    }
}
