//! Scripts as plans, and machines that play them.

ghost use Rattle.std.specs.Prelude.{◌≡◌, [], IfOk};
ghost use Rattle.journal_replay.specs.Hall.{journal_in};

use action_script::lines::reader::read;
use caa_base::outside::memory::SurePlant;
use journal_replay::hall::PlainHall;
use place_plan::plans::plan::Plan;
use script_checker::compile::compile;
use std::alloc::Global;
use std::test::Fail;

/// The plan of a script.
pub fn plan_of(alloc: Global, script: &[u8]) -> Result<Plan, Fail> {
    match compile(alloc, &read(alloc, script)?) {
        Ok(plan) => Ok(plan),
        Err(error) => Err(Fail::from(error.cause)),
    }
}

/// A machine that plays a script, by a device that refuses nothing.
pub fn hall(alloc: Global, script: &[u8]) -> Result<PlainHall<SurePlant>, Fail>
    ensures { IfOk result (λ hall. journal_in hall ≡ []) }
{
    match PlainHall::open(alloc, plan_of(alloc, script)?, SurePlant::new()) {
        Ok(hall) => Ok(hall),
        Err(error) => Err(Fail::from(error.cause)),
    }
}
