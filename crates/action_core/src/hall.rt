ghost use Rattle.std.specs.Prelude.{IfOk};
ghost use Rattle.journal_replay.specs.Audited.{Audited};

use crate::tables::Tables;
use caa_base::written::entry::OutOfMemory;
use caa_base::written::journal::Journal;
use journal_replay::audit::{Illegal, audit_with};
use journal_replay::hall::Played;
use place_plan::plans::plan::Plan;
use std::alloc::Global;

/// A machine that keeps tables of its journal, and looks back nowhere.
pub type Hall<P> = Played<P, Tables>;

/// Whether a journal is legal for a plan, and complete, by tables that follow it.
///
/// What it answers is what `audit` does. It takes memory for the tables alone, at the beginning.
pub fn audit_fast(
    alloc: Global,
    plan: &Plan,
    journal: &Journal,
) -> Result<Result<(), Illegal>, OutOfMemory>
    ensures { IfOk result (λ verdict. Audited plan.now journal.now.entries verdict) }
{
    let mut tables = Tables::open(alloc, plan)?;
    Ok(audit_with(plan, &mut tables, journal))
}
