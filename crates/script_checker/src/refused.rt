//! Where a script is refused, and what was declared by then.

ghost use Rattle.std.specs.Prelude.{◌≡◌, ◌≤◌, None, length, take, IfOk, IfSome};
ghost use Rattle.script_checker.specs.DeclaredSoFar.{nothing_yet};
ghost use Rattle.script_checker.specs.Compiled.{AreRowsOf, AreAccepted, declared_after};
ghost use Rattle.script_checker.specs.RefusedLines.{HasNoRefusedLine, IsRefusedAt, IsRefusedLine};

use crate::action::program::settle;
use crate::check_error::CheckCause;
use crate::compile::{plain_rows, take};
use crate::declared::SoFar;
use action_script::forms::script::{Line, Script};
use caa_base::written::entry::OutOfMemory;
use caa_base::written::name::Name;
use place_plan::drafts::draft_rows::GraphRow;
use std::alloc::Global;

/// The line for which a script is refused.
#[derive(Drop)]
pub struct RefusedLine {
    /// How many lines that say something stand before it.
    pub index: usize,
    /// Its least cause.
    pub cause: CheckCause,
    /// What was declared when it came.
    pub so_far: SoFar,
}

/// Takes some lines, up to the first that has a cause: how many stand before it, and the cause. Where there is one, what was
/// declared is of no more use.
fn take_lines(
    alloc: Global,
    so_far: &mut SoFar,
    rows: &mut Vec<GraphRow>,
    names: &[Name],
    lines: &[Line],
) -> Result<Option<(usize, CheckCause)>, OutOfMemory>
    requires begun { so_far.old ≡ nothing_yet names.now }
    requires rows { AreRowsOf names.now so_far.old.declared.graphs rows.old.items }
    ensures taken { IfOk result (λ found. found ≡ None → so_far.new ≡ declared_after names.now (nothing_yet names.now) lines.now) }
    ensures accepted { IfOk result (λ found. found ≡ None → AreAccepted names.now (nothing_yet names.now) lines.now) }
    ensures refused { IfOk result (λ found. IfSome found (λ f. IsRefusedAt names.now lines.now f.0 f.1)) }
{
    for (index, line) in lines.iter().enumerate() {
        match take(alloc, so_far, rows, names, &line.form) {
            Ok(()) => {}
            Err(CheckCause::OutOfMemory) => return Err(OutOfMemory),
            Err(cause) => return Ok(Some((index, cause))),
        }
    }
    Ok(None)
}

/// The first line of a script that has a cause, and the cause.
fn first_refused(alloc: Global, script: &Script) -> Result<Option<(usize, CheckCause)>, OutOfMemory>
    ensures accepted { IfOk result (λ found. found ≡ None → HasNoRefusedLine script.now) }
    ensures refused { IfOk result (λ found. IfSome found (λ f. IsRefusedAt script.now.names script.now.lines f.0 f.1)) }
{
    let mut rows = plain_rows(alloc, script.names())?;
    let mut so_far = SoFar::new(alloc, script)?;
    take_lines(
        alloc,
        &mut so_far,
        &mut rows,
        script.names(),
        script.lines(),
    )
}

/// What the first lines of a script declare, which have no cause.
fn declared_by(alloc: Global, script: &Script, count: usize) -> Result<SoFar, OutOfMemory>
    requires { count ≤ length script.now.lines }
    ensures { IfOk result (λ so_far.
        so_far ≡ declared_after script.now.names (nothing_yet script.now.names) (take count script.now.lines)) }
{
    let mut rows = plain_rows(alloc, script.names())?;
    let mut so_far = SoFar::new(alloc, script)?;
    let lines = &script.lines()[..count];
    match take_lines(alloc, &mut so_far, &mut rows, script.names(), lines)? {
        None => Ok(so_far),
        Some(_) => Err(OutOfMemory),
    }
}

/// The line for which a script is refused, and what was declared when it came; none where it isn't refused.
pub fn refused_at(alloc: Global, script: &Script) -> Result<Option<RefusedLine>, OutOfMemory>
    ensures accepted { IfOk result (λ found. found ≡ None → HasNoRefusedLine script.now) }
    ensures refused { IfOk result (λ found. IfSome found (IsRefusedLine script.now)) }
{
    let Some((index, cause)) = first_refused(alloc, script)? else {
        return Ok(None);
    };
    let mut so_far = declared_by(alloc, script, index)?;
    settle(alloc, &mut so_far.block, &script.lines()[index].form)?;
    Ok(Some(RefusedLine {
        index,
        cause,
        so_far,
    }))
}
