ghost use Rattle.std.specs.Prelude.{◌≡◌, ◌≢◌, length, OnOk, IfOk, IfErr};
ghost use Rattle.place_plan.specs.Plans.Unfolding.{plan_of};
ghost use Rattle.script_checker.specs.DeclaredSoFar.{nothing_yet};
ghost use Rattle.script_checker.specs.After.{after};
ghost use Rattle.script_checker.specs.Compiled.{IsLeastCause, IsAccepted, AreRowsOf, IsDeclared, BreaksNoRule, IsFirstRefused, IsAnswer};
ghost use Rattle.script_checker.specs.PlanSizes.{counts_so_far, HasCounts};
ghost use Rattle.script_checker.specs.PlaySizes.{CountsUnfolding};
ghost use Rattle.script_checker.specs.declared.check_error.CheckCause.TheVariants as cause;

use crate::action::program::settle;
use crate::check_error::{CheckCause, CheckError};
use crate::declared::{Declared, SoFar};
use crate::ending::end;
use crate::plan_counts::PlanCounts;
use crate::saying::say;
use action_script::forms::form::Form;
use action_script::forms::script::Script;
use caa_base::written::entry::OutOfMemory;
use caa_base::written::name::Name;
use place_plan::drafts::draft_rows::GraphRow;
use place_plan::plans::plan::Plan;
use std::alloc::Global;

/// Takes a line into what is declared, where it has no cause to be refused. After an error both are of no more use.
pub(crate) fn take(
    alloc: Global,
    so_far: &mut SoFar,
    rows: &mut Vec<GraphRow>,
    names: &[Name],
    form: &Form,
) -> Result<(), CheckCause>
    requires { AreRowsOf names.now so_far.old.declared.graphs rows.old.items }
    ensures accepted { OnOk result (IsAccepted so_far.old form.now) }
    ensures taken { OnOk result (so_far.new ≡ after names.now so_far.old form.now) }
    ensures rows { OnOk result (AreRowsOf names.now so_far.new.declared.graphs rows.new.items) }
    ensures refused { IfErr result (λ c. c ≢ cause.OutOfMemory → IsLeastCause so_far.old form.now c) }
{
    settle(alloc, &mut so_far.block, form)?;
    if let Form::End = form {
        end(alloc, so_far, rows, names)
    } else {
        say(alloc, so_far, names, form)
    }
}

/// Want of memory, where no line is at fault.
fn wanting() -> CheckError
    ensures { result.cause ≡ cause.OutOfMemory }
{
    CheckError {
        line: 0,
        cause: CheckCause::OutOfMemory,
    }
}

/// The row of the plain graph, which stands before all others.
pub(crate) fn plain_rows(alloc: Global, names: &[Name]) -> Result<Vec<GraphRow>, OutOfMemory>
    ensures { IfOk result (λ rows. AreRowsOf names.now (nothing_yet names.now).declared.graphs rows.items) }
{
    let row = GraphRow::plain(alloc)?;
    let mut rows = Vec::new(alloc);
    rows.push(row)?;
    Ok(rows)
}

/// A script without a refused line makes a draft that breaks no rule of place_plan. A statement alone: the call does nothing.
pub fn breaks_no_rule(script: &Script)
    ensures { BreaksNoRule script.now }
{
    script.are_script();
}

/// What a `play` line is judged by is what `unfolded` of place_plan counts of the draft with that play. A statement alone: the call
/// does nothing.
pub fn counts_unfolding(script: &Script)
    ensures { CountsUnfolding script.now }
{
    script.are_script();
}

/// Takes all lines of a script, up to the first that is refused. After an error both are of no more use.
fn take_all(
    alloc: Global,
    so_far: &mut SoFar,
    rows: &mut Vec<GraphRow>,
    script: &Script,
) -> Result<(), CheckError>
    requires begun { so_far.old ≡ nothing_yet script.now.names }
    requires rows { AreRowsOf script.now.names so_far.old.declared.graphs rows.old.items }
    ensures declared { OnOk result (IsDeclared script.now so_far.new.declared rows.new.items) }
    ensures refused { IfErr result (λ e. e.cause ≢ cause.OutOfMemory → IsFirstRefused script.now e) }
{
    let names = script.names();
    for line in script.lines() {
        if let Err(cause) = take(alloc, so_far, rows, names, &line.form) {
            return Err(CheckError {
                line: line.number,
                cause,
            });
        }
    }
    Ok(())
}

/// What the lines of a script declare, with the rows of its graphs; or its first line that is refused, with its least cause.
fn declare(alloc: Global, script: &Script) -> Result<(Declared, Vec<GraphRow>), CheckError>
    ensures declared { IfOk result (λ made. IsDeclared script.now made.0 made.1.items) }
    ensures refused { IfErr result (λ e. e.cause ≢ cause.OutOfMemory → IsFirstRefused script.now e) }
{
    let Ok(mut rows) = plain_rows(alloc, script.names()) else {
        return Err(wanting());
    };
    let Ok(mut so_far) = SoFar::new(alloc, script) else {
        return Err(wanting());
    };
    take_all(alloc, &mut so_far, &mut rows, script)?;
    Ok((so_far.end(), rows))
}

/// How large the plan is of what is declared.
fn counts_so_far(declared: &Declared) -> PlanCounts
    ensures { result ≡ counts_so_far declared.now }
{
    PlanCounts {
        participants: declared.participants.len(),
        objects: declared.objects.len(),
        places: declared.all_places,
        bound: declared.whole_bound,
    }
}

/// How large the plan of a script is, or the first line that is refused, with its least cause.
///
/// The plan isn't made: it may have many times as many places as the script has lines, and their number is known once all lines
/// were taken. `OutOfMemory` comes where no memory is found, and tells nothing of the script. The script stays as it was.
pub fn count(alloc: Global, script: &Script) -> Result<PlanCounts, CheckError>
    ensures counts { IfOk result (HasCounts script.now) }
    ensures refused { IfErr result (λ e. e.cause ≢ cause.OutOfMemory → IsFirstRefused script.now e) }
{
    script.are_script();
    let (declared, _) = declare(alloc, script)?;
    Ok(counts_so_far(&declared))
}

/// The plan of a script, or the first line of it that is refused, with its least cause.
///
/// `OutOfMemory` comes where no memory is found, and tells nothing of the script. A script without a refused line is kept from its
/// plan by nothing else, since its draft breaks no rule, as `breaks_no_rule` says. The script stays as it was.
pub fn compile(alloc: Global, script: &Script) -> Result<Plan, CheckError>
    ensures { IsAnswer script.now result }
{
    script.are_script();
    breaks_no_rule(script);
    let (declared, rows) = match declare(alloc, script) {
        Ok(made) => made,
        Err(error) => return Err(error),
    };
    match Plan::of_sound(alloc, declared.into_draft(rows)) {
        Ok(plan) => Ok(plan),
        Err(OutOfMemory) => Err(wanting()),
    }
}
