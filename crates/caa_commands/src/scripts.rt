//! The plan that a script has by its bytes, or the fault for which it is refused.
//!
//! The error of a check has the numbers of exceptions alone. For their names the lines of a refused script are gone over once more
//! (`exception_at`), whose definition says the names in the words of the script; nobody has to know for it what the checks keep.

ghost use Rattle.std.specs.Prelude.{◌≡◌, true, [], Ok, IfOk, IfErr, OnOk};
ghost use Rattle.action_script.specs.Lines.Spelling.{reading_of};
ghost use Rattle.journal_text.specs.Texts.Naming.{is_well_named};
ghost use Rattle.caa_commands.specs.Scripts.{IsThePlan, IsOnlyPlan, IsCounted, IsUnplanned, HasNoPlan, HasNoScript, IsSpelling, IsCause, exceptions_told, declared_after, declared_at, exception_at};

use crate::fault::{Fault, Refusal};
use action_script::forms::form::Form;
use action_script::forms::script::Script;
use action_script::lines::reader::read;
use action_script::script_error::ScriptCause;
use caa_base::written::entry::OutOfMemory;
use caa_base::written::name::{Name, name_at};
use caa_base::written::rows::Rows;
use place_plan::plans::plan::Plan;
use script_checker::check_error::{CheckCause, CheckError};
use script_checker::compile::{compile, count};
use script_checker::one_plan::has_one_plan;
use script_checker::own_names::has_own_names;
use script_checker::plan_counts::PlanCounts;
use std::alloc::{AllocError, Global};

/// Why bytes have no plan, or no graph of sets.
#[derive(Drop)]
pub enum NoPlan {
    Refused(Refusal),
    /// No memory was found.
    OutOfMemory,
}

impl From<OutOfMemory> for NoPlan {
    ghost use Rattle.caa_commands.specs.declared.scripts.NoPlan.{NoPlan};

    ghost from_gives = { λ _ error. error ≡ NoPlan.OutOfMemory };

    fn from(_error: OutOfMemory) -> Self {
        NoPlan::OutOfMemory
    }
}

/// The fault of a text; none for want of memory.
fn spelling_of(cause: ScriptCause) -> Result<Fault, OutOfMemory>
    ensures { IfOk result (IsSpelling cause) }
{
    match cause {
        ScriptCause::OutOfMemory => Err(OutOfMemory),
        _ => Ok(Fault::Text(cause)),
    }
}

/// Takes the next line, which may begin a graph or declare an exception.
fn declare(names: &mut Vec<u32>, form: &Form) -> Result<(), AllocError>
    ensures { OnOk result (names.new.items ≡ declared_after form.now names.old.items) }
{
    if let Form::Graph(_) = form {
        names.clear();
    } else if let Form::Exception(name) = form {
        names.push(*name)?;
    }
    Ok(())
}

/// The exceptions that are declared in the graph which ends at this line, by the numbers of their names.
fn declared_at(alloc: Global, script: &Script, line: u32) -> Result<Vec<u32>, AllocError>
    ensures { IfOk result (λ names. names.items ≡ declared_at line [] script.now.lines) }
{
    let mut names = Vec::new(alloc);
    for said in script.lines() {
        if said.number == line {
            return Ok(names);
        }
        declare(&mut names, &said.form)?;
    }
    Ok(names)
}

/// The name of an exception of the graph that ends at this line.
fn exception_at(
    alloc: Global,
    script: &Script,
    line: u32,
    exception: u32,
) -> Result<Name, OutOfMemory>
    ensures { IfOk result (λ name. name ≡ exception_at script.now line exception) }
{
    if exception == 0 {
        return Name::from_bytes(alloc, b"universal");
    }
    let declared = declared_at(alloc, script, line)?;
    let Some(number) = declared.get(exception as usize - 1) else {
        return Name::from_bytes(alloc, b"");
    };
    Name::from_bytes(alloc, name_at(script.names(), *number))
}

/// The exceptions that are told of a cause at the line of this number.
fn exceptions_told(
    alloc: Global,
    script: &Script,
    line: u32,
    cause: CheckCause,
) -> Result<Vec<Name>, OutOfMemory>
    ensures { IfOk result (λ names. names.items ≡ exceptions_told script.now line cause) }
{
    let mut names = Vec::new(alloc);
    match cause {
        CheckCause::Cycle { at } => names.push(exception_at(alloc, script, line, at)?)?,
        CheckCause::NoLeast { a, b } => {
            names.push(exception_at(alloc, script, line, a)?)?;
            names.push(exception_at(alloc, script, line, b)?)?;
        }
        _ => {}
    }
    Ok(names)
}

/// The fault of a line, with the names of its exceptions; none for want of memory.
fn cause_of(alloc: Global, script: &Script, error: CheckError) -> Result<Fault, OutOfMemory>
    ensures { IfOk result (IsCause script.now error.line error.cause) }
{
    if error.cause == CheckCause::OutOfMemory {
        return Err(OutOfMemory);
    }
    let names = exceptions_told(alloc, script, error.line, error.cause)?;
    Ok(Fault::Line(error.cause, Rows::from_vec(names)))
}

/// The script that these bytes spell.
pub fn script_of(alloc: Global, bytes: &[u8]) -> Result<Script, NoPlan>
    ensures script { IfOk result (λ script. reading_of bytes.now ≡ Ok script) }
    ensures refused { IfErr result (HasNoPlan bytes.now) }
    ensures misspelled { IfErr result (HasNoScript bytes.now) }
{
    match read(alloc, bytes) {
        Ok(script) => Ok(script),
        Err(error) => {
            let fault = spelling_of(error.cause)?;
            Err(NoPlan::Refused(Refusal {
                line: u64::from(error.line),
                fault,
            }))
        }
    }
}

/// The refusal of a script for one of its lines; none for want of memory.
fn refusal_of(alloc: Global, script: &Script, error: CheckError) -> Result<Refusal, OutOfMemory>
    ensures line { IfOk result (λ refusal. refusal.line ≡ error.line) }
    ensures fault { IfOk result (λ refusal. IsCause script.now error.line error.cause refusal.fault) }
{
    let fault = cause_of(alloc, script, error)?;
    Ok(Refusal {
        line: u64::from(error.line),
        fault,
    })
}

/// The plan of a script, which has no other; its names tell its parts apart.
///
/// A refusal names the line and the fault, and for a graph the exceptions at fault.
pub fn plan_of_script(alloc: Global, script: &Script) -> Result<Plan, NoPlan>
    ensures plan { IfOk result (IsOnlyPlan script.now) }
    ensures named { IfOk result (λ plan. is_well_named plan ≡ true) }
    ensures refused { IfErr result (IsUnplanned script.now) }
{
    match compile(alloc, script) {
        Ok(plan) => {
            has_one_plan(script);
            has_own_names(script, &plan);
            Ok(plan)
        }
        Err(error) => {
            let refusal = refusal_of(alloc, script, error)?;
            Err(NoPlan::Refused(refusal))
        }
    }
}

/// The plan of the script that these bytes spell. A refusal is that of the bytes, or that of the script.
pub fn plan_of(alloc: Global, bytes: &[u8]) -> Result<Plan, NoPlan>
    ensures plan { IfOk result (IsThePlan bytes.now) }
    ensures named { IfOk result (λ plan. is_well_named plan ≡ true) }
    ensures refused { IfErr result (HasNoPlan bytes.now) }
{
    let script = script_of(alloc, bytes)?;
    plan_of_script(alloc, &script)
}

/// How large the plan is of the script that these bytes spell. The plan isn't made; a refusal is the same as that of `plan_of`.
pub fn counts_of(alloc: Global, bytes: &[u8]) -> Result<PlanCounts, NoPlan>
    ensures counts { IfOk result (IsCounted bytes.now) }
    ensures refused { IfErr result (HasNoPlan bytes.now) }
{
    let script = script_of(alloc, bytes)?;
    match count(alloc, &script) {
        Ok(counts) => {
            has_one_plan(&script);
            Ok(counts)
        }
        Err(error) => {
            let refusal = refusal_of(alloc, &script, error)?;
            Err(NoPlan::Refused(refusal))
        }
    }
}
