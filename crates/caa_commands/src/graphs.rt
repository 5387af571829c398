//! The graph of sets that a script of primitive exceptions comes to, as a text.

ghost use Rattle.std.specs.Prelude.{◌≡◌, ◌≤◌, IfOk, IfErr};
ghost use Rattle.caa_commands.specs.Graphs.{HasNoGraph, IsAcceptedGraph, IsMadeFault};

use crate::fault::{Fault, Refusal};
use crate::scripts::{NoPlan, script_of};
use action_script::forms::printer::print;
use action_script::script_error::ScriptCause;
use caa_base::written::entry::OutOfMemory;
use graph_maker::{MadeCause, MadeError, make_script};
use script_checker::check_error::CheckCause;
use std::alloc::Global;

/// The fault of a script of which no graph is made; none for want of memory.
fn fault_of(alloc: Global, cause: MadeCause) -> Result<Fault, OutOfMemory>
    ensures { IfOk result (IsMadeFault cause) }
{
    match cause {
        MadeCause::BadLine => Ok(Fault::Text(ScriptCause::BadLine)),
        MadeCause::Twice => Ok(Fault::of_line(alloc, CheckCause::Twice)),
        MadeCause::Limit => Ok(Fault::of_line(alloc, CheckCause::Limit)),
        MadeCause::OutOfMemory => Err(OutOfMemory),
    }
}

/// The refusal of such a script; none for want of memory.
fn refusal_of(alloc: Global, error: MadeError) -> Result<Refusal, OutOfMemory>
    ensures line { IfOk result (λ refusal. refusal.line ≡ error.line) }
    ensures fault { IfOk result (λ refusal. IsMadeFault error.cause refusal.fault) }
{
    let fault = fault_of(alloc, error.cause)?;
    Ok(Refusal {
        line: u64::from(error.line),
        fault,
    })
}

/// The text of the graph of all sets of at most so many of the exceptions that a script declares, which these bytes spell. It isn't
/// longer than a script may be, and the checks accept it.
pub fn graph_text(alloc: Global, bytes: &[u8], most: u32) -> Result<Vec<u8>, NoPlan>
    requires some { 1 ≤ most }
    requires few { most ≤ 7 }
    ensures text { IfOk result (λ text. IsAcceptedGraph most bytes.now text.items) }
    ensures refused { IfErr result (HasNoGraph most bytes.now) }
{
    let script = script_of(alloc, bytes)?;
    match make_script(alloc, &script, most) {
        Ok(made) => {
            let text = print(alloc, &made)?;
            Ok(text)
        }
        Err(error) => {
            let refusal = refusal_of(alloc, error)?;
            Err(NoPlan::Refused(refusal))
        }
    }
}
