//! From the bytes of a script to an open machine, or the line for which it is refused.

ghost use Rattle.std.specs.Prelude.{IfOk, IfErr, [], ◌≡◌, None};
ghost use Rattle.action_script.specs.Lines.Spelling.{Spells};
ghost use Rattle.script_checker.specs.Compiled.{IsPlanOf, IsFirstRefused};
ghost use Rattle.script_checker.specs.declared.check_error.CheckCause.TheVariants as check;
ghost use Rattle.caa_c.specs.Machines.{machine_of};
ghost use Rattle.caa_c.specs.Opened.{IsOpened, IsUnopened, IsUncompiled};

use crate::session::Session;
use crate::unopened::Unopened;
use action_script::forms::script::Script;
use action_script::lines::reader::read;
use action_script::script_error::ScriptCause;
use caa_base::written::entry::OutOfMemory;
use place_plan::plans::plan::Plan;
use script_checker::check_error::CheckCause;
use script_checker::compile::compile;
use std::alloc::Global;
use told_machine::Told;

/// Room for a line: two names of at most 32 bytes, and at most 64 bytes beside them.
const MOST_LINE: usize = 128;

/// The script that bytes spell.
fn script_of(alloc: Global, bytes: &[u8]) -> Result<Script, Unopened>
    ensures read { IfOk result (Spells bytes.now) }
    ensures refused { IfErr result (IsUnopened bytes.now) }
{
    match read(alloc, bytes) {
        Ok(script) => Ok(script),
        Err(error) => match error.cause {
            ScriptCause::OutOfMemory => Err(Unopened::OutOfMemory),
            _ => Err(Unopened::Misspelled(error)),
        },
    }
}

/// The plan of a script.
fn plan_of(alloc: Global, script: &Script) -> Result<Plan, Unopened>
    ensures planned { IfOk result (IsPlanOf script.now) }
    ensures refused { IfErr result (IsUncompiled script.now) }
{
    match compile(alloc, script) {
        Ok(plan) => Ok(plan),
        Err(error) => match error.cause {
            CheckCause::OutOfMemory => Err(Unopened::OutOfMemory),
            _ => Err(Unopened::Refused(error)),
        },
    }
}

/// A machine at the beginning of a plan, with all the memory that it will need.
fn begin(alloc: Global, plan: Plan) -> Result<Box<Session>, OutOfMemory>
    ensures plan { IfOk result (λ session. session.value.told.plan ≡ plan) }
    ensures fresh { IfOk result (λ session. session.value.told.journal.entries ≡ []) }
    ensures free { IfOk result (λ session. session.value.told.asked ≡ None) }
{
    let told = Told::open(alloc, plan)?;
    let line = Vec::with_capacity(alloc, MOST_LINE)?;
    Ok(Box::new(alloc, Session { told, line })?)
}

/// A machine at the beginning of the plan of a script.
pub fn open(alloc: Global, bytes: &[u8]) -> Result<Box<Session>, Unopened>
    ensures opened { IfOk result (λ session. IsOpened bytes.now (machine_of session.value)) }
    ensures refused { IfErr result (IsUnopened bytes.now) }
{
    let script = match script_of(alloc, bytes) {
        Ok(script) => script,
        Err(why) => return Err(why),
    };
    let plan = match plan_of(alloc, &script) {
        Ok(plan) => plan,
        Err(why) => return Err(why),
    };
    match begin(alloc, plan) {
        Ok(session) => Ok(session),
        Err(OutOfMemory) => Err(Unopened::OutOfMemory),
    }
}
