ghost use Rattle.script_checker.specs.Compiled.{IsPlanOf};
ghost use Rattle.place_plan.specs.Plans.OwnNames.{HasOwnNames};

use action_script::forms::script::Script;
use place_plan::plans::plan::Plan;

/// The participants of the plan of a script have different names, and so have its objects and the exceptions of each graph; no
/// object is watched twice. A statement alone: the call does nothing.
pub fn has_own_names(script: &Script, plan: &Plan)
    requires { IsPlanOf script.now plan.now }
    ensures { HasOwnNames plan.now }
{
    let _ = plan;
    script.are_script();
}
