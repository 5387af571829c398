ghost use Rattle.std.specs.Prelude.{◌≡◌};
ghost use Rattle.place_plan.specs.Plans.PlanValue.{Plan as PlanValue};
ghost use Rattle.place_plan.specs.Plans.OwnNames.{HasOwnParts};
ghost use Rattle.script_checker.specs.Compiled.{IsPlanOf};

use action_script::forms::script::Script;
use place_plan::plans::plan::Plan;

/// A script has one plan at most. A statement alone: the call does nothing.
pub fn has_one_plan(script: &Script)
    ensures { (plan other : PlanValue) → IsPlanOf script.now plan → IsPlanOf script.now other → plan ≡ other }
{
    let _ = script;
}

/// The actions of the plan of a script have different names, and so have the roles and the nested uses of each action. A statement
/// alone: the call does nothing.
pub fn has_own_parts(script: &Script, plan: &Plan)
    requires { IsPlanOf script.now plan.now }
    ensures { HasOwnParts plan.now }
{
    let _ = plan;
    script.are_script();
}
