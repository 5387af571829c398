//! What a line of the objects and the roles of an action adds.

ghost use Rattle.std.specs.Prelude.{◌≡◌, ◌≤◌, true, length, map, OnOk, IfOk};
ghost use Rattle.caa_base.specs.Written.Limits.{most_roles};
ghost use Rattle.place_plan.specs.Drafts.DraftRules.{all_differ};
ghost use Rattle.script_checker.specs.Numbers.{chosen_from};
ghost use Rattle.script_checker.specs.InAction.{idle_role, with_abort};

use crate::declared::Declared;
use crate::lookups::{chosen_from, name_row};
use crate::number_list::NumberList;
use crate::open_action::OpenAction;
use crate::role_list::RoleList;
use caa_base::written::entry::{OutOfMemory, Verdict};
use caa_base::written::name::Name;
use caa_base::written::rows::Rows;
use place_plan::drafts::draft_rows::{AbortRow, Program, RoleRow};
use place_plan::drafts::object_list::ObjectList;
use std::alloc::{AllocError, Global};

/// Says the objects of the action.
pub(super) fn set_uses(
    alloc: Global,
    declared: &Declared,
    action: &mut OpenAction,
    objects: &[u32],
) -> Result<(), AllocError>
    requires { all_differ objects.now ≡ true }
    ensures { OnOk result (action.new ≡ record action.old { uses = chosen_from 0 objects.now declared.now.objects }) }
{
    let objects = NumberList::from_slice(alloc, objects)?;
    let chosen = chosen_from(alloc, &objects, declared.objects.items())?;
    action.uses = ObjectList::from_vec(chosen);
    Ok(())
}

/// A role that does nothing.
fn idle_role(alloc: Global, names: &[Name], name: u32) -> Result<RoleRow, OutOfMemory>
    ensures { IfOk result (λ role. role ≡ idle_role names.now name) }
{
    Ok(RoleRow {
        name: name_row(alloc, names, name)?,
        body: Program {
            steps: Rows::from_vec(Vec::new(alloc)),
            verdict: Verdict::Done,
        },
        handlers: Rows::from_vec(Vec::new(alloc)),
        abort: AbortRow::Never,
    })
}

/// Roles that do nothing.
fn idle_roles(alloc: Global, names: &[Name], roles: &[u32]) -> Result<Vec<RoleRow>, OutOfMemory>
    ensures { IfOk result (λ rows. rows.items ≡ map (idle_role names.now) roles.now) }
{
    let mut rows = Vec::new(alloc);
    for role in roles {
        rows.push(idle_role(alloc, names, *role)?)?;
    }
    Ok(rows)
}

/// Says the roles of the action.
#[tactic(auto, using(crate::proofs::ListsChange::many_mapped))]
pub(super) fn set_roles(
    alloc: Global,
    names: &[Name],
    action: &mut OpenAction,
    roles: &[u32],
) -> Result<(), OutOfMemory>
    requires once { all_differ roles.now ≡ true }
    requires few { length roles.now ≤ most_roles }
    ensures { OnOk result (action.new ≡ record action.old { roles = roles.now; role_rows = map (idle_role names.now) roles.now }) }
{
    let rows = idle_roles(alloc, names, roles)?;
    action.roles = NumberList::from_slice(alloc, roles)?;
    action.role_rows = RoleList::from_vec(rows);
    Ok(())
}

/// Says what a role names where the action is aborted.
pub(super) fn add_abort(action: &mut OpenAction, role: u32, abort: AbortRow)
    ensures { action.new ≡ with_abort action.old role abort }
{
    let number = action.roles.find(role);
    action.role_rows.set_abort(number, abort);
}
