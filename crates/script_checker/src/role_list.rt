ghost use Rattle.std.specs.Prelude.{◌≡◌, ◌≤◌, ◌++◌, ◌∷◌, [], length, slice_index_or, slice_set, OnOk, IfOk};
ghost use Rattle.caa_base.specs.Written.Limits.{most_roles};
ghost use Rattle.place_plan.specs.Plans.Places.{no_role};
ghost use Rattle.script_checker.specs.InAction.{with_program};

use caa_base::written::rows::Rows;
use place_plan::drafts::draft_rows::{AbortRow, HandlerRow, Program, RoleRow};
use std::alloc::{AllocError, Global};
use std::marker::Model;
use std::mem::replace;

/// A role with one more handler.
fn with_handler(
    handlers: Rows<HandlerRow>,
    handler: HandlerRow,
) -> Result<Rows<HandlerRow>, AllocError>
    ensures { IfOk result (λ all. all ≡ handlers ++ handler ∷ []) }
{
    let mut handlers = handlers.into_vec();
    handlers.push(handler)?;
    Ok(Rows::from_vec(handlers))
}

/// Gives a role this body, or one more handler.
fn change_program(
    alloc: Global,
    role: &mut RoleRow,
    exception: Option<u32>,
    program: Program,
) -> Result<(), AllocError>
    ensures { OnOk result (role.new ≡ with_program role.old exception program) }
{
    match exception {
        None => role.body = program,
        Some(exception) => {
            let handlers = replace(&mut role.handlers, Rows::from_vec(Vec::new(alloc)));
            role.handlers = with_handler(handlers, HandlerRow { exception, program })?;
        }
    }
    Ok(())
}

/// Gives one of some roles this body, or one more handler.
#[tactic(auto, using(std::proofs::lemmas::List::set_past))]
fn give_program(
    alloc: Global,
    roles: &mut [RoleRow],
    role: u32,
    exception: Option<u32>,
    program: Program,
) -> Result<(), AllocError>
    ensures { OnOk result (
        roles.new ≡ slice_set roles.old role (with_program (slice_index_or roles.old role no_role) exception program)) }
{
    let index = role as usize;
    if index < roles.len() {
        change_program(alloc, &mut roles[index], exception, program)?;
    }
    Ok(())
}

/// Says what one of some roles names where its action is aborted.
#[tactic(auto, using(std::proofs::lemmas::List::set_past))]
fn give_abort(roles: &mut [RoleRow], role: u32, abort: AbortRow)
    ensures { roles.new ≡ slice_set roles.old role (record (slice_index_or roles.old role no_role) { abort = abort }) }
{
    let index = role as usize;
    if index < roles.len() {
        roles[index].abort = abort;
    }
}

/// The roles of an action, no more than it may have, seen as the list of them.
#[derive(Drop)]
pub struct RoleList {
    rows: Vec<RoleRow>,
}

impl Model for RoleList {
    ghost use Rattle.std.specs.Prelude.{List, ◌≤◌, length};
    ghost use Rattle.caa_base.specs.Written.Limits.{most_roles};
    ghost use Rattle.place_plan.specs.declared.drafts.draft_rows.RoleRow.{RoleRow as Row};

    ghost Value = { List Row };

    ghost view = { λ r. r.rows.items };

    ghost invariant = { λ r. length r.rows.items ≤ most_roles };
}

impl RoleList {
    /// No roles.
    pub fn new(alloc: Global) -> RoleList
        ensures { result ≡ [] }
    {
        RoleList {
            rows: Vec::new(alloc),
        }
    }

    /// These roles.
    pub fn from_vec(rows: Vec<RoleRow>) -> RoleList
        requires { length rows.items ≤ most_roles }
        ensures { result ≡ rows.items }
    {
        RoleList { rows }
    }

    /// All roles, in order.
    pub fn as_slice(&self) -> &[RoleRow]
        ensures { result.now ≡ self.now }
    {
        self.rows.as_slice()
    }

    /// The roles as rows of a draft.
    pub fn into_rows(self) -> Rows<RoleRow>
        ensures roles { result ≡ self }
        ensures few { length self ≤ most_roles }
    {
        Rows::from_vec(self.rows)
    }

    /// Gives a role this body, or one more handler.
    #[tactic(auto, using(crate::proofs::ListsChange::many_set))]
    pub fn set_program(
        &mut self,
        alloc: Global,
        role: u32,
        exception: Option<u32>,
        program: Program,
    ) -> Result<(), AllocError>
        ensures { OnOk result (
            self.new ≡ slice_set self.old role (with_program (slice_index_or self.old role no_role) exception program)) }
    {
        give_program(alloc, self.rows.as_mut_slice(), role, exception, program)
    }

    /// Says what a role names where its action is aborted.
    #[tactic(auto, using(crate::proofs::ListsChange::many_set))]
    pub fn set_abort(&mut self, role: u32, abort: AbortRow)
        ensures { self.new ≡ slice_set self.old role (record (slice_index_or self.old role no_role) { abort = abort }) }
    {
        give_abort(self.rows.as_mut_slice(), role, abort);
    }
}
