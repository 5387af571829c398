//! What the names of a line in an action mean.

ghost use Rattle.std.specs.Prelude.{◌≡◌, slice_index_or, IfSome, IfNone};
ghost use Rattle.caa_base.specs.Written.Lists.{index_of};
ghost use Rattle.place_plan.specs.Plans.Places.{no_nest, no_role};
ghost use Rattle.script_checker.specs.Numbers.{is_among};
ghost use Rattle.script_checker.specs.DeclaredSoFar.{begun_nest, inner, outer, nest_of, role_of, face_of};

use crate::declared::Declared;
use crate::lookups::{exception_in, has_exception};
use crate::open_action::{OpenAction, OpenNest};
use place_plan::drafts::draft_rows::RoleRow;

/// The number of an exception that may be raised in the action.
pub(crate) fn inner_number(declared: &Declared, action: &OpenAction, name: u32) -> u32
    ensures { result ≡ index_of name (inner declared.now action.now) }
{
    exception_in(declared, action.internal.unwrap_or(0), name)
}

/// Whether an exception may be raised in the action.
pub(crate) fn is_inner(declared: &Declared, action: &OpenAction, name: u32) -> bool
    ensures { result ≡ is_among (inner declared.now action.now) name }
{
    has_exception(declared, action.internal.unwrap_or(0), name)
}

/// The number of an exception that the action may tell outside.
pub(crate) fn outer_number(declared: &Declared, action: &OpenAction, name: u32) -> u32
    ensures { result ≡ index_of name (outer declared.now action.now) }
{
    exception_in(declared, action.interface.unwrap_or(0), name)
}

/// Whether the action may tell an exception outside.
pub(crate) fn is_outer(declared: &Declared, action: &OpenAction, name: u32) -> bool
    ensures { result ≡ is_among (outer declared.now action.now) name }
{
    has_exception(declared, action.interface.unwrap_or(0), name)
}

/// A nested use.
pub(crate) fn nest_of(action: &OpenAction, name: u32) -> Option<&OpenNest>
    ensures found { IfSome result (λ nest. nest.now ≡ nest_of action.now name) }
    ensures missing { IfNone result (nest_of action.now name ≡ begun_nest no_nest) }
{
    let number = action.nest_names.find(name) as usize;
    action.nests.as_slice().get(number)
}

/// A role.
pub(crate) fn role_of(action: &OpenAction, name: u32) -> Option<&RoleRow>
    ensures found { IfSome result (λ row. row.now ≡ role_of action.now name) }
    ensures missing { IfNone result (role_of action.now name ≡ no_role) }
{
    let number = action.roles.find(name) as usize;
    action.role_rows.as_slice().get(number)
}

/// The first of these actions.
fn first_of(actions: &[u32]) -> u32
    ensures { result ≡ slice_index_or actions.now 0 0 }
{
    match actions.first() {
        Some(action) => *action,
        None => 0,
    }
}

/// The first action of a nested use.
fn first_action(action: &OpenAction, nest: u32) -> u32
    ensures { result ≡ slice_index_or (nest_of action.now nest).row.actions 0 0 }
{
    match nest_of(action, nest) {
        Some(nest) => first_of(nest.row.actions.as_slice()),
        None => 0,
    }
}

/// The graph of the exceptions that the actions of a nested use tell outside.
pub fn face_of(declared: &Declared, action: &OpenAction, nest: u32) -> u32
    ensures { result ≡ face_of declared.now action.now nest }
{
    let first = first_action(action, nest) as usize;
    match declared.actions.as_slice().get(first) {
        Some(row) => row.interface,
        None => 0,
    }
}
