ghost use Rattle.std.specs.Prelude.{◌≡◌};
ghost use Rattle.std.specs.List.{list_all};
ghost use Rattle.place_plan.specs.Drafts.DraftRules.{program_fits, role_fits, nest_fits, action_fits, size_rule, is_named, graph_rule};

use crate::drafts::draft::Draft;
use crate::drafts::draft_rows::{ActionRow, GraphRow, NestRow, Program, RoleRow};
use caa_base::written::limits::{
    MOST_ACTIONS, MOST_ALTERNATES, MOST_DRILLS, MOST_GRAPHS, MOST_NESTS, MOST_OBJECTS,
    MOST_PARTICIPANTS, MOST_ROLES, MOST_STEPS, MOST_WATCHES,
};

fn program_fits(program: &Program) -> bool
    ensures { result ≡ program_fits program.now }
{
    program.steps.len() <= MOST_STEPS
}

fn handlers_fit(role: &RoleRow) -> bool
    ensures { result ≡ list_all (λ h. program_fits h.program) role.now.handlers }
{
    role.handlers
        .iter()
        .all(|handler| program_fits(&handler.program))
}

fn role_fits(role: &RoleRow) -> bool
    ensures { result ≡ role_fits role.now }
{
    program_fits(&role.body) && handlers_fit(role)
}

fn roles_fit(action: &ActionRow) -> bool
    ensures { result ≡ list_all role_fits action.now.roles }
{
    action.roles.iter().all(|role| role_fits(role))
}

fn nest_fits(nest: &NestRow) -> bool
    ensures { result ≡ nest_fits nest.now }
{
    !nest.actions.is_empty() && nest.actions.len() <= MOST_ALTERNATES
}

fn nests_fit(action: &ActionRow) -> bool
    ensures { result ≡ list_all nest_fits action.now.nests }
{
    action.nests.iter().all(|nest| nest_fits(nest))
}

fn action_fits(action: &ActionRow) -> bool
    ensures { result ≡ action_fits action.now }
{
    !action.roles.is_empty()
        && action.roles.len() <= MOST_ROLES
        && action.nests.len() <= MOST_NESTS
        && roles_fit(action)
        && nests_fit(action)
}

fn actions_fit(draft: &Draft) -> bool
    ensures { result ≡ list_all action_fits draft.now.actions }
{
    draft.actions.iter().all(|action| action_fits(action))
}

/// Whether no list is longer than its limit, no action is without roles, and no nested use without actions.
pub(crate) fn keeps_sizes(draft: &Draft) -> bool
    ensures { result ≡ size_rule draft.now }
{
    draft.participants.len() <= MOST_PARTICIPANTS
        && draft.objects.len() <= MOST_OBJECTS
        && draft.graphs.len() <= MOST_GRAPHS + 1
        && draft.actions.len() <= MOST_ACTIONS
        && draft.watches.len() <= MOST_WATCHES
        && draft.drills.len() <= MOST_DRILLS
        && actions_fit(draft)
}

/// Whether a graph has a name for each exception.
fn is_named(row: &GraphRow) -> bool
    ensures { result ≡ is_named row.now }
{
    row.names.len() == row.graph.count() as usize
}

fn are_named(draft: &Draft) -> bool
    ensures { result ≡ list_all is_named draft.now.graphs }
{
    draft.graphs.iter().all(|row| is_named(row))
}

/// Whether graph 0 has one exception alone, and each graph a name for each.
pub(crate) fn keeps_graphs(draft: &Draft) -> bool
    ensures { result ≡ graph_rule draft.now }
{
    match draft.graphs.as_slice().first() {
        Some(first) => first.graph.count() == 1 && are_named(draft),
        None => false,
    }
}
