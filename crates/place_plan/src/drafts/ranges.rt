ghost use Rattle.std.specs.Prelude.{◌≡◌, length};
ghost use Rattle.std.specs.List.{list_all};
ghost use Rattle.place_plan.specs.Drafts.DraftRules.{is_rising, all_below, step_in_range, verdict_in_range, abort_in_range, program_in_range, handler_in_range, role_in_range, nest_in_range, exceptions_of, graphs_in_range, objects_in_range, parts_in_range, action_in_range, play_in_range, drill_in_range, range_rule};
ghost use Rattle.caa_base.specs.Written.Limits.{is_value};

use crate::drafts::draft::Draft;
use crate::drafts::draft_rows::{
    AbortRow, ActionRow, HandlerRow, NestRow, PlayRow, Program, RoleRow, Step,
};
use caa_base::written::entry::{Drill, Verdict};
use caa_base::written::limits::{MOST_COUNT, is_value};

pub(crate) fn all_below(count: usize, numbers: &[u32]) -> bool
    ensures { result ≡ all_below count numbers.now }
{
    numbers.iter().all(|number| (*number as usize) < count)
}

fn step_in_range(step: &Step, objects: usize, exceptions: u32) -> bool
    ensures { result ≡ step_in_range objects exceptions step.now }
{
    match step {
        Step::Read(object) => (*object as usize) < objects,
        Step::Put(object, value) | Step::Add(object, value) => {
            (*object as usize) < objects && is_value(*value)
        }
        Step::Work(rounds) => *rounds <= MOST_COUNT,
        Step::Check {
            test: _,
            value,
            exception,
        } => is_value(*value) && *exception < exceptions,
        Step::Raise(exception) => *exception < exceptions,
        Step::Enter(_) => true,
    }
}

fn verdict_in_range(verdict: &Verdict, exceptions: u32) -> bool
    ensures { result ≡ verdict_in_range exceptions verdict.now }
{
    match verdict {
        Verdict::Signal(exception) => *exception < exceptions,
        _ => true,
    }
}

fn abort_in_range(abort: &AbortRow, exceptions: u32) -> bool
    ensures { result ≡ abort_in_range exceptions abort.now }
{
    match abort {
        AbortRow::Never => true,
        AbortRow::Always(exception) => *exception < exceptions,
        AbortRow::Where {
            test: _,
            value,
            exception,
        } => is_value(*value) && *exception < exceptions,
    }
}

fn steps_in_range(program: &Program, objects: usize, internal: u32) -> bool
    ensures { result ≡ list_all (step_in_range objects internal) program.now.steps }
{
    program
        .steps
        .iter()
        .all(|step| step_in_range(step, objects, internal))
}

fn program_in_range(program: &Program, objects: usize, internal: u32, interface: u32) -> bool
    ensures { result ≡ program_in_range objects internal interface program.now }
{
    steps_in_range(program, objects, internal) && verdict_in_range(&program.verdict, interface)
}

fn handler_in_range(handler: &HandlerRow, objects: usize, internal: u32, interface: u32) -> bool
    ensures { result ≡ handler_in_range objects internal interface handler.now }
{
    handler.exception < internal && program_in_range(&handler.program, objects, internal, interface)
}

fn handlers_in_range(role: &RoleRow, objects: usize, internal: u32, interface: u32) -> bool
    ensures { result ≡ list_all (handler_in_range objects internal interface) role.now.handlers }
{
    role.handlers.iter().all(|handler| handler_in_range(handler, objects, internal, interface))
}

fn role_in_range(role: &RoleRow, objects: usize, internal: u32, interface: u32) -> bool
    ensures { result ≡ role_in_range objects internal interface role.now }
{
    program_in_range(&role.body, objects, internal, interface)
        && handlers_in_range(role, objects, internal, interface)
        && abort_in_range(&role.abort, interface)
}

fn roles_in_range(action: &ActionRow, objects: usize, internal: u32, interface: u32) -> bool
    ensures { result ≡ list_all (role_in_range objects internal interface) action.now.roles }
{
    action
        .roles
        .iter()
        .all(|role| role_in_range(role, objects, internal, interface))
}

fn nest_in_range(nest: &NestRow, actions: usize, roles: usize, internal: u32) -> bool
    ensures { result ≡ nest_in_range actions roles internal nest.now }
{
    all_below(actions, nest.actions.as_slice())
        && all_below(roles, nest.roles.as_slice())
        && all_below(internal as usize, nest.maps.as_slice())
        && nest.undo < internal
        && nest.failure < internal
}

/// Whether each number is above the one before it.
fn is_rising(numbers: &[u32]) -> bool
    ensures { result ≡ is_rising numbers.now }
{
    let Some((first, rest)) = numbers.split_first() else {
        return true;
    };
    let mut low = *first;
    for number in rest {
        if *number <= low {
            return false;
        }
        low = *number;
    }
    true
}

/// How many exceptions a graph of the draft has; none where there is no such graph.
pub(crate) fn exceptions_of(draft: &Draft, graph: u32) -> u32
    ensures { result ≡ exceptions_of draft.now graph }
{
    match draft.graphs.as_slice().get(graph as usize) {
        Some(row) => row.graph.count(),
        None => 0,
    }
}

fn nests_in_range(action: &ActionRow, actions: usize, internal: u32) -> bool
    ensures { result ≡ list_all (nest_in_range actions (length action.now.roles) internal) action.now.nests }
{
    let roles = action.roles.len();
    action
        .nests
        .iter()
        .all(|nest| nest_in_range(nest, actions, roles, internal))
}

fn graphs_in_range(draft: &Draft, action: &ActionRow) -> bool
    ensures { result ≡ graphs_in_range draft.now action.now }
{
    (action.internal as usize) < draft.graphs.len()
        && (action.interface as usize) < draft.graphs.len()
        && action.fault < exceptions_of(draft, action.internal)
}

fn objects_in_range(draft: &Draft, action: &ActionRow) -> bool
    ensures { result ≡ objects_in_range draft.now action.now }
{
    let objects = action.objects.as_slice();
    is_rising(objects) && all_below(draft.objects.len(), objects)
}

fn parts_in_range(draft: &Draft, action: &ActionRow) -> bool
    ensures { result ≡ parts_in_range draft.now action.now }
{
    let internal = exceptions_of(draft, action.internal);
    let interface = exceptions_of(draft, action.interface);
    roles_in_range(action, draft.objects.len(), internal, interface)
        && nests_in_range(action, draft.actions.len(), internal)
}

fn action_in_range(draft: &Draft, action: &ActionRow) -> bool
    ensures { result ≡ action_in_range draft.now action.now }
{
    graphs_in_range(draft, action)
        && objects_in_range(draft, action)
        && parts_in_range(draft, action)
}

fn play_in_range(draft: &Draft, play: &PlayRow) -> bool
    ensures { result ≡ play_in_range draft.now play.now }
{
    (play.action as usize) < draft.actions.len()
        && all_below(draft.participants.len(), play.who.as_slice())
}

fn drill_in_range(draft: &Draft, drill: &Drill) -> bool
    ensures { result ≡ drill_in_range draft.now drill.now }
{
    (drill.object as usize) < draft.objects.len()
}

fn initials_in_range(draft: &Draft) -> bool
    ensures { result ≡ list_all (λ o. is_value o.initial) draft.now.objects }
{
    draft.objects.iter().all(|object| is_value(object.initial))
}

fn actions_in_range(draft: &Draft) -> bool
    ensures { result ≡ list_all (action_in_range draft.now) draft.now.actions }
{
    draft
        .actions
        .iter()
        .all(|action| action_in_range(draft, action))
}

fn plays_in_range(draft: &Draft) -> bool
    ensures { result ≡ list_all (play_in_range draft.now) draft.now.plays }
{
    draft.plays.iter().all(|play| play_in_range(draft, play))
}

fn drills_in_range(draft: &Draft) -> bool
    ensures { result ≡ list_all (drill_in_range draft.now) draft.now.drills }
{
    draft
        .drills
        .iter()
        .all(|drill| drill_in_range(draft, drill))
}

/// Whether all numbers are in range.
pub(crate) fn keeps_ranges(draft: &Draft) -> bool
    ensures { result ≡ range_rule draft.now }
{
    initials_in_range(draft)
        && actions_in_range(draft)
        && plays_in_range(draft)
        && drills_in_range(draft)
        && all_below(draft.objects.len(), draft.watches.as_slice())
}
