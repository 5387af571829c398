//! What somebody comes to in the steps of a program.

ghost use Rattle.std.specs.Prelude.{◌≡◌, option_copied};
ghost use Rattle.std.specs.List.{list_any};
ghost use Rattle.caa_base.specs.Written.Lists.{member};
ghost use Rattle.place_plan.specs.Plans.Places.{handler_in};
ghost use Rattle.reach_laws.specs.ReachedSteps.{is_raise, reached, enters, can_break, body_enters, is_endless, answer_by, answer_to, is_breakable, can_fail_at};
ghost use Rattle.reach_tables.specs.ReachTable.{enters_in_turn};

use caa_base::written::entry::{Exception, Verdict};
use place_plan::drafts::draft_rows::{HandlerRow, Program, RoleRow, Step};

/// Whether a number is in a list.
pub fn is_member(number: u32, list: &[u32]) -> bool
    ensures { result ≡ member number list.now }
{
    list.iter().any(|item| *item == number)
}

/// Whether a step raises, whatever the register of its maker is.
pub fn is_raise(step: &Step) -> bool
    ensures { result ≡ is_raise step.now }
{
    match step {
        Step::Raise(_) => true,
        Step::Read(_)
        | Step::Put(_, _)
        | Step::Add(_, _)
        | Step::Work(_)
        | Step::Check { .. }
        | Step::Enter(_) => false,
    }
}

/// The steps up to the first raise, that one too: nobody comes past it.
pub fn reached(steps: &[Step]) -> &[Step]
    ensures { result.now ≡ reached steps.now }
{
    for (index, step) in steps.iter().enumerate() {
        if is_raise(step) {
            return &steps[..index + 1];
        }
    }
    steps
}

/// Whether a step enters the use of this number.
pub fn enters(nest: usize, step: &Step) -> bool
    ensures { result ≡ enters nest step.now }
{
    match step {
        Step::Enter(number) => *number as usize == nest,
        Step::Read(_)
        | Step::Put(_, _)
        | Step::Add(_, _)
        | Step::Work(_)
        | Step::Check { .. }
        | Step::Raise(_) => false,
    }
}

/// Whether some of these steps enters the use of this number.
fn some_enters(nest: usize, steps: &[Step]) -> bool
    ensures { result ≡ list_any (enters nest) steps.now }
{
    steps.iter().any(|step| enters(nest, step))
}

/// Whether a role comes to the step that enters the use of this number.
pub fn body_enters(nest: usize, role: &RoleRow) -> bool
    ensures { result ≡ body_enters nest role.now }
{
    some_enters(nest, reached(role.body.steps.as_slice()))
}

/// Whether some of these steps enters the first use, and one behind it the second.
fn enters_in_turn(first: usize, second: usize, steps: &[Step]) -> bool
    ensures { result ≡ enters_in_turn first second steps.now }
{
    for (index, step) in steps.iter().enumerate() {
        if enters(first, step) && some_enters(second, &steps[index + 1..]) {
            return true;
        }
    }
    false
}

/// Whether a role comes to the step that enters the first use before it comes to the one that enters the second.
pub fn body_leads_on(first: usize, second: usize, role: &RoleRow) -> bool
    ensures { result ≡ enters_in_turn first second (reached role.now.body.steps) }
{
    enters_in_turn(first, second, reached(role.body.steps.as_slice()))
}

/// Whether nobody comes to the end of a program, since it has a raise.
pub fn is_endless(program: &Program) -> bool
    ensures { result ≡ is_endless program.now }
{
    program.steps.iter().any(|step| is_raise(step))
}

/// Whether a handler can be broken off at a step.
fn can_break(step: &Step) -> bool
    ensures { result ≡ can_break step.now }
{
    match step {
        Step::Put(_, _) | Step::Add(_, _) | Step::Check { .. } => true,
        Step::Read(_) | Step::Work(_) | Step::Raise(_) | Step::Enter(_) => false,
    }
}

/// Whether somebody comes to a step at which a handler can be broken off.
fn steps_break(steps: &[Step]) -> bool
    ensures { result ≡ list_any can_break (reached steps.now) }
{
    reached(steps).iter().any(|step| can_break(step))
}

/// The program of the handler for an exception.
fn handler_in(handlers: &[HandlerRow], exception: Exception) -> Option<&Program>
    ensures { option_copied result ≡ handler_in exception handlers.now }
{
    for handler in handlers {
        if handler.exception == exception {
            return Some(&handler.program);
        }
    }
    None
}

/// What a role says once an exception is resolved, unless its handler is broken off.
pub fn answer_to(exception: Exception, role: &RoleRow) -> Verdict
    ensures { result ≡ answer_to exception role.now }
{
    match handler_in(role.handlers.as_slice(), exception) {
        Some(program) if !is_endless(program) => program.verdict,
        _ => Verdict::Undo,
    }
}

/// Whether the handler of a role for an exception can be broken off.
pub fn can_fail_at(exception: Exception, role: &RoleRow) -> bool
    ensures { result ≡ can_fail_at exception role.now }
{
    match handler_in(role.handlers.as_slice(), exception) {
        Some(program) => steps_break(program.steps.as_slice()),
        None => false,
    }
}
